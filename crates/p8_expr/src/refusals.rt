// The words that are refused by themselves.
ghost use Rattle.std.specs.Prelude.{◌≡◌};
ghost use Rattle.p8_grammar.specs.Views.{setting_of};
ghost use Rattle.p8_expr.specs.Refusals.{refused_in_methods, refused_in_dat, refusal_of};

use p8_grammar::Setting;
use p8_lexer::Word;
use p8_tree::Refusal;

// The refusal of a word that is refused in methods alone.
fn refused_in_methods(setting: Setting) -> Option<Refusal>
    ensures { result ≡ refused_in_methods (setting_of setting) }
{
    match setting {
        Setting::Method | Setting::Action => Some(Refusal::Unsupported),
        Setting::Declaration | Setting::Dat | Setting::DataItem => None,
    }
}

// The refusal of a word that is refused in DAT alone.
fn refused_in_dat(setting: Setting) -> Option<Refusal>
    ensures { result ≡ refused_in_dat (setting_of setting) }
{
    match setting {
        Setting::Method | Setting::Declaration | Setting::Action => None,
        Setting::Dat | Setting::DataItem => Some(Refusal::Unsupported),
    }
}

/// The refusal of a word that is refused by itself in this setting, wherever it stands after the
/// beginning of an expression: 9 for floating point, 10 for what the machine doesn't carry out.
#[tactic(auto, unfolding(crate::specs::Refusals::refusal_of))]
pub fn refusal_of(setting: Setting, word: Word) -> Option<Refusal>
    ensures { result ≡ refusal_of (setting_of setting) word }
{
    match word {
        Word::FloatNumber | Word::Float | Word::Round | Word::Trunc | Word::Pi => {
            Some(Refusal::Float)
        }
        Word::QuestionMark => Some(Refusal::Unsupported),
        Word::File => refused_in_dat(setting),
        Word::Clkset | Word::Reboot | Word::Chipver | Word::Spr | Word::Waitvid => {
            refused_in_methods(setting)
        }
        Word::Inb | Word::Outb | Word::Dirb | Word::Ctra | Word::Ctrb | Word::Frqa | Word::Frqb => {
            refused_in_methods(setting)
        }
        Word::Phsa | Word::Phsb | Word::Vcfg | Word::Vscl => refused_in_methods(setting),
        _ => None,
    }
}
