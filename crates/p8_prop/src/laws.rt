// Laws of what is run. The functions hold no code of their own: their contracts are the laws.
ghost use Rattle.std.specs.Prelude.{◌≡◌, ◌++◌, ℕ, Bool, List, Some, codes, length};
ghost use Rattle.std.specs.Fmt.{decimal};
ghost use Rattle.p8_access.specs.declared.order.Turn.{Turn};
ghost use Rattle.p8_access.specs.Worlds.{World};
ghost use Rattle.p8_tree.specs.declared.refusal.Refusal.{Refusal};
ghost use Rattle.p8_tree.specs.Refusals.{numbered, refusal_number, refusals};
ghost use Rattle.p8_commands.specs.Commands.{explain_of, ExplainNumber};
ghost use Rattle.p8_commands.specs.Table.{explained};
ghost use Rattle.p8_access.specs.Histories.{Ended};
ghost use Rattle.p8_cog.specs.Lives.{asks};
ghost use Rattle.p8_io.specs.Shelves.{Files};
ghost use Rattle.p8_inputs.specs.declared.program.Format.{Format};
ghost use Rattle.p8_inputs.specs.Programs.{memory_by, first_by};
ghost use Rattle.p8_inputs.specs.Runs.{HasProperTrees};
ghost use Rattle.p8_inputs.specs.declared.program.Format.TheVariants.{Source};
ghost use Rattle.p8_prop.specs.Headline.{IsToldBySource, IsBuild};

use p8_compiled::lives_are_told;
use p8_opt::{
    images_have_their_methods, images_keep_meaning, short_images_keep_meaning, short_lives_are_told,
};

/// Law: in the ended history of a world that begins with the image of a source, each life of Spin is told by the source.
pub fn runs_are_told()
    ensures { (files : Files) → (format : Format) → (file bytes : List ℕ) → HasProperTrees files format file bytes
        → (w : World) → w.memory ≡ memory_by format bytes → w.first ≡ first_by format bytes
        → (past : List Turn) → Ended asks w past → IsToldBySource files format file bytes w past }
{
    images_have_their_methods();
    lives_are_told();
    short_lives_are_told();
}

/// Law: the image of a source, with short code or not, keeps the meaning of the source.
pub fn builds_keep_meaning()
    ensures { (files : Files) → (short : Bool) → (file bytes : List ℕ) → HasProperTrees files (Source short) file bytes → IsBuild files short file bytes }
{
    images_keep_meaning();
    short_images_keep_meaning();
}

/// Law: `explain` knows each refusal. The digits of its number are the word for it, of which its own sentences are told, and the page of `explain`
/// tells how many there are.
pub fn each_refusal_is_explained()
    ensures known { (r : Refusal) → explain_of (decimal (refusal_number r)) ≡ Some (ExplainNumber (refusal_number r)) }
    ensures told { (r : Refusal) → numbered (refusal_number r) ≡ Some r }
    ensures page { explained.about ≡ codes "the top file of a project, a source in Spin; or the number of a refusal, 1 or 2 digits, from 1 to " ++
        decimal (length refusals) }
{}
