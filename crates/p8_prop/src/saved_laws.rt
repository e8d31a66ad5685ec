// The law of what is saved. The function holds no code of its own: its contract is the law.
ghost use Rattle.p8_prop.specs.Saved.{SavedIsGood, CheckFindsGood};

use p8_verify::good_files;

/// Law: what `save` writes, `check` finds good.
///
/// Where the text of a save stands on a shelf as a history file, beside the program and the pin script of the save, `check` asks for the line `good N`, N
/// the number of its turns (`given`). So after a call of `save` with status 0 a call of `check` on what it wrote answers status 0 and writes that line,
/// where no count rises, but for want of memory (`answered`).
pub fn saved_histories_are_good()
    ensures given { SavedIsGood }
    ensures answered { CheckFindsGood }
{
    good_files();
}
