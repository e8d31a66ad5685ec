// The law of what is run. The function holds no code of its own: its contract is the law.
ghost use Rattle.p8_prop.specs.RunLaws.{RunsPrintTheirHistory};

/// Law: what `run` and `raw` print, by itself.
///
/// Whatever the store, where words that begin with `run` or `raw` have status 0, what was written is the trace of the one history that they name; and
/// in it each life of Spin is what its source says. Where the store tells its files, that is so of no other text. It is said of
/// [`prop`](crate::prop) and of [`prop_alone`](crate::prop_alone), and no definition of another command stands in it.
pub fn runs_print_their_history()
    ensures prints { RunsPrintTheirHistory }
{}
