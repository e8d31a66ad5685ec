// Laws of what a command begins with.
ghost use Rattle.std.specs.Prelude.{ℕ, List, Option};
ghost use Rattle.p8_inputs.specs.Asks.{HasOneReading};
ghost use Rattle.p8_inputs.specs.Sources.{HasOneOutcome};

/// Law: where a shelf tells its files, a source comes to one image, one listing and one code, with short code or not, to one map, to one text of hints and to
/// one legend, or to one refusal, or one name of it is missing, and no two of these.
pub fn one_source()
    ensures { (files : List ℕ → Option (List ℕ)) → HasOneOutcome files }
{
    p8_objects::one_outcome();
    p8_build::one_build();
    p8_opt::one_short_build();
    p8_names::one_for_each_project();
    p8_legend::one_legend();
    p8_hint::one_hints();
}

/// Law: where a shelf tells its files, what a list of asks is given is one thing, or it stops for one reason, and never both.
pub fn one_reading()
    ensures { (files : List ℕ → Option (List ℕ)) → HasOneReading files }
{
    one_source();
}
