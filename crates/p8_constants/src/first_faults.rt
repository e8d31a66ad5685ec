// Which of several faults is told.
ghost use Rattle.std.specs.Prelude.{◌≡◌};
ghost use Rattle.p8_fold.specs.Values.{where_so};

use p8_tree::Fault;

/// A fault, where it is so.
pub(crate) fn where_so(so: bool, fault: Fault) -> Option<Fault>
    ensures { result ≡ where_so so fault }
{
    if so { Some(fault) } else { None }
}
