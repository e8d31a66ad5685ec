// Which of several faults is told.
use p8_tree::{Fault, Place};

fn fault(number: u8, line: u32, column: u32) -> Fault {
    Fault {
        number,
        place: Place { line, column },
    }
}

#[test]
fn tells_the_first(rt: HostRuntime) {
    let unknown = fault(15, 3, 9);
    let divisor = fault(13, 3, 11);
    let constant = fault(12, 3, 9);
    let is_earlier = unknown.earlier(divisor) == unknown && unknown.earlier(constant) == constant;
    let is_first = Fault::first_of(&[divisor, unknown, constant]) == Some(constant);
    assert!(rt; is_earlier && is_first && Fault::first_of(&[]).is_none());
}
