// A source that is cut at each of its lengths.
use crate::calls::{FILES, MAIN, NOTHING, left_by};
use p8_prop::Status;
use p8_words::NoMemory;
use std::alloc::Global;

/// The first length of each row, and the refusal from there on up to the next row; none where the source is good.
static CUTS: [(usize, &str); 22] = [
    (0, "1:1: 18 NoPub"),
    (16, "2:12: 6 Unexpected"),
    (18, "1:1: 18 NoPub"),
    (24, "2:20: 6 Unexpected"),
    (26, "1:1: 18 NoPub"),
    (44, "3:12: 6 Unexpected"),
    (46, "1:1: 18 NoPub"),
    (62, "5:3: 6 Unexpected"),
    (66, "5:7: 6 Unexpected"),
    (68, "5:9: 4 OpenString"),
    (74, "1:1: 18 NoPub"),
    (76, "6:1: 6 Unexpected"),
    (80, ""),
    (87, "7:3: 15 Unknown"),
    (89, "7:3: 16 WrongKind"),
    (90, "7:6: 6 Unexpected"),
    (91, "7:7: 15 Unknown"),
    (95, "7:7: 17 WrongArity"),
    (96, "7:12: 6 Unexpected"),
    (97, "7:13: 6 Unexpected"),
    (98, ""),
    (100, ""),
];

/// Whether `build` of the source, cut to this length, has this refusal.
fn agrees(alloc: Global, length: usize, refusal: &str) -> Result<bool, NoMemory> {
    let Some(main) = MAIN.get(..length) else {
        return Ok(false);
    };
    let left = left_by(alloc, main, &FILES, "build main.spin", NOTHING)?;
    if refusal.is_empty() {
        return Ok(left.status == Status::Ok && left.faults.bytes().is_empty());
    }
    let line = format!(in alloc; "prop: main.spin:{refusal}\n")?;
    Ok(left.is_refusal(Status::Refused, &line))
}

/// The refusal of the source that is cut to this length.
fn refusal_at(length: usize) -> &'static str {
    CUTS.iter()
        .filter(|(first, _)| *first <= length)
        .last()
        .map_or("", |(_, refusal)| *refusal)
}

#[test]
fn refuses_a_cut_source(rt: HostRuntime) {
    for length in 0..=MAIN.len() {
        assert!(rt;
            matches!(agrees(rt.alloc(), length, refusal_at(length)), Ok(true)),
            "{length} bytes"
        );
    }
}
