// Assembled sources: the bytes and the labels of their DAT, or a refusal and its place.
use crate::sources::tree_of;
use p8_dat::{Dat, DatFault, assemble};
use p8_kinds::{Children, Kinds, Named};
use p8_tree::{List, SourceFile};
use p8_words::Fail;
use std::alloc::{AllocError, Global};

// The DAT of a file at the offset 8 of its object, where its names are labels alone.
fn assembled(alloc: Global, file: &SourceFile, children: &Children) -> Result<Dat, Fail<DatFault>> {
    let named = Named {
        file,
        children,
        kinds: Kinds::new(alloc),
    };
    let result = assemble(alloc, &named, 8);
    drop(named);
    result
}

// Each byte, and then how many labels there are.
fn write_dat(out: &mut String, dat: &Dat) -> Result<(), AllocError> {
    for byte in dat.bytes.as_slice() {
        write!(out, "{byte} ")?;
    }
    write!(out, "{} labels", dat.labels.len())
}

fn write_answer(out: &mut String, answer: Result<Dat, Fail<DatFault>>) -> Result<(), AllocError> {
    match answer {
        Ok(dat) => write_dat(out, &dat),
        Err(Fail::Refused(fault)) => write!(
            out,
            "{}:{}: {}",
            fault.place.line, fault.place.column, fault.number
        ),
        Err(Fail::NoMemory) => out.push_str("out of memory"),
    }
}

// What assembling the DAT of a file answers.
fn answer_of(alloc: Global, file: &SourceFile) -> Result<String, AllocError> {
    let mut out = String::new(alloc);
    let children = Children {
        items: List::new(alloc),
    };
    let answer = assembled(alloc, file, &children);
    drop(children);
    write_answer(&mut out, answer)?;
    Ok(out)
}

// Sources, and what assembling them answers.
static ANSWERS: [(&str, &str); 4] = [
    ("DAT\n  org 0\nx mov x,#4\n", "4 0 252 160 1 labels"),
    ("DAT\n  long 1, 2\n  fit 1\n", "3:3: 22"),
    ("DAT\n  org 0\n  mov 600, #4\n", "3:7: 21"),
    // There is no `x_ret` to come back by.
    ("DAT\n  org 0\nx call #x\n", "3:3: 24"),
];

// Whether assembling a text answers so.
fn answers(alloc: Global, text: &str, wanted: &str) -> Result<bool, AllocError> {
    let Some(file) = tree_of(alloc, text.as_bytes()) else {
        return Ok(false);
    };
    let answer = answer_of(alloc, &file);
    drop(file);
    Ok(answer?.as_str() == wanted)
}

#[test]
fn assembles_sources(rt: HostRuntime) {
    for (text, wanted) in &ANSWERS {
        assert!(rt;
            matches!(answers(rt.alloc(), text, wanted), Ok(true)),
            "{text}"
        );
    }
}
