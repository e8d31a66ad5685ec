// What is hinted at, and what is left alone, rule by rule.
use crate::shelves::shelf_of;
use p8_hint::project_hints;
use p8_io::MemShelf;
use p8_objects::{discard, gather};
use p8_words::NoMemory;
use std::alloc::{AllocError, Global};

/// Sources, each with the place and the rule of each hint.
#[rattlefmt::skip]
static ROWS: [(&str, &str); 56] = [
    // ---- a whole test is an assignment
    ("PUB main | a\n  if a := 1\n    a := 2\n", "2:8: AssignsInTest\n"),
    ("PUB main | a, b\n  repeat while a <= b\n    b++\n", "2:18: AssignsInTest\n"),
    ("PUB main | a, b\n  if a == b\n    a++\n  elseif a >= b\n    b++\n", "4:12: AssignsInTest\n"),
    ("PUB main | a, b\n  repeat\n    a++\n  until a === b\n", "4:11: AssignsInTest\n"),
    ("PUB main | a, b\n  ifnot a := b\n    a++\n", "2:11: AssignsInTest\n"),
    // a value that is fetched, a part of a test, a call, another operator, a comparison
    ("PUB main | a, p\n  repeat while a := byte[p++]\n    a++\n", ""),
    ("PUB main | a, b\n  if (a := b) > 1\n    a++\n", ""),
    ("PUB main | a\n  if a := ready\n    a++\nPRI ready\n  return 1\n", ""),
    ("PUB main | a\n  repeat while a -= 1\n    waitcnt(cnt + 400)\n", ""),
    ("PUB main | a, b\n  if a =< b\n    a++\n  elseif a => b\n    b++\n", ""),
    // ---- an opener without a body
    ("PUB main\n  if ina[0]\n  outa[1] := 1\n", "2:3: NoBody\n"),
    ("PUB main | i\n  repeat i from 0 to 3\n  outa[i] := 1\n", "2:3: NoBody\n"),
    ("PUB main\n  repeat 10\n  outa[1] := 1\n", "2:3: NoBody\n"),
    ("PUB main\n  repeat\n  outa[1]~\n", "2:3: NoBody\n"),
    // a wait, a body of ELSE, and the end of a block
    ("PUB main\n  repeat while ina[0]\n  outa[1]~\n", ""),
    ("PUB main\n  repeat until ina[0]\n  outa[1]~\n", ""),
    ("PUB main\n  if ina[0]\n  else\n    outa[1]~\n", ""),
    ("PUB main\n  outa[1]~\n  repeat\n", ""),
    // ---- a jump or a number without #
    ("PUB main\n  cognew(@entry, 0)\nDAT\n        org\nentry   mov dira, #1\n:again  xor outa, #1\n        jmp :again\n", "7:13: NoNumberSign\n"),
    ("PUB main\n  cognew(@entry, 0)\nDAT\nentry   add t, #1\n        djnz t, entry\nt       long 0\n", "5:17: NoNumberSign\n"),
    ("PUB main\n  cognew(@entry, 0)\nDAT\nentry\n        nop\n        jmp entry\n", "6:13: NoNumberSign\n"),
    ("PUB main\n  cognew(@entry, 0)\nDAT\nentry   mov t, 100\n        jmp #entry\nt       long 0\n", "4:16: NoNumberSign\n"),
    // a jump by #, through a long, to a return's address; a register, a small number, a copy of an instruction
    ("PUB main\n  cognew(@entry, 0)\nDAT\nentry   mov t, #100\n        jmp #entry\nt       long 0\n", ""),
    ("PUB main\n  cognew(@entry, 0)\nDAT\nentry   mov t, #2\n        jmp t\nt       long 0\n", ""),
    ("PUB main\n  cognew(@entry, 0)\nDAT\nentry   nop\n        jmp part_ret\npart    nop\npart_ret ret\n", ""),
    ("PUB main\n  cognew(@entry, 0)\nDAT\nentry   mov t, $1F2\n        mov t, 15\nt       long 0\n", ""),
    ("PUB main\n  cognew(@entry, 0)\nDAT\nentry   mov t, entry\n        jmp t\nt       res 1\n", ""),
    // ---- a stack without its address
    ("VAR\n  long stack[20]\nPUB main\n  cognew(blink, stack)\nPRI blink\n  outa[0]~~\n", "4:17: NoAddress\n"),
    ("PUB main\n  cognew(blink, 0)\nPRI blink\n  outa[0]~~\n", "2:17: NoAddress\n"),
    ("PUB main\n  coginit(1, blink, 0)\nPRI blink\n  outa[0]~~\n", "2:21: NoAddress\n"),
    ("VAR\n  long stack[20]\nPUB main | c\n  c := cognew(blink(1), stack)\nPRI blink(n)\n  outa[n]~~\n", "4:25: NoAddress\n"),
    // PASM, an address, a variable that has one
    ("PUB main\n  cognew(@entry, 0)\nDAT\nentry   nop\n", ""),
    ("VAR\n  long x[2]\nPUB main\n  cognew(@entry, x)\nDAT\nentry   nop\n", ""),
    ("VAR\n  long stack[20]\nPUB main\n  cognew(blink, @stack)\nPRI blink\n  outa[0]~~\n", ""),
    ("PUB main\n  go(4000)\nPRI go(p)\n  cognew(blink, p)\nPRI blink\n  outa[0]~~\n", ""),
    // ---- a stack that is too short: of one long for a result, a parameter, a local and operands
    ("VAR\n  long stack[1]\nPUB main\n  cognew(blink(3), @stack)\nPRI blink(n) | i\n  repeat i from 0 to n\n    outa[i]~~\n", "4:20: ShortStack\n"),
    ("VAR\n  byte stack[8]\nPUB main\n  cognew(blink(3), @stack)\nPRI blink(n) | i\n  repeat i from 0 to n\n    outa[i]~~\n", "4:20: ShortStack\n"),
    ("VAR\n  long stack[2]\nPUB main\n  coginit(1, blink, @stack)\nPRI blink | a, b\n  a := b\n", "4:21: ShortStack\n"),
    ("VAR\n  long stack[64]\nPUB main\n  cognew(blink(3), @stack)\nPRI blink(n) | i\n  repeat i from 0 to n\n    outa[i]~~\n", ""),
    ("VAR\n  long stack[1]\nPUB main\n  longfill(@stack, 0, 1)\n  cognew(blink, @stack)\nPRI blink | a, b\n  a := b\n", ""),
    ("VAR\n  long x[1]\nPUB main\n  cognew(@entry, @x)\nDAT\nentry   nop\n", ""),
    // ---- a port that there isn't
    ("PUB main\n  waitpeq(1, 1, 1)\n", "2:17: NotPortA\n"),
    ("PUB main\n  waitpne(1, 1, 2)\n", "2:17: NotPortA\n"),
    ("PUB main\n  waitpeq(0, 1, $FF)\n", "2:17: NotPortA\n"),
    ("PUB main | p\n  waitpeq(1, 1, 0)\n  waitpne(1, 1, p)\n  waitcnt(cnt + 400)\n", ""),
    // ---- what nothing uses
    ("PUB main\n  outa[0]~\nPRI extra\n  outa[1]~\n", "3:5: Unused\n"),
    ("PUB main | a, b\n  a := 1\n", "1:15: Unused\n"),
    ("VAR\n  long a, b\nPUB main\n  a := 1\n", "2:11: Unused\n"),
    // a method that is started, a parameter, and what may stand behind another variable
    ("VAR\n  long stack[20]\nPUB main(n)\n  cognew(blink, @stack)\nPRI blink\n  outa[0]~~\n", ""),
    ("VAR\n  long a, b\nPUB main\n  longfill(@a, 0, 2)\n", ""),
    ("PUB main(a, b) | c\n  longfill(@a, 0, 3)\n", ""),
    // ---- what is never done
    ("PUB main\n  repeat\n    outa[0]~\n  outa[1]~\n", "4:3: NeverEnds\n"),
    ("PUB main\n  repeat\n    if ina[0]\n      return\n  outa[1]~\n", "5:3: NeverEnds\n"),
    ("PUB main\n  repeat\n    repeat\n      quit\n  outa[1]~\n", "5:3: NeverEnds\n"),
    ("PUB main\n  repeat\n    if ina[0]\n      quit\n  outa[1]~\n", ""),
    ("PUB main\n  repeat\n    outa[0]~\n  until ina[0]\n  outa[1]~\n", ""),
];

/// The whole text of two hints.
const SOURCE: &str =
    "VAR\n  long stack[1]\nPUB main | spare\n  cognew(blink(3), @stack)\nPRI blink(n) | i\n  i := n + 1\n";

const TEXT: &str = "top.spin:3:12: Unused
PUB main | spare
           ^
Nothing uses this local: use it, or take it out.
top.spin:4:20: ShortStack
  cognew(blink(3), @stack)
                   ^
The array has 4 bytes, and the method takes 20 for its result, parameters, locals and operands alone: lengthen the array.
";

/// The hints of the project of `top.spin`.
fn hints_on(alloc: Global, shelf: &mut MemShelf) -> Option<Vec<u8>> {
    let Ok(gathered) = gather(alloc, shelf, "top.spin") else {
        return None;
    };
    let hints = project_hints(alloc, &gathered.project, gathered.sources.as_slice());
    discard(gathered);
    match hints {
        Ok(text) => Some(text),
        Err(_) => None,
    }
}

/// The hints of one source.
fn hints_of(alloc: Global, source: &str) -> Result<Option<Vec<u8>>, NoMemory> {
    let mut shelf = shelf_of(alloc, &[("top.spin", source.as_bytes())], 0)?;
    let hints = hints_on(alloc, &mut shelf);
    drop(shelf);
    Ok(hints)
}

/// The places and rules of a text of hints.
fn heads(alloc: Global, text: &[u8]) -> Result<Vec<u8>, AllocError> {
    let mut out = Vec::new(alloc);
    for line in text.split(|c| *c == b'\n') {
        if let Some(head) = line.strip_prefix(b"top.spin:") {
            out.extend_from_slice(head)?;
            out.push(b'\n')?;
        }
    }
    Ok(out)
}

/// Whether a source has these hints.
fn is_told(alloc: Global, source: &str, expected: &str) -> Result<bool, NoMemory> {
    match hints_of(alloc, source)? {
        None => Ok(false),
        Some(text) => Ok(heads(alloc, text.as_slice())?.as_slice() == expected.as_bytes()),
    }
}

/// The number of the first row that isn't so; none is past the last one.
fn first_other(alloc: Global) -> Result<usize, NoMemory> {
    for (index, (source, expected)) in ROWS.iter().enumerate() {
        if !is_told(alloc, source, expected)? {
            return Ok(index);
        }
    }
    Ok(ROWS.len())
}

#[test]
fn tells_slips_and_leaves_others_alone(rt: HostRuntime) {
    assert!(rt; matches!(first_other(rt.alloc()), Ok(56)));
}

/// Whether a source has this text of hints.
fn is_text(alloc: Global, source: &str, expected: &str) -> Result<bool, NoMemory> {
    match hints_of(alloc, source)? {
        None => Ok(false),
        Some(text) => Ok(text.as_slice() == expected.as_bytes()),
    }
}

#[test]
fn shows_the_line_and_says_what_mends_it(rt: HostRuntime) {
    assert!(rt; matches!(is_text(rt.alloc(), SOURCE, TEXT), Ok(true)));
    assert!(rt;
        matches!(
            is_text(rt.alloc(), "PUB main\n  outa[0]~\n", "nothing to hint at\n"),
            Ok(true)
        )
    );
}
