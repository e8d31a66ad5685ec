// Pages.
use p8_page::{Span, page, push_map, push_source};
use p8_pins::Change;
use p8_words::NoMemory;
use std::alloc::Global;
use std::test::Fail;

/// The pins of a run that ends at clock 30.
const CHANGES: [Change; 5] = [
    Change { clock: 0, pins: 0 },
    Change { clock: 5, pins: 1 },
    Change { clock: 7, pins: 1 },
    Change {
        clock: 9,
        pins: 0x8000_0003,
    },
    Change { clock: 30, pins: 0 },
];

/// The blocks of its page, as FORMATS tells them, and the begin of what stands behind them. The hub serves cog 2 at clock 20, since 20 is 4 more than a
/// multiple of 16. At clock 0 no pin is high, at clock 7 none changes, and at clock 30 the run has ended.
const BLOCKS: &[u8] = b"<script type=\"text/plain\" class=\"file\">50%25 %3Cb>.spin</script>\n\
    <script type=\"text/plain\" class=\"range\">20\n40\n</script>\n\
    <script type=\"text/plain\" class=\"windows\">32\n34\n20\n22\n24\n26\n28\n30\n</script>\n\
    <script type=\"text/plain\" class=\"view\">20 cog 2 halts\n</script>\n\
    <script type=\"text/plain\" class=\"pins\">5 00000001\n9 80000003\n</script>\n\
    <script type=\"text/plain\" class=\"map\">0010 object a\n</script>\n\
    <script type=\"text/plain\" class=\"name\">a</script>\n\
    <script type=\"text/plain\" class=\"source\">%00%09%0D\n ~%7F%80%FF%3C/script></script>\n\
    <script>\n";

/// Whether a part stands in a text.
fn has(text: &[u8], part: &[u8]) -> bool {
    for at in 0..text.len() {
        if text[at..].starts_with(part) {
            return true;
        }
    }
    false
}

/// Whether a page with these blocks is a document of HTML that has them.
fn is_page(alloc: Global) -> Result<bool, NoMemory> {
    let mut project = Vec::new(alloc);
    push_map(&mut project, b"0010 object a\n")?;
    push_source(&mut project, b"a", b"\0\t\r\n ~\x7F\x80\xFF</script>")?;
    let span = Span {
        from: 20,
        to: 40,
        end: 30,
    };
    let text = page(
        alloc,
        b"50% <b>.spin",
        span,
        b"20 cog 2 halts\n",
        &CHANGES,
        &project,
    )?;
    let text = text.as_slice();
    Ok(
        text.starts_with(b"<!DOCTYPE html>\n")
            && has(text, BLOCKS)
            && text.ends_with(b"</script>\n</body>\n</html>\n"),
    )
}

#[test]
fn blocks_of_a_page(rt: HostRuntime) -> Result<(), Fail> {
    assert!(rt; is_page(rt.alloc())?);
    Ok(())
}
