// Worked expressions, read with ample memory.
use p8_expr::{GREATEST_HEIGHT, parse_expr, parse_expr_in};
use p8_fold::{Consts, put_text};
use p8_grammar::Setting;
use p8_lexer::lex;
use p8_tree::{Expr, ExprKind, Fault};
use p8_words::Fail;
use std::alloc::{AllocError, Global};

// The operator at the root of a tree, where it stands between operands.
fn root(expr: &Expr) -> Option<u8> {
    match &expr.kind {
        ExprKind::Binary(code, _, _) => Some(*code),
        _ => None,
    }
}

// The operator at the root of the expression that a text begins with, and the number of its tokens.
fn read(alloc: Global, text: &[u8]) -> Option<(u8, usize)> {
    let Ok(tokens) = lex(alloc, text) else {
        return None;
    };
    if tokens.is_empty() {
        return None;
    }
    match parse_expr(alloc, text, &tokens, 0) {
        Ok((expr, end)) => {
            let code = root(&expr);
            drop(expr);
            Some((code?, end))
        }
        Err(_) => None,
    }
}

// The refusal of a text in DAT.
fn refused_in_dat(alloc: Global, text: &[u8]) -> Option<Fault> {
    let Ok(tokens) = lex(alloc, text) else {
        return None;
    };
    if tokens.is_empty() {
        return None;
    }
    match parse_expr_in(alloc, text, &tokens, 0, Setting::Dat, GREATEST_HEIGHT) {
        Ok((expr, _)) => {
            drop(expr);
            None
        }
        Err(Fail::Refused(fault)) => Some(fault),
        Err(Fail::NoMemory) => None,
    }
}

// Whether the refusal of a text in DAT is told so.
fn is_refused_in_dat(alloc: Global, text: &[u8], told: &str) -> Result<bool, AllocError> {
    match refused_in_dat(alloc, text) {
        Some(fault) => Ok(fault.to_string(alloc)?.as_str() == told),
        None => Ok(false),
    }
}

#[test]
fn reads_a_product_in_a_sum(rt: HostRuntime) {
    let is_sum = read(rt.alloc(), b"2 + 3 * 4)") == Some((0xEC, 5));
    assert!(rt; is_sum && read(rt.alloc(), b"a AND NOT b") == Some((0xF0, 4)));
}

#[test]
fn refuses_floating_point_behind_an_operator(rt: HostRuntime) {
    let behind_a_label = is_refused_in_dat(rt.alloc(), b":next + :pi + pi", "1:15: 9 Float");
    assert!(rt;
        matches!(behind_a_label, Ok(true))
            && matches!(
                is_refused_in_dat(rt.alloc(), b"x + pi", "1:5: 9 Float"),
                Ok(true)
            )
    );
}

// What a text begins with: of a list in STRING its text, of a LOOK function the number of its items as a byte, else nothing.
fn told(alloc: Global, source: &[u8]) -> Result<Vec<u8>, AllocError> {
    let mut text = Vec::new(alloc);
    let Ok(tokens) = lex(alloc, source) else {
        return Ok(text);
    };
    if tokens.is_empty() {
        return Ok(text);
    }
    let Ok((expr, _)) = parse_expr(alloc, source, &tokens, 0) else {
        return Ok(text);
    };
    let consts = Consts::new(alloc);
    let put = match &expr.kind {
        ExprKind::Strings(items) => put_text(items, &consts, &mut text),
        ExprKind::Look(_, _, items) => text.extend_from_slice(&[(items.len() % 256) as u8]),
        _ => Ok(()),
    };
    drop(consts);
    drop(expr);
    put?;
    Ok(text)
}

// A string alone in STRING is no list; one of one character may go on as an expression. Among items of LOOK a string is its characters.
static LISTS: [(&[u8], &[u8]); 8] = [
    (b"string(\"Hello\", 13, 10)", b"Hello\r\n"),
    (b"string(65)", b"A"),
    (b"string(\"a\" + 1, \"cd\", \"e\")", b"bcde"),
    (b"string(\"a\", 98)", b"ab"),
    (b"string(string(\"ab\"))", b"ab"),
    (b"string(\"ab\")", b""),
    (b"lookup(i: \"abc\", 1..2, \"d\")", b"\x05"),
    (b"lookdown(i: \"abc\" + 1)", b""),
];

// Whether that is what the tokens of an expression tell.
fn tells(alloc: Global, source: &[u8], expected: &[u8]) -> bool {
    match told(alloc, source) {
        Ok(text) => text.as_slice() == expected,
        Err(_) => false,
    }
}

#[test]
fn reads_lists(rt: HostRuntime) {
    for (source, expected) in &LISTS {
        assert!(rt; tells(rt.alloc(), source, expected));
    }
}
