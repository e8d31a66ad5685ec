// A small tree is built, and is what contracts say.
ghost use Rattle.std.specs.Prelude.{◌≡◌, [], ◌∷◌, IfOk, None};
ghost use Rattle.p8_tree.specs.Expressions.{node, Number, Var, Assign, Named, no_index};
ghost use Rattle.p8_tree.specs.Statements.{statement, Repeat, From, Do, no_statements, ◌▹◌};
ghost use Rattle.p8_tree.specs.Views.{tree_of, statement_of};

use p8_tree::{Expr, ExprKind, Loop, Place, Stmt, StmtKind, Target, Text};
use std::alloc::{AllocError, Global};

fn number(place: Place, value: u32) -> Expr
    ensures { tree_of result ≡ node place (Number value) }
{
    Expr {
        place,
        kind: ExprKind::Number(value),
    }
}

// `a := i`
fn assignment(alloc: Global, at: Place) -> Result<Stmt, AllocError>
    ensures { IfOk result (λ s. statement_of s ≡ statement at
        (Do (node at (Assign (Named (65 ∷ []) no_index at) None (node at (Var (Named (73 ∷ []) no_index at))))))) }
{
    let name = Text::copy_of(alloc, b"A")?;
    let counter = Text::copy_of(alloc, b"I")?;
    let value = Box::new(
        alloc,
        Expr {
            place: at,
            kind: ExprKind::Var(Target::Named(counter, None, at)),
        },
    )?;
    let kind = ExprKind::Assign(Target::Named(name, None, at), None, value);
    Ok(Stmt {
        place: at,
        kind: StmtKind::Do(Expr { place: at, kind }),
    })
}

// `repeat i from 0 to 2` and, as its body, `a := i`
fn counting_loop(alloc: Global, at: Place) -> Result<Stmt, AllocError>
    ensures { IfOk result (λ s. statement_of s ≡ statement at
        (Repeat (From (73 ∷ []) (node at (Number 0)) (node at (Number 2)) None at)
        (no_statements ▹ statement at (Do (node at (Assign (Named (65 ∷ []) no_index at) None (node at (Var (Named (73 ∷ []) no_index at))))))))) }
{
    let mut body = Vec::new(alloc);
    body.push(assignment(alloc, at)?)?;
    let name = Text::copy_of(alloc, b"I")?;
    let course = Loop::From(name, number(at, 0), number(at, 2), None, at);
    Ok(Stmt {
        place: at,
        kind: StmtKind::Repeat(course, body),
    })
}

// Whether such a loop stands at this place, with one statement in it.
fn has_one_statement(alloc: Global, at: Place) -> Result<bool, AllocError> {
    let tree = counting_loop(alloc, at)?;
    let count = match &tree.kind {
        StmtKind::Repeat(_, body) => body.len(),
        _ => 0,
    };
    let is_there = tree.place == at;
    drop(tree);
    Ok(is_there && count == 1)
}

#[test]
fn builds_a_loop(rt: HostRuntime) {
    let at = Place { line: 2, column: 3 };
    assert!(rt; matches!(has_one_statement(rt.alloc(), at), Ok(true)));
}

// Whether texts are the same by their bytes, whatever they were made of.
fn compares_bytes(alloc: Global) -> Result<bool, AllocError> {
    let name = Text::copy_of(alloc, b"PIN")?;
    let same = Text::from_vec(b"PIN".to_vec(alloc)?);
    let longer = Text::copy_of(alloc, b"PINS")?;
    let is_compared = name.is_same(&same) && !name.is_same(&longer);
    Ok(is_compared && name.len() == 3 && !name.is_empty())
}

#[test]
fn texts_compare_by_bytes(rt: HostRuntime) {
    assert!(rt; matches!(compares_bytes(rt.alloc()), Ok(true)));
}
