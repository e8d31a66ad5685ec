// Laws of short codes. The functions hold no code of their own: their contracts are the laws.
ghost use Rattle.std.specs.Prelude.{◌≡◌, ◌≤◌, map, length};
ghost use Rattle.p8_tree.specs.Sources.{MethodTree};
ghost use Rattle.p8_tree.specs.Statements.{Statements};
ghost use Rattle.p8_tree.specs.declared.faults.Fault.{Fault};
ghost use Rattle.p8_gen.specs.Names.{Names, widened, all_wide, wide_in};
ghost use Rattle.p8_gen.specs.Uses.{line_of, use_of};
ghost use Rattle.p8_stmt.specs.Methods.{IsCodeOf, IsMethodFault, rebodied};
ghost use Rattle.p8_stmt.specs.declared.code.MethodCode.{MethodCode};
ghost use Rattle.p8_stmt.specs.Jumps.{IsShortCode};

/// Law: a method with a body has one short code: its bytes, its locals, the depth of its stack, its uses of texts and its lines.
pub fn one_short_code()
    ensures bytes { (names : Names) → (m : MethodTree) → (ss : Statements) → (a b : MethodCode) → IsShortCode names m ss a →
        IsShortCode names m ss b → a.bytes ≡ b.bytes }
    ensures locals { (names : Names) → (m : MethodTree) → (ss : Statements) → (a b : MethodCode) → IsShortCode names m ss a →
        IsShortCode names m ss b → a.locals ≡ b.locals }
    ensures depth { (names : Names) → (m : MethodTree) → (ss : Statements) → (a b : MethodCode) → IsShortCode names m ss a →
        IsShortCode names m ss b → a.depth ≡ b.depth }
    ensures strings { (names : Names) → (m : MethodTree) → (ss : Statements) → (a b : MethodCode) → IsShortCode names m ss a →
        IsShortCode names m ss b → map use_of a.strings ≡ map use_of b.strings }
    ensures lines { (names : Names) → (m : MethodTree) → (ss : Statements) → (a b : MethodCode) → IsShortCode names m ss a →
        IsShortCode names m ss b → map line_of a.lines ≡ map line_of b.lines }
{}

/// Law: a method that compiles with some choice of wide jumps has no fault by the choice of its short code either.
pub fn short_code_has_no_fault()
    ensures { (names : Names) → (m : MethodTree) → (ss : Statements) → (code : MethodCode) →
        ((f : Fault) → ¬ IsMethodFault names (rebodied m ss) f) → (is : IsShortCode names m ss code) → (f : Fault) →
        ¬ IsMethodFault (widened names (wide_in is.widths)) (rebodied m ss) f }
{}

/// Law: the short code of a method has no more bytes than its code with every jump wide.
pub fn short_code_is_no_longer()
    ensures { (names : Names) → (m : MethodTree) → (ss : Statements) → (code plain : MethodCode) → IsShortCode names m ss code →
        IsCodeOf (widened names all_wide) (rebodied m ss) plain → length code.bytes ≤ length plain.bytes }
{}
