// Laws of the accesses of lives, by the addresses from which they are asked. The functions do nothing: their contracts are the laws.
ghost use Rattle.std.specs.Prelude.{◌≡◌, ℕ, ◌+◌, List};
ghost use Rattle.p8_tree.specs.declared.places.Place.{Place};
ghost use Rattle.p8_tree.specs.Statements.{Statement, Statements};
ghost use Rattle.p8_access.specs.declared.order.Turn.{Turn};
ghost use Rattle.p8_access.specs.Lives.{Entered};
ghost use Rattle.p8_bytecode.specs.declared.op.Op.{Op};
ghost use Rattle.p8_bcog.specs.Counters.{IsAskedFrom};
ghost use Rattle.p8_gen.specs.Methods.{method_code};
ghost use Rattle.p8_gen.specs.Names.{Names};
ghost use Rattle.p8_gen.specs.Pieces.{Written};
ghost use Rattle.p8_compiled.specs.Bodies.{Inner};
ghost use Rattle.p8_compiled.specs.Standing.{Compiled};
ghost use Rattle.p8_compiled.specs.Placing.{HasCode, AreOps};
ghost use Rattle.p8_legend.specs.Asking.{HasLine, IsAskedBy, IsFetched};
ghost use Rattle.p8_legend.specs.Standing.{StandsByLines};

/// Law: where a memory has the bytes of a method's code, there stands each of its bytecodes where its line says.
///
/// The bytecodes are such as there are, as [`templates_have_operations`](p8_compiled::templates_have_operations) says of them.
pub fn bytecodes_stand_at_their_lines()
    ensures { (n : Names) → (ss : Statements) → (memory : List ℕ) → (base : ℕ) → HasCode memory base (method_code n ss) →
        AreOps (method_code n ss).ops → (op : Op) → (line : ℕ × Place) → HasLine (method_code n ss).ops (method_code n ss).lines op line →
        IsFetched memory (base + line.0) op }
{}

/// Law: an access that a life asks from an address is asked by the bytecode that stands there (`bytecodes`).
///
/// So one that is asked from the address of a line of a method's code is asked by the bytecode of that line (`methods`), and where the line is one of a
/// statement's code, by a bytecode that is made from the statement of the line (`statements`). The life's memory has the bytes of that code.
pub fn accesses_are_asked_by_their_lines()
    ensures bytecodes { (entered : Entered) → (address : ℕ) → (op : Op) → IsFetched entered.memory address op → (turns : List Turn) →
        IsAskedFrom entered turns address → IsAskedBy entered turns address op }
    ensures methods { (n : Names) → (ss : Statements) → (base : ℕ) → (entered : Entered) → HasCode entered.memory base (method_code n ss) →
        AreOps (method_code n ss).ops → (op : Op) → (line : ℕ × Place) → HasLine (method_code n ss).ops (method_code n ss).lines op line →
        (turns : List Turn) → IsAskedFrom entered turns (base + line.0) → IsAskedBy entered turns (base + line.0) op }
    ensures statements { (t : Compiled) → (base : ℕ) → (x : Statement) → (inner : Inner) → (before : Written) → (after : Written) →
        (is : StandsByLines t base x inner before after) → (op : Op) → (line : ℕ × Place) → HasLine is.adds.ops is.adds.lines op line →
        (entered : Entered) → entered.memory ≡ t.memory → (turns : List Turn) → IsAskedFrom entered turns (base + line.0) →
        IsAskedBy entered turns (base + line.0) op }
{}
