// What holds of the text of instructions.
ghost use Rattle.std.specs.Prelude.{◌≡◌, ℕ, ◌<◌, ◌^◌, codes};
ghost use Rattle.p8_tree.specs.declared.places.Place.{Place};
ghost use Rattle.p8_tree.specs.Sources.{Instruction};
ghost use Rattle.p8_tree.specs.declared.faults.Fault.{Fault};
ghost use Rattle.p8_fold.specs.Meanings.{Setting};
ghost use Rattle.p8_instr.specs.Instruction.{instr_of};
ghost use Rattle.p8_dat.specs.Encoding.{long_of_line, FaultInInstruction};
ghost use Rattle.p8_dat.specs.Printed.{printed_line};

/// Law: the line that a listing prints for a long is assembled to this long, whatever names mean, and nothing is wrong with it.
pub fn printed_line_is_assembled()
    ensures long { (s : Setting) → (p q : Place) → (x : ℕ) → x < 2 ^ 32 → long_of_line s (printed_line (instr_of x) p q) ≡ x }
    ensures good { (s : Setting) → (p q : Place) → (x : ℕ) → x < 2 ^ 32 → (f : Fault) → ¬ FaultInInstruction s (printed_line (instr_of x) p q) f }
{}

/// Law: NOP is the long 0, under every condition.
pub fn nop_is_zero()
    ensures { (s : Setting) → (x : Instruction) → x.word ≡ codes "NOP" → long_of_line s x ≡ 0 }
{}
