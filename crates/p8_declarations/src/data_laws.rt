// What ties the words of DAT to the instruction set.
ghost use Rattle.std.specs.Prelude.{◌≡◌, ℕ, List, IsTrue, Some};
ghost use Rattle.p8_tree.specs.declared.places.Place.{Place};
ghost use Rattle.p8_tree.specs.Names.{is_among, mnemonics};
ghost use Rattle.p8_lexer.specs.declared.word.Word.{Word};
ghost use Rattle.p8_lexer.specs.Words.{spelling};
ghost use Rattle.p8_instr.specs.declared.instruction.Instr.{Instr};
ghost use Rattle.p8_instr.specs.Mnemonics as instructions;
ghost use Rattle.p8_instr.specs.Mnemonics.{entry_of};
ghost use Rattle.p8_instr.specs.Conditions.{conditions};
ghost use Rattle.p8_declarations.specs.DataParts.{part_of_word, field_of};

/// The words of conditions are those of the instruction set, each with its field; no other word has
/// one. The function does nothing, and its contract is the law.
#[tactic(auto, using(crate::proofs::Fields::fields_agree))]
pub fn conditions_agree()
    ensures { (w : Word) (p : Place) → field_of (part_of_word w p) ≡ entry_of conditions (spelling w) }
{}

/// Each word of an instruction that a proper line may have stands for one in the instruction set. The
/// function does nothing, and its contract is the law.
pub fn instructions_agree()
    ensures { (text : List ℕ) → IsTrue (is_among mnemonics text) → (i : Instr) × (entry_of instructions.mnemonics text ≡ Some i) }
{}
