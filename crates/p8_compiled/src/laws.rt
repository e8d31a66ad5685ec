// Laws of code that stands in a memory. The functions do nothing: their contracts are the laws.
ghost use Rattle.std.specs.Prelude.{◌≡◌, ℕ, suc, ◌<◌, ◌≤◌, Contains, List, map, Some};
ghost use Rattle.p8_tree.specs.declared.places.Place.{Place};
ghost use Rattle.p8_access.specs.declared.kinds.Answer.{Answer};
ghost use Rattle.p8_access.specs.declared.kinds.Origin.{Origin};
ghost use Rattle.p8_meaning.specs.Programs.{Program, Addresses, Target};
ghost use Rattle.p8_access.specs.declared.kinds.Access.{Access};
ghost use Rattle.p8_access.specs.declared.order.Turn.{Turn};
ghost use Rattle.p8_access.specs.Lives.{Entered};
ghost use Rattle.p8_access.specs.Replays.{answer_of};
ghost use Rattle.p8_access.specs.Timing.{Asks, Goes};
ghost use Rattle.p8_bcog.specs.declared.state.SpinState.{SpinState};
ghost use Rattle.p8_bcog.specs.Replay.{lived};
ghost use Rattle.p8_meaning.specs.Lives.{IsMethodOrigin, says, says_for};
ghost use Rattle.p8_meaning.specs.Bounds.{made_of, IsSettled, IsBeginning};
ghost use Rattle.p8_meaning.specs.Halts.{AreSourceAccesses};
ghost use Rattle.p8_compiled.specs.Keeps.{Placed, bytes};

/// Law: where a memory has the methods of a project, a life that begins with one of them does what the source says, whatever answers its
/// accesses get.
///
/// Bytecodes are counted, and the source is told up to a bound. What a bound tells to the end, some number of bytecodes does, no lesser than
/// the bound (`source`). What a number of bytecodes does up to a next access or the life's end, the source says with that number as its
/// bound (`bytecodes`). At each number the accesses that the bytecodes have made are the first of those that the source makes (`made`). And
/// there is no halt for a byte that is no bytecode, for a missing operand or for a full stack: none that a source doesn't make (`clean`).
pub fn code_keeps_meaning()
    ensures source { (memory : List ℕ) → (cog : ℕ) → (program : Program) → (addresses : Addresses) → Placed memory cog program addresses →
        (origin : Origin) → (target : Target) → (frame : ℕ) → IsMethodOrigin program addresses origin target frame → (answers : List Answer) →
        (f : ℕ) → (g : ℕ) × (f ≤ g) × (bytes memory origin cog answers g ≡ says program addresses target frame cog answers f) }
    ensures bytecodes { (memory : List ℕ) → (cog : ℕ) → (program : Program) → (addresses : Addresses) → Placed memory cog program addresses →
        (origin : Origin) → (target : Target) → (frame : ℕ) → IsMethodOrigin program addresses origin target frame → (answers : List Answer) →
        (g : ℕ) → IsSettled (bytes memory origin cog answers g) → says program addresses target frame cog answers g ≡ bytes memory origin cog answers g }
    ensures made { (memory : List ℕ) → (cog : ℕ) → (program : Program) → (addresses : Addresses) → Placed memory cog program addresses →
        (origin : Origin) → (target : Target) → (frame : ℕ) → IsMethodOrigin program addresses origin target frame → (answers : List Answer) →
        (g : ℕ) → IsBeginning (made_of (bytes memory origin cog answers g)) (made_of (says program addresses target frame cog answers g)) }
    ensures clean { (memory : List ℕ) → (cog : ℕ) → (program : Program) → (addresses : Addresses) → Placed memory cog program addresses →
        (origin : Origin) → (target : Target) → (frame : ℕ) → IsMethodOrigin program addresses origin target frame → (answers : List Answer) →
        (g : ℕ) → AreSourceAccesses (bytes memory origin cog answers g) }
{}

/// Law: where a memory has the methods of a project, a life that begins with one of them asks each access by a bytecode that is made from the
/// statement for which the source asks it.
///
/// After some turns so many bytecodes are done whole, and the next one asks: then the statement for which the source asks the access that comes
/// after the answers of those turns, told up to a greater bound, is the one that the bytecode at that address is made from.
pub fn accesses_are_asked_for_their_statements()
    ensures { (program : Program) → (addresses : Addresses) → (entered : Entered) → (placed : Placed entered.memory entered.cog program addresses) →
        (target : Target) → (frame : ℕ) → IsMethodOrigin program addresses entered.origin target frame → (turns : List Turn) → (done : ℕ) →
        (s : SpinState) → (begin : ℕ) → (left : List Turn) → (clock : ℕ) → (access : Access) → lived done entered turns ≡ Goes s begin left →
        lived (suc done) entered turns ≡ Asks clock access → (bound : ℕ) → done < bound →
        (place : Place) × Contains placed.table (s.at, place) × (says_for program addresses target frame entered.cog (map answer_of turns) bound ≡ Some place) }
{}
