// The law of the halts of a history. The function does nothing: its contract is the law.
ghost use Rattle.std.specs.Prelude.{All, List};
ghost use Rattle.p8_access.specs.declared.order.Turn.{Turn};
ghost use Rattle.p8_access.specs.Worlds.{World};
ghost use Rattle.p8_access.specs.Histories.{Legal};
ghost use Rattle.p8_cog.specs.Lives.{asks};
ghost use Rattle.p8_verify.specs.Halts.{NamesRegister};

/// Law: in the history of any world, a halt by a register names one of a cog's 512.
///
/// So the number of the register is below 512 at each turn of each legal history, whichever code runs, Propeller Assembly or bytecodes of
/// Spin, and whatever the memory and the pins hold.
pub fn halts_name_registers()
    ensures { (w : World) → (past : List Turn) → Legal asks w past → All NamesRegister past }
{}
