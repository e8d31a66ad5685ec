// The bytecodes of Spin by the names of the public bytecode listing.

/// Jumps.
pub const BRANCH: u8 = 0x04;
/// Calls a method of the same object.
pub const CALL: u8 = 0x05;
/// Calls a method of an object in the table.
pub const OBJCALL: u8 = 0x06;
/// Calls a method of one of several objects in the table, by an index.
pub const OBJCALL_INDEXED: u8 = 0x07;
/// Begins `REPEAT` with a count: drops a count of 0 and jumps.
pub const LOOP_START: u8 = 0x08;
/// Ends a pass of `REPEAT` with a count: jumps while passes are left, and else drops the count.
pub const LOOP_CONTINUE: u8 = 0x09;
/// Jumps where a value is 0.
pub const JUMP_IF_FALSE: u8 = 0x0A;
/// Jumps where a value isn't 0.
pub const JUMP_IF_TRUE: u8 = 0x0B;
/// Ends the tests of `CASE`: drops the value that they look at.
pub const JUMP_FROM_STACK: u8 = 0x0C;
/// Jumps where the value of `CASE` is equal to another.
pub const COMPARE_CASE: u8 = 0x0D;
/// Jumps where the value of `CASE` lies in a range.
pub const COMPARE_CASE_RANGE: u8 = 0x0E;
/// Ends a LOOK function that has found nothing: its value is 0.
pub const LOOK_ABORT: u8 = 0x0F;
/// Jumps with an item of `LOOKUP` where its number is the one that is looked for.
pub const LOOKUP_COMPARE: u8 = 0x10;
/// Jumps with the number of an item of `LOOKDOWN` where it is the value that is looked for.
pub const LOOKDOWN_COMPARE: u8 = 0x11;
/// As `LOOKUP_COMPARE`, for a range.
pub const LOOKUPRANGE_COMPARE: u8 = 0x12;
/// As `LOOKDOWN_COMPARE`, for a range.
pub const LOOKDOWNRANGE_COMPARE: u8 = 0x13;
/// Drops a value.
pub const QUIT: u8 = 0x14;
/// Starts a method in a cog.
pub const MARK_INTERPRETED: u8 = 0x15;
/// `STRSIZE`.
pub const STRSIZE: u8 = 0x16;
/// `STRCOMP`.
pub const STRCOMP: u8 = 0x17;
/// `BYTEFILL`.
pub const BYTEFILL: u8 = 0x18;
/// `WORDFILL`.
pub const WORDFILL: u8 = 0x19;
/// `LONGFILL`.
pub const LONGFILL: u8 = 0x1A;
/// `WAITPEQ`.
pub const WAITPEQ: u8 = 0x1B;
/// `BYTEMOVE`.
pub const BYTEMOVE: u8 = 0x1C;
/// `WORDMOVE`.
pub const WORDMOVE: u8 = 0x1D;
/// `LONGMOVE`.
pub const LONGMOVE: u8 = 0x1E;
/// `WAITPNE`.
pub const WAITPNE: u8 = 0x1F;
/// `COGSTOP`.
pub const COGSTOP: u8 = 0x21;
/// `LOCKRET`.
pub const LOCKRET: u8 = 0x22;
/// `WAITCNT`.
pub const WAITCNT: u8 = 0x23;
/// Starts PASM in a cog; the value is the cog's number.
pub const COGINIT_RETURNS: u8 = 0x28;
/// `LOCKNEW` with its value.
pub const LOCKNEW_RETURNS: u8 = 0x29;
/// `LOCKSET` with its value.
pub const LOCKSET_RETURNS: u8 = 0x2A;
/// `LOCKCLR` with its value.
pub const LOCKCLR_RETURNS: u8 = 0x2B;
/// Starts PASM in a cog, without a value; in a tree the number of `COGNEW`.
pub const COGINIT: u8 = 0x2C;
/// `LOCKNEW` without its value.
pub const LOCKNEW: u8 = 0x2D;
/// `LOCKSET` without its value.
pub const LOCKSET: u8 = 0x2E;
/// `ABORT` with the result.
pub const ABORT: u8 = 0x30;
/// `ABORT` with a value.
pub const ABORT_WITH_RETURN: u8 = 0x31;
/// `RETURN` with the result.
pub const RETURN: u8 = 0x32;
/// `RETURN` with a value.
pub const POP_RETURN: u8 = 0x33;
/// Pushes $FFFFFFFF.
pub const PUSH_NEG1: u8 = 0x34;
/// Pushes 0.
pub const PUSH_0: u8 = 0x35;
/// Pushes 1.
pub const PUSH_1: u8 = 0x36;
/// Pushes a constant that a byte packs.
pub const PUSH_PACKED_LIT: u8 = 0x37;
/// Pushes a constant of one byte.
pub const PUSH_BYTE_LIT: u8 = 0x38;
/// Pushes a constant of two bytes.
pub const PUSH_WORD_LIT: u8 = 0x39;
/// Pushes a constant of three bytes.
pub const PUSH_MID_LIT: u8 = 0x3A;
/// Pushes a constant of four bytes.
pub const PUSH_LONG_LIT: u8 = 0x3B;
/// One pin of a register.
pub const INDEXED_MEM_OP: u8 = 0x3D;
/// Some pins of a register.
pub const INDEXED_RANGE_MEM_OP: u8 = 0x3E;
/// A whole register.
pub const MEMORY_OP: u8 = 0x3F;
/// Pushes the byte at an address.
pub const PUSH_MAINMEM_BYTE: u8 = 0x80;
/// Pushes the address of a byte of the object.
pub const REFERENCE_OBJECTMEM_BYTE: u8 = 0x87;
/// Pushes the address of a byte of the object, by an index.
pub const REFERENCE_INDEXED_OBJECTMEM_BYTE: u8 = 0x97;
/// Pushes the long at an address.
pub const PUSH_MAINMEM_LONG: u8 = 0xC0;
