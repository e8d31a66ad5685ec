// The states of the diagram.

/// A state of the diagram of lines: what has been read of a line, and so what may stand next.
///
/// Each is named by what stands there. [`LineState::arrows`] and [`LineState::behind`] are the diagram.
#[derive(Clone, Copy)]
pub enum LineState {
    // The line has ended.
    /// Nothing more belongs to the line.
    End,
    /// The end of the line.
    LineEnd,
    // CON: items `name = e`, `#e`, `name` and `name[e]`, with commas between them.
    /// What follows the word CON on its line.
    ConHead,
    /// An item.
    ConItem,
    /// What follows an item's name.
    ConName,
    /// What follows `=` or `#`.
    ConValue,
    /// What follows an item's `[`.
    ConStep,
    /// What follows an item.
    ConMore,
    // VAR: a size and names with counts in brackets, with commas between them.
    /// What follows the word VAR on its line.
    VarHead,
    /// A line of VAR.
    VarLine,
    /// A variable's name.
    VarName,
    /// What follows a variable's name.
    VarNamed,
    /// What follows a variable's `[`.
    VarCount,
    /// What follows a variable's count.
    VarMore,
    // OBJ: `name : "file"` or `name[e] : "file"`.
    /// What follows the word OBJ on its line.
    ObjHead,
    /// A line of OBJ.
    ObjLine,
    /// What follows an object's name.
    ObjNamed,
    /// What follows an object's `[`.
    ObjCount,
    /// What follows an object's count.
    ObjColon,
    /// An object's file.
    ObjFile,
    // PUB and PRI: a name, parameters in parentheses, `: name` for the result and `| name, name[e]` for locals.
    /// What follows PUB or PRI.
    MethodName,
    /// What follows a method's name.
    MethodNamed,
    /// A parameter.
    Parameter,
    /// What follows a parameter.
    MoreParameters,
    /// What follows the parameters.
    Parameters,
    /// The result's name.
    ResultName,
    /// What follows the result's name.
    ResultNamed,
    /// A local's name.
    Local,
    /// What follows a local's name.
    LocalNamed,
    /// What follows a local's `[`.
    LocalCount,
    /// What follows a local's count.
    MoreLocals,
    // DAT: an optional label, then data, ORG, RES, FIT or an instruction.
    /// What follows the word DAT on its line.
    DatHead,
    /// A line of DAT.
    DatLine,
    /// The name of a local label, which may be a reserved word.
    DatLabel,
    /// What follows a label.
    DatBody,
    /// What follows ORG, RES or FIT.
    DatValue,
    /// What follows the size word of a line of data: an item, with a size word of its own or without one.
    FirstData,
    /// A further item of data.
    Data,
    /// What follows an item's own size word.
    DataValue,
    /// What follows an item's `[`.
    DataCount,
    /// What follows an item's count, or a string of several characters, which has none.
    MoreData,
    /// What follows a condition.
    Conditioned,
    /// The destination of an instruction that has a source too.
    Destination,
    /// A source.
    Source,
    /// What follows a source's `#`.
    SourceValue,
    /// The destination of an instruction on main memory.
    MemoryDestination,
    /// The source of an instruction on main memory.
    MemorySource,
    /// What follows that source's `#`.
    MemorySourceValue,
    /// The destination of an instruction without a source.
    OnlyDestination,
    /// The `#` of CALL.
    CallHash,
    /// The label of CALL.
    CallLabel,
    /// The name of a local label of CALL.
    CallLocal,
    /// What follows the operands.
    Effects,
    /// What follows an effect.
    MoreEffects,
    /// An effect after a comma.
    Effect,
    /// What follows an effect of an instruction on main memory.
    MoreFlags,
    /// An effect after a comma, of an instruction on main memory.
    FlagEffect,
    // Statements. Actions are spelled by the grammar of expressions.
    /// A statement.
    Statement,
    /// A line that goes on with an IF chain.
    ChainLine,
    /// A line that ends a plain REPEAT.
    LoopEndLine,
    /// The last value of a line: that of IF, ELSEIF, CASE, WHILE, UNTIL and STEP.
    LastValue,
    /// What follows REPEAT: a counter is one name.
    Repeat,
    /// What follows FROM.
    From,
    /// What follows TO.
    To,
    /// What follows RETURN or ABORT.
    MaybeValue,
    /// An item of a CASE, or its OTHER: what follows the colon is a line of its own.
    CaseItem,
    /// A further test of an item.
    CaseTest,
    /// What follows a test's `..`.
    CaseRange,
    /// What follows OTHER.
    OtherColon,
}
