// What a name may be.
use p8_tree::Text;

/// What a name of a file is.
#[derive(Clone, Copy, Debug, PartialEq, Eq)]
#[rattlefmt::skip]
pub enum NameKind {
    /// A constant with its value.
    Const(u32),
    /// A variable of `VAR`: its size, 1, 2 or 4 bytes, and its offset in the object's variables.
    Global { size: u8, offset: u32 },
    /// A parameter, the result or a local of a method: its offset in the frame, in bytes. The result stands at 0.
    Local { offset: u32 },
    /// A label of `DAT`: its size, 1, 2 or 4 bytes, as Spin reads and writes what stands there.
    Label { size: u8 },
    /// A method: its number, which stops at 255, and how many parameters it has.
    Method { number: u8, params: u8 },
    /// An object: its number among the items of `OBJ`, from 0; the place of its first instance in the object's table, and how many instances there
    /// are, which both stop at 255.
    Object { item: u32, position: u8, count: u8 },
}

/// A label of `DAT` with its place.
#[derive(Drop)]
pub struct Label {
    pub name: Text,
    /// Its offset in the object.
    pub offset: u32,
    /// Its cog address, in bytes.
    pub cog: u32,
    /// 1, 2 or 4 bytes.
    pub size: u8,
}
