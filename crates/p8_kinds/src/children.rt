// What a file sees of the files of its objects.
use p8_tree::{List, Text};

/// A `PUB` of an object's file.
#[derive(Drop)]
pub struct ChildMethod {
    pub name: Text,
    /// How many parameters it has.
    pub params: u8,
}

/// A constant of an object's file.
#[derive(Drop)]
pub struct ChildConst {
    pub name: Text,
    pub value: u32,
}

/// What a file sees of an object's file: its `PUB`s in order, and its constants.
#[derive(Drop)]
pub struct Child {
    pub methods: List<ChildMethod>,
    pub consts: List<ChildConst>,
}

/// What a file sees of its objects: a child for each item of `OBJ`, in order.
#[derive(Drop)]
pub struct Children {
    pub items: List<Child>,
}
