// What the objects of a project consist of, before they have a place in the hub.

use p8_tree::{List, Text};

/// Variables of one declaration: so many elements of one size.
#[derive(Clone, Copy, Debug, PartialEq, Eq)]
pub struct Variable {
    /// The bytes of an element: 1, 2 or 4.
    pub size: u8,
    /// How many elements there are.
    pub count: u32,
}

/// A place in a method's code that names one of the object's texts.
#[derive(Clone, Copy, Debug, PartialEq, Eq)]
pub struct TextUse {
    /// Where in the code the two bytes of the text's offset stand.
    pub at: u32,
    /// The number of the text among the object's texts, counted from 0.
    pub text: u32,
}

/// A method: its frame and its code.
#[derive(Drop)]
pub struct MethodPart {
    /// The bytes of its parameters.
    pub parameters: u16,
    /// The bytes of its locals, without its result and its parameters.
    pub locals: u16,
    /// Its bytecodes, in which the two bytes at each use of a text count for nothing.
    pub code: Text,
    /// Where its code names texts.
    pub uses: List<TextUse>,
}

/// An object, as its file makes it.
#[derive(Drop)]
pub struct ObjectPart {
    /// Its own variables, in the order of the source.
    pub variables: List<Variable>,
    /// The bytes of its DAT blocks.
    pub dat: Text,
    /// Its methods, in the order of their numbers.
    pub methods: List<MethodPart>,
    /// The texts of its methods' strings, in the order of the methods and of their places in the source, without the zeros that
    /// end them.
    pub texts: List<Text>,
    /// The objects inside it, in the order of the source, each by the number of its file, counted from 0.
    pub instances: List<u8>,
}
