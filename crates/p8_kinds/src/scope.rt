// What is known of names while the statements of a method are looked at.
ghost use Rattle.std.specs.Prelude.{◌≡◌};
ghost use Rattle.p8_kinds.specs.Environments.{environment_of, kind_in};

use crate::kinds::Kinds;
use crate::name_kinds::NameKind;
use p8_fold::Consts;
use p8_tree::Text;

/// What is known of names where a statement or an expression stands.
#[derive(Drop)]
pub struct Scope {
    /// The kinds of the file's names.
    pub kinds: Kinds,
    /// Whose own names come before those of the whole file: a method's number, or one at which other names were entered,
    /// as local labels that stand between the same two labels of `DAT`.
    pub number: u32,
    /// The `PUB`s of each object's file, by the object's number among the items of `OBJ`.
    pub publics: Kinds,
    /// What names mean where a constant is needed. A method's own names are no constants, so they are to be `Other` here
    /// while the method is looked at.
    pub consts: Consts,
}

impl Scope {
    /// What a name is here; `RESULT` is the first long of the frame.
    pub fn kind(&self, name: &Text) -> Option<NameKind>
        ensures { result ≡ kind_in (environment_of self.now) name.now }
    {
        if name.as_slice() == b"RESULT".as_slice() {
            Some(NameKind::Local { offset: 0 })
        } else {
            self.kinds.find(self.number, name)
        }
    }
}
