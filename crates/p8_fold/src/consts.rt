// The table of what names mean.
ghost use Rattle.std.specs.Prelude.{◌≡◌, ℕ, List, Option, Some, None, OnOk, OnErr, option_map};
ghost use Rattle.std.specs.Str.{bytes_eq};
ghost use Rattle.p8_tree.specs.Names.{result_word};
ghost use Rattle.p8_fold.specs.Meanings.{entry, meaning_of, value_of_meaning, address_of_meaning, given, outside_operands, in_operand};
ghost use Rattle.p8_fold.specs.ConstantEntries.{setting_of, at_bytes, at_both};
ghost use Rattle.p8_fold.specs.Values.{value_of_register};

use crate::meanings::{Here, Meaning};
use p8_tree::Text;
use p8_words::NoMemory;
use std::alloc::{AllocError, Global};
use std::collections::BTreeMap;

type Names = BTreeMap<Vec<u8>, Meaning>;

type Objects = BTreeMap<Vec<u8>, Names>;

/// What the names of an expression mean: those that stand alone, those after an object's name and `#`, `$`, and the names
/// of registers.
#[derive(Drop)]
pub struct Consts {
    alloc: Global,
    names: Names,
    objects: Objects,
    here: Here,
}

impl Consts {
    /// A table without entries, in which neither `$` nor a register has a value. It takes no memory.
    pub fn new(alloc: Global) -> Consts
        ensures empty { (object : Option (List ℕ)) → (name : List ℕ) → entry (setting_of result) object name ≡ None }
        ensures here { (setting_of result).here ≡ outside_operands None }
    {
        Consts {
            alloc,
            names: BTreeMap::new(alloc),
            objects: BTreeMap::new(alloc),
            here: Here {
                address: None,
                registers: false,
            },
        }
    }

    /// Says what a name means, of an object's constants or by itself. It replaces what stood there.
    ///
    /// Where there is no memory, all names mean what they meant.
    pub fn set(
        &mut self,
        object: Option<&Text>,
        name: &Text,
        meaning: Meaning,
    ) -> Result<(), NoMemory>
        ensures entered { OnOk result (entry (setting_of self.new) (option_map (λ o. o.now) object.entry) name.now ≡ Some meaning) }
        ensures others { (o : Option (List ℕ)) → (n : List ℕ) → ¬ ((o ≡ option_map (λ x. x.now) object.entry) × (n ≡ name.now)) →
            entry (setting_of self.new) o n ≡ entry (setting_of self.old) o n }
        ensures unchanged { OnErr result ((o : Option (List ℕ)) → (n : List ℕ) → entry (setting_of self.new) o n ≡ entry (setting_of self.old) o n) }
        ensures here { (setting_of self.new).here ≡ (setting_of self.old).here }
    {
        match object {
            None => {
                enter(self.alloc, &mut self.names, name, meaning)?;
                Ok(())
            }
            Some(object) => {
                enter_constant(self.alloc, &mut self.objects, object, name, meaning)?;
                Ok(())
            }
        }
    }

    /// Takes a name's own entry away, where it has one, so that the name has no definition. It takes no memory.
    pub fn forget(&mut self, name: &Text)
        ensures gone { entry (setting_of self.new) None name.now ≡ None }
        ensures others { (o : Option (List ℕ)) → (n : List ℕ) → ¬ ((o ≡ None) × (n ≡ name.now)) →
            entry (setting_of self.new) o n ≡ entry (setting_of self.old) o n }
        ensures here { (setting_of self.new).here ≡ (setting_of self.old).here }
    {
        leave(&mut self.names, name);
    }

    /// Says what `$` is, outside the operands of instructions: registers have no value. It takes no memory.
    pub fn here(&mut self, at: Option<u32>)
        ensures here { (setting_of self.new).here ≡ outside_operands at }
        ensures names { (o : Option (List ℕ)) → (n : List ℕ) → entry (setting_of self.new) o n ≡ entry (setting_of self.old) o n }
    {
        self.here = Here {
            address: at,
            registers: false,
        };
    }

    /// Says what `$` is in the operands of an instruction, where the name of a register is its address. It takes no memory.
    pub fn in_operand(&mut self, at: u32)
        ensures here { (setting_of self.new).here ≡ in_operand at }
        ensures names { (o : Option (List ℕ)) → (n : List ℕ) → entry (setting_of self.new) o n ≡ entry (setting_of self.old) o n }
    {
        self.here = Here {
            address: Some(at),
            registers: true,
        };
    }

    /// The entry of a name that stands alone.
    pub fn get(&self, name: &Text) -> Option<Meaning>
        ensures { result ≡ (setting_of self.now).name name.now }
    {
        self.names.get(name.as_slice()).copied()
    }

    /// What a name alone means; the word RESULT is no constant.
    pub fn meaning(&self, name: &Text) -> Option<Meaning>
        ensures { result ≡ meaning_of (setting_of self.now) name.now }
    {
        if is_result(name) {
            Some(Meaning::Other)
        } else {
            self.get(name)
        }
    }

    /// What a name after an object's name and `#` means, where it has an entry.
    pub fn constant(&self, object: &Text, name: &Text) -> Option<Meaning>
        ensures { result ≡ (setting_of self.now).constant object.now name.now }
    {
        match self.objects.get(object.as_slice()) {
            Some(names) => names.get(name.as_slice()).copied(),
            None => None,
        }
    }

    // What `$` is.
    pub(crate) fn place(&self) -> Option<u32>
        ensures { result ≡ (setting_of self.now).here.address }
    {
        self.here.address
    }

    // The value of a register's name, by its address.
    pub(crate) fn register(&self, address: u16) -> Option<u32>
        ensures { result ≡ value_of_register (setting_of self.now).here address }
    {
        if self.here.registers {
            Some(u32::from(address))
        } else {
            None
        }
    }
}

// Whether a name is the word RESULT.
fn is_result(name: &Text) -> bool
    ensures { result ≡ bytes_eq name.now result_word }
{
    name.as_slice() == b"RESULT".as_slice()
}

// Puts a meaning at a name.
fn enter(alloc: Global, names: &mut Names, name: &Text, meaning: Meaning) -> Result<(), AllocError>
    ensures entered { OnOk result (at_bytes name.now names.new ≡ Some meaning) }
    ensures others { (n : List ℕ) → ¬ (n ≡ name.now) → at_bytes n names.new ≡ at_bytes n names.old }
    ensures unchanged { OnErr result ((n : List ℕ) → at_bytes n names.new ≡ at_bytes n names.old) }
{
    let key = name.as_slice().to_vec(alloc)?;
    names.insert(key, meaning)?;
    Ok(())
}

// Takes the meaning at a name away.
fn leave(names: &mut Names, name: &Text)
    ensures gone { at_bytes name.now names.new ≡ None }
    ensures others { (n : List ℕ) → ¬ (n ≡ name.now) → at_bytes n names.new ≡ at_bytes n names.old }
{
    names.remove(name.as_slice());
}

// Puts a meaning at a name of an object.
fn enter_constant(
    alloc: Global,
    objects: &mut Objects,
    object: &Text,
    name: &Text,
    meaning: Meaning,
) -> Result<(), AllocError>
    ensures entered { OnOk result (at_both name.now (at_bytes object.now objects.new) ≡ Some meaning) }
    ensures others { (o n : List ℕ) → ¬ ((o ≡ object.now) × (n ≡ name.now)) → at_both n (at_bytes o objects.new) ≡ at_both n (at_bytes o objects.old) }
    ensures unchanged { OnErr result ((o n : List ℕ) → at_both n (at_bytes o objects.new) ≡ at_both n (at_bytes o objects.old)) }
{
    match objects.get_mut(object.as_slice()) {
        Some(names) => enter(alloc, names, name, meaning),
        None => enter_first(alloc, objects, object, name, meaning),
    }
}

// Puts a meaning at a name of an object that has none yet.
fn enter_first(
    alloc: Global,
    objects: &mut Objects,
    object: &Text,
    name: &Text,
    meaning: Meaning,
) -> Result<(), AllocError>
    requires { at_bytes object.now objects.old ≡ None }
    ensures entered { OnOk result (at_both name.now (at_bytes object.now objects.new) ≡ Some meaning) }
    ensures others { (o n : List ℕ) → ¬ ((o ≡ object.now) × (n ≡ name.now)) → at_both n (at_bytes o objects.new) ≡ at_both n (at_bytes o objects.old) }
    ensures unchanged { OnErr result ((o n : List ℕ) → at_both n (at_bytes o objects.new) ≡ at_both n (at_bytes o objects.old)) }
{
    let key = object.as_slice().to_vec(alloc)?;
    let mut names = BTreeMap::new(alloc);
    enter(alloc, &mut names, name, meaning)?;
    objects.insert(key, names)?;
    Ok(())
}
