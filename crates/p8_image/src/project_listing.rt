// The listing of a project.
ghost use Rattle.std.specs.Prelude.{◌≡◌, IfOk};
ghost use Rattle.p8_image.specs.Listing.{listing_of};

use crate::appending::address_after;
use crate::objects::push_object_lines;
use crate::parts::ObjectPart;
use crate::sizes::Offsets;
use p8_tree::Text;
use p8_words::NoMemory;
use std::alloc::Global;

/// Where the first object stands: after the header of the image.
const FIRST_BASE: u16 = 16;

/// The listing of a project, whose objects stand in the order of its files, the top file's first; `names` are those of the files.
///
/// An object has a line with its name and where it begins. Then come a line for each long of its DAT with its address, its eight
/// hexadecimal digits and its text as an instruction, and for each method, counted from 1, a line with where its code begins, and
/// then a line for each bytecode with its address and its bytes. A byte of code at which no bytecode stands whole has a line of its
/// own. Addresses are told mod 65,536, which is exact in an image that fits the hub. The only error is want of memory.
pub fn listing(alloc: Global, names: &[Text], objects: &[ObjectPart]) -> Result<Vec<u8>, NoMemory>
    ensures { IfOk result (λ text. text.items ≡ listing_of names.now objects.now) }
{
    let mut out = Vec::new(alloc);
    let mut base = FIRST_BASE;
    let mut names = names;
    let mut objects = objects;
    while let [object, others @ ..] = objects {
        let [name, behind @ ..] = names else {
            break;
        };
        push_object_lines(alloc, &mut out, name.as_slice(), base, object)?;
        base = address_after(base, usize::from(Offsets::of(object).size));
        names = behind;
        objects = others;
    }
    Ok(out)
}
