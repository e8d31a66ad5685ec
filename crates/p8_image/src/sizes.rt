// How many bytes objects and their variables have.
ghost use Rattle.std.specs.Prelude.{◌≡◌, ◌<◌, ◌+◌, ◌%◌, ◌^◌};
ghost use Rattle.p8_image.specs.Keeping.{kept};
ghost use Rattle.p8_image.specs.Layout.{total, variable_size, text_size, whole_longs, own_variables, dat_offset, code_size, codes_offset};
ghost use Rattle.p8_image.specs.Layout.{texts_offset, size_of};

use crate::parts::{MethodPart, ObjectPart, Variable};
use p8_tree::Text;

/// The least number of bytes that isn't kept exactly.
pub const LIMIT: u32 = 2_147_483_648;

/// A number of bytes as it is kept: exactly below 2,147,483,648, and above as that and the last 16 bits.
///
/// So it is known whether an image fits the hub, by how much it doesn't, and what its words are, however much an input asks for.
#[tactic(auto, unfolding(crate::specs::Keeping::kept))]
fn keep(bytes: u64) -> u32
    ensures value { result ≡ kept bytes }
    ensures bound { result < 2 ^ 32 }
{
    if bytes < u64::from(LIMIT) {
        bytes as u32
    } else {
        LIMIT + (bytes % 65_536) as u32
    }
}

/// So many bytes more.
#[tactic(auto, using(crate::proofs::Keeping::kept_added))]
pub fn add(bytes: u32, more: u64) -> u32
    ensures { result ≡ kept (bytes + more) }
{
    keep(u64::from(bytes) + u64::from(keep(more)))
}

/// So many bytes rounded up to whole longs.
fn whole_longs(bytes: u32) -> u32
    ensures { result ≡ kept (whole_longs bytes) }
{
    keep((u64::from(bytes) + 3) / 4 * 4)
}

/// Where the parts of an object stand, counted from its base, and how many bytes it has.
///
/// Each is told mod 65,536, which is exact in an image that fits the hub.
#[derive(Clone, Copy, Debug, PartialEq, Eq)]
pub struct Offsets {
    /// Where its DAT bytes stand.
    pub dat: u16,
    /// Where the codes of its methods stand, one after the other.
    pub codes: u16,
    /// How many bytes it has.
    pub size: u16,
}

impl Offsets {
    /// The places in an object.
    #[tactic(auto, using(crate::proofs::Keeping::kept_mod))]
    pub fn of(object: &ObjectPart) -> Offsets
        ensures dat { result.dat ≡ dat_offset object.now % 65536 }
        ensures codes { result.codes ≡ codes_offset object.now % 65536 }
        ensures size { result.size ≡ size_of object.now % 65536 }
    {
        Offsets {
            dat: (dat_offset(object) % 65_536) as u16,
            codes: (codes_offset(object) % 65_536) as u16,
            size: (object_size(object) % 65_536) as u16,
        }
    }
}

/// The bytes of some variables.
#[tactic(auto, using(crate::proofs::Keeping::kept_total))]
fn variables_size(variables: &[Variable]) -> u32
    ensures { result ≡ kept (total variable_size variables.now) }
{
    variables.iter().fold(0, |size, variable| {
        add(size, u64::from(variable.size) * u64::from(variable.count))
    })
}

/// The bytes of an object's own variables.
#[tactic(auto, using(crate::proofs::Keeping::kept_whole))]
pub fn own_variables(object: &ObjectPart) -> u32
    ensures { result ≡ kept (own_variables object.now) }
{
    whole_longs(variables_size(object.variables.as_slice()))
}

/// The bytes of some methods' codes.
#[tactic(auto, using(crate::proofs::Keeping::kept_total))]
fn codes_size(methods: &[MethodPart]) -> u32
    ensures { result ≡ kept (total code_size methods.now) }
{
    methods
        .iter()
        .fold(0, |size, method| add(size, method.code.len() as u64))
}

/// So many bytes and a text more, with the zero that ends it.
#[tactic(auto, using(crate::proofs::Keeping::kept_add))]
pub fn add_text(bytes: u32, text: &Text) -> u32
    ensures { result ≡ kept (bytes + text_size text.now) }
{
    add(add(bytes, text.len() as u64), 1)
}

/// The bytes of some texts.
#[tactic(auto, using(crate::proofs::Keeping::kept_total))]
fn texts_size(texts: &[Text]) -> u32
    ensures { result ≡ kept (total text_size texts.now) }
{
    texts.iter().fold(0, |size, text| add_text(size, text))
}

/// Where in an object its DAT bytes stand.
#[tactic(auto, using(crate::proofs::Keeping::kept_entries))]
fn dat_offset(object: &ObjectPart) -> u32
    ensures { result ≡ kept (dat_offset object.now) }
{
    let methods = u64::from(keep(object.methods.len() as u64));
    let instances = u64::from(keep(object.instances.len() as u64));
    keep(4 + 4 * methods + 4 * instances)
}

/// Where in an object the codes of its methods stand.
pub fn codes_offset(object: &ObjectPart) -> u32
    ensures { result ≡ kept (codes_offset object.now) }
{
    let dat = whole_longs(keep(object.dat.len() as u64));
    add(dat_offset(object), u64::from(dat))
}

/// Where in an object its texts stand.
pub fn texts_offset(object: &ObjectPart) -> u32
    ensures { result ≡ kept (texts_offset object.now) }
{
    let codes = codes_size(object.methods.as_slice());
    add(codes_offset(object), u64::from(codes))
}

/// The bytes of an object.
pub fn object_size(object: &ObjectPart) -> u32
    ensures { result ≡ kept (size_of object.now) }
{
    let texts = texts_size(object.texts.as_slice());
    whole_longs(add(texts_offset(object), u64::from(texts)))
}

/// So many bytes and an object more.
#[tactic(auto, using(crate::proofs::Keeping::kept_added))]
pub fn add_object(bytes: u32, object: &ObjectPart) -> u32
    ensures { result ≡ kept (bytes + size_of object.now) }
{
    add(bytes, u64::from(object_size(object)))
}
