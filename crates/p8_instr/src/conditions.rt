// The names of conditions.
ghost use Rattle.std.specs.Prelude.{◌≡◌, ◌==◌, ◌<◌, map, IsSome, IfSome, option_copied};
ghost use Rattle.p8_instr.specs.Conditions.{conditions};
ghost use Rattle.p8_instr.specs.Mnemonics.{entry_of, word_where};

use crate::mnemonics::entry_in;

/// Each name of a condition with its field. Where a field has several, the first is printed.
const CONDITIONS: [(&[u8], u8); 32] = [
    (b"IF_ALWAYS", 15),
    (b"IF_NEVER", 0),
    (b"IF_E", 10),
    (b"IF_Z", 10),
    (b"IF_NE", 5),
    (b"IF_NZ", 5),
    (b"IF_A", 1),
    (b"IF_NC_AND_NZ", 1),
    (b"IF_NZ_AND_NC", 1),
    (b"IF_B", 12),
    (b"IF_C", 12),
    (b"IF_AE", 3),
    (b"IF_NC", 3),
    (b"IF_BE", 14),
    (b"IF_C_OR_Z", 14),
    (b"IF_Z_OR_C", 14),
    (b"IF_NC_AND_Z", 2),
    (b"IF_Z_AND_NC", 2),
    (b"IF_C_AND_NZ", 4),
    (b"IF_NZ_AND_C", 4),
    (b"IF_C_AND_Z", 8),
    (b"IF_Z_AND_C", 8),
    (b"IF_C_EQ_Z", 9),
    (b"IF_Z_EQ_C", 9),
    (b"IF_C_NE_Z", 6),
    (b"IF_Z_NE_C", 6),
    (b"IF_C_OR_NZ", 13),
    (b"IF_NZ_OR_C", 13),
    (b"IF_NC_OR_Z", 11),
    (b"IF_Z_OR_NC", 11),
    (b"IF_NC_OR_NZ", 7),
    (b"IF_NZ_OR_NC", 7),
];

/// The field, from 0 to 15, of the condition with this name, in letters of any case, such as
/// `IF_Z` or `if_nc_and_z`; `None` exactly where no condition has it.
pub fn condition_of(word: &[u8]) -> Option<u8>
    ensures value { result ≡ entry_of conditions word.now }
    ensures in_range { IfSome result (λ field. field < 16) }
{
    entry_in(&CONDITIONS, word)
}

/// The name by which listings print a condition's field, from 0 to 15; each of them has one.
pub fn condition_name(field: u8) -> Option<&'static [u8]>
    ensures value { option_copied result ≡ word_where (λ named. named == field) conditions }
    ensures found { field < 16 → IsSome result }
{
    name_in(&CONDITIONS, field)
}

fn name_in<'a>(mut table: &[(&'a [u8], u8)], field: u8) -> Option<&'a [u8]>
    ensures { option_copied result
        ≡ word_where (λ named. named == field) (map (λ entry. (entry.0.now, entry.1)) table.entry.now) }
{
    while let [entry, rest @ ..] = table {
        if entry.1 == field {
            return Some(entry.0);
        }
        table = rest;
    }
    None
}
