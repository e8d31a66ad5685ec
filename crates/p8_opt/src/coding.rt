// The short codes of the methods of a file.
ghost use Rattle.std.specs.Prelude.{◌≡◌, ◌+◌, length, map, IfOk};
ghost use Rattle.p8_tree.specs.Views.{method_of};
ghost use Rattle.p8_stmt.specs.Jumps.{IsShortCode};
ghost use Rattle.p8_meaning.specs.Folding.{folded_body};
ghost use Rattle.p8_build.specs.Files.{names_with};
ghost use Rattle.p8_opt.specs.Steps.{constants_by, CanBeFolded, AreFoldable, AreShortCodes};

use p8_gen::Tables;
use p8_kinds::Kinds;
use p8_meaning::folded_body;
use p8_names::number_behind;
use p8_stmt::{MethodCode, short_code};
use p8_tree::{List, Method};
use p8_words::NoMemory;
use std::alloc::Global;

/// The short codes of all methods of a file, which stand in the order of their numbers.
pub(crate) fn short_codes(
    alloc: Global,
    kinds: &Kinds,
    tables: &Tables,
    methods: &[&Method],
) -> Result<List<MethodCode>, NoMemory>
    requires { AreFoldable kinds.now tables.now (map (λ m. method_of m.now) methods.now) }
    ensures count { IfOk result (λ codes. length codes ≡ length methods.now) }
    ensures codes { IfOk result (AreShortCodes kinds.now tables.now (map (λ m. method_of m.now) methods.now)) }
{
    let mut codes = List::new(alloc);
    for (index, method) in methods.iter().enumerate() {
        let code = short_method(alloc, kinds, tables, index, method)?;
        codes.push(code)?;
    }
    Ok(codes)
}

/// The short code of the method with this index.
fn short_method(
    alloc: Global,
    kinds: &Kinds,
    tables: &Tables,
    index: usize,
    method: &Method,
) -> Result<MethodCode, NoMemory>
    requires { CanBeFolded (names_with kinds.now tables.now index (method_of method.now)) (constants_by tables.now) (method_of method.now) }
    ensures { IfOk result (IsShortCode (names_with kinds.now tables.now index (method_of method.now)) (method_of method.now)
        (folded_body (constants_by tables.now) (method_of method.now).body)) }
{
    let body = folded_body(alloc, &tables.consts, method.body.as_slice())?;
    let number = number_behind(index)?;
    short_code(alloc, kinds, tables, method, number, body.as_slice())
}
