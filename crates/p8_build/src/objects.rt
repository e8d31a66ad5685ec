// The objects of a project, as its files make them.
ghost use Rattle.std.specs.Prelude.{◌≡◌, ◌≤◌, ◌++◌, length, map, replicate, List as list, IfOk, OnOk};
ghost use Rattle.std.specs.List.{flat_map};
ghost use Rattle.p8_tree.specs.Sources.{Source};
ghost use Rattle.p8_tree.specs.Views.{named_source_of};
ghost use Rattle.p8_tree.specs.Projects.{most_files};
ghost use Rattle.p8_fold.specs.ConstantEntries.{setting_of};
ghost use Rattle.p8_kinds.specs.declared.children.Children.{Children};
ghost use Rattle.p8_constants.specs.Standing.{item_of as item_tree, items_of as item_trees};
ghost use Rattle.p8_names.specs.Kinds.{object_in as objects_in, objects};
ghost use Rattle.p8_build.specs.Parts.{number_of, variable_in, instances_of};
ghost use Rattle.p8_build.specs.Files.{object_of};
ghost use Rattle.p8_build.specs.Accepted.{HasTables, recoded_file};
ghost use Rattle.p8_build.specs.Phases.{object_in};

use crate::accepting::AcceptedFile;
use crate::coding::parts_of;
use crate::text_numbers::{TextNumbers, strings_of_all, texts_in};
use p8_constants::{Item, count_value};
use p8_fold::Consts;
use p8_image::{ObjectPart, Variable};
use p8_stmt::MethodCode;
use p8_tree::{List, ProjectFile, Text};
use p8_words::NoMemory;
use std::alloc::{AllocError, Global};

/// The objects of all files, in their order.
pub(crate) fn objects_of_all(
    alloc: Global,
    files: &[ProjectFile],
    accepted: &[AcceptedFile<'_>],
) -> Result<List<ObjectPart>, NoMemory>
    requires { length files.now ≤ most_files }
    ensures { IfOk result (λ objects. objects ≡ map (λ f. object_in (map named_source_of files.now) f f.codes) accepted.now) }
{
    let mut objects = List::new(alloc);
    for file in accepted {
        objects.push(object_of_codes(alloc, files, file, file.codes.as_slice())?)?;
    }
    Ok(objects)
}

/// The object of a file of an accepted project with these codes for its methods, in the order of their numbers.
///
/// The files are those of the project, among which those of the objects are told by their numbers.
pub fn object_of_codes(
    alloc: Global,
    files: &[ProjectFile],
    file: &AcceptedFile<'_>,
    codes: &[MethodCode],
) -> Result<ObjectPart, NoMemory>
    requires { length files.now ≤ most_files }
    ensures made { IfOk result (λ object. object ≡ object_in (map named_source_of files.now) file.now codes.now) }
    ensures object { IfOk result (λ object. (source : Source) → (children : Children) → HasTables source children file.now →
        object ≡ object_of (map named_source_of files.now) source children (recoded_file file.now codes.now)) }
{
    let items = file.items.as_slice();
    let methods = file.methods.as_slice();
    let consts = &file.tables.consts;
    let strings = strings_of_all(alloc, methods)?;
    let texts = TextNumbers::of(alloc, strings.as_slice())?;
    Ok(ObjectPart {
        variables: variables_of(alloc, consts, items)?,
        dat: Text::copy_of(alloc, file.dat.bytes.as_slice())?,
        methods: parts_of(alloc, methods, codes, &texts)?,
        texts: texts_in(alloc, consts, strings.as_slice())?,
        instances: instances_of(alloc, files, consts, items)?,
    })
}

/// The variables of items.
fn variables_of(
    alloc: Global,
    consts: &Consts,
    items: &[Item<'_>],
) -> Result<List<Variable>, AllocError>
    ensures { IfOk result (λ variables. variables ≡ flat_map (variable_in (setting_of consts.now)) (item_trees items.now)) }
{
    let mut variables = List::new(alloc);
    for item in items {
        put_variable(&mut variables, consts, *item)?;
    }
    Ok(variables)
}

fn put_variable(
    variables: &mut List<Variable>,
    consts: &Consts,
    item: Item<'_>,
) -> Result<(), AllocError>
    ensures { OnOk result (variables.new ≡ variables.old ++ variable_in (setting_of consts.now) (item_tree item.entry)) }
{
    match item {
        Item::Variable(variable) => variables.push(Variable {
            size: variable.size,
            count: count_value(consts, variable.count.as_ref()),
        }),
        _ => Ok(()),
    }
}

/// The instances of objects that items stand for, by the numbers of their files.
fn instances_of(
    alloc: Global,
    files: &[ProjectFile],
    consts: &Consts,
    items: &[Item<'_>],
) -> Result<List<u8>, AllocError>
    requires { length files.now ≤ most_files }
    ensures { IfOk result (λ instances. instances ≡ flat_map (instances_of (map named_source_of files.now) (setting_of consts.now))
        (objects (item_trees items.now))) }
{
    let mut instances = List::new(alloc);
    for item in items {
        put_instances(&mut instances, files, consts, *item)?;
    }
    Ok(instances)
}

fn put_instances(
    instances: &mut List<u8>,
    files: &[ProjectFile],
    consts: &Consts,
    item: Item<'_>,
) -> Result<(), AllocError>
    requires { length files.now ≤ most_files }
    ensures { OnOk result (instances.new ≡ instances.old ++
        flat_map (instances_of (map named_source_of files.now) (setting_of consts.now)) (objects_in (item_tree item.entry))) }
{
    match item {
        Item::Object(object) => {
            let file = number_of(files, &object.file);
            put_number(instances, file, count_value(consts, object.count.as_ref()))
        }
        _ => Ok(()),
    }
}

/// Puts a number so many times.
fn put_number(numbers: &mut List<u8>, number: u8, count: u32) -> Result<(), AllocError>
    ensures { OnOk result (numbers.new ≡ numbers.old ++ replicate count number) }
{
    for _ in 0..count {
        numbers.push(number)?;
    }
    Ok(())
}

/// The number of the file of this name.
fn number_of(files: &[ProjectFile], name: &Text) -> u8
    requires { length files.now ≤ most_files }
    ensures { result ≡ number_of (map named_source_of files.now) name.now }
{
    for (index, file) in files.iter().enumerate() {
        if file.name.is_same(name) {
            return index as u8;
        }
    }
    files.len() as u8
}
