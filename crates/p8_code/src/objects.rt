// The lines of an object.
ghost use Rattle.std.specs.Prelude.{◌≡◌, ◌++◌, OnOk};
ghost use Rattle.p8_code.specs.Listing.{listed, method_line, method_lines, object_lines, parameters_text};
ghost use Rattle.p8_code.specs.Steps.{cut_lines};
ghost use Rattle.p8_code.specs.Views.{known_of, scope_of, scope_with};

use crate::codes::push_op_lines;
use crate::dat::push_dat;
use crate::operations::Scope;
use crate::slices::{behind, front};
use p8_dat::LineBegin;
use p8_image::{ObjectPart, Offsets, linked_codes, longs_of, push_method_head, push_object_line};
use p8_instr::push_text;
use p8_legend::{Ranges, label_names, variable_names};
use p8_map::{FileNames, MethodNames, address_after};
use p8_stmt::MethodCode;
use p8_tree::Text;
use p8_words::NoMemory;
use std::alloc::Global;

/// Appends names one after the other; this stands before the first one.
fn push_listed(out: &mut Vec<u8>, mut before: &'static [u8], names: &[Text]) -> Result<(), NoMemory>
    ensures { OnOk result (out.new.items ≡ out.old.items ++ listed before.entry.now names.now) }
{
    for name in names {
        push_text(out, before)?;
        push_text(out, name.as_slice())?;
        before = b", ";
    }
    Ok(())
}

/// Appends parameters in parentheses, where there are some.
fn push_parameters(out: &mut Vec<u8>, names: &[Text]) -> Result<(), NoMemory>
    ensures { OnOk result (out.new.items ≡ out.old.items ++ parameters_text names.now) }
{
    match names {
        [] => Ok(()),
        _ => {
            push_listed(out, b"(", names)?;
            push_text(out, b")")
        }
    }
}

/// Appends the line of a method.
fn push_method_line(
    out: &mut Vec<u8>,
    number: u64,
    place: u16,
    method: &MethodNames,
) -> Result<(), NoMemory>
    ensures { OnOk result (out.new.items ≡ out.old.items ++ method_line (λ text. text) number place method.now) }
{
    push_method_head(out, number, place)?;
    push_text(out, b" ")?;
    push_text(out, method.name.as_slice())?;
    push_parameters(out, method.parameters.as_slice())?;
    push_text(out, b"\n")
}

/// Appends the lines of a method with these bytes of code.
fn push_method(
    out: &mut Vec<u8>,
    scope: &Scope<'_>,
    number: u64,
    place: u16,
    code: &MethodCode,
    bytes: &[u8],
) -> Result<(), NoMemory>
    ensures { OnOk result (out.new.items ≡ out.old.items ++ method_lines (λ text. text) (scope_of scope.now) number place code.now bytes.now) }
{
    push_method_line(out, number, place, scope.method)?;
    push_op_lines(out, Some(scope), place, code.lines.as_slice(), bytes)
}

/// What is known of an object: the names of all files and of its own, its variables and labels, its lines, where those of its DAT begin, and its
/// methods' codes.
#[derive(Clone, Copy)]
pub(crate) struct Object<'a> {
    pub(crate) files: &'a [FileNames],
    pub(crate) own: &'a FileNames,
    pub(crate) part: &'a ObjectPart,
    pub(crate) source: &'a [Text],
    pub(crate) lines: &'a [LineBegin],
    pub(crate) codes: &'a [MethodCode],
}

impl Object<'_> {
    /// Appends the lines of its methods, of which these are the bytes of code, one after the other.
    fn push_methods(
        &self,
        out: &mut Vec<u8>,
        variables: &Ranges,
        labels: &Ranges,
        mut place: u16,
        bytes: &[u8],
    ) -> Result<(), NoMemory>
        ensures { OnOk result (out.new.items ≡ out.old.items ++
            cut_lines (scope_with self.now variables.now labels.now) 1 place bytes.now self.now.own.now.methods self.now.part.now.methods self.now.codes.now) }
    {
        let mut names = self.own.methods.as_slice();
        let mut parts = self.part.methods.as_slice();
        let mut codes = self.codes;
        let mut rest = bytes;
        let mut number: u64 = 1;
        while let [method, other_names @ ..] = names {
            let [part, other_parts @ ..] = parts else {
                return Ok(());
            };
            let [code, other_codes @ ..] = codes else {
                return Ok(());
            };
            let scope = Scope {
                files: self.files,
                own: self.own,
                object: self.part,
                variables,
                labels,
                method,
                part,
                source: self.source,
            };
            let size = part.code.len();
            push_method(out, &scope, number, place, code, front(rest, size))?;
            place = address_after(place, size as u64);
            rest = behind(rest, size);
            number = number.checked_add(1).ok_or(NoMemory)?;
            names = other_names;
            parts = other_parts;
            codes = other_codes;
        }
        Ok(())
    }

    /// Appends its lines, where it begins at an address.
    pub(crate) fn push(&self, alloc: Global, out: &mut Vec<u8>, base: u16) -> Result<(), NoMemory>
        ensures { OnOk result (out.new.items ≡ out.old.items ++
            object_lines (λ text. text) self.now.files.now base self.now.own.now self.now.part.now (known_of self.now)) }
    {
        let offsets = Offsets::of(self.part);
        let longs = longs_of(alloc, self.part.dat.as_slice())?;
        let codes = linked_codes(alloc, self.part)?;
        let own = self.own;
        let variables = variable_names(
            alloc,
            own.variables.as_slice(),
            self.part.variables.as_slice(),
        )?;
        let labels = label_names(alloc, offsets.codes, own.labels.as_slice())?;
        let dat = address_after(base, u64::from(offsets.dat));
        push_object_line(out, own.file.as_slice(), base)?;
        push_dat(
            alloc,
            out,
            self.source,
            base,
            own.labels.as_slice(),
            dat,
            &longs,
            self.lines,
        )?;
        let place = address_after(base, u64::from(offsets.codes));
        self.push_methods(out, &variables, &labels, place, &codes)?;
        Ok(())
    }
}
