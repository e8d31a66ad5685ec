// By how much what is refused as too large is too large, and how many arguments a call has.
ghost use Rattle.std.specs.Prelude.{◌≡◌, ◌++◌, ◌<◌, OnOk};
ghost use Rattle.p8_explain.specs.Sizes.{least_words, number_text, counted, beyond, excess, of_method, of_image, things, of_arguments, of_size};

use crate::appending::push_decimal;
use p8_build::Size;
use p8_instr::push_text;
use p8_stmt::MethodSize;
use p8_words::NoMemory;

fn push_least(out: &mut Vec<u8>, is_least: bool) -> Result<(), NoMemory>
    ensures { OnOk result (out.new.items ≡ out.old.items ++ least_words is_least) }
{
    if is_least {
        push_text(out, b"at least ")
    } else {
        Ok(())
    }
}

fn push_number(out: &mut Vec<u8>, is_least: bool, number: u64) -> Result<(), NoMemory>
    ensures { OnOk result (out.new.items ≡ out.old.items ++ number_text is_least number) }
{
    push_least(out, is_least)?;
    push_decimal(out, number)?;
    Ok(())
}

fn push_counted(
    out: &mut Vec<u8>,
    front: &[u8],
    is_least: bool,
    number: u64,
    things: &[u8],
) -> Result<(), NoMemory>
    ensures { OnOk result (out.new.items ≡ out.old.items ++ counted front.now is_least number things.now) }
{
    push_text(out, front)?;
    push_number(out, is_least, number)?;
    push_text(out, things)?;
    Ok(())
}

fn push_beyond(out: &mut Vec<u8>, is_least: bool, more: u64, most: u64) -> Result<(), NoMemory>
    ensures { OnOk result (out.new.items ≡ out.old.items ++ beyond is_least more most) }
{
    push_text(out, b", ")?;
    push_number(out, is_least, more)?;
    push_text(out, b" more than ")?;
    push_decimal(out, most)?;
    push_text(out, b".\n")?;
    Ok(())
}

// Appends a line for a number that is above the most that it may be. The last number that can be told stands for all above it, too.
#[tactic(auto, unfolding(crate::specs::Sizes::excess))]
fn push_excess(
    out: &mut Vec<u8>,
    front: &[u8],
    number: u64,
    last: u64,
    things: &[u8],
    most: u64,
) -> Result<(), NoMemory>
    ensures { OnOk result (out.new.items ≡ out.old.items ++ excess front.now number last things.now most) }
{
    if most < number {
        push_counted(out, front, number == last, number, things)?;
        push_beyond(out, number == last, number - most, most)?;
        Ok(())
    } else {
        Ok(())
    }
}

fn push_of_method(out: &mut Vec<u8>, size: MethodSize) -> Result<(), NoMemory>
    ensures { OnOk result (out.new.items ≡ out.old.items ++ of_method size) }
{
    push_excess(
        out,
        b"The frame has ",
        u64::from(size.longs),
        4_294_967_295,
        b" longs",
        2048,
    )?;
    push_excess(
        out,
        b"The method holds ",
        u64::from(size.held),
        65_535,
        b" values at once",
        128,
    )?;
    Ok(())
}

fn push_of_image(out: &mut Vec<u8>, bytes: u32) -> Result<(), NoMemory>
    ensures { OnOk result (out.new.items ≡ out.old.items ++ of_image bytes) }
{
    push_excess(
        out,
        b"The image with its variables and the first frame has ",
        u64::from(bytes),
        2_147_483_648,
        b" bytes",
        32_768,
    )
}

// Appends a number of things, by the words for one and for any other number.
#[tactic(auto, unfolding(crate::specs::Sizes::things))]
fn push_things(out: &mut Vec<u8>, one: &[u8], more: &[u8], number: usize) -> Result<(), NoMemory>
    ensures { OnOk result (out.new.items ≡ out.old.items ++ things one.now more.now number) }
{
    push_decimal(out, number as u64)?;
    push_text(out, if number == 1 { one } else { more })?;
    Ok(())
}

fn push_of_arguments(out: &mut Vec<u8>, wanted: usize, given: usize) -> Result<(), NoMemory>
    ensures { OnOk result (out.new.items ≡ out.old.items ++ of_arguments wanted given) }
{
    push_things(
        out,
        b" argument is given, and ",
        b" arguments are given, and ",
        given,
    )?;
    push_things(out, b" is expected.\n", b" are expected.\n", wanted)?;
    Ok(())
}

/// Appends by how much what is refused is too large, or how many arguments a call has.
pub(crate) fn push_size(out: &mut Vec<u8>, size: Option<Size>) -> Result<(), NoMemory>
    ensures { OnOk result (out.new.items ≡ out.old.items ++ of_size size) }
{
    match size {
        None => Ok(()),
        Some(Size::Method(size)) => push_of_method(out, size),
        Some(Size::Image(bytes)) => push_of_image(out, bytes),
        Some(Size::Arguments { wanted, given }) => push_of_arguments(out, wanted, given),
    }
}
