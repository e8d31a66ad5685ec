// The constants that the language defines.
ghost use Rattle.std.specs.Prelude.{◌≡◌, ◌∷◌, [], ◌++◌, IfOk, OnOk};
ghost use Rattle.p8_constants.specs.Names.{predefined, truth_and_limits, internal_clocks, external_clocks, low_factors, high_factors, clock_factors};
ghost use Rattle.p8_constants.specs.Standing.{valued};

use p8_tree::Text;
use std::alloc::{AllocError, Global};

/// A constant that the language defines.
#[derive(Drop)]
pub struct NamedConstant {
    pub name: Text,
    pub value: u32,
}

/// The constants that the language defines: they are names of each file.
#[tactic(auto, unfolding(crate::specs::Names::predefined))]
pub fn predefined(alloc: Global) -> Result<Vec<NamedConstant>, AllocError>
    ensures { IfOk result (λ constants. valued constants.items ≡ predefined) }
{
    let mut constants = Vec::new(alloc);
    put_truth_and_limits(alloc, &mut constants)?;
    put_internal_clocks(alloc, &mut constants)?;
    put_external_clocks(alloc, &mut constants)?;
    put_clock_factors(alloc, &mut constants)?;
    Ok(constants)
}

fn put(
    alloc: Global,
    constants: &mut Vec<NamedConstant>,
    name: &[u8],
    value: u32,
) -> Result<(), AllocError>
    ensures { OnOk result (valued constants.new.items ≡ valued constants.old.items ++ (name.now, value) ∷ []) }
{
    let name = Text::copy_of(alloc, name)?;
    constants.push(NamedConstant { name, value })?;
    Ok(())
}

#[tactic(auto, unfolding(crate::specs::Names::truth_and_limits))]
fn put_truth_and_limits(alloc: Global, constants: &mut Vec<NamedConstant>) -> Result<(), AllocError>
    ensures { OnOk result (valued constants.new.items ≡ valued constants.old.items ++ truth_and_limits) }
{
    put(alloc, constants, b"TRUE", 0xFFFF_FFFF)?;
    put(alloc, constants, b"FALSE", 0)?;
    put(alloc, constants, b"POSX", 0x7FFF_FFFF)?;
    put(alloc, constants, b"NEGX", 0x8000_0000)
}

#[tactic(auto, unfolding(crate::specs::Names::internal_clocks))]
fn put_internal_clocks(alloc: Global, constants: &mut Vec<NamedConstant>) -> Result<(), AllocError>
    ensures { OnOk result (valued constants.new.items ≡ valued constants.old.items ++ internal_clocks) }
{
    put(alloc, constants, b"RCFAST", 0x001)?;
    put(alloc, constants, b"RCSLOW", 0x002)
}

#[tactic(auto, unfolding(crate::specs::Names::external_clocks))]
fn put_external_clocks(alloc: Global, constants: &mut Vec<NamedConstant>) -> Result<(), AllocError>
    ensures { OnOk result (valued constants.new.items ≡ valued constants.old.items ++ external_clocks) }
{
    put(alloc, constants, b"XINPUT", 0x004)?;
    put(alloc, constants, b"XTAL1", 0x008)?;
    put(alloc, constants, b"XTAL2", 0x010)?;
    put(alloc, constants, b"XTAL3", 0x020)
}

fn put_clock_factors(alloc: Global, constants: &mut Vec<NamedConstant>) -> Result<(), AllocError>
    ensures { OnOk result (valued constants.new.items ≡ valued constants.old.items ++ clock_factors) }
{
    put_low_factors(alloc, constants)?;
    put_high_factors(alloc, constants)
}

#[tactic(auto, unfolding(crate::specs::Names::low_factors))]
fn put_low_factors(alloc: Global, constants: &mut Vec<NamedConstant>) -> Result<(), AllocError>
    ensures { OnOk result (valued constants.new.items ≡ valued constants.old.items ++ low_factors) }
{
    put(alloc, constants, b"PLL1X", 0x040)?;
    put(alloc, constants, b"PLL2X", 0x080)?;
    put(alloc, constants, b"PLL4X", 0x100)
}

#[tactic(auto, unfolding(crate::specs::Names::high_factors))]
fn put_high_factors(alloc: Global, constants: &mut Vec<NamedConstant>) -> Result<(), AllocError>
    ensures { OnOk result (valued constants.new.items ≡ valued constants.old.items ++ high_factors) }
{
    put(alloc, constants, b"PLL8X", 0x200)?;
    put(alloc, constants, b"PLL16X", 0x400)
}
