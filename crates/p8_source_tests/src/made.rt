// The image of one seed.
use p8_finish::made_image;
use p8_words::NoMemory;
use std::alloc::Global;

/// Whether the image of seed 1 has its length and begins so. Its first instruction is XOR $1E9, $1E5, after the eight longs of cog 0's
/// program.
fn begins_so(alloc: Global) -> Result<bool, NoMemory> {
    let image = made_image(alloc, 1)?;
    let is_begun = image.starts_with(&[0x02, 0x08, 0x7C, 0x0C, 0x00, 0x0A, 0xFC, 0xE4]);
    let rest = &image.as_slice()[32..];
    Ok(is_begun && image.len() == 2016 && rest.starts_with(&[0xE5, 0xD3, 0xBF, 0x6C]))
}

#[test]
fn the_image_of_seed_1(rt: HostRuntime) {
    assert!(rt; matches!(begins_so(rt.alloc()), Ok(true)));
}
