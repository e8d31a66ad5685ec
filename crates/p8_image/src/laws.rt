// Laws of images.
ghost use Rattle.std.specs.Prelude.{◌≡◌, ◌<◌, ℕ, List, All};
ghost use Rattle.p8_image.specs.declared.clocks.Clock.{Clock as ClockOf};
ghost use Rattle.p8_image.specs.declared.parts.ObjectPart.{ObjectPart};
ghost use Rattle.p8_image.specs.Headers.{header_of};
ghost use Rattle.p8_image.specs.Loading.{IsImage, IsEeprom, memory_of, binary_of};
ghost use Rattle.p8_image.specs.Layout.{header_by, image_of};
ghost use Rattle.p8_image.specs.Places.{AllPartsStand};
ghost use Rattle.p8_image.specs.Projects.{BeginsWithMain, FitsHub};

/// The image of a project is one that `load` takes, and its header has the places of the layout: so its boot is that of the project.
pub fn image_loads()
    ensures image { (clock : ClockOf) (objects : List ObjectPart) → BeginsWithMain objects → FitsHub (header_by objects) → IsImage (image_of clock objects) }
    ensures header { (clock : ClockOf) (objects : List ObjectPart) → BeginsWithMain objects → FitsHub (header_by objects) →
        header_of (image_of clock objects) ≡ header_by objects }
{}

/// The table, the DAT bytes, the code of each method and each text of a project's objects stand in its image where their places say: at
/// the base of the object and the offset in it. Where code uses a text, the text's offset stands.
pub fn parts_stand()
    ensures { (clock : ClockOf) (objects : List ObjectPart) → AllPartsStand clock objects }
{}

/// Converting there and back: the memory that a run of a `.binary` file begins with is an `.eeprom` file, and the `.binary` file of that is
/// the one that it was. A `.binary` file of an `.eeprom` file is always an image, with the same places in its header.
pub fn eeprom_comes_back()
    ensures there { (file : List ℕ) → IsImage file → IsEeprom (memory_of file) }
    ensures back { (file : List ℕ) → All (λ byte. byte < 256) file → IsImage file → binary_of (memory_of file) ≡ file }
    ensures loads { (memory : List ℕ) → IsEeprom memory → IsImage (binary_of memory) × (header_of (binary_of memory) ≡ header_of memory) }
{}
