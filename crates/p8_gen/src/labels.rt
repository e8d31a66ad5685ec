// The labels of a file's data.
ghost use Rattle.std.specs.Prelude.{◌≡◌, ℕ, List, Some, OnOk, OnErr, IfOk};
ghost use Rattle.p8_fold.specs.ConstantEntries.{at_bytes};
ghost use Rattle.p8_words.specs.Operators.{or_zero};
ghost use Rattle.p8_gen.specs.Files.{first_offset};
ghost use Rattle.p8_gen.specs.Labels.{offset_in};

use p8_kinds::Label;
use p8_tree::Text;
use std::alloc::{AllocError, Global};
use std::collections::BTreeMap;

type Offsets = BTreeMap<Vec<u8>, u32>;

/// Where the labels of a file's data stand.
#[derive(Drop)]
pub struct Labels {
    offsets: Offsets,
}

impl Labels {
    /// The labels of a list. Of two with one name the first counts: they are entered from the last one on.
    pub fn of(alloc: Global, labels: &[Label]) -> Result<Labels, AllocError>
        ensures { IfOk result (λ found. (name : List ℕ) → offset_in found name ≡ first_offset labels.now name) }
    {
        let mut offsets = BTreeMap::new(alloc);
        for at in (0..labels.len()).rev() {
            enter(alloc, &mut offsets, &labels[at])?;
        }
        Ok(Labels { offsets })
    }

    /// A label's offset in the object, 0 for a name that is no label.
    pub fn offset(&self, name: &Text) -> u32
        ensures { result ≡ or_zero (offset_in self.now name.now) }
    {
        self.offsets.get(name.as_slice()).copied().unwrap_or(0)
    }
}

// Enters a label, in place of what stood at its name.
fn enter(alloc: Global, offsets: &mut Offsets, label: &Label) -> Result<(), AllocError>
    ensures entered { OnOk result (at_bytes label.now.name offsets.new ≡ Some label.now.offset) }
    ensures others { OnOk result ((n : List ℕ) → ¬ (n ≡ label.now.name) → at_bytes n offsets.new ≡ at_bytes n offsets.old) }
{
    let key = label.name.as_slice().to_vec(alloc)?;
    offsets.insert(key, label.offset)?;
    Ok(())
}
