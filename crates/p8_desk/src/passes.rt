// The passes of a desk.
ghost use Rattle.std.specs.Prelude.{◌≡◌, ◌<◌, ◌↔◌, Some, None, slice_get, slice_set, IfErr, OnOk, IfSome, IsOk};

use crate::pass::CogPass;
use std::marker::Model;

/// Eight places, each with the pass of its cog or none.
#[derive(Drop)]
pub struct Passes {
    pub(crate) places: Vec<Option<CogPass>>,
}

impl Model for Passes {
    ghost use Rattle.std.specs.Prelude.{List, Option};
    ghost use Rattle.p8_desk.specs.Passes.{PassValue};
    ghost use Rattle.p8_desk.specs.PassSets.{InPlace};

    ghost Value = { List (Option PassValue) };

    ghost view = { λ p. p.places.items };

    ghost invariant = { λ p. InPlace p.places.items };
}

impl Passes {
    ghost use Rattle.p8_desk.specs.PassSets.{IsOut};

    /// Takes the pass of a cog: None exactly where it is out.
    pub fn take(&mut self, cog: u8) -> Option<CogPass>
        requires { cog < 8 }
        ensures taken { slice_get self.old cog ≡ Some result }
        ensures left { self.new ≡ slice_set self.old cog None }
        ensures cog { IfSome result (λ pass. pass.cog ≡ cog) }
    {
        self.places[cog as usize].take()
    }

    /// Puts a pass back, exactly where its place isn't filled; else the pass comes back.
    pub fn put(&mut self, pass: CogPass) -> Result<(), CogPass>
        ensures put { OnOk result (self.new ≡ slice_set self.old pass.cog (Some pass)) }
        ensures back { IfErr result (λ same. (same ≡ pass) × (self.new ≡ self.old)) }
        ensures exactly { IsOk result ↔ IsOut pass.cog self.old }
    {
        let place = pass.cog() as usize;
        if self.places[place].is_some() {
            return Err(pass);
        }
        self.places[place] = Some(pass);
        Ok(())
    }
}
