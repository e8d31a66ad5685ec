// What holds of the hints of every project.
ghost use Rattle.std.specs.Prelude.{◌≡◌, ℕ, List};
ghost use Rattle.p8_tree.specs.Projects.{NamedSource};
ghost use Rattle.p8_names.specs.Mentions.{AreDistinct, HaveNoRing};
ghost use Rattle.p8_hint.specs.Projects.{IsHintsOf};

/// Law: a project whose files have these bytes has one text of hints.
pub fn one_hints()
    ensures { (sources : List (List ℕ)) → (files : List NamedSource) → AreDistinct files → HaveNoRing files → (a b : List ℕ) →
        IsHintsOf sources files a → IsHintsOf sources files b → a ≡ b }
{
    p8_names::one_for_each_project();
}
