// What holds of the legend of every project.
ghost use Rattle.std.specs.Prelude.{ℕ, List};
ghost use Rattle.p8_tree.specs.Projects.{NamedSource};
ghost use Rattle.p8_names.specs.Mentions.{AreDistinct, HaveNoRing};
ghost use Rattle.p8_legend.specs.declared.legend.Legend.{Legend};
ghost use Rattle.p8_legend.specs.Projects.{AreSame, IsLegendOf};

/// Law: a project whose files have these bytes has one legend.
pub fn one_legend()
    ensures { (sources : List (List ℕ)) → (files : List NamedSource) → AreDistinct files → HaveNoRing files → (a : Legend) → (b : Legend) →
        IsLegendOf sources files a → IsLegendOf sources files b → AreSame a b }
{
    p8_names::one_for_each_project();
}
