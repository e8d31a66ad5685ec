// What holds of the children of every project.
ghost use Rattle.std.specs.Prelude.{◌≡◌, List};
ghost use Rattle.p8_tree.specs.Projects.{NamedSource};
ghost use Rattle.p8_kinds.specs.declared.children.Children.{Children};
ghost use Rattle.p8_names.specs.Mentions.{AreDistinct, HaveNoRing};
ghost use Rattle.p8_names.specs.Children.{AreChildren};

/// Law: what the files of a project see of each other is one thing alone.
pub fn one_for_each_project()
    ensures { (files : List NamedSource) → AreDistinct files → HaveNoRing files → (a b : List Children) → AreChildren files a → AreChildren files b → a ≡ b }
{}
