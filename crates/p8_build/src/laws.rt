// What holds of building.
ghost use Rattle.std.specs.Prelude.{◌≡◌, ℕ, List, Option, IsTrue, is_some};
ghost use Rattle.p8_tree.specs.Projects.{NamedSource};
ghost use Rattle.p8_tree.specs.declared.faults.Fault.{Fault};
ghost use Rattle.p8_tree.specs.Refusals.{refusal_number};
ghost use Rattle.p8_tree.specs.Sources.{Source};
ghost use Rattle.p8_tree.specs.declared.refusal.Refusal.TheVariants.{WrongArity};
ghost use Rattle.p8_constants.specs.FileItems.{items};
ghost use Rattle.p8_fold.specs.Meanings.{Setting};
ghost use Rattle.p8_kinds.specs.Misuses.{MisuseInStatements};
ghost use Rattle.p8_kinds.specs.declared.children.Children.{Children};
ghost use Rattle.p8_names.specs.Faults.{InMethods, in_method};
ghost use Rattle.p8_names.specs.Kinds.{numbered};
ghost use Rattle.p8_names.specs.Mentions.{AreDistinct, HaveNoRing};
ghost use Rattle.p8_image.specs.declared.clocks.Clock.{Clock};
ghost use Rattle.p8_image.specs.declared.parts.ObjectPart.{ObjectPart};
ghost use Rattle.p8_build.specs.Arguments.{AreFew, arguments_at};
ghost use Rattle.p8_build.specs.Builds.{IsBuilt, IsRefusedWith};
ghost use Rattle.p8_build.specs.Sizes.{IsMeasured};
ghost use Rattle.p8_build.specs.declared.sizes.Size.{Size};

/// Law: a project that is gathered is built to one thing alone, or it is refused for one reason and of one size alone, and never both.
pub fn one_build()
    ensures built { (files : List NamedSource) → AreDistinct files → HaveNoRing files → (c d : Clock) → (a b : List ObjectPart) → IsBuilt files c a →
        IsBuilt files d b → (c ≡ d) × (a ≡ b) }
    ensures refused { (files : List NamedSource) → AreDistinct files → HaveNoRing files → (n m : List ℕ) → (f g : Fault) → IsRefusedWith files n f →
        IsRefusedWith files m g → (n ≡ m) × (f ≡ g) }
    ensures measured { (files : List NamedSource) → AreDistinct files → HaveNoRing files → (n m : List ℕ) → (f g : Fault) → (s t : Option Size) →
        IsMeasured files n f s → IsMeasured files m g t → (n ≡ m) × (f ≡ g) × (s ≡ t) }
    ensures never_both { (files : List NamedSource) → AreDistinct files → HaveNoRing files → (c : Clock) → (a : List ObjectPart) → (n : List ℕ) →
        (f : Fault) → IsBuilt files c a → ¬ IsRefusedWith files n f }
{
    p8_names::one_for_each_project();
}

/// Law: where a method's statements are refused with 17, the numbers of arguments are told. A method with more than 15 parameters is itself refused with 17, at
/// its name.
pub fn miscounted_calls_are_told()
    ensures { (s : Setting) → (source : Source) → (children : Children) → (f : Fault) → AreFew (items source) →
        f.number ≡ refusal_number WrongArity → InMethods (λ m g. MisuseInStatements (in_method s (items source) children m) m.body g)
        (numbered (items source)) f → IsTrue (is_some (arguments_at source children f.place)) }
{}
