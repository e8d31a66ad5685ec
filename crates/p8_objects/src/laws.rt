// Laws of projects.
ghost use Rattle.std.specs.Prelude.{◌≡◌, ◌↔◌, ℕ, List, Option, Some};
ghost use Rattle.p8_tree.specs.Projects.{NamedSource};
ghost use Rattle.p8_objects.specs.Outcomes.{Outcome, Shelved, shelved, Gathers, project};
ghost use Rattle.p8_objects.specs.Growing.{IsProjectOf};
ghost use Rattle.p8_objects.specs.Whole.{IsOfFiles};

/// Where a shelf tells its files, gathering comes to one outcome, but for faults of the shelf.
pub fn one_outcome()
    ensures { (files : List ℕ → Option (List ℕ)) (before now : ℕ) (top : List ℕ) (a b : Outcome) → Gathers (shelved (Some files) before now) top a →
        Gathers (shelved (Some files) before now) top b → IsOfFiles a → IsOfFiles b → a ≡ b }
{
    p8_lexer::one_answer();
    p8_blocks::one_answer();
    p8_blocks::statements_have_kinds();
    p8_blocks::chain_lines_have_kinds();
    p8_blocks::loop_ends_have_kinds();
    p8_blocks::case_items_have_kinds();
}

/// Gathering comes to a project exactly where that is the project of the top file, whatever faults the shelf counts.
pub fn projects_are_gathered()
    ensures { (shelf : Shelved) (top : List ℕ) (files : List NamedSource) → Gathers shelf top (project files) ↔ IsProjectOf shelf.files top files }
{}
