// Laws of the line table of a project. The functions do nothing: their contracts are the laws.
ghost use Rattle.std.specs.Prelude.{◌≡◌, ℕ, ◌+◌, ◌<◌, All, List, length, slice_get, slice_index, Some};
ghost use Rattle.p8_tree.specs.Projects.{NamedSource};
ghost use Rattle.p8_names.specs.Mentions.{AreDistinct, HaveNoRing};
ghost use Rattle.p8_image.specs.declared.clocks.Clock.{Clock};
ghost use Rattle.p8_image.specs.declared.parts.MethodPart.{MethodPart};
ghost use Rattle.p8_image.specs.declared.parts.ObjectPart.{ObjectPart};
ghost use Rattle.p8_image.specs.Layout.{bases_of, code_offset};
ghost use Rattle.p8_build.specs.Builds.{IsBuilt};
ghost use Rattle.p8_legend.specs.declared.table.LineTable.{LineTable};
ghost use Rattle.p8_legend.specs.Rows.{IsLineTable, AreApart};
ghost use Rattle.p8_legend.specs.Covering.{HasRow};
ghost use Rattle.p8_legend.specs.Origins.{IsRowOf};

/// Law: in the line table of a project that is built no two rows hold one address. So
/// [`at`](crate::LineTable::at) tells of each address exactly the row that holds it, and of no other address any row.
pub fn table_tells_each_address_once()
    ensures { (files : List NamedSource) → AreDistinct files → HaveNoRing files → (clock : Clock) → (objects : List ObjectPart) →
        (table : LineTable) → IsBuilt files clock objects → IsLineTable files table → AreApart table.rows }
{
    p8_names::one_for_each_project();
}

/// Law: each row of a project's line table is of a statement of the method that it names, or of that method's `RETURN` at the end, which has the
/// place of the method's name.
pub fn rows_are_of_their_methods()
    ensures { (files : List NamedSource) → (table : LineTable) → IsLineTable files table → All (IsRowOf files) table.rows }
{}

/// Law: in the line table of a project that is built each byte of each method's code has a row, which names that file and that method.
///
/// Files and methods are those of the image's layout: the objects in the order of their files, counted from 0, at their bases, and in each the
/// methods, which the row counts from 1, with their codes.
pub fn each_byte_of_code_has_a_row()
    ensures { (files : List NamedSource) → AreDistinct files → HaveNoRing files → (clock : Clock) → (objects : List ObjectPart) →
        (table : LineTable) → IsBuilt files clock objects → IsLineTable files table → (i : ℕ) → (object : ObjectPart) →
        slice_get objects i ≡ Some object → (k : ℕ) → (method : MethodPart) → slice_get object.methods k ≡ Some method → (o : ℕ) →
        o < length method.code → HasRow table.rows (slice_index (bases_of objects) i + code_offset object k + o) i (k + 1) }
{
    p8_names::one_for_each_project();
}
