// The law of the lines of DAT. The function does nothing: its contract is the law.
ghost use Rattle.std.specs.Prelude.{◌≡◌, ◌++◌, ℕ, List, Some, codes, length};
ghost use Rattle.p8_tree.specs.Projects.{NamedSource};
ghost use Rattle.p8_dat.specs.declared.assembling.LineBegin.{LineBegin};
ghost use Rattle.p8_build.specs.Parts.{AreProper};
ghost use Rattle.p8_legend.specs.declared.legend.Legend.{Legend};
ghost use Rattle.p8_legend.specs.DatLines.{HasAddress, line_text};
ghost use Rattle.p8_legend.specs.Legends.{place_text};
ghost use Rattle.p8_legend.specs.Projects.{IsLegendOf};

/// Law: of each address that a line of a project's DAT has in the image the project's legend tells that line: `FILE:LINE`.
///
/// A line has the addresses from where its contents begin, by where its file's object stands in the image, up to where those of the next line begin, and
/// the last one those up to the codes.
pub fn addresses_of_dat_have_their_lines()
    ensures { (sources : List (List ℕ)) → (files : List NamedSource) → length sources ≡ length files → AreProper files → (legend : Legend) →
        (is : IsLegendOf sources files legend) → (file : NamedSource) → (line : LineBegin) → (address : ℕ) →
        HasAddress files is.children is.compiled file line address → place_text legend.lines (Some address) ≡ codes " " ++ line_text file.name line }
{}
