ghost use Rattle.std.specs.Prelude.{ℕ, List, IsTrue};
ghost use Rattle.std.specs.List.{list_all};
ghost use Rattle.delim_io.specs.Input.{is_unmarked, is_plain_line, IsReadAsParts};

/// The law of lines that are cut by hand. A line has a byte, doesn't begin with EF BB BF and has
/// neither quote, carriage return nor line feed: then the parts between the delimiters are the
/// fields that `csv` reads with that delimiter, and nothing is left of the line.
pub fn plain_line_is_read_as_parts()
    ensures { (delimiter : ℕ) (line : List ℕ)
        → IsTrue (is_plain_line line)
        → IsTrue (list_all is_unmarked line)
        → IsReadAsParts delimiter line }
{}
