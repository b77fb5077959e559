//! Laws of the lines that are written.

ghost use Rattle.std.specs.Prelude.{◌≡◌, ◌≤◌, ◌∷◌, ◌++◌, ℕ, List, length};
ghost use Rattle.b3_ir.specs.Fits.{Fits};
ghost use Rattle.b3_ir.specs.Table.{row_of};
ghost use Rattle.b3_ir.specs.declared.value.Value.{Value};
ghost use Rattle.b3_lines.specs.Lines.{lines_of};
ghost use Rattle.b3_rows.specs.Ranges.{IsGoodRow};
ghost use Rattle.b3_rows.specs.Rows.{row_of_line};
ghost use Rattle.b3_rows.specs.declared.row.Row.{Row};
ghost use Rattle.b3_rows.specs.declared.row.Row.TheVariants.{ValueRow};
ghost use Rattle.b3_rows.specs.Written.{line_of_row};
ghost use Rattle.b3_written.specs.Lengths.{most_bytes};
ghost use Rattle.b3_written.specs.Listed.{FitsWord};

use b3_rows::lines_fit;

/// Tells that a constant is a word of the width of its row, in each value that may stand in a procedure and in each
/// that a line says. It takes no memory.
pub fn words_fit()
    ensures fit { (v : Value) → Fits v → FitsWord (row_of v.kind.opcode).carries v.body }
    ensures read { (line : List ℕ) (v : Value) → row_of_line line ≡ ValueRow v → FitsWord (row_of v.kind.opcode).carries v.body }
{
    lines_fit();
}

/// Tells that each row is read again from its canonical line: headers, slots, headings, values, successors, and lines
/// that say nothing. It takes no memory.
pub fn rows_are_read()
    ensures { (row : Row) → IsGoodRow row → row_of_line (line_of_row row) ≡ row }
{}

/// Tells that a canonical line that LF, 10, ends is cut off again as it is. It takes no memory.
pub fn lines_are_cut()
    ensures { (row : Row) → IsGoodRow row → (rest : List ℕ)
        → lines_of (line_of_row row ++ (10 ∷ rest)) ≡ line_of_row row ∷ lines_of rest }
{}

/// Tells how many bytes a canonical line may have. It takes no memory.
pub fn lines_are_short()
    ensures { (row : Row) → IsGoodRow row → length (line_of_row row) ≤ most_bytes row }
{}
