//! Laws of rows.

ghost use Rattle.std.specs.Prelude.{ℕ, List};
ghost use Rattle.b3_rows.specs.Ranges.{IsInRange};
ghost use Rattle.b3_rows.specs.Rows.{row_of_line};
ghost use Rattle.b3_rows.specs.Successors.{LinesFit};

/// Tells that the value that a line says may stand in a procedure, with as many successors as it has. It takes no
/// memory.
pub fn lines_fit()
    ensures { LinesFit }
{}

/// Tells that what a line says is in its range: names, numbers of 31 bits, values whose bodies fit their opcodes, and
/// at least the fall-through of cases. It takes no memory.
pub fn rows_are_in_range()
    ensures { (line : List ℕ) → IsInRange (row_of_line line) }
{}
