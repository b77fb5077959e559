//! Laws of canonical text.

ghost use Rattle.std.specs.Prelude.{◌≡◌, ◌<◌, ◌^◌, ℕ, List, length};
ghost use Rattle.b3_ir.specs.Procedure.{Procedure};
ghost use Rattle.b3_module.specs.Canonical.{lined};
ghost use Rattle.b3_module.specs.Limits.{KeepsLimits};
ghost use Rattle.b3_module.specs.TextModules.{IsTextModule};
ghost use Rattle.b3_module.specs.Texts.{Spells};
ghost use Rattle.b3_print.specs.Printed.{canonical};

use b3_module::{
    limits_are_counted, lines_are_free, rows_spell, successors_are_few, texts_are_listed,
    texts_are_named,
};
use b3_written::{lines_are_cut, lines_are_short, rows_are_read};

/// Tells that canonical text is a text of its module, on the lines of that text: what is read from it is the same
/// procedures, within the limits if they were, and their canonical text is the same again. It takes no memory.
pub fn texts_are_read_again()
    // The canonical text of what some bytes spell, and of each module that a text can spell.
    ensures spelled { (bytes : List ℕ) (m : List Procedure) → Spells bytes m → Spells (canonical m) (lined 1 m) }
    ensures text { (m : List Procedure) → IsTextModule m → Spells (canonical m) (lined 1 m) }
    ensures same { (m : List Procedure) → canonical (lined 1 m) ≡ canonical m }
    ensures limits { (m : List Procedure) → KeepsLimits m → KeepsLimits (lined 1 m) }
{
    rows_are_read();
    lines_are_cut();
    rows_spell();
    texts_are_listed();
    lines_are_free();
}

/// Tells that canonical text within the limits is short: it has fewer than 134,217,728 bytes, so that `read` may be
/// called with it. It takes no memory.
pub fn canonical_texts_are_short()
    // The canonical text of what some bytes spell, and of each module that a text can spell.
    ensures spelled { (bytes : List ℕ) (m : List Procedure) → Spells bytes m → KeepsLimits m → length (canonical m) < 2 ^ 27 }
    ensures text { (m : List Procedure) → IsTextModule m → KeepsLimits m → length (canonical m) < 2 ^ 27 }
{
    lines_are_short();
    texts_are_listed();
    texts_are_named();
    limits_are_counted();
    successors_are_few();
}
