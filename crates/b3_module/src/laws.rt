//! Laws of texts.

ghost use Rattle.std.specs.Prelude.{◌≡◌, ◌+◌, ◌≤◌, ℕ, List, All, length, sum_by};
ghost use Rattle.std.specs.List.{AllByRecursion};
ghost use Rattle.b3_ir.specs.declared.value.Value.{Value};
ghost use Rattle.b3_ir.specs.Names.{IsName};
ghost use Rattle.b3_ir.specs.Procedure.{Block, Procedure, total};
ghost use Rattle.b3_rows.specs.Ranges.{IsGoodRow};
ghost use Rattle.b3_module.specs.Canonical.{AreRowed, RowsSpell, canonical_rows, lined};
ghost use Rattle.b3_module.specs.Limits.{KeepsLimits, cases_of, operands};
ghost use Rattle.b3_module.specs.TextModules.{IsTextModule, IsTextValue, targets_of};
ghost use Rattle.b3_module.specs.Texts.{Spells};

use b3_rows::rows_are_in_range;

/// Tells that the rows of a module spell it, with their own lines. It takes no memory.
#[tactic(auto, using(crate::proofs::Canonically::rows_spell))]
pub fn rows_spell()
    ensures { RowsSpell }
{}

/// Tells what bytes spell: a module whose names, numbers and values are ones that lines can say, so that it has
/// canonical rows, and each of them is one that a good line can say. It takes no memory.
pub fn texts_are_listed()
    ensures given { (bytes : List ℕ) (m : List Procedure) → Spells bytes m → IsTextModule m }
    ensures rowed { (m : List Procedure) → IsTextModule m → AreRowed m }
    ensures rows { (m : List Procedure) → IsTextModule m → AllByRecursion IsGoodRow (canonical_rows m) }
{
    rows_are_in_range();
}

/// Tells what bytes spell within the limits: at most 256 procedures, each with a name. It takes no memory.
pub fn texts_are_named()
    ensures few { (m : List Procedure) → KeepsLimits m → length m ≤ 256 }
    ensures names { (bytes : List ℕ) (m : List Procedure) → Spells bytes m → All (λ (p : Procedure). IsName p.name) m }
{
    texts_are_listed();
}

/// Tells what a module on new lines keeps: its canonical rows, and the limits. It takes no memory.
pub fn lines_are_free()
    ensures rows { (line : ℕ) (m : List Procedure) → canonical_rows (lined line m) ≡ canonical_rows m }
    ensures limits { (line : ℕ) (m : List Procedure) → KeepsLimits m → KeepsLimits (lined line m) }
{}

/// Tells what the limits say of whole modules: at most 65,536 values in all procedures together, 262,144 children and
/// cases, and in each procedure 4,096 slots and 4,096 blocks. It takes no memory.
pub fn limits_are_counted()
    ensures values { (m : List Procedure) → KeepsLimits m → sum_by total m ≤ 65536 }
    ensures operands { (m : List Procedure) → KeepsLimits m
        → sum_by (λ (p : Procedure). sum_by (λ (b : Block). sum_by operands b.values) p.blocks) m ≤ 262144 }
    ensures slots { (m : List Procedure) → KeepsLimits m → All (λ (p : Procedure). length p.slots ≤ 4096) m }
    ensures blocks { (m : List Procedure) → KeepsLimits m → All (λ (p : Procedure). length p.blocks ≤ 4096) m }
{}

/// Tells that a value of a text has at most two successors more than cases. It takes no memory.
#[tactic(auto, using(crate::proofs::LimitCounts::few_successors))]
pub fn successors_are_few()
    ensures { (v : Value) → IsTextValue v → length (targets_of v.body) ≤ cases_of v.body + 2 }
{}
