//! From homes to classes and back.

ghost use Rattle.std.specs.Prelude.{◌≡◌, ℕ, ◌+◌, ◌<◌, ◌≤◌, ◌^◌, length, slice_index_or, Some, None, leb, true, false, IfOk};
ghost use Rattle.air_colour.specs.Kept.{given_in};
ghost use Rattle.air_colour.specs.Progress.{class_in};

use b3_base::NoMemory;
use std::alloc::Global;

/// Which of the homes are registers: those after the temporaries.
pub(crate) fn mark_registers(
    alloc: Global,
    temporaries: usize,
    homes: usize,
) -> Result<Vec<bool>, NoMemory>
    requires homes { temporaries ≤ homes }
    ensures long { IfOk result (λ fixed. length fixed.items ≡ homes) }
    ensures marked { IfOk result (λ fixed. (x : ℕ) → x < homes
        → slice_index_or fixed.items x false ≡ leb temporaries x) }
{
    let mut fixed = Vec::new(alloc);
    for x in 0..homes {
        fixed.push(temporaries <= x)?;
    }
    Ok(fixed)
}

/// Gives each register to its class.
pub(crate) fn give_registers(
    given: &mut [Option<usize>],
    class: &[usize],
    temporaries: usize,
    k: usize,
)
    requires homes { temporaries + k ≤ length class.now }
    requires below { (u : ℕ) → u < length class.now → slice_index_or class.now u 0 < length given.old }
    requires apart { (r s : ℕ) → r < k → s < k
        → slice_index_or class.now (temporaries + r) 0 ≡ slice_index_or class.now (temporaries + s) 0 → r ≡ s }
    requires none { (x : ℕ) → given_in given.old x ≡ None }
    ensures own { (r : ℕ) → r < k → given_in given.new (slice_index_or class.now (temporaries + r) 0) ≡ Some r }
    ensures only { (x r : ℕ) → given_in given.new x ≡ Some r → (r < k)
        × (slice_index_or class.now (temporaries + r) 0 ≡ x) }
{
    for r in 0..k {
        given[class[temporaries + r]] = Some(r);
    }
}

/// What each home is given, by its class.
pub(crate) fn spread(
    alloc: Global,
    given: &[Option<usize>],
    class: &[usize],
) -> Result<Vec<Option<usize>>, NoMemory>
    requires below { (u : ℕ) → u < length class.now → slice_index_or class.now u 0 < length given.now }
    ensures long { IfOk result (λ homes. length homes.items ≡ length class.now) }
    ensures given { IfOk result (λ homes. (u : ℕ) → u < length class.now
        → given_in homes.items u ≡ given_in given.now (slice_index_or class.now u 0)) }
{
    let mut homes = Vec::new(alloc);
    for u in 0..class.len() {
        homes.push(given[class[u]])?;
    }
    Ok(homes)
}
