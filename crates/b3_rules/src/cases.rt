//! The rule on the cases of a Switch.

ghost use Rattle.std.specs.Prelude.{◌≡◌, ◌≢◌, ◌↔◌, IsTrue, IfOk, All, AllPairs};
ghost use Rattle.b3_base.specs.Arithmetic as arithmetic;
ghost use Rattle.b3_ir.specs.Types as types;
ghost use Rattle.b3_rules.specs.Rules.{AreCasesOf, IsCaseOf};

use b3_base::{NoMemory, Width, low};
use b3_ir::{Body, Ty};
use std::alloc::Global;
use std::collections::BTreeSet;

/// Whether the cases of a Switch over a child of this type differ and are words of it: of an Int32, a
/// case is from -2^31 to 2^32 - 1, and two are equal where their low 32 bits are. It is refused for
/// want of memory alone.
pub fn cases_keep(alloc: Global, ty: Ty, body: &Body) -> Result<bool, NoMemory>
    ensures { IfOk result (λ keeps. IsTrue keeps ↔ AreCasesOf ty body.now) }
{
    match body {
        Body::Cases { cases, .. } => {
            let words = cases.as_slice();
            Ok(are_cases(ty, words) && differ(alloc, width_of(ty), words)?)
        }
        _ => Ok(true),
    }
}

fn are_cases(ty: Ty, words: &[u64]) -> bool
    ensures { IsTrue result ↔ All (IsCaseOf ty) words.now }
{
    for word in words {
        if !is_case(ty, *word) {
            return false;
        }
    }
    true
}

fn is_case(ty: Ty, word: u64) -> bool
    ensures { IsTrue result ↔ IsCaseOf ty word }
{
    match ty {
        Ty::Int32 => word < 0x1_0000_0000 || 0xffff_ffff_8000_0000 <= word,
        Ty::Void | Ty::Int64 => true,
    }
}

fn width_of(ty: Ty) -> Width
    ensures { result ≡ types.width_of ty }
{
    match ty {
        Ty::Int32 => Width::W32,
        Ty::Void | Ty::Int64 => Width::W64,
    }
}

// Whether no two words are equal in a width.
fn differ(alloc: Global, width: Width, words: &[u64]) -> Result<bool, NoMemory>
    ensures { IfOk result (λ differ.
        IsTrue differ ↔ AllPairs (λ a b. arithmetic.low width a ≢ arithmetic.low width b) words.now) }
{
    let mut seen = BTreeSet::new(alloc);
    for word in words {
        if !seen.insert(low(width, *word))? {
            return Ok(false);
        }
    }
    Ok(true)
}
