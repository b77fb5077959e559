//! The text that is made from a number is one of a valid module.
#![tactic(auto)]

ghost use Rattle.std.specs.Prelude.{ℕ};
ghost use Rattle.b3_generated.specs.Laws.{IsGoodText};

use b3_print::texts_are_read_again;

/// Tells that each text that is made from a number spells a valid module within the limits. It takes no memory.
pub fn generated_texts_are_good()
    ensures { (n : ℕ) → IsGoodText n }
{
    texts_are_read_again();
}
