//! What one place does to one name.

ghost use Rattle.std.specs.Prelude.{◌≡◌, ◌<◌, ◌↔◌, IsTrue};
ghost use Rattle.flow_live.specs.Graph.{Place, Uses, Defines, IsUseOf, IsDefOf};

use crate::flow::Flow;
use crate::touch::Touch;

impl Touch {
    /// Whether the touch uses the name, at once or late.
    fn is_use_of(self, name: usize) -> bool
        ensures { IsTrue result ↔ IsUseOf self name }
    {
        match self {
            Touch::Use(used) => used == name,
            Touch::LateUse(used) => used == name,
            Touch::Def(_) => false,
        }
    }

    /// Whether the touch defines the name.
    fn is_def_of(self, name: usize) -> bool
        ensures { IsTrue result ↔ IsDefOf self name }
    {
        match self {
            Touch::Use(_) => false,
            Touch::LateUse(_) => false,
            Touch::Def(defined) => defined == name,
        }
    }
}

/// Whether the place uses the name.
pub(crate) fn uses<F: Flow>(flow: &F, block: usize, place: usize, name: usize) -> bool
    requires block { block < (F.shape flow.now).blocks }
    requires place { place < (F.shape flow.now).places block }
    ensures { IsTrue result ↔ Uses (F.shape flow.now) name (record { block = block; place = place }) }
{
    for k in 0..flow.touches(block, place) {
        if flow.touch(block, place, k).is_use_of(name) {
            return true;
        }
    }
    false
}

/// Whether the place defines the name.
pub(crate) fn defines<F: Flow>(flow: &F, block: usize, place: usize, name: usize) -> bool
    requires block { block < (F.shape flow.now).blocks }
    requires place { place < (F.shape flow.now).places block }
    ensures { IsTrue result ↔ Defines (F.shape flow.now) name (record { block = block; place = place }) }
{
    for k in 0..flow.touches(block, place) {
        if flow.touch(block, place, k).is_def_of(name) {
            return true;
        }
    }
    false
}
