//! A procedure of Air as a flow.

ghost use Rattle.std.specs.Prelude.{◌≡◌, map, IfOk};
ghost use Rattle.air_flow.specs.Flow.{block_touches, flow_of};

use crate::touches::{Touches, block_touches};
use air_ir::AirProc;
use b3_base::{NoMemory, Seq};
use flow_live::{Flow, Touch};
use std::alloc::Global;

/// A procedure of Air as liveness sees it. Its names are the temporaries by their numbers, and after them the
/// registers x0 to x30; a spill place has no name. Its places are the instructions. An instruction touches the
/// homes of each operand: a late use those of a LateUse operand, a use those of a Use operand and the base and
/// index of any other, a definition the home of any other. Each call of `Flow` takes a fixed number of steps.
#[derive(Drop)]
pub struct AirFlow<'a> {
    /// The procedure.
    pub proc: &'a AirProc,
    touches: Seq<Seq<Touches>>,
    ghost gathered: { touches ≡ map (block_touches proc.now.tmps) proc.now.blocks },
}

impl<'a> AirFlow<'a> {
    /// The flow of a procedure, whose touches it gathers. It is refused for want of memory alone.
    pub fn new(alloc: Global, proc: &'a AirProc) -> Result<AirFlow<'a>, NoMemory>
        ensures { IfOk result (λ flow. flow.proc.now ≡ proc.now) }
    {
        let mut touches = Seq::new(alloc);
        for block in proc.blocks.as_slice() {
            touches.push(block_touches(alloc, proc.tmps, block)?)?;
        }
        Ok(AirFlow { proc, touches })
    }
}

impl<'a> Flow for AirFlow<'a> {
    ghost shape = { λ s. flow_of s.proc.now };

    fn blocks(&self) -> usize {
        self.proc.blocks.len()
    }

    fn names(&self) -> usize {
        self.proc.tmps as usize + 31
    }

    fn places(&self, block: usize) -> usize {
        self.proc.blocks.get(block).insts.len()
    }

    fn successors(&self, block: usize) -> usize {
        self.proc.blocks.get(block).targets.len()
    }

    fn successor(&self, block: usize, k: usize) -> usize {
        *self.proc.blocks.get(block).targets.get(k) as usize
    }

    fn touches(&self, block: usize, place: usize) -> usize {
        self.touches.get(block).get(place).len()
    }

    fn touch(&self, block: usize, place: usize, k: usize) -> Touch {
        *self.touches.get(block).get(place).get(k)
    }
}
