//! What liveness asks of a flow of blocks.

ghost use Rattle.std.specs.Prelude.{◌≡◌, ◌<◌};
ghost use Rattle.flow_live.specs.Graph.{Graph};

use crate::touch::Touch;

/// A flow of blocks. Blocks, the places of a block, the touches of a place and the successors of
/// a block are each counted from 0.
pub trait Flow {
    ghost shape: { Self → Graph };

    /// How many blocks there are.
    fn blocks(&self) -> usize
        ensures { result ≡ (shape self.now).blocks };

    /// How many names there are.
    fn names(&self) -> usize
        ensures { result ≡ (shape self.now).names };

    /// How many places a block has.
    fn places(&self, block: usize) -> usize
        requires { block < (shape self.now).blocks }
        ensures { result ≡ (shape self.now).places block };

    /// How many successors a block has.
    fn successors(&self, block: usize) -> usize
        requires { block < (shape self.now).blocks }
        ensures { result ≡ (shape self.now).successors block };

    /// A successor of a block.
    fn successor(&self, block: usize, k: usize) -> usize
        requires block { block < (shape self.now).blocks }
        requires k { k < (shape self.now).successors block }
        ensures { result ≡ (shape self.now).successor block k };

    /// How many names a place touches.
    fn touches(&self, block: usize, place: usize) -> usize
        requires block { block < (shape self.now).blocks }
        requires place { place < (shape self.now).places block }
        ensures { result ≡ (shape self.now).touches block place };

    /// A touch of a place.
    fn touch(&self, block: usize, place: usize, k: usize) -> Touch
        requires block { block < (shape self.now).blocks }
        requires place { place < (shape self.now).places block }
        requires k { k < (shape self.now).touches block place }
        ensures { result ≡ (shape self.now).touch block place k };
}
