//! The state of a run, and how a value's step ends.

ghost use Rattle.std.specs.Prelude.{◌≡◌, ℕ, List, IfOk, OnOk};
ghost use Rattle.std.specs.BTreeMap as tree;
ghost use Rattle.std.specs.Ordering.{nat_cmp};
ghost use Rattle.b3_base.specs.Observed.{start_of, Answer as LeftAnswer};
ghost use Rattle.b3_eval.specs.Lookup.{with_entry};
ghost use Rattle.b3_eval.specs.Stands.{state_of, Shows};
ghost use Rattle.b3_meaning.specs.Opcodes.{Outcome, word_given};
ghost use Rattle.b3_meaning.specs.Run as run;

use b3_base::{Events, Memory, NoMemory, Seq, Start, Status};
use b3_ir::Body;
use std::alloc::Global;
use std::collections::BTreeMap;

/// The words that values last gave and the words in the locations of Phis, by ids; the memory; and
/// the events so far.
#[derive(Drop)]
pub(crate) struct State {
    pub(crate) words: BTreeMap<u32, u64>,
    pub(crate) locations: BTreeMap<u32, u64>,
    pub(crate) memory: Memory,
    pub(crate) events: Events,
}

/// How the step of a value or of a block ends.
#[derive(Drop)]
pub(crate) enum Flow {
    /// The next value of the block runs.
    Next,
    /// The run goes on at this block.
    To(u32),
    /// The run ends, or waits.
    Over(Status),
    /// It did what B3 leaves undefined, or no valid procedure has such a value.
    Lost,
}

impl State {
    /// Nothing has a word.
    pub(crate) fn first(alloc: Global, start: &Start) -> Result<State, NoMemory>
        ensures { (answers : List LeftAnswer)
            → IfOk result (λ st. run.first (start_of start.now) answers ≡ run.At 0 (state_of answers st)) }
    {
        Ok(State {
            words: BTreeMap::new(alloc),
            locations: BTreeMap::new(alloc),
            memory: start.memory.copy(alloc)?,
            events: Seq::new(alloc),
        })
    }

    /// The value with this id gives a word, or the run is lost.
    pub(crate) fn give(&mut self, id: u32, word: Option<u64>) -> Result<Flow, NoMemory>
        ensures { (rest : List LeftAnswer) (outcome : Outcome) → word ≡ word_given outcome
            → IfOk result (λ flow. Shows flow (state_of rest self.new)
            (run.gives (state_of rest self.old) id outcome)) }
    {
        match word {
            Some(word) => {
                put(&mut self.words, id, word)?;
                Ok(Flow::Next)
            }
            None => Ok(Flow::Lost),
        }
    }

    /// An Upsilon puts its child's word into the location of its Phi.
    pub(crate) fn set_phi(&mut self, body: &Body, words: &[u64]) -> Result<Flow, NoMemory>
        ensures { (rest : List LeftAnswer)
            → IfOk result (λ flow. Shows flow (state_of rest self.new)
            (run.sets (state_of rest self.old) body.now words.now)) }
    {
        match (body, words) {
            (Body::Target(phi), [word]) => {
                put(&mut self.locations, *phi, *word)?;
                Ok(Flow::Next)
            }
            _ => Ok(Flow::Lost),
        }
    }
}

/// The word of an id.
pub(crate) fn word_at(words: &BTreeMap<u32, u64>, id: u32) -> Option<u64>
    ensures { result ≡ tree.get nat_cmp words.now id }
{
    words.get(&id).copied()
}

/// Puts a word under an id, in the place of the one that it has.
fn put(words: &mut BTreeMap<u32, u64>, id: u32, word: u64) -> Result<(), NoMemory>
    ensures { OnOk result (tree.get nat_cmp words.new ≡ with_entry (tree.get nat_cmp words.old) id word) }
{
    words.insert(id, word)?;
    Ok(())
}
