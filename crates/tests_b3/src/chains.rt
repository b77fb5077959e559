//! How many items chains hold, counted from outside.

ghost use Rattle.std.specs.Prelude.{◌≡◌, ◌+◌, ◌<◌, ◌≤◌, length, OnOk};

use ir_arena::{ChainId, Chains};
use std::alloc::Global;
use std::rc::Rc;
use std::test::Fail;
use tests_rows::Teller;

/// Tells how many owners an item has with itself: once twice so many are in a chain, once the first half was
/// removed, once as many are put in again, and once the chains are dropped.
#[derive(Drop)]
pub(crate) struct LongChain;

impl Teller for LongChain {
    fn told(&mut self, alloc: Global, asked: &str) -> Result<String, Fail> {
        let half = asked.parse::<u32>()?;
        if half > 10_000 {
            return Err(Fail::from("too many items"));
        }
        counts(alloc, half)
    }
}

fn counts(alloc: Global, half: u32) -> Result<String, Fail>
    requires { half ≤ 10000 }
{
    let item = Rc::new(alloc, 0u32)?;
    let mut chains = Chains::new(alloc);
    let chain = chains.add_chain()?;
    chains.reserve(2 * half as usize)?;
    fill(&mut chains, chain, &item, 2 * half)?;
    let full = Rc::strong_count(&item);
    take_firsts(&mut chains, chain, half)?;
    let taken = Rc::strong_count(&item);
    fill(&mut chains, chain, &item, half)?;
    let again = Rc::strong_count(&item);
    drop(chains);
    let last = Rc::strong_count(&item);
    Ok(format!(in alloc; "{full} {taken} {again} {last}")?)
}

/// Puts an item so many times last into a chain.
fn fill(
    chains: &mut Chains<Rc<u32>>,
    chain: ChainId,
    item: &Rc<u32>,
    count: u32,
) -> Result<(), Fail>
    requires room { count ≤ chains.old.spare }
    requires chain { chain < length chains.old.lists }
    ensures spare { OnOk result (chains.new.spare + count ≡ chains.old.spare) }
    ensures lists { length chains.new.lists ≡ length chains.old.lists }
{
    for _ in 0..count {
        let owner = item.clone()?;
        let last = chains.last(chain);
        chains.insert_after(chain, last, owner);
    }
    Ok(())
}

/// Removes the first item of a chain so many times.
fn take_firsts(chains: &mut Chains<Rc<u32>>, chain: ChainId, count: u32) -> Result<(), Fail>
    requires chain { chain < length chains.old.lists }
    ensures spare { OnOk result (chains.new.spare ≡ chains.old.spare + count) }
    ensures lists { length chains.new.lists ≡ length chains.old.lists }
{
    for _ in 0..count {
        let Some(first) = chains.first(chain) else {
            return Err(Fail::from("an empty chain"));
        };
        drop(chains.remove(first));
    }
    Ok(())
}
