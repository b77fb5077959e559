//! Live names of small flows.

ghost use Rattle.std.specs.Prelude.{◌≡◌, ◌%◌, ◌<◌, ◌+◌, ◌*◌, nat_lt, slice_index, if◌then◌else◌};
ghost use Rattle.flow_live.specs.Liveness.{IsLivenessOf};
ghost use Rattle.flow_live.specs.declared.touch.Touch.TheVariants.{Use, LateUse, Def};

use flow_live::{Flow, LiveSets, Touch, live};
use std::alloc::{AllocError, Global};
use std::test::Fail;
use tests_rows::Teller;

/// Tells for each block of a flow which names are live into it, before its last place and out of it.
#[derive(Drop)]
pub(crate) struct Flows;

impl Teller for Flows {
    fn told(&mut self, alloc: Global, asked: &str) -> Result<String, Fail> {
        let flow = read(asked)?;
        let sets = live(alloc, &flow)?;
        let mut text = String::new(alloc);
        for block in 0..4 {
            if block > 0 {
                text.push_str(" / ")?;
            }
            push_block(alloc, &mut text, &flow, &sets, block)?;
        }
        Ok(text)
    }
}

/// A flow of four blocks and four names, by tables, with at most two successors a block, two places
/// a block and two touches a place. A touch is the name's number, and 4 more for a late use or 8
/// more for a definition.
#[derive(Drop)]
struct SmallFlow {
    places: [u8; 4],
    successors: [u8; 4],
    successor: [u8; 8],
    touches: [u8; 8],
    touch: [u8; 16],
}

impl Flow for SmallFlow {
    ghost shape = { λ s. record {
      blocks = 4;
      names = 4;
      places = λ b. slice_index s.places b;
      successors = λ b. slice_index s.successors b;
      successor = λ b k. slice_index s.successor (b * 2 + k % 2) % 4;
      touches = λ b p. slice_index s.touches (b * 2 + p % 2);
      touch = λ b p k. let code = slice_index s.touch (b * 4 + p % 2 * 2 + k % 2) in
          (if nat_lt code 4 then Use (code % 4) else (if nat_lt code 8 then LateUse (code % 4) else Def (code % 4)));
    } };

    fn blocks(&self) -> usize {
        4
    }

    fn names(&self) -> usize {
        4
    }

    fn places(&self, block: usize) -> usize {
        usize::from(self.places[block])
    }

    fn successors(&self, block: usize) -> usize {
        usize::from(self.successors[block])
    }

    fn successor(&self, block: usize, k: usize) -> usize {
        usize::from(self.successor[block * 2 + k % 2] % 4)
    }

    fn touches(&self, block: usize, place: usize) -> usize {
        usize::from(self.touches[block * 2 + place % 2])
    }

    fn touch(&self, block: usize, place: usize, k: usize) -> Touch {
        let code = self.touch[block * 4 + place % 2 * 2 + k % 2];
        let name = usize::from(code % 4);
        if code < 4 {
            Touch::Use(name)
        } else if code < 8 {
            Touch::LateUse(name)
        } else {
            Touch::Def(name)
        }
    }
}

/// The flow of a row, as `d0 , u1 l2 -> 1 2 / .. / .. / ..`: of each block its places, and its successors.
fn read(asked: &str) -> Result<SmallFlow, Fail> {
    let mut flow = SmallFlow {
        places: [0; 4],
        successors: [0; 4],
        successor: [0; 8],
        touches: [0; 8],
        touch: [0; 16],
    };
    let mut block = 0;
    for part in asked.split('/') {
        if block >= 4 {
            return Err(Fail::from("too many blocks"));
        }
        let (places, successors) = part.split_once("->").unwrap_or((part, ""));
        read_places(&mut flow, block, places)?;
        read_successors(&mut flow, block, successors)?;
        block += 1;
    }
    Ok(flow)
}

fn read_successors(flow: &mut SmallFlow, block: usize, text: &str) -> Result<(), Fail>
    requires { block < 4 }
{
    let mut count = 0u8;
    for word in text.split_whitespace() {
        if count >= 2 {
            return Err(Fail::from("too many successors"));
        }
        flow.successor[block * 2 + usize::from(count)] = word.parse::<u8>()?;
        count += 1;
    }
    flow.successors[block] = count;
    Ok(())
}

fn read_places(flow: &mut SmallFlow, block: usize, text: &str) -> Result<(), Fail>
    requires { block < 4 }
{
    let mut count = 0u8;
    for place in text.split(',') {
        if !place.trim().is_empty() {
            if count >= 2 {
                return Err(Fail::from("too many places"));
            }
            read_touches(flow, block * 2 + usize::from(count), place)?;
            count += 1;
        }
    }
    flow.places[block] = count;
    Ok(())
}

fn read_touches(flow: &mut SmallFlow, place: usize, text: &str) -> Result<(), Fail>
    requires { place < 8 }
{
    let mut count = 0u8;
    for word in text.split_whitespace() {
        if count >= 2 {
            return Err(Fail::from("too many touches"));
        }
        flow.touch[place * 2 + usize::from(count)] = touch_of(word)?;
        count += 1;
    }
    flow.touches[place] = count;
    Ok(())
}

fn touch_of(word: &str) -> Result<u8, Fail> {
    match word.as_bytes() {
        [b'u', name @ b'0'..=b'3'] => Ok(*name - b'0'),
        [b'l', name @ b'0'..=b'3'] => Ok(*name - b'0' + 4),
        [b'd', name @ b'0'..=b'3'] => Ok(*name - b'0' + 8),
        _ => Err(Fail::from("no touch")),
    }
}

/// The names that are live into a block, before its last place and out of it.
fn push_block(
    alloc: Global,
    text: &mut String,
    flow: &SmallFlow,
    sets: &LiveSets,
    block: usize,
) -> Result<(), Fail>
    requires liveness { IsLivenessOf (⟦<SmallFlow as Flow>⟧.shape flow.now) sets.now }
    requires block { block < 4 }
{
    let last = flow.places(block).saturating_sub(1);
    let listed = sets.names_out(alloc, block)?;
    let mut before = [false; 4];
    let mut out = [false; 4];
    let mut into = [false; 4];
    for name in 0..4 {
        into[name] = sets.live_in(block, name);
        before[name] = sets.live_before(flow, block, last, name);
        out[name] = sets.live_out(block, name);
        if out[name] != listed.as_slice().contains(&name) {
            return Err(Fail::from("the names out of a block differ"));
        }
    }
    push_names(text, &into)?;
    text.push(' ')?;
    push_names(text, &before)?;
    text.push(' ')?;
    push_names(text, &out)?;
    Ok(())
}

fn push_names(text: &mut String, are_live: &[bool; 4]) -> Result<(), AllocError> {
    let mut none = true;
    for (digit, is_live) in ['0', '1', '2', '3'].iter().zip(are_live.iter()) {
        if *is_live {
            text.push(*digit)?;
            none = false;
        }
    }
    if none {
        text.push('-')?;
    }
    Ok(())
}
