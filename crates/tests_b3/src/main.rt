//! Asks the rows of data/ of arithmetic, of sets and flows, and of sites.
#![tactic(auto)]

mod arithmetic;
mod chains;
mod flows;
mod opcodes;
mod sets;
mod sites;

use arithmetic::Arithmetic;
use chains::LongChain;
use flows::Flows;
use opcodes::Folding;
use sets::Sets;
use sites::{Cases, Obeying, Placing};
use std::test::Fail;
use tests_rows::ask_file;

fn main(rt: HostRuntime) -> Result<(), Fail> {
    ask_file(&rt, "arithmetic.txt", &mut Arithmetic)?;
    ask_file(&rt, "opcodes.txt", &mut Folding)?;
    ask_file(&rt, "sets.txt", &mut Sets)?;
    ask_file(&rt, "flows.txt", &mut Flows)?;
    ask_file(&rt, "chains.txt", &mut LongChain)?;
    ask_file(&rt, "placing.txt", &mut Placing)?;
    ask_file(&rt, "sites.txt", &mut Obeying)?;
    ask_file(&rt, "cases.txt", &mut Cases)?;
    Ok(())
}
