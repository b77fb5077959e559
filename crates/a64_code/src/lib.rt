//! Code of AArch64 below emission: words of the frame, constants, and the instruction of an op on registers.
#![tactic(auto)]

mod accesses;
mod arithmetic;
mod constants;
mod places;
mod source;

pub use accesses::{access_kind, offset_access, push_below};
pub use arithmetic::{
    computing, condition, is_sum_word, move_reg, opposite, reg_of, sum_with, takes_two, testing,
};
pub use constants::push_constant;
pub use places::{
    above_sp, move_address, push, push_epilogue, push_load, push_prologue, push_store, spill_offset,
};
pub use source::Source;
