//! Where words are once they are fetched.

/// Where a word is once it is fetched: in a register, or it is a constant.
#[derive(Clone, Copy, Debug, PartialEq, Eq)]
pub enum Source {
    InReg(u8),
    Constant(u64),
}
