//! The rules and their numbers.

ghost use Rattle.std.specs.Prelude.{◌≡◌, ◌≤◌};
ghost use Rattle.b3_rules.specs.Numbers.{number_of};

/// A rule of a valid module. Where several are broken on one line, the first of this list is named.
#[derive(Clone, Copy, Debug, PartialEq, Eq)]
pub enum Rule {
    /// Each procedure has a name of its own.
    Names,
    /// Slots have the numbers 0, 1, 2 and so on, and a byte or more.
    Slots,
    /// Blocks have the numbers 0, 1, 2 and so on.
    Blocks,
    /// Each value of a procedure has an id of its own.
    Ids,
    /// There is a block, and each ends in a terminal.
    Endings,
    /// A terminal stands at the end of its block.
    Terminals,
    /// The id of a child, and of the Phi of an Upsilon, is one of a value.
    KnownIds,
    /// The types of the children and of the value are ones that the opcode's row allows.
    Types,
    /// What an Upsilon names is a Phi of its child's type.
    Phis,
    /// What a SlotBase names is a slot.
    KnownSlots,
    /// Each successor is the number of a block.
    Successors,
    /// The cases of a Switch differ and are words of its child's type.
    Cases,
    /// All Returns return alike: nothing, or words of one type.
    Returns,
    /// An argument stands in block 0 and is one of x0 to x7.
    Arguments,
    /// No reported child asks for an early register, and a result stands in a register.
    Constraints,
    /// Fixed registers are x0 to x14 or x19 to x28, and neither x18 nor x29 is clobbered.
    Registers,
    /// Fixed registers differ from each other and from what is clobbered.
    FixedRegisters,
    /// There are registers for all that ask for one.
    RegisterDemand,
    /// A call has at most 8 arguments, and a Patchpoint 1 to 64 words.
    Sizes,
    /// Each path to a use passes the definition first.
    Uses,
}

impl Rule {
    /// The number of the rule, from 1 to 20.
    pub fn number(self) -> u8
        ensures number { result ≡ number_of self }
        ensures first { 1 ≤ result }
        ensures last { result ≤ 20 }
    {
        match self {
            Rule::Names => 1,
            Rule::Slots => 2,
            Rule::Blocks => 3,
            Rule::Ids => 4,
            Rule::Endings => 5,
            Rule::Terminals => 6,
            Rule::KnownIds => 7,
            Rule::Types => 8,
            Rule::Phis => 9,
            Rule::KnownSlots => 10,
            Rule::Successors => 11,
            Rule::Cases => 12,
            Rule::Returns => 13,
            Rule::Arguments => 14,
            Rule::Constraints => 15,
            Rule::Registers => 16,
            Rule::FixedRegisters => 17,
            Rule::RegisterDemand => 18,
            Rule::Sizes => 19,
            Rule::Uses => 20,
        }
    }
}
