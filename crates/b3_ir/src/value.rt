//! Values: one opcode with its children and what else its line carries.

ghost use Rattle.std.specs.Prelude.{◌≡◌, IfOk, replicate};

use crate::children::Children;
use crate::opcode::{Kind, Ty};
use crate::reg_set::RegSet;
use b3_base::{Ids, NoMemory, Seq, Words};
use std::alloc::Global;

/// A general register of AArch64, x0 to x30.
#[derive(Clone, Copy, Debug, PartialEq, Eq)]
pub struct Reg(pub u8);

/// Where a reported child or a result of a stackmap value may stand.
#[derive(Clone, Copy, Debug, PartialEq, Eq)]
pub enum Constraint {
    WarmAny,
    ColdAny,
    LateColdAny,
    SomeRegister,
    SomeRegisterWithClobber,
    SomeEarlyRegister,
    SomeLateRegister,
    Fixed(Reg),
    LateFixed(Reg),
}

/// A list of constraints, one for each reported child.
pub type Constraints = Seq<Constraint>;

/// What a Patchpoint or a check asks of its site: where each reported child may stand, and its
/// result; the registers that are changed early, before its children are read, and late; and the
/// size of a Patchpoint in words of code.
#[derive(Drop)]
pub struct Stackmap {
    pub constraints: Constraints,
    pub result: Constraint,
    pub early: RegSet,
    pub late: RegSet,
    pub size: u32,
}

/// What a value carries beside its children.
#[derive(Drop)]
pub enum Body {
    /// Nothing.
    Plain,
    /// The word of a Const32 or a Const64.
    Constant(u64),
    /// The register of an ArgumentReg.
    Argument(Reg),
    /// The number of the slot of a SlotBase.
    Slot(u32),
    /// The offset of a load or a store, in bytes.
    Offset(i32),
    /// The Phi of an Upsilon, by its id.
    Target(u32),
    /// The stackmap of a Patchpoint or a check.
    Map(Stackmap),
    /// The successors of a Jump (one) or a Branch (two, Then first), by their numbers.
    Targets(Ids),
    /// The cases of a Switch and its successors in the same order, the fall-through last.
    Cases { cases: Words, targets: Ids },
}

/// One value of a procedure. `line` is its line in the text, counted from 1.
#[derive(Drop)]
pub struct Value {
    pub id: u32,
    pub ty: Ty,
    pub kind: Kind,
    pub children: Children,
    pub body: Body,
    pub line: u32,
}

impl Stackmap {
    /// The stackmap of a line that names no item: each of so many reported children may stand anywhere,
    /// a result in any register, no register is changed, and a Patchpoint has one word. It is refused
    /// for want of memory alone.
    pub fn new(alloc: Global, reported: usize) -> Result<Stackmap, NoMemory>
        ensures { IfOk result (λ map. map ≡ record { constraints = replicate reported Constraint.WarmAny; result = Constraint.SomeRegister; early = 0; late = 0; size = 1 }) }
    {
        let mut constraints = Constraints::new(alloc);
        for _ in 0..reported {
            constraints.push(Constraint::WarmAny)?;
        }
        Ok(Stackmap {
            constraints,
            result: Constraint::SomeRegister,
            early: RegSet::new(),
            late: RegSet::new(),
            size: 1,
        })
    }

    /// An equal stackmap of its own. It is refused for want of memory alone.
    pub fn copy(&self, alloc: Global) -> Result<Stackmap, NoMemory>
        ensures { IfOk result (λ map. map ≡ self.now) }
    {
        Ok(Stackmap {
            constraints: self.constraints.copy(alloc)?,
            result: self.result,
            early: self.early,
            late: self.late,
            size: self.size,
        })
    }
}

impl Body {
    /// An equal body of its own. It is refused for want of memory alone.
    pub fn copy(&self, alloc: Global) -> Result<Body, NoMemory>
        ensures { IfOk result (λ body. body ≡ self.now) }
    {
        match self {
            Body::Plain => Ok(Body::Plain),
            Body::Constant(word) => Ok(Body::Constant(*word)),
            Body::Argument(reg) => Ok(Body::Argument(*reg)),
            Body::Slot(number) => Ok(Body::Slot(*number)),
            Body::Offset(bytes) => Ok(Body::Offset(*bytes)),
            Body::Target(phi) => Ok(Body::Target(*phi)),
            Body::Map(map) => Ok(Body::Map(map.copy(alloc)?)),
            Body::Targets(targets) => Ok(Body::Targets(targets.copy(alloc)?)),
            Body::Cases { cases, targets } => Ok(Body::Cases {
                cases: cases.copy(alloc)?,
                targets: targets.copy(alloc)?,
            }),
        }
    }
}

impl Value {
    /// An equal value of its own. It is refused for want of memory alone.
    pub fn copy(&self, alloc: Global) -> Result<Value, NoMemory>
        ensures { IfOk result (λ value. value ≡ self.now) }
    {
        Ok(Value {
            id: self.id,
            ty: self.ty,
            kind: self.kind,
            children: self.children.copy(alloc)?,
            body: self.body.copy(alloc)?,
            line: self.line,
        })
    }
}
