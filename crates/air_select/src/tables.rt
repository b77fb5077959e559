//! What selection looks up.

ghost use Rattle.std.specs.Prelude.{◌≡◌, ◌+◌, ◌*◌};
ghost use Rattle.air_fold.specs.Values as values;
ghost use Rattle.air_select.specs.Selected as code;
ghost use Rattle.air_select.specs.Temporaries as temporaries;

use air_fold::{Index, child, width_of};
use air_ir::{Arg, Home, Operand, Role};
use b3_base::{Seq, Width};
use b3_ir::Value;
use std::marker::Model;

/// What selection looks up: of each id its place and what is known of it, and whether its value is folded.
#[derive(Drop)]
pub(crate) struct Tables {
    pub(crate) index: Index,
    pub(crate) folds: Seq<bool>,
}

impl Model for Tables {
    ghost use Rattle.air_select.specs.Selected as code;

    ghost Value = { code.Tables };

    ghost view = { λ t. record { index = t.index; folds = t.folds } };
}

/// The home of a value.
pub(crate) fn home(index: &Index, id: u32) -> Home
    ensures { result ≡ temporaries.home index.now id }
{
    Home::Tmp(3 * index.place(id))
}

/// The first temporary that the instructions of a value use on the way.
pub(crate) fn first_extra(index: &Index, id: u32) -> Home
    ensures { result ≡ temporaries.first_extra index.now id }
{
    Home::Tmp(3 * index.place(id) + 1)
}

/// The second one.
pub(crate) fn second_extra(index: &Index, id: u32) -> Home
    ensures { result ≡ temporaries.second_extra index.now id }
{
    Home::Tmp(3 * index.place(id) + 2)
}

/// The temporary of an argument register.
pub(crate) fn argument(index: &Index, r: u8) -> Home
    ensures { result ≡ temporaries.argument index.now r }
{
    Home::Tmp(3 * index.count() + u32::from(r))
}

/// The number of temporaries.
pub(crate) fn tmp_count(index: &Index) -> u32
    ensures { result ≡ temporaries.tmp_count index.now }
{
    3 * index.count() + 8
}

impl Tables {
    /// Whether the value that an id names is folded.
    pub(crate) fn folds(&self, id: u32) -> bool
        ensures { result ≡ code.folds self.now id }
    {
        let place = self.index.place(id) as usize;
        place < self.folds.len() && *self.folds.get(place)
    }

    /// Where the word of a value stands in its use.
    pub(crate) fn arg_of(&self, id: u32) -> Arg
        ensures { result ≡ code.arg_of self.now id }
    {
        if self.folds(id) {
            Arg::Imm(self.index.known(id).word)
        } else {
            Arg::At(home(&self.index, id))
        }
    }

    /// The operand of a use.
    pub(crate) fn use_of(&self, id: u32) -> Operand
        ensures { result ≡ code.use_of self.now id }
    {
        use_at(self.index.width_at(id), self.arg_of(id))
    }
}

/// An operand that is read.
pub(crate) fn use_at(width: Width, arg: Arg) -> Operand
    ensures { result ≡ code.use_at width arg }
{
    Operand {
        role: Role::Use,
        width,
        arg,
    }
}

/// An operand that is written.
pub(crate) fn def_at(width: Width, to: Home) -> Operand
    ensures { result ≡ code.def_at width to }
{
    Operand {
        role: Role::Def,
        width,
        arg: Arg::At(to),
    }
}

/// The operand of a child of a value.
pub(crate) fn use_child(t: &Tables, v: &Value, at: usize) -> Operand
    ensures { result ≡ code.use_of t.now (values.child v.now.children at) }
{
    t.use_of(child(&v.children, at))
}

/// The result of a value.
pub(crate) fn result_of(t: &Tables, v: &Value) -> Operand
    ensures { result ≡ code.result_of t.now v.now }
{
    def_at(width_of(v.ty), home(&t.index, v.id))
}
