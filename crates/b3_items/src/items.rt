//! The items of the line of a value, one by one.

ghost use Rattle.std.specs.Prelude.{◌≡◌, ◌≤◌, ◌<◌, ◌∷◌, [], ◌^◌, length, false, None, IfOk, IfSome, option_map, option_and_then};
ghost use Rattle.std.specs.List.{list_all};
ghost use Rattle.b3_lines.specs.Tokens.{tokens};
ghost use Rattle.b3_items.specs.Items as spec;
ghost use Rattle.b3_items.specs.Numbers.{after, viewed};

use crate::numbers::{
    Number, after, has_number_form, read_case, read_number, read_offset, read_plain,
    read_plain_after,
};
use b3_base::{NoMemory, Words};
use b3_ir::{Constraint, Reg, RegSet};
use b3_lines::next_token;
use std::alloc::Global;

/// A child, and where it may stand, if its item says that.
#[derive(Clone, Copy, Debug, PartialEq, Eq)]
pub struct Child {
    pub id: u32,
    pub constraint: Option<Constraint>,
}

/// The name of a named item.
#[derive(Clone, Copy, Debug, PartialEq, Eq)]
pub enum Label {
    OffsetLabel,
    CasesLabel,
    ResultLabel,
    SizeLabel,
    EarlyLabel,
    LateLabel,
    GeneratorLabel,
    UsedLabel,
}

/// One item between the parentheses of the line of a value.
#[derive(Drop)]
pub enum Item {
    /// A constant, which leads.
    Number(Number),
    /// A register, which leads.
    Register(Reg),
    /// The number of a slot, which leads.
    SlotNumber(u32),
    /// A child.
    Operand(Child),
    /// The id of a Phi.
    PhiId(u32),
    /// The offset of an access, in bytes.
    Offset(i32),
    /// The cases of a Switch, as words of 64 bits.
    Cases(Words),
    /// Where the result of a Patchpoint may stand.
    ResultPlace(Constraint),
    /// The size of a Patchpoint in words of code.
    Size(u32),
    /// The registers that are changed early, and late.
    Early(RegSet),
    Late(RegSet),
    /// A note that carries nothing.
    Generator,
    /// A set of registers that carries nothing.
    Used,
    /// Effect words, which carry nothing.
    Effects,
}

/// Whether a token is this mark.
#[tactic(auto, unfolding(crate::specs::Items::is_mark_of))]
pub fn is_mark_of(token: &[u8], byte: u8) -> bool
    ensures { result ≡ spec.is_mark_of byte token.now }
{
    token == [byte].as_slice()
}

// ---- registers and constraints

fn reg_below(number: u32) -> Option<Reg>
    ensures is { result ≡ spec.reg_below number }
    ensures small { IfSome result (λ r. r.0 ≤ 30) }
{
    if number < 31 {
        Some(Reg(number as u8))
    } else {
        None
    }
}

/// A register, x0 to x30.
#[tactic(auto, unfolding(crate::specs::Items::reg_of))]
fn read_reg(text: &[u8]) -> Option<Reg>
    ensures is { result ≡ spec.reg_of text.now }
    ensures small { IfSome result (λ r. r.0 ≤ 30) }
{
    if text == b"%fp".as_slice() {
        return Some(Reg(29));
    }
    if text == b"%lr".as_slice() {
        return Some(Reg(30));
    }
    reg_below(read_plain_after(b"%x", text)?)
}

const FREE_CONSTRAINTS: [Constraint; 7] = [
    Constraint::WarmAny,
    Constraint::ColdAny,
    Constraint::LateColdAny,
    Constraint::SomeRegister,
    Constraint::SomeRegisterWithClobber,
    Constraint::SomeEarlyRegister,
    Constraint::SomeLateRegister,
];

/// The name of a constraint that fixes no register.
pub fn constraint_name(constraint: Constraint) -> &'static [u8]
    ensures { result.now ≡ spec.constraint_name constraint }
{
    match constraint {
        Constraint::WarmAny => b"WarmAny",
        Constraint::ColdAny => b"ColdAny",
        Constraint::LateColdAny => b"LateColdAny",
        Constraint::SomeRegister => b"SomeRegister",
        Constraint::SomeRegisterWithClobber => b"SomeRegisterWithClobber",
        Constraint::SomeEarlyRegister => b"SomeEarlyRegister",
        Constraint::SomeLateRegister => b"SomeLateRegister",
        Constraint::Fixed(_) | Constraint::LateFixed(_) => b"",
    }
}

#[tactic(auto, unfolding(crate::specs::Items::free_constraint))]
fn free_constraint(text: &[u8]) -> Option<Constraint>
    ensures { result ≡ spec.free_constraint text.now }
{
    FREE_CONSTRAINTS
        .iter()
        .copied()
        .find(|c| constraint_name(*c) == text)
}

#[tactic(auto, unfolding(crate::specs::Items::constraint_of))]
fn read_constraint(text: &[u8]) -> Option<Constraint>
    ensures { result ≡ spec.constraint_of text.now }
{
    if let Some(constraint) = free_constraint(text) {
        return Some(constraint);
    }
    if let Some(reg) = read_reg(text) {
        return Some(Constraint::Fixed(reg));
    }
    Some(Constraint::LateFixed(read_reg(after(b"late:", text)?)?))
}

// ---- children

/// An id.
#[tactic(auto, unfolding(crate::specs::Items::id_of))]
pub fn read_id(text: &[u8]) -> Option<u32>
    ensures { result ≡ spec.id_of text.now }
{
    if let Some(id) = read_plain_after(b"@", text) {
        return Some(id);
    }
    read_plain_after(b"b@", text)
}

#[tactic(auto, unfolding(crate::specs::Items::is_note))]
fn is_note(text: &[u8]) -> bool
    ensures { result ≡ spec.is_note text.now }
{
    match text {
        [b'$', form @ ..] => has_number_form(form),
        _ => false,
    }
}

#[tactic(auto, unfolding(crate::specs::Items::mark_constraint))]
fn mark_constraint(text: &[u8]) -> Option<Constraint>
    ensures { result ≡ spec.mark_constraint text.now }
{
    read_constraint(after(b":", text)?)
}

/// The place of the first colon.
#[tactic(auto, unfolding(crate::specs::Items::colon_in))]
fn colon_in(piece: &[u8]) -> Option<usize>
    ensures is { result ≡ spec.colon_in piece.now }
    ensures within { IfSome result (λ at. at < length piece.now) }
{
    piece.iter().position(|b| *b == b':')
}

fn child_with(constraint: Option<Constraint>, id: Option<u32>) -> Option<Child>
    ensures { result ≡ spec.child_with constraint id }
{
    let constraint = constraint?;
    Some(Child {
        id: id?,
        constraint: Some(constraint),
    })
}

fn bare_child(id: Option<u32>) -> Option<Child>
    ensures { result ≡ option_map (spec.child None) id }
{
    Some(Child {
        id: id?,
        constraint: None,
    })
}

#[tactic(auto, unfolding(crate::specs::Items::piece_child))]
fn piece_child(piece: &[u8]) -> Option<Child>
    ensures { result ≡ spec.piece_child piece.now }
{
    match colon_in(piece) {
        None => bare_child(read_id(piece)),
        Some(at) => {
            let (front, back) = piece.split_at(at);
            child_with(mark_constraint(back), read_id(front))
        }
    }
}

#[tactic(auto, unfolding(crate::specs::Items::wraps))]
fn wraps(note: &[u8], front: &[u8], back: &[u8]) -> bool
    ensures { result ≡ spec.wraps note.now front.now back.now }
{
    is_note(note) && is_mark_of(front, b'(') && is_mark_of(back, b')')
}

/// A child.
#[tactic(auto, unfolding(crate::specs::Items::child_of))]
fn read_child(item: &[u8]) -> Option<Child>
    ensures { result ≡ spec.child_of (tokens item.now) }
{
    let (first, rest) = next_token(item)?;
    let Some((open, rest)) = next_token(rest) else {
        return piece_child(first);
    };
    let (inner, rest) = next_token(rest)?;
    let (close, rest) = next_token(rest)?;
    let Some((last, rest)) = next_token(rest) else {
        if !wraps(first, open, close) {
            return None;
        }
        return bare_child(read_id(inner));
    };
    if next_token(rest).is_some() || !wraps(first, open, close) {
        return None;
    }
    child_with(mark_constraint(last), read_id(inner))
}

// ---- items of one token

#[tactic(auto, unfolding(crate::specs::Items::slot_of))]
fn read_slot(text: &[u8]) -> Option<u32>
    ensures { result ≡ spec.slot_of text.now }
{
    read_plain_after(b"stack", text)
}

#[tactic(auto, unfolding(crate::specs::Items::phi_of))]
fn read_phi(text: &[u8]) -> Option<u32>
    ensures { result ≡ spec.phi_of text.now }
{
    read_plain_after(b"^", text)
}

#[tactic(auto, unfolding(crate::specs::Items::leading_of))]
fn leading_item(piece: &[u8]) -> Option<Item>
    ensures { result ≡ spec.leading_of piece.now }
{
    if let Some(number) = read_number(piece) {
        return Some(Item::Number(number));
    }
    if let Some(reg) = read_reg(piece) {
        return Some(Item::Register(reg));
    }
    if let Some(number) = read_slot(piece) {
        return Some(Item::SlotNumber(number));
    }
    Some(Item::PhiId(read_phi(piece)?))
}

/// The token of a text that has one.
fn lone(text: &[u8]) -> Option<&[u8]>
    ensures { viewed result ≡ spec.lone (tokens text.now) }
{
    let (token, rest) = next_token(text)?;
    if next_token(rest).is_some() {
        None
    } else {
        Some(token)
    }
}

fn piece_item(text: &[u8]) -> Option<Item>
    ensures { result ≡ spec.piece_item (tokens text.now) }
{
    leading_item(lone(text)?)
}

// ---- named items

const LABELS: [Label; 8] = [
    Label::OffsetLabel,
    Label::CasesLabel,
    Label::ResultLabel,
    Label::SizeLabel,
    Label::EarlyLabel,
    Label::LateLabel,
    Label::GeneratorLabel,
    Label::UsedLabel,
];

/// The name of a named item.
pub fn label_name(label: Label) -> &'static [u8]
    ensures { result.now ≡ spec.label_name label }
{
    match label {
        Label::OffsetLabel => b"offset",
        Label::CasesLabel => b"cases",
        Label::ResultLabel => b"resultConstraint",
        Label::SizeLabel => b"size",
        Label::EarlyLabel => b"earlyClobbered",
        Label::LateLabel => b"lateClobbered",
        Label::GeneratorLabel => b"generator",
        Label::UsedLabel => b"usedRegisters",
    }
}

#[tactic(auto, unfolding(crate::specs::Items::label_of))]
fn read_label(text: &[u8]) -> Option<Label>
    ensures { result ≡ spec.label_of text.now }
{
    LABELS.iter().copied().find(|l| label_name(*l) == text)
}

/// Whether a text is `]`.
#[tactic(auto, unfolding(crate::specs::Items::ends_list))]
fn ends_list(text: &[u8]) -> bool
    ensures { result ≡ spec.ends_list (tokens text.now) }
{
    match lone(text) {
        Some(token) => is_mark_of(token, b']'),
        None => false,
    }
}

/// Puts the cases behind a case, or says that they are none.
#[tactic(auto, using(crate::proofs::ListLemmas::cases_end, crate::proofs::ListLemmas::cases_open, crate::proofs::ListLemmas::cases_bad, crate::proofs::ListLemmas::cases_good, crate::proofs::ListLemmas::cases_none, crate::proofs::ListLemmas::front_again))]
fn more_cases(mut words: Words, text: &[u8]) -> Result<Option<Words>, NoMemory>
    ensures { IfOk result (λ found. found ≡ spec.onto_front words (spec.more_cases (tokens text.now))) }
{
    let mut left = text;
    while let Some((mark, rest)) = next_token(left) {
        let Some((number, more)) = next_token(rest) else {
            return if is_mark_of(mark, b']') {
                Ok(Some(words))
            } else {
                Ok(None)
            };
        };
        if !is_mark_of(mark, b',') {
            return Ok(None);
        }
        let Some(word) = read_case(number) else {
            return Ok(None);
        };
        words.push(word)?;
        left = more;
    }
    Ok(None)
}

#[tactic(auto, using(crate::proofs::ListLemmas::cases_empty), unfolding(crate::specs::Items::some_cases))]
fn some_cases(alloc: Global, text: &[u8]) -> Result<Option<Words>, NoMemory>
    ensures { IfOk result (λ found. found ≡ spec.some_cases (tokens text.now)) }
{
    if ends_list(text) {
        return Ok(Some(Words::new(alloc)));
    }
    let Some((number, rest)) = next_token(text) else {
        return Ok(None);
    };
    let Some(word) = read_case(number) else {
        return Ok(None);
    };
    let mut words = Words::new(alloc);
    words.push(word)?;
    more_cases(words, rest)
}

#[tactic(auto, unfolding(crate::specs::Items::cases_of))]
fn read_cases(alloc: Global, text: &[u8]) -> Result<Option<Words>, NoMemory>
    ensures { IfOk result (λ found. found ≡ spec.cases_of (tokens text.now)) }
{
    let Some((open, rest)) = next_token(text) else {
        return Ok(None);
    };
    if is_mark_of(open, b'[') {
        some_cases(alloc, rest)
    } else {
        Ok(None)
    }
}

/// A set with one register more.

fn with_reg(set: RegSet, reg: Reg) -> RegSet
    requires bound { set < 2 ^ 31 }
    requires reg { reg.0 ≤ 30 }
    ensures is { result ≡ spec.with_reg set reg }
    ensures bound { result < 2 ^ 31 }
{
    RegSet::from_bits(set.bits() | (1 << reg.0))
}

/// The set with the registers behind a register.
#[tactic(auto, using(crate::proofs::ListLemmas::regs_end, crate::proofs::ListLemmas::regs_open, crate::proofs::ListLemmas::regs_bad, crate::proofs::ListLemmas::regs_good, crate::proofs::ListLemmas::regs_none))]
fn more_regs(first: RegSet, text: &[u8]) -> Option<RegSet>
    requires { first < 2 ^ 31 }
    ensures { result ≡ spec.more_regs first (tokens text.now) }
{
    let mut set = first;
    let mut left = text;
    while let Some((mark, rest)) = next_token(left) {
        let Some((name, more)) = next_token(rest) else {
            return if is_mark_of(mark, b']') {
                Some(set)
            } else {
                None
            };
        };
        if !is_mark_of(mark, b',') {
            return None;
        }
        set = with_reg(set, read_reg(name)?);
        left = more;
    }
    None
}

#[tactic(auto, using(crate::proofs::ListLemmas::regs_empty), unfolding(crate::specs::Items::some_regs))]
fn some_regs(text: &[u8]) -> Option<RegSet>
    ensures { result ≡ spec.some_regs (tokens text.now) }
{
    if ends_list(text) {
        return Some(RegSet::new());
    }
    let (name, rest) = next_token(text)?;
    more_regs(with_reg(RegSet::new(), read_reg(name)?), rest)
}

#[tactic(auto, unfolding(crate::specs::Items::regs_of))]
fn read_regs(text: &[u8]) -> Option<RegSet>
    ensures { result ≡ spec.regs_of (tokens text.now) }
{
    let (open, rest) = next_token(text)?;
    if is_mark_of(open, b'[') {
        some_regs(rest)
    } else {
        None
    }
}

#[tactic(auto, unfolding(crate::specs::Items::is_generator))]
fn is_generator(text: &[u8]) -> bool
    ensures { result ≡ spec.is_generator (tokens text.now) }
{
    match lone(text) {
        Some(token) => has_number_form(token),
        None => false,
    }
}

fn offset_item(text: &[u8]) -> Option<Item>
    ensures { result ≡ spec.offset_item (tokens text.now) }
{
    Some(Item::Offset(read_offset(lone(text)?)?))
}

fn place_item(text: &[u8]) -> Option<Item>
    ensures { result ≡ spec.place_item (tokens text.now) }
{
    Some(Item::ResultPlace(read_constraint(lone(text)?)?))
}

fn size_item(text: &[u8]) -> Option<Item>
    ensures { result ≡ spec.size_item (tokens text.now) }
{
    Some(Item::Size(read_plain(lone(text)?)?))
}

fn early_item(text: &[u8]) -> Option<Item>
    ensures { result ≡ spec.early_item (tokens text.now) }
{
    Some(Item::Early(read_regs(text)?))
}

fn late_item(text: &[u8]) -> Option<Item>
    ensures { result ≡ spec.late_item (tokens text.now) }
{
    Some(Item::Late(read_regs(text)?))
}

fn used_item(text: &[u8]) -> Option<Item>
    ensures { result ≡ spec.used_item (tokens text.now) }
{
    let _set = read_regs(text)?;
    Some(Item::Used)
}

fn generator_item(text: &[u8]) -> Option<Item>
    ensures { result ≡ spec.generator_item (tokens text.now) }
{
    if is_generator(text) {
        Some(Item::Generator)
    } else {
        None
    }
}

fn cases_item(alloc: Global, text: &[u8]) -> Result<Option<Item>, NoMemory>
    ensures { IfOk result (λ found. found ≡ spec.cases_item (tokens text.now)) }
{
    match read_cases(alloc, text)? {
        Some(words) => Ok(Some(Item::Cases(words))),
        None => Ok(None),
    }
}

/// What stands behind `=`.
#[tactic(auto, unfolding(crate::specs::Items::valued))]
fn valued(alloc: Global, label: Label, text: &[u8]) -> Result<Option<Item>, NoMemory>
    ensures { IfOk result (λ found. found ≡ spec.valued label (tokens text.now)) }
{
    match label {
        Label::OffsetLabel => Ok(offset_item(text)),
        Label::CasesLabel => cases_item(alloc, text),
        Label::ResultLabel => Ok(place_item(text)),
        Label::SizeLabel => Ok(size_item(text)),
        Label::EarlyLabel => Ok(early_item(text)),
        Label::LateLabel => Ok(late_item(text)),
        Label::GeneratorLabel => Ok(generator_item(text)),
        Label::UsedLabel => Ok(used_item(text)),
    }
}

#[tactic(auto, unfolding(crate::specs::Items::named_of))]
fn named_item(alloc: Global, text: &[u8]) -> Result<Option<Item>, NoMemory>
    ensures { IfOk result (λ found. found ≡ spec.named_of (tokens text.now)) }
{
    let Some((name, rest)) = next_token(text) else {
        return Ok(None);
    };
    let Some((mark, rest)) = next_token(rest) else {
        return Ok(None);
    };
    if !is_mark_of(mark, b'=') {
        return Ok(None);
    }
    match read_label(name) {
        Some(label) => valued(alloc, label, rest),
        None => Ok(None),
    }
}

// ---- effect words

fn may_stand_in_effect(byte: u8) -> bool
    ensures { result ≡ spec.may_stand_in_effect byte }
{
    matches!(byte, b'A'..=b'Z' | b'a'..=b'z' | b'0'..=b'9' | b'.' | b'@' | b'+' | b'-')
}

fn all_may_stand_in_effect(text: &[u8]) -> bool
    ensures { result ≡ list_all spec.may_stand_in_effect text.now }
{
    text.iter().all(|b| may_stand_in_effect(*b))
}

fn is_heap(front: &[u8], word: &[u8]) -> bool
    ensures { result ≡ spec.is_heap (after front.now word.now) }
{
    match after(front, word) {
        Some(text) => !text.is_empty() && all_may_stand_in_effect(text),
        None => false,
    }
}

#[tactic(auto, unfolding(crate::specs::Items::is_plain_effect))]
fn is_plain_effect(word: &[u8]) -> bool
    ensures { result ≡ spec.is_plain_effect word.now }
{
    word == b"Terminal".as_slice()
        || word == b"ReadsLocalState".as_slice()
        || word == b"WritesLocalState".as_slice()
        || word == b"ReadsPinned".as_slice()
        || word == b"WritesPinned".as_slice()
        || word == b"ExitsSideways".as_slice()
        || word == b"ControlDependent".as_slice()
        || word == b"Fence".as_slice()
}

#[tactic(auto, unfolding(crate::specs::Items::is_effect))]
fn is_effect(word: &[u8]) -> bool
    ensures { result ≡ spec.is_effect word.now }
{
    is_plain_effect(word) || is_heap(b"Reads:", word) || is_heap(b"Writes:", word)
}

/// Whether a text is effect words joined by bars.
#[tactic(auto, unfolding(crate::specs::Items::are_effects))]
fn are_effects(item: &[u8]) -> bool
    ensures { result ≡ spec.are_effects (tokens item.now) }
{
    let mut text = item;
    while let Some((word, rest)) = next_token(text) {
        let Some((bar, more)) = next_token(rest) else {
            return is_effect(word);
        };
        if !is_effect(word) || !is_mark_of(bar, b'|') {
            return false;
        }
        text = more;
    }
    false
}

// ---- an item

#[tactic(auto, unfolding(crate::specs::Items::item_of))]
pub fn read_item(alloc: Global, text: &[u8]) -> Result<Option<Item>, NoMemory>
    ensures { IfOk result (λ found. found ≡ spec.item_of (tokens text.now)) }
{
    if let Some(item) = piece_item(text) {
        return Ok(Some(item));
    }
    if let Some(child) = read_child(text) {
        return Ok(Some(Item::Operand(child)));
    }
    if let Some(item) = named_item(alloc, text)? {
        return Ok(Some(item));
    }
    if are_effects(text) {
        Ok(Some(Item::Effects))
    } else {
        Ok(None)
    }
}

// ---- splitting at commas outside brackets

#[tactic(auto, unfolding(crate::specs::Items::item_len))]
fn item_len(text: &[u8]) -> usize
    ensures is { result ≡ spec.item_len false text.now }
    ensures within { result ≤ length text.now }
{
    let mut inside = false;
    for (i, byte) in text.iter().enumerate() {
        if *byte == b',' && !inside {
            return i;
        }
        inside = *byte == b'[' || (inside && *byte != b']');
    }
    text.len()
}

/// The first item, and what stands behind its comma.
#[tactic(auto, using(crate::proofs::ItemLemmas::items_cut, crate::proofs::ItemLemmas::items_end))]
pub fn next_item(text: &[u8]) -> (&[u8], Option<&[u8]>)
    ensures { spec.items_of text.now ≡ result.0.now ∷ spec.more_items result.1 }
{
    let (item, rest) = text.split_at(item_len(text));
    match rest.split_first() {
        Some((_, rest)) => (item, Some(rest)),
        None => (item, None),
    }
}
