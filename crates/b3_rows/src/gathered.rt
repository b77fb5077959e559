//! The items of a line, gathered in the order in which they stand.

ghost use Rattle.std.specs.Prelude.{◌≡◌, ◌<◌, ◌∷◌, [], ◌++◌, false, length, Some, None, IfOk, if◌then◌else◌};
ghost use Rattle.b3_lines.specs.Tokens.{tokens};
ghost use Rattle.b3_rows.specs.Gathering as spec;
ghost use Rattle.b3_items.specs.Items.{items_of};

use b3_base::{NoMemory, Words};
use b3_ir::{Carries, Children, Constraint, Constraints, Reg, RegSet};
use b3_items::{Child, Item, Number, next_item, read_item};
use b3_lines::next_token;
use std::alloc::Global;

/// The item that leads.
#[derive(Clone, Copy, Debug, PartialEq, Eq)]
pub enum Lead {
    NoLead,
    NumberLead(Number),
    RegisterLead(Reg),
    SlotLead(u32),
}

/// What the items of a line say. `named` tells that a named item or effect words stand among them.
#[derive(Drop)]
pub struct Gathered {
    pub lead: Lead,
    pub children: Children,
    pub constraints: Constraints,
    pub phi: Option<u32>,
    pub offset: Option<i32>,
    pub cases: Option<Words>,
    pub result_place: Option<Constraint>,
    pub size: Option<u32>,
    pub early: Option<RegSet>,
    pub late: Option<RegSet>,
    pub generator: bool,
    pub used: bool,
    pub named: bool,
}

// ---- which items an opcode takes, by what its values carry

fn has_stackmap(carries: Carries) -> bool
    ensures { result ≡ spec.has_stackmap carries }
{
    matches!(carries, Carries::Site | Carries::Exit)
}

fn is_site(carries: Carries) -> bool
    ensures { result ≡ spec.is_site carries }
{
    matches!(carries, Carries::Site)
}

fn is_number(carries: Carries) -> bool
    ensures { result ≡ spec.is_number carries }
{
    matches!(carries, Carries::Number(_))
}

fn is_register(carries: Carries) -> bool
    ensures { result ≡ spec.is_register carries }
{
    matches!(carries, Carries::Register)
}

fn is_slot(carries: Carries) -> bool
    ensures { result ≡ spec.is_slot carries }
{
    matches!(carries, Carries::SlotNumber)
}

fn is_phi(carries: Carries) -> bool
    ensures { result ≡ spec.is_phi carries }
{
    matches!(carries, Carries::PhiId)
}

fn is_access(carries: Carries) -> bool
    ensures { result ≡ spec.is_access carries }
{
    matches!(carries, Carries::Offset)
}

fn is_switch(carries: Carries) -> bool
    ensures { result ≡ spec.is_switch carries }
{
    matches!(carries, Carries::CaseSuccessors)
}

/// Whether the line of a value may have an item.
#[tactic(auto, unfolding(crate::specs::Gathering::may_have))]
fn may_have(carries: Carries, item: &Item) -> bool
    ensures { result ≡ spec.may_have carries item.now }
{
    match item {
        Item::Number(_) => is_number(carries),
        Item::Register(_) => is_register(carries),
        Item::SlotNumber(_) => is_slot(carries),
        Item::Operand(child) => child.constraint.is_none() || has_stackmap(carries),
        Item::PhiId(_) => is_phi(carries),
        Item::Offset(_) => is_access(carries),
        Item::Cases(_) => is_switch(carries),
        Item::ResultPlace(_) | Item::Size(_) => is_site(carries),
        Item::Early(_) | Item::Late(_) | Item::Generator | Item::Used => has_stackmap(carries),
        Item::Effects => true,
    }
}

// ---- in which order

fn is_no_lead(lead: Lead) -> bool
    ensures { result ≡ spec.is_no_lead lead }
{
    matches!(lead, Lead::NoLead)
}

fn constraint_or_any(constraint: Option<Constraint>) -> Constraint
    ensures { result ≡ spec.constraint_or_any constraint }
{
    match constraint {
        None => Constraint::WarmAny,
        Some(constraint) => constraint,
    }
}

impl Gathered {
    /// No item.
    fn new(alloc: Global) -> Gathered
        ensures { result ≡ spec.nothing }
    {
        Gathered {
            lead: Lead::NoLead,
            children: Children::new(alloc),
            constraints: Constraints::new(alloc),
            phi: None,
            offset: None,
            cases: None,
            result_place: None,
            size: None,
            early: None,
            late: None,
            generator: false,
            used: false,
            named: false,
        }
    }

    fn has_no_child(&self) -> bool
        ensures { result ≡ spec.is_nil self.now.children }
    {
        self.children.len() == 0
    }

    /// Whether neither `^N` nor a named item nor effect words stand before.
    #[tactic(auto, unfolding(crate::specs::Gathering::takes_children))]
    fn takes_children(&self) -> bool
        ensures { result ≡ spec.takes_children self.now }
    {
        self.phi.is_none() && !self.named
    }

    /// Whether no item stands before.
    #[tactic(auto, unfolding(crate::specs::Gathering::is_fresh))]
    fn is_fresh(&self) -> bool
        ensures { result ≡ spec.is_fresh self.now }
    {
        is_no_lead(self.lead) && self.has_no_child() && self.phi.is_none() && !self.named
    }

    /// Puts a leading item, or says that it may not stand there.
    #[tactic(auto, unfolding(crate::specs::Gathering::put_lead))]
    fn put_lead(&mut self, lead: Lead) -> bool
        ensures { spec.put_lead self.old lead ≡ (if result then Some self.new else None) }
    {
        if !self.is_fresh() {
            return false;
        }
        self.lead = lead;
        true
    }

    /// Puts a child more, or says that it may not stand there.
    #[tactic(auto, unfolding(crate::specs::Gathering::put_child))]
    fn put_child(&mut self, child: Child) -> Result<bool, NoMemory>
        ensures { IfOk result (λ taken. spec.put_child self.old child ≡ (if taken then Some self.new else None)) }
    {
        if !self.takes_children() {
            return Ok(false);
        }
        self.children.push(child.id)?;
        self.constraints.push(constraint_or_any(child.constraint))?;
        Ok(true)
    }

    #[tactic(auto, unfolding(crate::specs::Gathering::put_phi))]
    fn put_phi(&mut self, phi: u32) -> bool
        ensures { spec.put_phi self.old phi ≡ (if result then Some self.new else None) }
    {
        if !self.takes_children() {
            return false;
        }
        self.phi = Some(phi);
        true
    }

    #[tactic(auto, unfolding(crate::specs::Gathering::put_offset))]
    fn put_offset(&mut self, offset: i32) -> bool
        ensures { spec.put_offset self.old offset ≡ (if result then Some self.new else None) }
    {
        if self.offset.is_some() {
            return false;
        }
        self.offset = Some(offset);
        self.named = true;
        true
    }

    #[tactic(auto, unfolding(crate::specs::Gathering::put_cases))]
    fn put_cases(&mut self, words: Words) -> bool
        ensures { spec.put_cases self.old words ≡ (if result then Some self.new else None) }
    {
        if self.cases.is_some() {
            return false;
        }
        self.cases = Some(words);
        self.named = true;
        true
    }

    #[tactic(auto, unfolding(crate::specs::Gathering::put_result))]
    fn put_result(&mut self, place: Constraint) -> bool
        ensures { spec.put_result self.old place ≡ (if result then Some self.new else None) }
    {
        if self.result_place.is_some() {
            return false;
        }
        self.result_place = Some(place);
        self.named = true;
        true
    }

    #[tactic(auto, unfolding(crate::specs::Gathering::put_size))]
    fn put_size(&mut self, size: u32) -> bool
        ensures { spec.put_size self.old size ≡ (if result then Some self.new else None) }
    {
        if self.size.is_some() {
            return false;
        }
        self.size = Some(size);
        self.named = true;
        true
    }

    #[tactic(auto, unfolding(crate::specs::Gathering::put_early))]
    fn put_early(&mut self, set: RegSet) -> bool
        ensures { spec.put_early self.old set ≡ (if result then Some self.new else None) }
    {
        if self.early.is_some() {
            return false;
        }
        self.early = Some(set);
        self.named = true;
        true
    }

    #[tactic(auto, unfolding(crate::specs::Gathering::put_late))]
    fn put_late(&mut self, set: RegSet) -> bool
        ensures { spec.put_late self.old set ≡ (if result then Some self.new else None) }
    {
        if self.late.is_some() {
            return false;
        }
        self.late = Some(set);
        self.named = true;
        true
    }

    #[tactic(auto, unfolding(crate::specs::Gathering::put_generator))]
    fn put_generator(&mut self) -> bool
        ensures { spec.put_generator self.old ≡ (if result then Some self.new else None) }
    {
        if self.generator {
            return false;
        }
        self.generator = true;
        self.named = true;
        true
    }

    #[tactic(auto, unfolding(crate::specs::Gathering::put_used))]
    fn put_used(&mut self) -> bool
        ensures { spec.put_used self.old ≡ (if result then Some self.new else None) }
    {
        if self.used {
            return false;
        }
        self.used = true;
        self.named = true;
        true
    }

    /// Puts one item more, or says that it may not stand there.
    #[tactic(auto, unfolding(crate::specs::Gathering::put))]
    fn put(&mut self, item: Item) -> Result<bool, NoMemory>
        ensures { IfOk result (λ taken. spec.put self.old item ≡ (if taken then Some self.new else None)) }
    {
        match item {
            Item::Number(number) => Ok(self.put_lead(Lead::NumberLead(number))),
            Item::Register(reg) => Ok(self.put_lead(Lead::RegisterLead(reg))),
            Item::SlotNumber(number) => Ok(self.put_lead(Lead::SlotLead(number))),
            Item::Operand(child) => self.put_child(child),
            Item::PhiId(phi) => Ok(self.put_phi(phi)),
            Item::Offset(offset) => Ok(self.put_offset(offset)),
            Item::Cases(words) => Ok(self.put_cases(words)),
            Item::ResultPlace(place) => Ok(self.put_result(place)),
            Item::Size(size) => Ok(self.put_size(size)),
            Item::Early(set) => Ok(self.put_early(set)),
            Item::Late(set) => Ok(self.put_late(set)),
            Item::Generator => Ok(self.put_generator()),
            Item::Used => Ok(self.put_used()),
            Item::Effects => {
                self.named = true;
                Ok(true)
            }
        }
    }

    /// Puts one item more where the line of the value may have it.
    #[tactic(auto, unfolding(crate::specs::Gathering::put_in))]
    fn put_in(&mut self, carries: Carries, item: Item) -> Result<bool, NoMemory>
        ensures { IfOk result (λ taken. spec.put_in carries self.old item ≡ (if taken then Some self.new else None)) }
    {
        if may_have(carries, &item) {
            self.put(item)
        } else {
            Ok(false)
        }
    }
}

/// The items between commas.
#[tactic(auto, unfolding(crate::specs::Gathering::gather))]
fn gather(alloc: Global, carries: Carries, text: &[u8]) -> Result<Option<Gathered>, NoMemory>
    ensures { IfOk result (λ found. found ≡ spec.gather carries spec.nothing (items_of text.now)) }
{
    let mut gathered = Gathered::new(alloc);
    let mut left = Some(text);
    while let Some(items) = left {
        let (text, rest) = next_item(items);
        let Some(item) = read_item(alloc, text)? else {
            return Ok(None);
        };
        if !gathered.put_in(carries, item)? {
            return Ok(None);
        }
        left = rest;
    }
    Ok(Some(gathered))
}

/// The items in a text, none where nothing but blanks stands there.
#[tactic(auto, unfolding(crate::specs::Gathering::items_in))]
pub(crate) fn items_in(
    alloc: Global,
    carries: Carries,
    text: &[u8],
) -> Result<Option<Gathered>, NoMemory>
    ensures { IfOk result (λ found. found ≡ spec.items_in carries text.now) }
{
    if next_token(text).is_none() {
        return Ok(Some(Gathered::new(alloc)));
    }
    gather(alloc, carries, text)
}
