//! The units of cells, and which are read. The cells of one object are one unit; a saved cell is one of its own.
ghost use Rattle.std.specs.Prelude.{◌≡◌, ◌<◌, ◌/◌, ◌%◌, ◌||◌, [], slice_get, nat_lt, IfOk, OnOk, Some};
ghost use Rattle.plan_tables.specs.Tables.{bit_in, has_bit, is_live_in, lists_of, unit_at, units_of, words_of};
ghost use Rattle.plan_tables.specs.Made.{Numbering, add, add_all, add_each, add_two, added, adds, all_numbered, alone, further, is_number, is_single, live_empty, live_grows, live_join, live_load, live_unknown, loaded, nothing_numbered, numbered, reads_new, reads_of, unit_count, unit_of, units_in, units_new, word_added, word_adds};

use bv_term::{Term, TermId, Terms};
use c_graph::{Cell, Origin};
use lv_base::Memory;
use std::alloc::Global;
use std::marker::Model;

/// The units of cells. Contracts see the lists of both.
#[derive(Drop)]
pub struct Units {
    units: Vec<u32>,
    single: Vec<bool>,
}

impl Model for Units {
    ghost use Rattle.plan_tables.specs.Tables.{UnitTable};

    ghost Value = { UnitTable };

    ghost view = { λ t. record { units = t.units.items; single = t.single.items } };
}

impl Units {
    /// The units of these cells.
    pub fn new(alloc: Global, cells: &[Cell]) -> Result<Units, Memory>
        ensures made { IfOk result (λ t. t ≡ units_new cells.now) }
    {
        let numbered = number_all(alloc, cells)?;
        Ok(numbered.into_units())
    }

    /// The unit of a cell, none past the end.
    pub fn get(&self, cell: u32) -> Option<u32>
        ensures { result ≡ unit_at self.now cell }
    {
        match self.units.get(cell as usize) {
            None => None,
            Some(unit) => Some(*unit),
        }
    }

    /// The unit of a cell, 0 past the end.
    pub fn of(&self, cell: u32) -> u32
        ensures made { result ≡ unit_of self.now cell }
    {
        match self.units.get(cell as usize) {
            None => 0,
            Some(unit) => *unit,
        }
    }

    /// Whether a unit has one cell.
    pub fn is_single(&self, unit: u32) -> bool
        ensures made { result ≡ is_single self.now unit }
    {
        match self.single.get(unit as usize) {
            None => false,
            Some(single) => *single,
        }
    }

    /// How many units there are.
    pub fn count(&self) -> usize
        ensures made { result ≡ unit_count self.now }
    {
        self.single.len()
    }
}

/// The units of the first cells, while the others are gone through.
#[derive(Drop)]
struct Numbered {
    units: Vec<u32>,
    single: Vec<bool>,
    last: Option<u32>,
    unit: u32,
}

impl Model for Numbered {
    ghost use Rattle.plan_tables.specs.Made.{Numbering};

    ghost Value = { Numbering };

    ghost view = { λ t. record { units = t.units.items; single = t.single.items; last = t.last; unit = t.unit } };
}

impl Numbered {
    fn new(alloc: Global) -> Numbered
        ensures made { result ≡ nothing_numbered }
    {
        Numbered {
            units: Vec::new(alloc),
            single: Vec::new(alloc),
            last: None,
            unit: 0,
        }
    }

    fn into_units(self) -> Units
        ensures made { result ≡ units_in self }
    {
        Units {
            units: self.units,
            single: self.single,
        }
    }

    // A cell in a unit of its own.
    fn alone(&mut self, object: Option<u32>) -> Result<(), Memory>
        ensures made { OnOk result (self.new ≡ alone self.old object) }
    {
        self.last = object;
        self.unit = self.unit.saturating_add(1);
        self.single.push(true)?;
        self.units.push(self.unit.saturating_sub(1))?;
        Ok(())
    }

    // A further cell in the last unit.
    fn further(&mut self) -> Result<(), Memory>
        ensures made { OnOk result (self.new ≡ further self.old) }
    {
        let unit = self.unit.saturating_sub(1);
        if (unit as usize) < self.single.len() {
            self.single[unit as usize] = false;
        }
        self.units.push(unit)?;
        Ok(())
    }

    fn is_last(&self, object: u32) -> bool
        ensures made { result ≡ is_number self.now.last object }
    {
        match self.last {
            None => false,
            Some(last) => last == object,
        }
    }

    fn has_unit(&self) -> bool
        ensures made { result ≡ nat_lt 0 self.now.unit }
    {
        self.unit > 0
    }

    fn push(&mut self, origin: Origin) -> Result<(), Memory>
        ensures made { OnOk result (self.new ≡ numbered self.old origin) }
    {
        match origin {
            Origin::Element(object, _) => {
                if self.is_last(object) && self.has_unit() {
                    self.further()
                } else {
                    self.alone(Some(object))
                }
            }
            Origin::Saved => self.alone(None),
        }
    }
}

fn number_all(alloc: Global, cells: &[Cell]) -> Result<Numbered, Memory>
    ensures made { IfOk result (λ t. t ≡ all_numbered nothing_numbered cells.now) }
{
    let mut found = Numbered::new(alloc);
    for number in 0..cells.len() {
        found.push(cells[number].origin)?;
    }
    Ok(found)
}

/// The units that terms read, each term's in a list of its own.
#[derive(Drop)]
pub struct Reads {
    lists: Vec<Vec<u32>>,
}

impl Model for Reads {
    ghost use Rattle.std.specs.Prelude.{List, ℕ};
    ghost use Rattle.plan_tables.specs.Tables.{lists_of};

    ghost Value = { List (List ℕ) };

    ghost view = { λ t. lists_of t.lists.items };
}

impl Reads {
    /// The units that these terms read.
    pub fn new(alloc: Global, terms: &Terms, units: &Units) -> Result<Reads, Memory>
        ensures made { IfOk result (λ t. t ≡ reads_new terms.now units.now) }
    {
        let mut lists: Vec<Vec<u32>> = Vec::new(alloc);
        for number in 0..terms.count() {
            let list = reads_of(alloc, &lists, units, terms.get(TermId(number)))?;
            lists.push(list)?;
        }
        Ok(Reads { lists })
    }

    /// The units that a term reads.
    pub fn of(&self, term: TermId) -> &[u32]
        ensures { result.now ≡ units_of self.now term.0 }
    {
        match self.lists.get(term.0 as usize) {
            None => &[],
            Some(list) => list,
        }
    }
}

/// The units that are read from each node on: a bit for each, in a row of words for each node.
#[derive(Drop)]
pub struct Live {
    rows: Vec<Vec<u64>>,
    is_whole: bool,
}

impl Model for Live {
    ghost use Rattle.plan_tables.specs.Tables.{LiveRows, lists_of};

    ghost Value = { LiveRows };

    ghost view = { λ t. record { rows = lists_of t.rows.items; is_whole = t.is_whole } };
}

impl Live {
    /// Where what is read is not known.
    pub fn unknown(alloc: Global) -> Live
        ensures made { result ≡ live_unknown }
    {
        Live {
            rows: Vec::new(alloc),
            is_whole: false,
        }
    }

    /// Nothing is read, from so many nodes on, each with so many words.
    pub fn empty(alloc: Global, count: usize, words: usize) -> Result<Live, Memory>
        ensures made { IfOk result (λ t. t ≡ live_empty count words) }
    {
        let mut rows = Vec::new(alloc);
        for number in 0..count {
            rows.push(vec![in alloc; 0u64; words]?)?;
        }
        Ok(Live {
            rows,
            is_whole: true,
        })
    }

    /// Copies the words of a node.
    pub fn load(&self, node: u32, scratch: &mut Vec<u64>)
        ensures made { scratch.new.items ≡ live_load self.now node scratch.old.items }
    {
        let Some(row) = self.rows.get(node as usize) else {
            return;
        };
        load_words(row, scratch);
    }

    /// Adds bits to those of a node; whether these are more.
    pub fn join(&mut self, node: u32, scratch: &[u64]) -> bool
        ensures made { self.new ≡ live_join self.old node scratch.now }
        ensures grows { result ≡ live_grows self.old node scratch.now }
    {
        let at = node as usize;
        if at >= self.rows.len() {
            return false;
        }
        add_words(&mut self.rows[at], scratch)
    }

    /// Whether it is known what is read.
    pub fn is_known(&self) -> bool
        ensures { result ≡ self.now.is_whole }
    {
        self.is_whole
    }

    /// The words of a node, none past the end; the lowest bit of the first one is that of unit 0.
    pub fn words(&self, node: u32) -> &[u64]
        ensures { result.now ≡ words_of self.now node }
    {
        match self.rows.get(node as usize) {
            None => &[],
            Some(row) => row,
        }
    }

    /// Whether a unit may be read from a node on; where what is read is not known, each is.
    pub fn is_live(&self, node: u32, unit: u32) -> bool
        ensures { result ≡ is_live_in self.now node unit }
    {
        if !self.is_whole {
            return true;
        }
        match self.rows.get(node as usize) {
            None => false,
            Some(row) => has_unit(row, unit),
        }
    }
}

fn has_unit(row: &[u64], unit: u32) -> bool
    ensures { result ≡ bit_in (slice_get row.now (unit / 64)) (unit % 64) }
{
    match row.get(unit as usize / 64) {
        None => false,
        Some(word) => is_set(*word, unit % 64),
    }
}

fn is_set(word: u64, bit: u32) -> bool
    requires { bit < 64 }
    ensures { result ≡ has_bit word bit }
{
    (word >> bit) % 2 == 1
}

// Puts the words of a row in place of others, 0 behind its end.
fn load_words(row: &[u64], scratch: &mut Vec<u64>)
    ensures made { scratch.new.items ≡ loaded row.now scratch.old.items }
{
    for word in 0..scratch.len() {
        scratch[word] = if word < row.len() { row[word] } else { 0 };
    }
}

// Adds the bits of words to those of a row; whether these are more.
fn add_words(row: &mut Vec<u64>, scratch: &[u64]) -> bool
    ensures made { row.new.items ≡ added row.old.items scratch.now }
    ensures grows { result ≡ adds row.old.items scratch.now }
{
    let mut has_changed = false;
    for word in 0..scratch.len() {
        has_changed = add_word(row, word, scratch[word], has_changed);
    }
    has_changed
}

// Adds the bits of a word to one of a row; whether these are more, or some were before.
fn add_word(row: &mut Vec<u64>, word: usize, bits: u64, has_changed: bool) -> bool
    ensures made { row.new.items ≡ word_added row.old.items word bits }
    ensures grows { result ≡ (has_changed || word_adds (slice_get row.old.items word) bits) }
{
    if word >= row.len() {
        return has_changed;
    }
    let new = row[word] | bits;
    let grows = new != row[word];
    row[word] = new;
    has_changed || grows
}

// The units of a term, those of its operands being known.
fn reads_of(
    alloc: Global,
    lists: &[Vec<u32>],
    units: &Units,
    term: Term,
) -> Result<Vec<u32>, Memory>
    ensures made { IfOk result (λ t. t.items ≡ reads_of (lists_of lists.now) units.now term) }
{
    let mut found = Vec::new(alloc);
    match term {
        Term::Constant(_, _) => {}
        Term::Cell(cell) => add(units.of(cell), &mut found)?,
        Term::Element(first, _, index) => {
            add(units.of(first), &mut found)?;
            add_all(lists, index, &mut found)?;
        }
        Term::Add(a, b) | Term::Subtract(a, b) | Term::Multiply(a, b) => {
            add_two(lists, a, b, &mut found)?;
        }
        Term::Divide(a, b) | Term::Remainder(a, b) | Term::And(a, b) => {
            add_two(lists, a, b, &mut found)?;
        }
        Term::Or(a, b) | Term::Xor(a, b) | Term::ShiftLeft(a, b) => {
            add_two(lists, a, b, &mut found)?;
        }
        Term::ShiftRight(a, b) | Term::ShiftSigned(a, b) | Term::Equal(a, b) => {
            add_two(lists, a, b, &mut found)?;
        }
        Term::Less(a, b) | Term::LessSigned(a, b) => {
            add_two(lists, a, b, &mut found)?;
        }
        Term::Select(a, b, c) => {
            add_two(lists, a, b, &mut found)?;
            add_all(lists, c, &mut found)?;
        }
        Term::Not(a) | Term::ZeroExtend(_, a) | Term::SignExtend(_, a) => {
            add_all(lists, a, &mut found)?;
        }
        Term::Truncate(_, a) | Term::Bit(_, a) => add_all(lists, a, &mut found)?,
    }
    Ok(found)
}

fn add(unit: u32, found: &mut Vec<u32>) -> Result<(), Memory>
    ensures made { OnOk result (found.new.items ≡ add unit found.old.items) }
{
    if !found.contains(&unit) {
        found.push(unit)?;
    }
    Ok(())
}

fn add_all(lists: &[Vec<u32>], term: TermId, found: &mut Vec<u32>) -> Result<(), Memory>
    ensures made { OnOk result (found.new.items ≡ add_all (lists_of lists.now) term found.old.items) }
{
    match lists.get(term.0 as usize) {
        None => Ok(()),
        Some(list) => add_each(list, found),
    }
}

fn add_each(units: &[u32], found: &mut Vec<u32>) -> Result<(), Memory>
    ensures made { OnOk result (found.new.items ≡ add_each units.now found.old.items) }
{
    for number in 0..units.len() {
        add(units[number], found)?;
    }
    Ok(())
}

fn add_two(
    lists: &[Vec<u32>],
    first: TermId,
    second: TermId,
    found: &mut Vec<u32>,
) -> Result<(), Memory>
    ensures made { OnOk result (found.new.items ≡ add_two (lists_of lists.now) first second found.old.items) }
{
    add_all(lists, first, found)?;
    add_all(lists, second, found)
}
