//! The cells of a program's graphs: first the elements of its objects, in their order, each as wide as its kind; then a cell of
//! 64 bits for each slot that some instruction reads; then one for each width that is drawn into a slot, and one for an index that
//! has to be kept.
ghost use Rattle.std.specs.Prelude.{◌≡◌, ◌++◌, ◌∷◌, [], length, replicate, false, slice_set, slice_get, true, ◌+◌, ◌≤◌, IfOk, IfErr, All};
ghost use Rattle.bv_term.specs.WellFormed.{IsWidth};
ghost use Rattle.c_graph.specs.declared.graph.Origin.TheVariants as Origin;
ghost use Rattle.c_graph.specs.Shape as shape;
ghost use Rattle.code_layout.specs.Reading as of;
ghost use Rattle.code_layout.specs.Layout as s;
ghost use Rattle.code_layout.specs.Limits.{IsOver};

use crate::reading::{Span, reads};
use c_graph::{Cell, Origin};
use c_terms::SLOT_WIDTH;
use c_typed::Object;
use lv_base::{Memory, Model as DataModel, SourceFail, width};
use slot_code::Instruction;
use std::alloc::Global;
use std::marker::Model;

/// The most cells of a program's graphs.
const MOST_CELLS: usize = 65_536;

/// The limit on cells.
const CELLS: u8 = 4;

/// Whether an object, by its number, is an array.
pub fn is_array(objects: &[Object], object: u32) -> bool
    ensures { result ≡ of.is_array objects.now object }
{
    match objects.get(object as usize) {
        None => false,
        Some(object) => object.length > 0,
    }
}

/// How many elements an object has; a scalar is one.
pub fn elements_of(object: &Object) -> u32
    ensures { result ≡ s.elements_of object.now }
{
    object.length.max(1)
}

/// A cell into which values of a width are drawn.
#[derive(Clone, Copy)]
struct DrawnAt {
    width: u32,
    cell: u32,
}

/// Where everything lies among the cells.
#[derive(Drop)]
pub struct Layout {
    firsts: Vec<u32>,
    slots: Vec<Option<u32>>,
    drawn: Vec<DrawnAt>,
    index: Option<u32>,
    cells: Vec<Cell>,
}

impl Model for Layout {
    ghost use Rattle.code_layout.specs.Layout.{Lay};

    ghost Value = { Lay };

    ghost view = { λ l. record { firsts = l.firsts.items; slots = l.slots.items; drawn = l.drawn.items; index = l.index; cells = l.cells.items } };
}

impl Layout {
    /// The layout of these objects and this code.
    ///
    /// Fails with `Over` for limit 4, with the number of cells, where these are more than 65,536; else with `Memory`.
    pub fn new(
        alloc: Global,
        objects: &[Object],
        model: DataModel,
        code: &[Instruction],
        slots: usize,
    ) -> Result<Layout, SourceFail>
        ensures value { IfOk result (λ l. l ≡ s.layout_of objects.now model code.now slots) }
        ensures few { IfOk result (λ l. length l.cells ≤ 65536) }
        ensures limit { IfErr result (IsOver 4 65536 (length (s.layout_of objects.now model code.now slots).cells)) }
    {
        let layout = laid(alloc, objects, model, code, slots)?;
        if layout.cells.len() > MOST_CELLS {
            return Err(SourceFail::Over(CELLS, layout.cells.len() as u64));
        }
        Ok(layout)
    }

    /// The cell into which values of a width are drawn, if some instruction draws them into a slot.
    pub fn drawn(&self, width: u32) -> Option<u32>
        ensures { result ≡ s.drawn_cell self.now width }
    {
        find_drawn(&self.drawn, width)
    }

    /// The first cell of an object.
    pub fn first(&self, object: u32) -> Option<u32>
        ensures { result ≡ slice_get self.now.firsts object }
    {
        self.firsts.get(object as usize).copied()
    }

    /// The cell of a slot, where some instruction reads it.
    pub fn slot(&self, slot: usize) -> Option<u32>
        ensures { result ≡ s.slot_cell self.now slot }
    {
        match self.slots.get(slot) {
            None => None,
            Some(cell) => *cell,
        }
    }

    /// The cell for an index that has to be kept while its slot gets a value.
    pub fn index(&self) -> Option<u32>
        ensures { result ≡ self.now.index }
    {
        self.index
    }

    /// All cells, by number.
    pub fn cells(&self) -> &[Cell]
        ensures { result.now ≡ self.now.cells }
    {
        &self.cells
    }

    /// All cells, by number. It takes no memory.
    pub fn into_cells(self) -> Vec<Cell>
        ensures { result.items ≡ self.cells }
    {
        self.cells
    }
}

fn laid(
    alloc: Global,
    objects: &[Object],
    model: DataModel,
    code: &[Instruction],
    slots: usize,
) -> Result<Layout, Memory>
    ensures { IfOk result (λ l. l ≡ s.layout_of objects.now model code.now slots) }
{
    let mut cells = Vec::new(alloc);
    let firsts = add_elements(alloc, objects, model, &mut cells)?;
    let read = slots_read(alloc, objects, code, slots)?;
    let slots = add_slots(alloc, &read, &mut cells)?;
    let widths = drawn_widths(alloc, model, code)?;
    let drawn = add_drawn(alloc, &widths, &mut cells)?;
    let index = add_index(keeps_some(objects, code), &mut cells)?;
    Ok(Layout {
        firsts,
        slots,
        drawn,
        index,
        cells,
    })
}

fn add(width: u32, origin: Origin, cells: &mut Vec<Cell>) -> Result<u32, Memory>
    ensures number { IfOk result (λ n. n ≡ length cells.old.items) }
    ensures cells { IfOk result (λ n. cells.new.items ≡ cells.old.items ++ s.cell_of width origin ∷ []) }
{
    let Ok(number) = u32::try_from(cells.len()) else {
        return Err(Memory);
    };
    cells.push(Cell { width, origin })?;
    Ok(number)
}

fn add_elements(
    alloc: Global,
    objects: &[Object],
    model: DataModel,
    cells: &mut Vec<Cell>,
) -> Result<Vec<u32>, Memory>
    ensures firsts { IfOk result (λ f. f.items ≡ s.firsts_from (length cells.old.items) objects.now) }
    ensures cells { IfOk result (λ f. cells.new.items ≡ cells.old.items ++ s.object_cells model 0 objects.now) }
{
    let mut firsts = Vec::new(alloc);
    let mut number = 0u32;
    for object in objects {
        let Ok(first) = u32::try_from(cells.len()) else {
            return Err(Memory);
        };
        firsts.push(first)?;
        add_object(number, object, width(object.kind, model), cells)?;
        number = match number.checked_add(1) {
            None => return Err(Memory),
            Some(next) => next,
        };
    }
    Ok(firsts)
}

fn add_object(number: u32, object: &Object, bits: u32, cells: &mut Vec<Cell>) -> Result<(), Memory>
    ensures { IfOk result (λ u. cells.new.items ≡ cells.old.items ++ s.element_cells bits number (s.elements_of object.now)) }
{
    for element in 0..elements_of(object) {
        add(bits, Origin::Element(number, element), cells)?;
    }
    Ok(())
}

fn add_slots(
    alloc: Global,
    read: &[bool],
    cells: &mut Vec<Cell>,
) -> Result<Vec<Option<u32>>, Memory>
    ensures slots { IfOk result (λ r. r.items ≡ s.slots_from (length cells.old.items) read.now) }
    ensures cells { IfOk result (λ r. cells.new.items ≡ cells.old.items ++ s.slot_cells read.now) }
{
    let mut slots = Vec::new(alloc);
    for is_read in read {
        add_slot(*is_read, &mut slots, cells)?;
    }
    Ok(slots)
}

fn add_slot(
    is_read: bool,
    slots: &mut Vec<Option<u32>>,
    cells: &mut Vec<Cell>,
) -> Result<(), Memory>
    ensures slots { IfOk result (λ u. slots.new.items ≡ slots.old.items ++ s.slots_from (length cells.old.items) (is_read ∷ [])) }
    ensures cells { IfOk result (λ u. cells.new.items ≡ cells.old.items ++ s.slot_cells (is_read ∷ [])) }
{
    if !is_read {
        slots.push(None)?;
        return Ok(());
    }
    let cell = add(SLOT_WIDTH, Origin::Saved, cells)?;
    slots.push(Some(cell))?;
    Ok(())
}

// The widths that are drawn into slots, in the order in which the code first draws them.
fn drawn_widths(alloc: Global, model: DataModel, code: &[Instruction]) -> Result<Vec<u32>, Memory>
    ensures { IfOk result (λ w. w.items ≡ s.widths_behind model [] code.now) }
{
    let mut widths = Vec::new(alloc);
    for instruction in code {
        add_width(model, *instruction, &mut widths)?;
    }
    Ok(widths)
}

fn add_width(
    model: DataModel,
    instruction: Instruction,
    widths: &mut Vec<u32>,
) -> Result<(), Memory>
    ensures { IfOk result (λ u. widths.new.items ≡ s.with_draw model widths.old.items instruction) }
{
    let Instruction::Draw(_, kind) = instruction else {
        return Ok(());
    };
    let bits = width(kind, model);
    if has_width(widths, bits) {
        return Ok(());
    }
    widths.push(bits)?;
    Ok(())
}

fn has_width(widths: &[u32], bits: u32) -> bool
    ensures { result ≡ s.has_width widths.now bits }
{
    for width in widths {
        if *width == bits {
            return true;
        }
    }
    false
}

fn add_drawn(alloc: Global, widths: &[u32], cells: &mut Vec<Cell>) -> Result<Vec<DrawnAt>, Memory>
    ensures drawn { IfOk result (λ d. d.items ≡ s.drawn_from (length cells.old.items) widths.now) }
    ensures cells { IfOk result (λ d. cells.new.items ≡ cells.old.items ++ s.drawn_cells widths.now) }
{
    let mut drawn = Vec::new(alloc);
    for width in widths {
        let cell = add(*width, Origin::Saved, cells)?;
        drawn.push(DrawnAt {
            width: *width,
            cell,
        })?;
    }
    Ok(drawn)
}

fn find_drawn(drawn: &[DrawnAt], width: u32) -> Option<u32>
    ensures { result ≡ s.drawn_in drawn.now width }
{
    for each in drawn {
        if each.width == width {
            return Some(each.cell);
        }
    }
    None
}

// Whether an instruction keeps the index of an element while its slot gets a value.
fn keeps(objects: &[Object], instruction: Instruction) -> bool
    ensures { result ≡ s.keeps objects.now instruction }
{
    match instruction {
        Instruction::Change(_, is_before, _, _, _, object) => {
            !is_before && is_array(objects, object)
        }
        _ => false,
    }
}

fn keeps_some(objects: &[Object], code: &[Instruction]) -> bool
    ensures { result ≡ s.keeps_some objects.now code.now }
{
    for instruction in code {
        if keeps(objects, *instruction) {
            return true;
        }
    }
    false
}

fn add_index(is_kept: bool, cells: &mut Vec<Cell>) -> Result<Option<u32>, Memory>
    ensures index { IfOk result (λ n. n ≡ s.index_at (length cells.old.items) is_kept) }
    ensures cells { IfOk result (λ n. cells.new.items ≡ cells.old.items ++ s.index_cells is_kept) }
{
    if !is_kept {
        return Ok(None);
    }
    let cell = add(SLOT_WIDTH, Origin::Saved, cells)?;
    Ok(Some(cell))
}

fn slots_read(
    alloc: Global,
    objects: &[Object],
    code: &[Instruction],
    slots: usize,
) -> Result<Vec<bool>, Memory>
    ensures { IfOk result (λ r. r.items ≡ of.marks_behind objects.now (replicate slots false) code.now) }
{
    let mut read = vec![in alloc; false; slots]?;
    for instruction in code {
        let span = reads(objects, *instruction)?;
        mark(&mut read, span);
    }
    Ok(read)
}

fn mark(read: &mut Vec<bool>, span: Span)
    ensures { read.new.items ≡ of.marked read.old.items span.first span.count }
{
    for number in 0..span.count {
        mark_one(read, span.first, number);
    }
}

// Marks the slot so many behind another, where it is there.
fn mark_one(read: &mut Vec<bool>, first: usize, number: usize)
    ensures { read.new.items ≡ slice_set read.old.items (first + number) true }
{
    if let Some(slot) = first.checked_add(number) {
        if slot < read.len() {
            read[slot] = true;
        }
    }
}

/// The widths of cells, which are 1 to 128.
pub fn widths_of(alloc: Global, cells: &[Cell]) -> Result<Vec<u32>, Memory>
    ensures widths { IfOk result (λ w. w.items ≡ shape.widths_of cells.now) }
    ensures fit { IfOk result (λ w. All IsWidth w.items) }
{
    let mut widths = Vec::new(alloc);
    for cell in cells {
        if cell.width < 1 || cell.width > 128 {
            return Err(Memory);
        }
        widths.push(cell.width)?;
    }
    Ok(widths)
}
