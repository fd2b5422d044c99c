ghost use Rattle.std.specs.Prelude.{◌≡◌, ◌≤◌, ℕ, List, ℤ, length, pos, slice_index_or, slice_set};
ghost use Rattle.c_run.specs.Run as run;
ghost use Rattle.slot_board.specs.Seen.{reply, seen, drew, state};

use lv_base::{Kind, Model as DataModel};
use quick_integers::in_range;
use slot_code::Ending;
use std::marker::Model;

/// The next input, which has to be a value of this kind. `taken` counts the inputs that were drawn before.
pub fn draw(
    taken: &mut usize,
    inputs: &[i128],
    model: DataModel,
    kind: Kind,
) -> Result<i128, Ending>
    ensures { (store : List (List ℤ)) (turns : ℕ) → reply result (state store taken.new turns) ≡ seen (run.draw inputs.now model kind (state store taken.old turns)) }
{
    match inputs.get(*taken) {
        None => Err(Ending::NoInput),
        Some(value) => {
            if !in_range(kind, model, *value) {
                return Err(Ending::BadInput(*taken));
            }
            *taken += 1;
            Ok(*value)
        }
    }
}

// The value of this number, and 0 where there is none.
fn value_in(values: &[i128], index: usize) -> i128
    ensures { result ≡ slice_index_or values.now index (pos 0) }
{
    match values.get(index) {
        Some(value) => *value,
        None => 0,
    }
}

/// The values of an object, one to an element, which contracts see as their list. It never gets longer.
#[derive(Drop)]
pub struct Row {
    values: Vec<i128>,
}

impl Model for Row {
    ghost use Rattle.std.specs.Prelude.{List, ℤ};

    ghost Value = { List ℤ };

    ghost view = { λ r. r.values.items };
}

impl Row {
    /// These values.
    pub fn new(values: Vec<i128>) -> Row
        ensures { result ≡ values.items }
    {
        Row { values }
    }

    /// How many elements it has.
    #[inline(always)]
    pub fn size(&self) -> usize
        ensures { result ≡ length self.now }
    {
        self.values.len()
    }

    /// The value of an element, and 0 where there is none. An index is as wide as a value.
    #[inline(always)]
    pub fn value_at(&self, index: u128) -> i128
        ensures { result ≡ slice_index_or self.now index (pos 0) }
    {
        if index < self.values.len() as u128 {
            return self.values[index as usize];
        }
        0
    }

    /// Stores a value in an element, where there is one.
    #[inline(always)]
    pub fn set(&mut self, index: u128, value: i128)
        ensures { self.new ≡ slice_set self.old index value }
    {
        if index < self.values.len() as u128 {
            self.values[index as usize] = value;
        }
    }

    /// Gets the values of another object of its length.
    pub fn copy_from(&mut self, other: &Row)
        requires { length self.old ≡ length other.now }
        ensures { self.new ≡ other.now }
    {
        self.values.copy_from_slice(&other.values);
    }

    /// Gets these values, and 0 for each element that is left.
    pub fn begin(&mut self, first: &[i128])
        requires { length first.now ≤ length self.old }
        ensures size { length self.new ≡ length self.old }
        ensures values { self.new ≡ run.padded (length self.old) first.now }
    {
        let mut index = 0usize;
        'elements: while index < self.size() {
            self.set(index as u128, value_in(first, index));
            index += 1;
        }
    }

    /// Draws a value of this kind for each element, in their order.
    pub fn fill(
        &mut self,
        taken: &mut usize,
        inputs: &[i128],
        model: DataModel,
        kind: Kind,
    ) -> Result<(), Ending>
        ensures size { length self.new ≡ length self.old }
        ensures values { (store : List (List ℤ)) (turns : ℕ) → drew result self.new (state store taken.new turns) ≡ seen (run.draw_all inputs.now model kind (length self.old) (state store taken.old turns)) }
    {
        let mut index = 0usize;
        'elements: while index < self.size() {
            match draw(taken, inputs, model, kind) {
                Ok(value) => self.set(index as u128, value),
                Err(ending) => return Err(ending),
            }
            index += 1;
        }
        Ok(())
    }
}
