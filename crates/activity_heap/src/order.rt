//! The order in which variables are decided.

ghost use Rattle.std.specs.Prelude.{◌≡◌, ℕ, ◌+◌, ◌<◌, ◌≤◌, ◌||◌, List, [], length, IfOk, MatchOption, true, nat_eq, slice_set, slice_index, slice_index_or, false};
ghost use Rattle.prop.specs.Trues.{listed};
ghost use Rattle.activity_heap.specs.Below.{AreBelow};

use crate::sifting::{sift_down, sift_up};
use std::alloc::{AllocError, Global};

// Above this activity all are made smaller.
const MOST: f64 = 1e100;

const SMALLER: f64 = 1e-100;

// What an activity is worth after one more conflict.
const DECAY: f64 = 0.95;

/// The variables that may be decided next, and the sign that each had last.
#[derive(Drop)]
pub struct Order {
    /// How often a variable took part in a conflict; later ones weigh more.
    activities: Vec<f64>,
    /// What the next conflict weighs.
    step: f64,
    /// The variables that may be decided next.
    pub heap: Vec<u32>,
    /// Where a variable stood last in the heap.
    places: Vec<usize>,
    /// Whether a variable was true last.
    pub phases: Vec<bool>,
    pub ghost active: { length activities.items ≡ length phases.items },
    pub ghost placed: { length places.items ≡ length phases.items },
    pub ghost below: { AreBelow (length phases.items) heap.items },
}

impl Order {
    /// All variables may be decided; `vars` is how many there are. All were false last.
    pub fn new(alloc: Global, vars: u32) -> Result<Order, AllocError>
        ensures heap { IfOk result (λ o. (q : ℕ) → q < vars → listed o.heap.items q ≡ true) }
        ensures phases { IfOk result (λ o. length o.phases.items ≡ vars) }
    {
        let activities = vec![in alloc; 0.0; vars as usize]?;
        let phases = vec![in alloc; false; vars as usize]?;
        let mut heap = Vec::new(alloc);
        let mut places = Vec::new(alloc);
        for number in 0..vars {
            heap.push(number)?;
            places.push(number as usize)?;
        }
        Ok(Order {
            activities,
            step: 1.0,
            heap,
            places,
            phases,
        })
    }

    // Where a variable stands in the heap, if it stands where it stood last.
    #[inline]
    fn place_of(&self, number: u32) -> Option<usize>
        requires { number < length self.now.phases.items }
        ensures { MatchOption result (Unit {0}) (λ at. (at < length self.now.heap.items) × (slice_index self.now.heap.items at ≡ number)) }
    {
        let at = self.places[number as usize];
        if at < self.heap.len() && self.heap[at] == number {
            return Some(at);
        }
        None
    }

    /// Takes the most active variable out.
    pub fn take(&mut self) -> Option<u32>
        ensures heap { MatchOption result (self.old.heap.items ≡ []) (λ v. (q : ℕ) → listed self.old.heap.items q ≡ (nat_eq v q || listed self.new.heap.items q)) }
        ensures within { MatchOption result (Unit {0}) (λ v. v < length self.old.phases.items) }
        ensures shorter { MatchOption result (Unit {0}) (λ _. length self.old.heap.items ≡ length self.new.heap.items + 1) }
        ensures phases { self.new.phases.items ≡ self.old.phases.items }
    {
        let last = self.heap.pop()?;
        if self.heap.is_empty() {
            return Some(last);
        }
        let top = self.heap[0];
        self.heap[0] = last;
        sift_down(&mut self.heap, &mut self.places, &self.activities, 0);
        Some(top)
    }

    /// Puts a variable in again whose value was taken away, and notes the sign that it had.
    pub fn put_back(&mut self, number: u32, positive: bool) -> Result<(), AllocError>
        requires { number < length self.old.phases.items }
        ensures heap { IfOk result (λ _. (q : ℕ) → listed self.new.heap.items q ≡ (nat_eq number q || listed self.old.heap.items q)) }
        ensures phases { IfOk result (λ _. self.new.phases.items ≡ slice_set self.old.phases.items number positive) }
    {
        self.phases[number as usize] = positive;
        if let Some(_at) = self.place_of(number) {
            return Ok(());
        }
        let at = self.heap.len();
        self.heap.push(number)?;
        sift_up(&mut self.heap, &mut self.places, &self.activities, at);
        Ok(())
    }

    // Makes all activities smaller.
    fn rescale(&mut self)
        ensures heap { self.new.heap.items ≡ self.old.heap.items }
        ensures phases { self.new.phases.items ≡ self.old.phases.items }
    {
        for activity in self.activities.iter_mut() {
            *activity *= SMALLER;
        }
        self.step *= SMALLER;
    }

    /// A variable took part in a conflict.
    pub fn bump(&mut self, number: u32)
        requires { number < length self.old.phases.items }
        ensures heap { (q : ℕ) → listed self.new.heap.items q ≡ listed self.old.heap.items q }
        ensures phases { self.new.phases.items ≡ self.old.phases.items }
    {
        let activity = self.activities[number as usize] + self.step;
        self.activities[number as usize] = activity;
        if activity > MOST {
            self.rescale();
        }
        if let Some(at) = self.place_of(number) {
            sift_up(&mut self.heap, &mut self.places, &self.activities, at);
        }
    }

    /// Later conflicts weigh more.
    pub fn decay(&mut self)
        ensures heap { self.new.heap.items ≡ self.old.heap.items }
        ensures phases { self.new.phases.items ≡ self.old.phases.items }
    {
        self.step /= DECAY;
    }
}
