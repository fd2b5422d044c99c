//! Which literal is decided next, and which variables count more from now on.

ghost use Rattle.std.specs.Prelude.{◌≡◌, ℕ, ◌+◌, ◌*◌, ◌/◌, ◌<◌, ◌≤◌, ◌||◌, List, length, MatchOption, true, false};
ghost use Rattle.resolution_log.specs.Codes.{AllBelow};
ghost use Rattle.dense_trail.specs.Dense.{negation, is_true};

use activity_heap::Order;
use conflict_analysis::Notes;
use dense_trail::{Trail, negation};

// A variable without a value, by its number.
fn free_number(trail: &Trail) -> Option<u32>
    ensures { MatchOption result ((n : ℕ) → n < length trail.now.levels.items → is_true trail.now.truth.items (2 * n) ≡ false → is_true trail.now.truth.items (2 * n + 1) ≡ true) (λ n. (n < length trail.now.levels.items) × (is_true trail.now.truth.items (2 * n) ≡ false) × (is_true trail.now.truth.items (2 * n + 1) ≡ false)) }
{
    for number in 0..trail.levels.len() {
        if trail.truth[2 * number] {
            continue;
        }
        if !trail.truth[2 * number + 1] {
            return Some(number as u32);
        }
    }
    None
}

// The literal of a variable with the sign that it had last.
#[inline]
fn with_phase(order: &Order, number: u32) -> u32
    requires number { number < length order.now.phases.items }
    requires few { length order.now.phases.items ≤ 67108864 }
    ensures { result < 2 * length order.now.phases.items }
{
    if order.phases[number as usize] {
        2 * number
    } else {
        2 * number + 1
    }
}

// Whether the variable of a literal has a value.
#[inline]
fn is_valued(trail: &Trail, code: u32) -> bool
    requires { code < length trail.now.truth.items }
    ensures { result ≡ (is_true trail.now.truth.items code || is_true trail.now.truth.items (negation code)) }
{
    trail.truth[code as usize] || trail.truth[negation(code) as usize]
}

/// The next decision: of the most active variable without a value. Where the heap has none any more, each variable is
/// looked at once, so that nothing rests on what the heap has.
pub fn choice(order: &mut Order, trail: &Trail) -> Option<u32>
    requires { length order.old.phases.items ≡ length trail.now.levels.items }
    ensures choice { MatchOption result ((n : ℕ) → n < length trail.now.levels.items → is_true trail.now.truth.items (2 * n) ≡ false → is_true trail.now.truth.items (2 * n + 1) ≡ true) (λ c. (c < length trail.now.truth.items) × (is_true trail.now.truth.items c ≡ false) × (is_true trail.now.truth.items (negation c) ≡ false)) }
    ensures ordered { length order.new.phases.items ≡ length order.old.phases.items }
{
    'turns: while let Some(number) = order.take() {
        let code = with_phase(order, number);
        if !is_valued(trail, code) {
            return Some(code);
        }
    }
    let number = free_number(trail)?;
    Some(2 * number + 1)
}

// The variables that were resolved away in an analysis become more active: those of the trail from a place on that are
// marked.
fn bump_marked(order: &mut Order, trail: &Trail, notes: &Notes, from: usize)
    requires ordered { length order.old.phases.items ≡ length trail.now.levels.items }
    requires stamps { length notes.now.stamps.items ≡ length trail.now.levels.items }
    ensures { length order.new.phases.items ≡ length order.old.phases.items }
{
    for at in from..trail.codes.len() {
        let number = trail.codes[at] / 2;
        if notes.stamps[number as usize] == notes.epoch {
            order.bump(number);
        }
    }
}

// The variables of some literals become more active.
fn bump_listed(order: &mut Order, trail: &Trail, clause: &[u32])
    requires ordered { length order.old.phases.items ≡ length trail.now.levels.items }
    requires fits { AllBelow (2 * length trail.now.levels.items) clause.now }
    ensures { length order.new.phases.items ≡ length order.old.phases.items }
{
    for code in clause {
        order.bump(*code / 2);
    }
}

/// The variables that took part in an analysis become more active. Of the current level these are the marked ones behind
/// the implication point, which stands at a place of the trail; the others are those of the learned clause, also of the
/// literals that it had before it was made shorter.
pub fn bump_all(order: &mut Order, trail: &Trail, notes: &Notes, gone: &[u32], uip_at: usize)
    requires ordered { length order.old.phases.items ≡ length trail.now.levels.items }
    requires stamps { length notes.now.stamps.items ≡ length trail.now.levels.items }
    requires fits { AllBelow (2 * length trail.now.levels.items) notes.now.learnt.items }
    requires gone { AllBelow (2 * length trail.now.levels.items) gone.now }
    requires at { uip_at ≤ length trail.now.codes.items }
    ensures { length order.new.phases.items ≡ length order.old.phases.items }
{
    bump_marked(order, trail, notes, uip_at + 1);
    bump_listed(order, trail, notes.learnt.as_slice());
    bump_listed(order, trail, gone);
    order.decay();
}
