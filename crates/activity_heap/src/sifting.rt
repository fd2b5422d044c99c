//! A variable goes up or down the heap to where its activity belongs.

ghost use Rattle.std.specs.Prelude.{◌≡◌, ℕ, ◌<◌, length, true, MatchOption};
ghost use Rattle.prop.specs.Trues.{listed};
ghost use Rattle.activity_heap.specs.Below.{AreBelow};

// Whether a variable is more active than another.
#[inline]
fn is_ahead(activities: &[f64], one: u32, other: u32) -> bool
    requires one { one < length activities.now }
    requires other { other < length activities.now }
{
    activities[one as usize] > activities[other as usize]
}

// Whether the variable above a place is less active.
#[inline]
fn goes_up(heap: &[u32], activities: &[f64], at: usize, var: u32) -> bool
    requires at { at < length heap.now }
    requires var { var < length activities.now }
    requires below { AreBelow (length activities.now) heap.now }
    ensures { result ≡ true → 0 < at }
{
    if at == 0 {
        return false;
    }
    is_ahead(activities, var, heap[(at - 1) / 2])
}

// The place below that has the more active variable, if that is more active than this one.
#[inline]
fn way_down(heap: &[u32], activities: &[f64], at: usize, var: u32) -> Option<usize>
    requires at { at < length heap.now }
    requires var { var < length activities.now }
    requires below { AreBelow (length activities.now) heap.now }
    ensures { MatchOption result (Unit {0}) (λ c. (at < c) × (c < length heap.now)) }
{
    if at >= heap.len() / 2 {
        return None;
    }
    let left = 2 * at + 1;
    let right = left + 1;
    if right < heap.len() && is_ahead(activities, heap[right], heap[left]) {
        if is_ahead(activities, heap[right], var) {
            return Some(right);
        }
        return None;
    }
    if is_ahead(activities, heap[left], var) {
        return Some(left);
    }
    None
}

/// Brings the variable at a place up to where it belongs.
pub fn sift_up(heap: &mut [u32], places: &mut [usize], activities: &[f64], start: usize)
    requires start { start < length heap.old }
    requires places { length places.old ≡ length activities.now }
    requires below { AreBelow (length activities.now) heap.old }
    ensures { (q : ℕ) → listed heap.new q ≡ listed heap.old q }
{
    let mut at = start;
    let var = heap[at];
    'up: while goes_up(heap, activities, at, var) {
        let above = (at - 1) / 2;
        let other = heap[above];
        heap[at] = other;
        places[other as usize] = at;
        at = above;
    }
    heap[at] = var;
    places[var as usize] = at;
}

/// Brings the variable at a place down to where it belongs.
pub fn sift_down(heap: &mut [u32], places: &mut [usize], activities: &[f64], start: usize)
    requires start { start < length heap.old }
    requires places { length places.old ≡ length activities.now }
    requires below { AreBelow (length activities.now) heap.old }
    ensures { (q : ℕ) → listed heap.new q ≡ listed heap.old q }
{
    let mut at = start;
    let var = heap[at];
    'down: while let Some(child) = way_down(heap, activities, at, var) {
        let other = heap[child];
        heap[at] = other;
        places[other as usize] = at;
        at = child;
    }
    heap[at] = var;
    places[var as usize] = at;
}
