ghost use Rattle.std.specs.Prelude.{◌≡◌, [], IfOk, None, Some, slice_get, slice_set};
ghost use Rattle.call_order.specs.Seen as seen;
ghost use Rattle.call_order.specs.Walks as walks;

use crate::calls::CallAt;
use lv_base::Memory;
use std::alloc::Global;

/// A guess of an order of the functions, each behind those that it calls, and of their parts: two functions on a cycle have the
/// number of one part, and no call goes to a part with a greater number. No contract says so: who takes a guess tests it.
#[derive(Drop)]
pub(crate) struct Guess {
    pub(crate) order: Vec<u32>,
    pub(crate) parts: Vec<u32>,
}

// A function in the walk: its number among those that were entered, from 1, and the least of these numbers to which calls from
// it are known to lead, both 0 before it is entered; how many of its calls were looked at; whether its part is closed.
#[derive(Clone, Copy)]
struct Place {
    entered: u32,
    lowest: u32,
    looked: usize,
    is_closed: bool,
}

// What is open: the functions on the path from a first one, and those whose parts are not closed.
#[derive(Drop)]
struct Walk {
    places: Vec<Place>,
    path: Vec<u32>,
    unclosed: Vec<u32>,
    next: u32,
    entered: u32,
    closed: u32,
    guess: Guess,
}

// A function that is entered with this number.
fn fresh(entered: u32) -> Place
    ensures { result ≡ walks.fresh entered }
{
    Place {
        entered,
        lowest: entered,
        looked: 0,
        is_closed: false,
    }
}

fn begin(alloc: Global, count: usize) -> Result<Walk, Memory>
    ensures { IfOk result (λ w. seen.walk_of w ≡ walks.begin count) }
{
    Ok(Walk {
        places: vec![in alloc; fresh(0); count]?,
        path: Vec::new(alloc),
        unclosed: Vec::new(alloc),
        next: 0,
        entered: 0,
        closed: 0,
        guess: Guess {
            order: Vec::new(alloc),
            parts: vec![in alloc; 0; count]?,
        },
    })
}

fn following(number: u32) -> u32
    ensures { result ≡ walks.following number }
{
    number.saturating_add(1)
}

fn place_at(places: &[Place], function: u32) -> Option<Place>
    ensures { result ≡ slice_get places.now function }
{
    places.get(function as usize).copied()
}

// Changes nothing past the places.
fn put(places: &mut [Place], function: u32, place: Place)
    ensures { places.new ≡ slice_set places.old function place }
{
    let at = function as usize;
    if at < places.len() {
        places[at] = place;
    }
}

fn last_of(functions: &[u32]) -> Option<u32>
    ensures { result ≡ walks.last_of functions.now }
{
    functions.last().copied()
}

// Whether a function was entered and its part is still open.
fn is_open(place: Place) -> bool
    ensures { result ≡ walks.is_open place }
{
    place.entered > 0 && !place.is_closed
}

fn is_entered(places: &[Place], function: u32) -> bool
    ensures { result ≡ walks.is_entered places.now function }
{
    match place_at(places, function) {
        None => true,
        Some(place) => place.entered > 0,
    }
}

fn enter(walk: &mut Walk, function: u32) -> Result<(), Memory>
    ensures { IfOk result (λ _. seen.walk_of walk.new ≡ walks.enter function (seen.walk_of walk.old)) }
{
    walk.entered = following(walk.entered);
    put(&mut walk.places, function, fresh(walk.entered));
    walk.path.push(function)?;
    walk.unclosed.push(function)?;
    Ok(())
}

// Calls from the function lead to one that was entered with this number.
fn lower(places: &mut [Place], function: u32, entered: u32)
    ensures { places.new ≡ walks.lower function entered places.old }
{
    if let Some(place) = place_at(places, function) {
        let lowest = place.lowest.min(entered);
        put(places, function, Place { lowest, ..place });
    }
}

// The function that the next call of a function calls.
fn next_call(places: &[Place], own: &[CallAt], function: u32) -> Option<u32>
    ensures { result ≡ walks.next_call places.now (seen.targets own.now) function }
{
    let place = place_at(places, function)?;
    let call = own.get(place.looked)?;
    Some(call.to)
}

// One more of the function's calls was looked at.
fn look(places: &mut [Place], function: u32)
    ensures { places.new ≡ walks.look function places.old }
{
    if let Some(place) = place_at(places, function) {
        let looked = place.looked.saturating_add(1);
        put(places, function, Place { looked, ..place });
    }
}

fn shut_place(places: &mut [Place], function: u32)
    ensures { places.new ≡ walks.shut_at function places.old (slice_get places.old function) }
{
    if let Some(place) = place_at(places, function) {
        let is_closed = true;
        put(places, function, Place { is_closed, ..place });
    }
}

// Changes nothing past the parts.
fn put_part(parts: &mut [u32], function: u32, part: u32)
    ensures { parts.new ≡ slice_set parts.old function part }
{
    let at = function as usize;
    if at < parts.len() {
        parts[at] = part;
    }
}

// The function, the last that is open, is in the part that is closed now.
fn shut(walk: &mut Walk, function: u32)
    ensures { seen.walk_of walk.new ≡ walks.shut function (seen.walk_of walk.old) }
{
    shut_place(&mut walk.places, function);
    let _ = walk.unclosed.pop();
    put_part(&mut walk.guess.parts, function, walk.closed);
}

// Closes the part that begins with this function.
fn close(walk: &mut Walk, function: u32)
    ensures { seen.walk_of walk.new ≡ walks.close function (seen.walk_of walk.old) }
{
    for _open in 0..walk.unclosed.len() {
        let Some(last) = last_of(&walk.unclosed) else {
            return;
        };
        shut(walk, last);
        if last == function {
            return;
        }
    }
}

// Tells the caller of a function that is left what is reached from it.
fn pass_on(walk: &mut Walk, place: Place)
    ensures { seen.walk_of walk.new ≡ walks.pass_on place (seen.walk_of walk.old) (walks.last_of walk.old.path.items) }
{
    if let Some(caller) = last_of(&walk.path) {
        lower(&mut walk.places, caller, place.lowest);
    }
}

fn leave_open(walk: &mut Walk, function: u32, place: Place)
    ensures { seen.walk_of walk.new ≡ walks.leave_open function place (seen.walk_of walk.old) }
{
    if place.lowest == place.entered {
        close(walk, function);
        walk.closed = following(walk.closed);
    } else {
        pass_on(walk, place);
    }
}

// All calls of the last function on the path were looked at.
fn leave(walk: &mut Walk, function: u32) -> Result<(), Memory>
    ensures { IfOk result (λ _. seen.walk_of walk.new ≡ walks.leave function (seen.walk_of walk.old)) }
{
    let _ = walk.path.pop();
    walk.guess.order.push(function)?;
    let Some(place) = place_at(&walk.places, function) else {
        return Ok(());
    };
    if is_open(place) {
        leave_open(walk, function, place);
    }
    Ok(())
}

// A function that is called was entered before.
fn meet(walk: &mut Walk, function: u32, to: u32)
    ensures { seen.walk_of walk.new ≡ walks.meet function (seen.walk_of walk.old) (slice_get walk.old.places.items to) }
{
    let Some(place) = place_at(&walk.places, to) else {
        return;
    };
    if is_open(place) {
        lower(&mut walk.places, function, place.entered);
    }
}

// Enters a function that is called.
fn follow(walk: &mut Walk, function: u32, to: u32) -> Result<(), Memory>
    ensures { IfOk result (λ _. seen.walk_of walk.new ≡ walks.follow function to (seen.walk_of walk.old)) }
{
    if is_entered(&walk.places, to) {
        meet(walk, function, to);
        return Ok(());
    }
    enter(walk, to)
}

// Looks at one call of a function, or leaves it.
fn call_or_leave(walk: &mut Walk, function: u32, own: &[CallAt]) -> Result<(), Memory>
    ensures { IfOk result (λ _. seen.walk_of walk.new ≡ walks.at_calls function (seen.walk_of walk.old) (Some (seen.targets own.now))) }
{
    match next_call(&walk.places, own, function) {
        None => leave(walk, function),
        Some(to) => {
            look(&mut walk.places, function);
            follow(walk, function, to)
        }
    }
}

// Begins at the next function, unless it was entered.
fn begin_next(walk: &mut Walk) -> Result<(), Memory>
    ensures { IfOk result (λ _. seen.walk_of walk.new ≡ walks.step_at [] (seen.walk_of walk.old) None) }
{
    let function = walk.next;
    walk.next = following(function);
    if is_entered(&walk.places, function) {
        return Ok(());
    }
    enter(walk, function)
}

// Looks at one call of the last function on the path, or leaves it; without a path, at the next function.
fn step(walk: &mut Walk, calls: &[Vec<CallAt>]) -> Result<(), Memory>
    ensures { IfOk result (λ _. seen.walk_of walk.new ≡ walks.step (seen.graph_of calls.now) (seen.walk_of walk.old)) }
{
    let Some(function) = last_of(&walk.path) else {
        return begin_next(walk);
    };
    match calls.get(function as usize) {
        None => leave(walk, function),
        Some(own) => call_or_leave(walk, function, own),
    }
}

// How many steps there are at most: one for each call, and two for each function.
fn count_steps(calls: &[Vec<CallAt>]) -> usize
    ensures { result ≡ walks.count_steps (seen.graph_of calls.now) }
{
    let mut count = calls.len().saturating_mul(2);
    for own in calls {
        count = count.saturating_add(own.len());
    }
    count
}

fn walked(alloc: Global, calls: &[Vec<CallAt>]) -> Result<Walk, Memory>
    ensures { IfOk result (λ w. seen.walk_of w ≡ walks.walked (seen.graph_of calls.now)) }
{
    let mut walk = begin(alloc, calls.len())?;
    for _step in 0..count_steps(calls) {
        step(&mut walk, calls)?;
    }
    Ok(walk)
}

/// A walk along the calls, each looked at once.
///
/// Fails with `Memory` where there is no more memory for a number for each function.
pub(crate) fn make_guess(alloc: Global, calls: &[Vec<CallAt>]) -> Result<Guess, Memory>
    ensures order { IfOk result (λ g. g.order.items ≡ (walks.walked (seen.graph_of calls.now)).order) }
{
    let walk = walked(alloc, calls)?;
    Ok(walk.guess)
}
