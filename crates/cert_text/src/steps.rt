//! What a byte makes of a place in a certificate.

ghost use Rattle.std.specs.Prelude.{◌≡◌, ◌<◌};
ghost use Rattle.cert_text.specs.Steps.{moves, go, line, blank, count, less, add, log_end, chain_end, clause_read, chains_read, line_read, first_read, second_read, number_read, low_read, hash_read, digit_read, letter_read, model_read, byte_read, moved_by, text_read, matched_of, step_of};

use crate::field::{More, hex_digit, number_step, text_step, wide_step};
use crate::letters::{Form, Operands, form_told};
use crate::place::{Fixed, Part, Place, Slot, Want};
use bv_term::Term;
use lv_base::Model;

/// What is kept of a field.
#[derive(Clone, Copy)]
pub enum Act {
    /// Nothing.
    Nothing,
    /// A byte of the hash, by its number.
    Byte(u8, u8),
    /// The data model.
    Said(Model),
    /// The layout.
    Numbered(u32),
    /// A term.
    Adds(Term),
    /// A node's formula.
    Maps(u32),
    /// A chain's first clause.
    Begins(u32),
    /// A pair of a chain: its pivot and its clause.
    Pairs(u32, u32),
}

/// What stands behind a field: the place, what is kept, and whether a chain and a log end there.
#[derive(Clone, Copy)]
pub struct Move {
    pub to: Place,
    pub act: Act,
    pub chain_ends: bool,
    pub log_ends: bool,
}

/// What a byte makes of a place.
#[derive(Clone, Copy)]
pub enum Next {
    /// No spelling goes on with the byte.
    Refused,
    /// The field goes on.
    Part(Part),
    /// The field is whole.
    Moves(Move),
}

const BLANK: u8 = b' ';

const LINE: u8 = b'\n';

// On to a slot, where a chain or a log may end.
fn ending(slot: Slot, left: u32, chains: u32, act: Act, chain_ends: bool, log_ends: bool) -> Next
    ensures { result ≡ moves slot left chains act chain_ends log_ends }
{
    Next::Moves(Move {
        to: Place { slot, left, chains },
        act,
        chain_ends,
        log_ends,
    })
}

// On to a slot.
fn go_on(slot: Slot, left: u32, act: Act) -> Next
    ensures { result ≡ go slot left act }
{
    ending(slot, left, 0, act, false, false)
}

// On behind a line's end.
fn by_line(byte: u8, next: Next) -> Next
    ensures { result ≡ line byte next }
{
    if byte == LINE { next } else { Next::Refused }
}

// On behind a blank.
fn by_blank(byte: u8, next: Next) -> Next
    ensures { result ≡ blank byte next }
{
    if byte == BLANK { next } else { Next::Refused }
}

// Behind a count: to one slot where it is 0, to another where something is counted.
fn counted(number: u32, none: Slot, some: Slot) -> Next
    ensures { result ≡ count number none some }
{
    if number == 0 {
        go_on(none, 0, Act::Nothing)
    } else {
        go_on(some, number, Act::Nothing)
    }
}

// Behind one of those that are left: to one slot where it was the last, to another where more are left.
fn one_less(left: u32, none: Slot, some: Slot, act: Act) -> Next
    ensures { result ≡ less left none some act }
{
    if left <= 1 {
        go_on(none, 0, act)
    } else {
        go_on(some, left - 1, act)
    }
}

// Behind a term.
fn add_term(left: u32, term: Term) -> Next
    ensures { result ≡ add left term }
{
    one_less(
        left,
        Slot::Text(Fixed::BeforeNodes),
        Slot::Letter,
        Act::Adds(term),
    )
}

// Behind a log's last line.
fn end_log(left: u32, act: Act, chain_ends: bool) -> Next
    ensures { result ≡ log_end left act chain_ends }
{
    if left <= 1 {
        ending(Slot::Text(Fixed::Close), 0, 0, act, chain_ends, true)
    } else {
        ending(
            Slot::Text(Fixed::BeforeChains),
            left - 1,
            0,
            act,
            chain_ends,
            true,
        )
    }
}

// Behind a chain's line.
fn end_chain(left: u32, chains: u32, act: Act) -> Next
    ensures { result ≡ chain_end left chains act }
{
    if chains <= 1 {
        end_log(left, act, true)
    } else {
        ending(Slot::Start, left, chains - 1, act, true, false)
    }
}

// Behind a clause of a chain: a pair more, or the chain's end.
fn clause_step(left: u32, chains: u32, act: Act, byte: u8) -> Next
    ensures { result ≡ clause_read left chains act byte }
{
    if byte == BLANK {
        ending(Slot::Pivot, left, chains, act, false, false)
    } else {
        by_line(byte, end_chain(left, chains, act))
    }
}

// Behind the number of a log's chains.
fn chains_step(left: u32, number: u32) -> Next
    ensures { result ≡ chains_read left number }
{
    if number == 0 {
        end_log(left, Act::Nothing, false)
    } else {
        ending(Slot::Start, left, number, Act::Nothing, false, false)
    }
}

// Behind a number that ends its line.
fn line_step(place: Place, number: u32) -> Next
    ensures { result ≡ line_read place number }
{
    match place.slot {
        Slot::Layout => go_on(Slot::Text(Fixed::BeforeTerms), 0, Act::Numbered(number)),
        Slot::Terms => counted(number, Slot::Text(Fixed::BeforeNodes), Slot::Letter),
        Slot::Nodes => counted(number, Slot::Text(Fixed::BeforeLogs), Slot::Formula),
        Slot::Formula => one_less(
            place.left,
            Slot::Text(Fixed::BeforeLogs),
            Slot::Formula,
            Act::Maps(number),
        ),
        Slot::Logs => counted(
            number,
            Slot::Text(Fixed::Close),
            Slot::Text(Fixed::BeforeChains),
        ),
        Slot::Chains => chains_step(place.left, number),
        Slot::Third(form, a, b) => add_term(place.left, form.term(a, b, number)),
        _ => Next::Refused,
    }
}

// Behind the first number of a term.
fn first_step(left: u32, form: Form, number: u32, byte: u8) -> Next
    ensures { result ≡ first_read left form number byte }
{
    match form.operands() {
        Operands::One => by_line(byte, add_term(left, form.term(number, 0, 0))),
        Operands::Wide => by_blank(byte, go_on(Slot::Value(number), left, Act::Nothing)),
        _ => by_blank(byte, go_on(Slot::Second(form, number), left, Act::Nothing)),
    }
}

// Behind the second number of a term.
fn second_step(left: u32, form: Form, a: u32, number: u32, byte: u8) -> Next
    ensures { result ≡ second_read left form a number byte }
{
    match form.operands() {
        Operands::Three => by_blank(
            byte,
            go_on(Slot::Third(form, a, number), left, Act::Nothing),
        ),
        _ => by_line(byte, add_term(left, form.term(a, number, 0))),
    }
}

// Behind a number.
fn after_number(place: Place, number: u32, byte: u8) -> Next
    ensures { result ≡ number_read place number byte }
{
    match place.slot {
        Slot::First(form) => first_step(place.left, form, number, byte),
        Slot::Second(form, a) => second_step(place.left, form, a, number, byte),
        Slot::Start => clause_step(place.left, place.chains, Act::Begins(number), byte),
        Slot::Pivot => by_blank(
            byte,
            ending(
                Slot::Clause(number),
                place.left,
                place.chains,
                Act::Nothing,
                false,
                false,
            ),
        ),
        Slot::Clause(pivot) => clause_step(
            place.left,
            place.chains,
            Act::Pairs(pivot, number),
            byte,
        ),
        _ => by_line(byte, line_step(place, number)),
    }
}

// Behind the low digit of a byte of the hash, whose high digit has this value.
fn low_step(at: u8, high: u8, digit: u8) -> Next
    ensures { result ≡ low_read at high digit }
{
    let act = Act::Byte(at, high.wrapping_add(digit));
    if at >= 31 {
        go_on(Slot::Text(Fixed::BeforeModel), 0, act)
    } else {
        go_on(Slot::High(at + 1), 0, act)
    }
}

// Behind a digit of the hash.
fn hash_step(slot: Slot, digit: u8) -> Next
    requires { digit < 16 }
    ensures { result ≡ hash_read slot digit }
{
    match slot {
        Slot::High(at) => go_on(Slot::Low(at, digit * 16), 0, Act::Nothing),
        Slot::Low(at, high) => low_step(at, high, digit),
        _ => Next::Refused,
    }
}

// Behind a byte that should be a digit of the hash.
fn digit_step(slot: Slot, byte: u8) -> Next
    ensures { result ≡ digit_read slot byte }
{
    match hex_digit(byte) {
        None => Next::Refused,
        Some(digit) => hash_step(slot, digit),
    }
}

// Behind a byte that should be the letter of a term.
fn letter_step(left: u32, byte: u8) -> Next
    ensures { result ≡ letter_read left byte }
{
    match form_told(byte) {
        None => Next::Refused,
        Some(form) => go_on(Slot::Gap(form), left, Act::Nothing),
    }
}

// Behind the first letter of the data model.
fn model_step(byte: u8) -> Next
    ensures { result ≡ model_read byte }
{
    if byte == b'i' {
        return go_on(Slot::Text(Fixed::RestIlp32), 0, Act::Said(Model::Ilp32));
    }
    if byte == b'l' {
        return go_on(Slot::Text(Fixed::RestLp64), 0, Act::Said(Model::Lp64));
    }
    Next::Refused
}

// A byte that is a field of its own.
fn byte_step(place: Place, byte: u8) -> Next
    ensures { result ≡ byte_read place byte }
{
    match place.slot {
        Slot::High(_) => digit_step(place.slot, byte),
        Slot::Low(_, _) => digit_step(place.slot, byte),
        Slot::Kind => model_step(byte),
        Slot::Letter => letter_step(place.left, byte),
        Slot::Gap(form) => by_blank(byte, go_on(Slot::First(form), place.left, Act::Nothing)),
        _ => Next::Refused,
    }
}

// What stands behind a part that a byte makes.
fn moved(place: Place, width: u32, byte: u8, more: More) -> Next
    ensures { result ≡ moved_by place width byte more }
{
    match more {
        More::Refused => Next::Refused,
        More::Part(part) => Next::Part(part),
        More::Text => text_end(place),
        More::Number(number) => after_number(place, number, byte),
        More::Wide(value) => by_line(byte, add_term(place.left, Term::Constant(width, value))),
    }
}

// Behind words.
fn text_end(place: Place) -> Next
    ensures { result ≡ text_read place }
{
    match place.slot {
        Slot::Text(text) => go_on(text.next(), place.left, Act::Nothing),
        _ => Next::Refused,
    }
}

// How much of some words was read.
fn matched(part: Part) -> usize
    ensures { result ≡ matched_of part }
{
    match part {
        Part::Matched(at) => at,
        _ => 0,
    }
}

/// What a byte makes of a place and what was read of its field.
pub fn step(place: Place, part: Part, byte: u8) -> Next
    ensures { result ≡ step_of place part byte }
{
    match place.slot.want() {
        Want::Text(text) => moved(place, 0, byte, text_step(text.bytes(), matched(part), byte)),
        Want::Byte => byte_step(place, byte),
        Want::Number => moved(place, 0, byte, number_step(part, byte)),
        Want::Wide(width) => moved(place, width, byte, wide_step(part, byte)),
    }
}
