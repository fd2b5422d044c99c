ghost use Rattle.std.specs.Prelude.{◌≡◌, Some, None, not, leb, ◌||◌};
ghost use Rattle.parse_machine.specs.Heights as hi;
ghost use Rattle.c_tree.specs.Symbols as sg;
ghost use Rattle.parse_machine.specs.Machine as ma;
ghost use Rattle.parse_stack.specs.View as v;
ghost use Rattle.parse_values.specs.ModeView.{mode, IsBehind};
ghost use Rattle.parse_machine.specs.Declarations as de;
ghost use Rattle.c_tree.specs.Tree as tr;
ghost use Rattle.c_tree.specs.View.{items_of, words_behind};
ghost use Rattle.parse_machine.specs.Steps as st;
ghost use Rattle.c_parser.specs.StateView.{GivesState, GivesExtern, extern_of, option_extern, option_mode, state_of, phase_of, role_of, is_file_around, extension_of};

use crate::measures::low;
use crate::steps::next;
use c_lexer::Token;
use c_tree::{AssignOp, BinaryOp, Bracket, Item, Spec, StorageWord, Symbol, SymbolAt};
use parse_stack::{Around, Place, StepFail};
use parse_values::Mode;
use parser_symbols::sign_of;
use std::alloc::Global;
use typedef_names::Names;

/// An item that begins with `extern`: the offsets of `__extension__` and of `extern`, and the tokens behind.
#[derive(Drop)]
pub struct Extern {
    pub extension: Option<u32>,
    pub at: u32,
    pub tokens: Vec<SymbolAt>,
}

/// How an item is read: as it stands, also as tokens alone, or as tokens alone.
#[derive(Drop)]
pub enum Phase {
    Plain(Mode),
    /// With whether the limit on the height was passed.
    Both(Extern, Option<Box<Mode>>, bool),
    Skipping(Extern),
    /// The limit on the height was passed, and the item can't be skipped any more.
    Above,
}

/// The state between two tokens.
#[derive(Drop)]
pub struct State {
    pub items: Vec<Item>,
    pub names: Names,
    pub phase: Phase,
}

/// What a token is to an item that may be skipped.
#[derive(Clone, Copy, Debug, PartialEq, Eq)]
pub enum Role {
    Listed,
    Semicolon,
    Stop,
    Other,
}

fn role_among(t: &Symbol) -> Role
    ensures { role_of result ≡ ma.role t.now }
{
    match t {
        Symbol::Semicolon => Role::Semicolon,
        Symbol::Assign(AssignOp::Plain)
        | Symbol::Open(Bracket::Curly)
        | Symbol::Close(Bracket::Curly)
        | Symbol::End => Role::Stop,
        Symbol::Binary(BinaryOp::Multiply) | Symbol::Ellipsis | Symbol::Listed(_) => Role::Listed,
        _ => Role::Other,
    }
}

/// Whether words stand where an item begins.
fn is_in_file(w: &Around) -> bool
    ensures { result ≡ is_file_around (v.around w.now) }
{
    match w {
        Around::Place(p) => match &**p {
            Place::File => true,
            Place::Block(_) | Place::For(..) => false,
        },
        Around::Cast(..) | Around::Sizeof(..) | Around::Parameter(..) => false,
    }
}

/// Where these words are one `__extension__`, its offset.
fn one_extension(words: &[Spec]) -> Option<u32>
    ensures { result ≡ extension_of (words_behind tr.no_words words.now) }
{
    match words {
        [Spec::Extension(x)] => Some(*x),
        _ => None,
    }
}

fn started(alloc: Global, extension: Option<u32>, at: u32) -> Extern
    ensures { extern_of result ≡ ma.extern extension at tr.no_raw }
{
    Extern {
        extension,
        at,
        tokens: Vec::new(alloc),
    }
}

/// Where `extern` begins an item.
fn opens_mode(alloc: Global, m: &Mode, at: u32) -> Option<Extern>
    ensures { option_extern result ≡ ma.opens_mode (mode m.now) at }
{
    match m {
        Mode::File => Some(started(alloc, None, at)),
        Mode::Specifiers(s, w) => {
            if !is_in_file(w) {
                return None;
            }
            let x = one_extension(&s.words.words)?;
            Some(started(alloc, Some(x), at))
        }
        _ => None,
    }
}

/// Whether the token begins an item that may be skipped.
fn opens(alloc: Global, t: &SymbolAt, m: &Mode) -> Option<Extern>
    ensures { option_extern result ≡ ma.opens t.now.symbol t.now.at (mode m.now) }
{
    match t.symbol {
        Symbol::Storage(StorageWord::Extern) => opens_mode(alloc, m, t.at),
        _ => None,
    }
}

/// One token more.
#[tactic(auto, using(crate::proofs::Views::raw_push))]
fn add_token(x: Extern, t: SymbolAt) -> Result<Extern, StepFail>
    ensures { GivesExtern result (ma.more (extern_of x) t) }
{
    let Extern {
        extension,
        at,
        mut tokens,
    } = x;
    tokens.push(t)?;
    Ok(Extern {
        extension,
        at,
        tokens,
    })
}

/// An item that is whole stands behind the others.
#[tactic(auto, using(crate::proofs::ItemLemmas::items_push))]
fn file(state: State) -> Result<State, StepFail>
    ensures { GivesState result (Some (ma.filed (items_of state.items.items) state.names (phase_of state.phase))) }
{
    let State {
        mut items,
        names,
        phase,
    } = state;
    match phase {
        Phase::Plain(Mode::Ended(i, _)) => {
            items.push(Box::into_inner(i))?;
            Ok(State {
                items,
                names,
                phase: Phase::Plain(Mode::File),
            })
        }
        phase => Ok(State {
            items,
            names,
            phase,
        }),
    }
}

/// A token that ends the choice: the item must go on as it stands.
fn go_plain(
    alloc: Global,
    items: Vec<Item>,
    names: Names,
    t: SymbolAt,
    m: Option<Box<Mode>>,
    high: bool,
) -> Result<State, StepFail>
    ensures { GivesState result (ma.settled high (items_of items.items) (ma.go names t (option_mode m))) }
{
    match m {
        None => Err(StepFail::Refused),
        Some(m) => {
            let mut names = names;
            let m = next(alloc, &mut names, t, Box::into_inner(m))?;
            let phase = if high { Phase::Above } else { Phase::Plain(m) };
            Ok(State {
                items,
                names,
                phase,
            })
        }
    }
}

/// Whether the limit on the height is passed. Where it was before, the height is not looked at again: what is open may be
/// as deep as the source is long.
fn is_high(high: bool, m: &Mode) -> bool
    ensures { result ≡ (high || not (leb (hi.low (mode m.now)) 200)) }
{
    high || low(m) > 200
}

/// The item as it was read, or what can only be skipped.
fn read_on(
    alloc: Global,
    items: Vec<Item>,
    names: Names,
    x: Extern,
    m: Mode,
    high: bool,
) -> Result<State, StepFail>
    ensures { GivesState result (Some (ma.both (items_of items.items) names (extern_of x) high (Some (de.turn (mode m) names)))) }
{
    let high = is_high(high, &m);
    let m = Box::new(alloc, m)?;
    Ok(State {
        items,
        names,
        phase: Phase::Both(x, Some(m), high),
    })
}

/// The item is read on both ways, not behind a statement.
fn go_kept(
    alloc: Global,
    items: Vec<Item>,
    names: Names,
    x: Extern,
    t: SymbolAt,
    m: Mode,
    high: bool,
) -> Result<State, StepFail>
    requires { IsBehind m → ⊥ }
    ensures { GivesState result (Some (ma.both (items_of items.items) names (extern_of x) high (st.next names t (mode m)))) }
{
    let mut names = names;
    match next(alloc, &mut names, t, m) {
        Ok(m) => read_on(alloc, items, names, x, m, high),
        Err(StepFail::Refused) => Ok(State {
            items,
            names,
            phase: Phase::Both(x, None, high),
        }),
        Err(StepFail::Memory) => Err(StepFail::Memory),
    }
}

/// The item is read on both ways behind a statement. There the names may change before the token is refused, so they are
/// copied; no item that begins with `extern` has a statement before it is known which it is.
fn go_copied(
    alloc: Global,
    items: Vec<Item>,
    names: Names,
    x: Extern,
    t: SymbolAt,
    m: Mode,
    high: bool,
) -> Result<State, StepFail>
    ensures { GivesState result (Some (ma.both (items_of items.items) names (extern_of x) high (st.next names t (mode m)))) }
{
    let mut changed = match names.copy(alloc) {
        Ok(changed) => changed,
        Err(_) => return Err(StepFail::Memory),
    };
    match next(alloc, &mut changed, t, m) {
        Ok(m) => read_on(alloc, items, changed, x, m, high),
        Err(StepFail::Refused) => Ok(State {
            items,
            names,
            phase: Phase::Both(x, None, high),
        }),
        Err(StepFail::Memory) => Err(StepFail::Memory),
    }
}

/// The item is read on both ways.
fn go_both(
    alloc: Global,
    items: Vec<Item>,
    names: Names,
    x: Extern,
    t: SymbolAt,
    m: Mode,
    high: bool,
) -> Result<State, StepFail>
    ensures { GivesState result (Some (ma.both (items_of items.items) names (extern_of x) high (st.next names t (mode m)))) }
{
    match m {
        Mode::Whole(s, o) => go_copied(alloc, items, names, x, t, Mode::Whole(s, o), high),
        m => go_kept(alloc, items, names, x, t, m, high),
    }
}

/// Any other token of an item that may still be skipped.
fn step_other(
    alloc: Global,
    items: Vec<Item>,
    names: Names,
    x: Extern,
    t: SymbolAt,
    m: Option<Box<Mode>>,
    high: bool,
) -> Result<State, StepFail>
    ensures { GivesState result (Some (ma.both (items_of items.items) names (extern_of x) high (ma.go names t (option_mode m)))) }
{
    match m {
        Some(m) => go_both(alloc, items, names, x, t, Box::into_inner(m), high),
        None => Ok(State {
            items,
            names,
            phase: Phase::Both(x, None, high),
        }),
    }
}

/// A token of an item that may still be skipped.
fn step_both(
    alloc: Global,
    items: Vec<Item>,
    names: Names,
    token: &Token,
    t: SymbolAt,
    x: Extern,
    m: Option<Box<Mode>>,
    high: bool,
) -> Result<State, StepFail>
    requires { t ≡ sg.sign_of token.now }
    ensures { GivesState result (ma.step_both (ma.role t.symbol) (items_of items.items) names t (extern_of x) (option_mode m) high) }
{
    match role_among(&t.symbol) {
        Role::Listed => Ok(State {
            items,
            names,
            phase: Phase::Skipping(add_token(x, t)?),
        }),
        Role::Semicolon | Role::Stop => go_plain(alloc, items, names, t, m, high),
        Role::Other => {
            let again = sign_of(alloc, token)?;
            let x = add_token(x, again)?;
            step_other(alloc, items, names, x, t, m, high)
        }
    }
}

/// A token of an item that is kept as tokens.
fn step_skipping(
    alloc: Global,
    items: Vec<Item>,
    names: Names,
    t: SymbolAt,
    x: Extern,
) -> Result<State, StepFail>
    ensures { GivesState result (ma.step_skipping (ma.role t.symbol) (items_of items.items) names t (extern_of x)) }
{
    let phase = match role_among(&t.symbol) {
        Role::Semicolon => {
            let item = Item::Skipped(x.extension, x.at, x.tokens, t.at);
            Phase::Plain(Mode::Ended(Box::new(alloc, item)?, 0))
        }
        Role::Stop => return Err(StepFail::Refused),
        Role::Listed | Role::Other => Phase::Skipping(add_token(x, t)?),
    };
    Ok(State {
        items,
        names,
        phase,
    })
}

/// A token where nothing may be skipped, or where it begins.
fn step_plain(
    alloc: Global,
    items: Vec<Item>,
    names: Names,
    t: SymbolAt,
    m: Mode,
) -> Result<State, StepFail>
    ensures { GivesState result (ma.step_plain (ma.opens t.symbol t.at (mode m)) (items_of items.items) names t (mode m)) }
{
    match opens(alloc, &t, &m) {
        Some(x) => go_both(alloc, items, names, x, t, m, false),
        None => {
            let mut names = names;
            let m = next(alloc, &mut names, t, m)?;
            Ok(State {
                items,
                names,
                phase: Phase::Plain(m),
            })
        }
    }
}

/// One token.
pub fn step(alloc: Global, token: &Token, t: SymbolAt, state: State) -> Result<State, StepFail>
    requires { t ≡ sg.sign_of token.now }
    ensures { GivesState result (ma.step t (state_of state)) }
{
    let State {
        items,
        names,
        phase,
    } = file(state)?;
    match phase {
        Phase::Plain(m) => step_plain(alloc, items, names, t, m),
        Phase::Both(x, m, high) => step_both(alloc, items, names, token, t, x, m, high),
        Phase::Above => Err(StepFail::Refused),
        Phase::Skipping(x) => step_skipping(alloc, items, names, t, x),
    }
}
