ghost use Rattle.std.specs.Prelude.{◌≡◌, Some, if◌then◌else◌, IfOk, IfErr};
ghost use Rattle.c_tree.specs.Symbols as sg;
ghost use Rattle.c_tree.specs.Denotes.{Denotes, tree_of};
ghost use Rattle.parse_machine.specs.Tokens as tk;
ghost use Rattle.parse_machine.specs.Machine as ma;
ghost use Rattle.c_parser.specs.Reading.{IsOnly, IsRefusal};
ghost use Rattle.c_parser.specs.StateView.{Answers, Advances, StopsWith, state_of, phase_of};
ghost use Rattle.c_tree.specs.declared.symbol.SymbolAt.{SymbolAt};

use crate::externs::{Phase, State, step};
use crate::measures::low;
use c_lexer::Token;
use c_tree::{BinaryOp, StorageWord, Symbol, Unit};
use lv_base::{SourceFail, SourceFault};
use parse_stack::StepFail;
use parse_values::Mode;
use parser_symbols::sign_of;
use std::alloc::Global;
use typedef_names::Names;

/// The height of a tree that passes the limit.
const PASSED: u64 = 201;

/// Whether the token is known of C and left out of the subset.
fn is_unsupported(t: &Symbol) -> bool
    ensures { result ≡ tk.is_unsupported t.now }
{
    matches!(
        t,
        Symbol::Listed(_)
            | Symbol::Foreign(_)
            | Symbol::Storage(StorageWord::Static)
            | Symbol::Storage(StorageWord::Extern)
            | Symbol::Dot
            | Symbol::Arrow
            | Symbol::Ellipsis
            | Symbol::Binary(BinaryOp::Multiply)
            | Symbol::Binary(BinaryOp::BitAnd)
            | Symbol::Str
    )
}

fn phase_low(p: &Phase) -> usize
    ensures { result ≡ ma.phase_low (phase_of p.now) }
{
    match p {
        Phase::Plain(m) => low(m),
        Phase::Above => 201,
        Phase::Both(..) | Phase::Skipping(_) => 0,
    }
}

/// Why no tree goes on with the token here.
fn refusal(unsupported: bool, at: u32) -> SourceFail
    ensures { StopsWith result (ma.Over (if unsupported then ma.Unsupported at else ma.Syntax at)) }
{
    if unsupported {
        SourceFail::Fault(SourceFault::Unsupported, at)
    } else {
        SourceFail::Fault(SourceFault::Syntax, at)
    }
}

/// The state, where its trees are not all too high.
fn limited(state: State) -> Result<State, SourceFail>
    ensures { (t : SymbolAt) → Advances result (ma.course t (ma.limited (Some (state_of state)))) }
{
    if phase_low(&state.phase) > 200 {
        Err(SourceFail::Over(3, PASSED))
    } else {
        Ok(state)
    }
}

/// One token.
fn advance(alloc: Global, token: &Token, state: State) -> Result<State, SourceFail>
    ensures { Advances result (ma.advance (sg.sign_of token.now) (ma.Going (state_of state))) }
{
    let sign = match sign_of(alloc, token) {
        Ok(sign) => sign,
        Err(_) => return Err(SourceFail::Memory),
    };
    let unsupported = is_unsupported(&sign.symbol);
    match step(alloc, token, sign, state) {
        Ok(next) => limited(next),
        Err(StepFail::Memory) => Err(SourceFail::Memory),
        Err(StepFail::Refused) => Err(refusal(unsupported, token.at)),
    }
}

/// The tree, where all is whole.
fn finish(state: State) -> Result<Unit, SourceFail>
    ensures { Answers result (ma.finish (state_of state)) }
{
    let State {
        items,
        names: _,
        phase,
    } = state;
    match phase {
        Phase::Plain(Mode::Finished) => Ok(Unit { items }),
        _ => Err(SourceFail::Fault(SourceFault::Syntax, 0)),
    }
}

/// The tree of a source's tokens.
///
/// Refused with `Syntax` or `Unsupported` at the first token with which no shaped tree goes on, and for limit 3 where each
/// tree that goes on is higher than 200. Tokens that don't end with a source's end are refused with `Syntax` at 0 where none
/// of them is refused before.
pub fn parse(alloc: Global, tokens: &[Token]) -> Result<Unit, SourceFail>
    ensures machine { Answers result (ma.parse_of (sg.signs_of tokens.now)) }
    ensures tree { IfOk result (λ unit. Denotes tokens.now unit) }
    ensures only { IfOk result (λ unit. IsOnly (sg.signs_of tokens.now) (tree_of unit)) }
    ensures refused { IfErr result (λ fail. IsRefusal (sg.signs_of tokens.now) fail) }
{
    read(alloc, tokens)
}

// The machine over all tokens.
fn read(alloc: Global, tokens: &[Token]) -> Result<Unit, SourceFail>
    ensures { Answers result (ma.parse_of (sg.signs_of tokens.now)) }
{
    let mut state = State {
        items: Vec::new(alloc),
        names: Names::new(alloc),
        phase: Phase::Plain(Mode::File),
    };
    let mut rest = tokens;
    'tokens: while let Some((token, behind)) = rest.split_first() {
        state = match advance(alloc, token, state) {
            Ok(next) => next,
            Err(fail) => return Err(fail),
        };
        rest = behind;
    }
    finish(state)
}
