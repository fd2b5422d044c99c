//! What the clauses of blasting say, and how many literals they have.
//!
//! Each call of `bit_blast` adds the clauses that its definition names. These laws tie the definitions to the values of
//! terms, over any list of calls: every choice of values for the cells and the fresh literals extends to a satisfying
//! assignment, and every satisfying assignment reads back. Each law is the contract of a function that does nothing: a
//! caller cites what it ensures.
#![tactic(auto)]

ghost use Rattle.blast_laws.specs.Drawn.{AnyStoreAndDraws, FreshStay, FreshTakeAny};
ghost use Rattle.blast_laws.specs.Laws.{CallsExact, CallsScope, NewStarts, ReadsScope, RenewStarts, StoresSmall, StoresSpelled, TermsSmall, TruthsRead};

/// Over any list of calls from the beginning of a step on, whatever values the variables have that were there before or
/// that `fresh` made, the others can be chosen so that the clauses of the calls hold. And wherever these hold, the literals
/// of each cell have the value that the calls gave to it, and the literals that `blast` and `blast_all` answered have the
/// value of their term in the store as it stood at that call.
pub fn calls_exact()
    ensures { CallsExact }
{}

/// `Bits::new` begins a step: nothing is known of earlier clauses.
pub fn new_starts()
    ensures { NewStarts }
{}

/// Each `renew` begins a step, so that the calls after it are exact by their own clauses alone.
pub fn renew_starts()
    ensures { RenewStarts }
{}

/// The first cells may spell any store: their variables are different ones, and no earlier clause has them.
pub fn stores_spelled()
    ensures { StoresSpelled }
{}

/// The literal that `blast` answered, which spells the value of a term of width 1, is true exactly where the term holds.
pub fn truths_read()
    ensures { TruthsRead }
{}

/// The clauses of calls, the literals that they answer and the cells after them speak of the cells' variables at the
/// beginning of the step, of the literals that calls were handed, and of variables that were made since; of no others.
pub fn calls_scope()
    ensures { CallsScope }
{}

/// The clauses of calls, and the literals that they answer, speak of no other variables than those of the literals that calls
/// were handed, those made since, and those of the cells that some call reads before any call sets them: the cells that
/// nothing reads stay out. A cell's literals after the calls are those of the cell at the beginning, or of what was handed, or
/// made since.
pub fn reads_scope()
    ensures { ReadsScope }
{}

/// The literals that `blast` and `blast_all` add are at most the sum of the bounds of the terms that are done by it, each
/// once, and one where there was no constant literal yet. With w the greatest width in a term: 256 w² + 1024 w for a
/// product, a quotient or a remainder, 64 n w + 1024 w for an element of n cells, none for a constant, a cell, an extension,
/// a truncation or a bit, and 256 w + 64 for the others.
pub fn terms_small()
    ensures { TermsSmall }
{}

/// The literals that `store_at` adds over n cells of w bits are at most 128 n w + 1024 w, and one where there was no constant
/// literal yet: the places that an index may name are found once for all cells, by conjunctions that they share.
pub fn stores_small()
    ensures { StoresSmall }
{}

/// Fresh literals may spell any values that fit, one for each call of `fresh`: their variables are different ones, and were
/// not there before.
pub fn fresh_take_any()
    ensures { FreshTakeAny }
{}

/// What fresh literals spell rests on their own variables alone, which calls leave open.
pub fn fresh_stay()
    ensures { FreshStay }
{}

/// After `Bits::new` the clauses of calls hold with any store in the first cells and any values of the fresh literals at once.
pub fn any_store_and_draws()
    ensures { AnyStoreAndDraws }
{}
