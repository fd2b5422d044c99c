ghost use Rattle.std.specs.Prelude.{◌≡◌, ℕ, ◌+◌, ◌≤◌, ◌<◌, length, map, take, drop, slice_index, All, List, [], ◌∷◌, ◌++◌, IfOk, IfErr, OnErr, MatchResult, true, nat_lt, if◌then◌else◌};
ghost use Rattle.bit_gates.specs.Cut.{Cut, Emitted, Grew};
ghost use Rattle.bit_gates.specs.Net.{net_clauses};
ghost use Rattle.bit_words.specs.Elements.{AllLong};
ghost use Rattle.bv_term.specs.WellFormed.{IsWidth, Table, widths};
ghost use Rattle.bit_blast.specs.Emission.{cell_at, emitted};
ghost use Rattle.bit_blast.specs.Cone.{cone_of};
ghost use Rattle.bit_blast.specs.Done.{lits_of, is_done};
ghost use Rattle.bit_blast.specs.Held.{begun, blast_of, fresh_of, fresh_lits, fresh_cells, sum_of, above, above_all, new_of, rebind_of, renew_of, store_of, IsOver};

use crate::cells::{Cells, new_lits};
use crate::cone::cone;
use crate::done::DoneTerms;
use crate::emit::put_terms;
use crate::store::put_store;
use bit_gates::{Def, Net, NoRoom, close};
use bv_term::{TermId, Terms};
use lv_base::Memory;
use prop::{BlastFail, Clauses, Lit};
use std::alloc::Global;
use std::marker::Model;

/// Literals for the cells of a store, as it stands, and for the terms that were blasted since it last changed, lowest bit
/// first. All variables from `next` on are unused.
#[derive(Drop)]
pub struct Bits {
    next: u32,
    one: Option<Lit>,
    cells: Cells,
    done: DoneTerms,
}

impl Model for Bits {
    ghost use Rattle.bit_blast.specs.Held.{Held};

    ghost Value = { Held };

    ghost view = { λ s. record { next = s.next; one = s.one; cells = s.cells; done = s.done } };
}

// The first variable above this one and `next`.
fn past(next: u64, var: u32) -> u64
    requires { next ≤ 4294967296 }
    ensures value { result ≡ (if nat_lt var next then next else var + 1) }
    ensures within { result ≤ 4294967296 }
{
    if (var as u64) < next {
        next
    } else {
        var as u64 + 1
    }
}

// The first variable above those of a clause and `next`.
fn above_clause(next: u64, clause: &[Lit]) -> u64
    requires { next ≤ 4294967296 }
    ensures value { result ≡ above next clause.now }
    ensures within { result ≤ 4294967296 }
{
    let mut free = next;
    for lit in clause {
        free = past(free, lit.var);
    }
    free
}

// The first variable above those of all clauses.
fn above_clauses(clauses: &Clauses) -> u64
    ensures value { result ≡ above_all 0 clauses.now }
    ensures within { result ≤ 4294967296 }
{
    let mut free = 0;
    for number in 0..clauses.len() {
        free = above_clause(free, clauses.clause(number));
    }
    free
}

// The constant literal, which is made where there is none yet.
fn put_one(net: &mut Net, one: Option<Lit>) -> Result<Lit, NoRoom>
    ensures start { net.new.start ≡ net.old.start }
    ensures grew { IfOk result (λ r.
        let m = begun net.old.next one in
        Grew net.old.next net.old.defs.items net.new.next net.new.defs.items m.defs × (r ≡ m.lit)) }
{
    match one {
        Some(l) => Ok(l),
        None => net.define(Def::Fixed(true)),
    }
}

// Appends what a term adds, with the constant literal where there is none yet.
fn put_blast(
    alloc: Global,
    net: &mut Net,
    one: &mut Option<Lit>,
    cells: &Cells,
    done: &mut DoneTerms,
    terms: &Terms,
    term: u32,
) -> Result<(), NoRoom>
    requires there { term < length terms.now.terms }
    requires over { IsOver terms.now (record { next = net.old.next; one = one.old; cells = cells.now; done = done.old }) }
    ensures start { net.new.start ≡ net.old.start }
    ensures grew { IfOk result (λ _.
        let m = blast_of terms.now term (record { next = net.old.next; one = one.old; cells = cells.now; done = done.old }) in
        Grew net.old.next net.old.defs.items net.new.next net.new.defs.items m.defs
        × (one.new ≡ m.held.one) × (done.new ≡ m.held.done)) }
    ensures over { IfOk result (λ _. IsOver terms.now (record { next = net.new.next; one = one.new; cells = cells.now; done = done.new })) }
    ensures done { IfOk result (λ _. is_done done.new term ≡ true) }
{
    let _all = terms.count();
    let lit = put_one(net, *one)?;
    *one = Some(lit);
    let found = cone(alloc, terms, done, term)?;
    put_terms(alloc, net, lit, cells, done, terms, &found)?;
    Ok(())
}

impl Bits {
    /// Literals of their own for each cell of a store, of variables that occur in no clause. No clause is added: the
    /// constant literal is made by the first call that needs it. It fails for want of memory, or of variables.
    pub fn new(alloc: Global, clauses: &mut Clauses, cells: &[u32]) -> Result<Bits, BlastFail>
        requires { All IsWidth cells.now }
        ensures clauses { clauses.new ≡ clauses.old }
        ensures held { IfOk result (λ b. b ≡ new_of clauses.old cells.now) }
        ensures cause { IfErr result (λ e. e ≡ BlastFail.Memory) }
        ensures over { IfOk result (λ b. (table : Table) → table.cells ≡ cells.now → IsOver table b) }
    {
        let free = above_clauses(clauses);
        if free > u32::MAX as u64 {
            return Err(BlastFail::Memory);
        }
        match Cells::new(alloc, free as u32, cells) {
            Err(_) => Err(BlastFail::Memory),
            Ok((all, next)) => Ok(Bits {
                next,
                one: None,
                cells: all,
                done: DoneTerms::new(alloc),
            }),
        }
    }

    /// The first variable that is not used yet.
    pub fn next(&self) -> u32
        ensures { result ≡ self.now.next }
    {
        self.next
    }

    /// The constant literal of this step, where it was made.
    pub fn constant(&self) -> Option<Lit>
        ensures { result ≡ self.now.one }
    {
        self.one
    }

    /// The literals of a cell, none past the last cell.
    pub fn cell(&self, cell: u32) -> &[Lit]
        ensures { result.now ≡ cell_at self.now.cells cell }
    {
        self.cells.get(cell as usize)
    }

    /// Whether a term counts as done.
    pub fn is_done(&self, term: TermId) -> bool
        ensures { result ≡ is_done self.now.done term.0 }
    {
        self.done.has(term.0)
    }

    /// Positive literals of variables that occur in no clause and were not made before.
    pub fn fresh(&mut self, alloc: Global, width: u32) -> Result<Vec<Lit>, Memory>
        ensures made { IfOk result (λ r. (r.items ≡ (fresh_of width self.old).outs) × (self.new ≡ (fresh_of width self.old).held)) }
        ensures over { IfOk result (λ _. (table : Table) → IsOver table self.old → IsOver table self.new) }
        ensures unchanged { OnErr result (self.new ≡ self.old) }
    {
        match new_lits(alloc, self.next, width) {
            Err(_) => Err(Memory),
            Ok(lits) => {
                self.next += width;
                Ok(lits)
            }
        }
    }

    /// Gives a cell these literals from now on. No term counts as done any more; the step's constant literal stays. It adds
    /// no clause and does not fail.
    pub fn rebind(
        &mut self,
        clauses: &mut Clauses,
        cell: u32,
        to: Vec<Lit>,
    ) -> Result<(), BlastFail>
        requires cell { cell < length self.old.cells }
        requires width { length to.items ≡ length (cell_at self.old.cells cell) }
        ensures clauses { clauses.new ≡ clauses.old }
        ensures held { IfOk result (λ _. self.new ≡ rebind_of cell to.items self.old) }
        ensures whole { OnErr result ⊥ }
        ensures over { IfOk result (λ _. (table : Table) → IsOver table self.old → IsOver table self.new) }
    {
        self.cells.set(cell as usize, &to);
        self.done.clear();
        let _ = clauses;
        Ok(())
    }

    /// Begins a new step: no term counts as done any more, and a new constant literal is made by the first call that needs
    /// it. The cells keep their literals. It adds no clause and does not fail.
    pub fn renew(&mut self, clauses: &mut Clauses) -> Result<(), BlastFail>
        ensures clauses { clauses.new ≡ clauses.old }
        ensures held { IfOk result (λ _. self.new ≡ renew_of self.old) }
        ensures whole { OnErr result ⊥ }
        ensures over { IfOk result (λ _. (table : Table) → IsOver table self.old → IsOver table self.new) }
    {
        self.one = None;
        self.done.clear();
        let _ = clauses;
        Ok(())
    }

    /// Gives the `count` cells from the first on what they hold after the value was stored at the index among them, which
    /// stores nothing where the index is not below the count. A known index costs one cell. It fails where the literals would
    /// pass the limit, or for want of memory or variables; both arguments are of no further use then.
    pub fn store_at(
        &mut self,
        alloc: Global,
        clauses: &mut Clauses,
        first: u32,
        count: u32,
        index: &[Lit],
        value: &[Lit],
    ) -> Result<(), BlastFail>
        requires there { first + count ≤ length self.old.cells }
        requires index { length index.now ≤ 128 }
        requires widths { AllLong (length value.now) (take count (drop first self.old.cells)) }
        ensures emission { let m = store_of first count index.now value.now self.old in MatchResult result
            (λ _. Emitted clauses.old clauses.new self.old.next self.new.next m.defs × (self.new ≡ m.held))
            (λ e. Cut e clauses.old (net_clauses self.old.next m.defs) clauses.new) }
        ensures over { IfOk result (λ _. (table : Table) → IsOver table self.old → IsOver table self.new) }
    {
        let mut net = Net::new(alloc, self.next);
        let one = match put_one(&mut net, self.one) {
            Err(_) => return Err(BlastFail::Memory),
            Ok(one) => one,
        };
        self.one = Some(one);
        self.done.clear();
        let stored = put_store(
            alloc,
            &mut net,
            one,
            &mut self.cells,
            first as usize,
            count as usize,
            index,
            value,
        );
        match stored {
            Err(_) => Err(BlastFail::Memory),
            Ok(_) => close(clauses, &mut self.next, &net),
        }
    }
}

/// Adds the clauses of a term and of what it uses, each once, and answers its literals. It fails where the literals would
/// pass the limit, or for want of memory or variables; both arguments are of no further use then.
pub fn blast_all(
    alloc: Global,
    terms: &Terms,
    term: TermId,
    clauses: &mut Clauses,
    bits: &mut Bits,
) -> Result<Vec<Lit>, BlastFail>
    requires there { term.0 < length terms.now.terms }
    requires over { IsOver terms.now bits.old }
    ensures emission { let m = blast_of terms.now term.0 bits.old in MatchResult result
        (λ r. Emitted clauses.old clauses.new bits.old.next bits.new.next m.defs × (r.items ≡ m.outs) × (bits.new ≡ m.held))
        (λ e. Cut e clauses.old (net_clauses bits.old.next m.defs) clauses.new) }
    ensures over { IfOk result (λ _. IsOver terms.now bits.new) }
    ensures width { IfOk result (λ r. length r.items ≡ slice_index (widths terms.now) term.0) }
{
    let mut net = Net::new(alloc, bits.next);
    if put_blast(
        alloc,
        &mut net,
        &mut bits.one,
        &bits.cells,
        &mut bits.done,
        terms,
        term.0,
    )
    .is_err()
    {
        return Err(BlastFail::Memory);
    }
    let outs = match Vec::from_slice(alloc, bits.done.lits(term.0)) {
        Err(_) => return Err(BlastFail::Memory),
        Ok(outs) => outs,
    };
    match close(clauses, &mut bits.next, &net) {
        Err(end) => Err(end),
        Ok(_) => Ok(outs),
    }
}

/// Adds the clauses of a term of width 1 and of what it uses, each once, and answers its literal. It fails as `blast_all`
/// does.
pub fn blast(
    alloc: Global,
    terms: &Terms,
    term: TermId,
    clauses: &mut Clauses,
    bits: &mut Bits,
) -> Result<Lit, BlastFail>
    requires there { term.0 < length terms.now.terms }
    requires width { slice_index (widths terms.now) term.0 ≡ 1 }
    requires over { IsOver terms.now bits.old }
    ensures emission { let m = blast_of terms.now term.0 bits.old in MatchResult result
        (λ r. Emitted clauses.old clauses.new bits.old.next bits.new.next m.defs × (r ∷ [] ≡ m.outs) × (bits.new ≡ m.held))
        (λ e. Cut e clauses.old (net_clauses bits.old.next m.defs) clauses.new) }
    ensures over { IfOk result (λ _. IsOver terms.now bits.new) }
{
    match blast_all(alloc, terms, term, clauses, bits) {
        Err(end) => Err(end),
        Ok(outs) => Ok(outs[0]),
    }
}
