//! A certificate as far as it was read.

ghost use Rattle.std.specs.Prelude.{◌≡◌, [], true, IfSome, MatchResult};
ghost use Rattle.stored_text.specs.declared.StoredFail.{StoredFail};
ghost use Rattle.cert_text.specs.Content.{content_of};
ghost use Rattle.cert_text.specs.Drafts.{said_of, nothing, chain_of, acted, applied, chain_closed, log_closed, content_said};
ghost use Rattle.cert_text.specs.Walks.{front_of, behind};

use crate::Cert;
use crate::readers::Front;
use crate::steps::{Act, Move};
use bv_term::Term;
use lv_base::Model;
use resolution_log::{Chain, Log, Pairs};
use std::alloc::Global;
use std::mem;
use stored_text::StoredFail;

/// The parts of a certificate, the chains of a log that is not whole, and the last chain.
#[derive(Drop)]
pub struct Draft {
    pub hash: [u8; 32],
    pub model: Model,
    pub layout: u32,
    pub terms: Vec<Term>,
    pub formulas: Vec<u32>,
    pub logs: Vec<Log>,
    pub log: Log,
    pub chain: Chain,
}

// No chain yet.
fn no_chain(alloc: Global, first: u32) -> Chain
    ensures { result ≡ chain_of first [] }
{
    Chain {
        first,
        pairs: Pairs::new(alloc),
    }
}

impl Draft {
    /// Nothing was read. It takes no memory.
    pub fn new(alloc: Global) -> Draft
        ensures { said_of result ≡ nothing }
    {
        Draft {
            hash: [0; 32],
            model: Model::Ilp32,
            layout: 0,
            terms: Vec::new(alloc),
            formulas: Vec::new(alloc),
            logs: Vec::new(alloc),
            log: Log::new(alloc),
            chain: no_chain(alloc, 0),
        }
    }

    fn put_byte(&mut self, at: u8, value: u8)
        ensures { said_of self.new ≡ acted (Act.Byte at value) (said_of self.old) }
    {
        if at < 32 {
            self.hash[at as usize] = value;
        }
    }

    fn add_term(&mut self, term: Term) -> Result<(), StoredFail>
        ensures { MatchResult result (λ _. said_of self.new ≡ acted (Act.Adds term) (said_of self.old)) (λ e. e ≡ StoredFail.Memory) }
    {
        if self.terms.push(term).is_err() {
            return Err(StoredFail::Memory);
        }
        Ok(())
    }

    fn add_formula(&mut self, formula: u32) -> Result<(), StoredFail>
        ensures { MatchResult result (λ _. said_of self.new ≡ acted (Act.Maps formula) (said_of self.old)) (λ e. e ≡ StoredFail.Memory) }
    {
        if self.formulas.push(formula).is_err() {
            return Err(StoredFail::Memory);
        }
        Ok(())
    }

    /// A pair more of the last chain.
    pub fn add_pair(&mut self, pivot: u32, clause: u32) -> Result<(), StoredFail>
        ensures { MatchResult result (λ _. said_of self.new ≡ acted (Act.Pairs pivot clause) (said_of self.old)) (λ e. e ≡ StoredFail.Memory) }
    {
        if self.chain.pairs.push(pivot, clause).is_err() {
            return Err(StoredFail::Memory);
        }
        Ok(())
    }

    fn take(&mut self, alloc: Global, act: Act) -> Result<(), StoredFail>
        ensures { MatchResult result (λ _. said_of self.new ≡ acted act (said_of self.old)) (λ e. e ≡ StoredFail.Memory) }
    {
        match act {
            Act::Nothing => Ok(()),
            Act::Byte(at, value) => {
                self.put_byte(at, value);
                Ok(())
            }
            Act::Said(model) => {
                self.model = model;
                Ok(())
            }
            Act::Numbered(layout) => {
                self.layout = layout;
                Ok(())
            }
            Act::Adds(term) => self.add_term(term),
            Act::Maps(formula) => self.add_formula(formula),
            Act::Begins(first) => {
                self.chain = no_chain(alloc, first);
                Ok(())
            }
            Act::Pairs(pivot, clause) => self.add_pair(pivot, clause),
        }
    }

    fn end_chain(&mut self, alloc: Global, ends: bool) -> Result<(), StoredFail>
        ensures { MatchResult result (λ _. said_of self.new ≡ chain_closed ends (said_of self.old)) (λ e. e ≡ StoredFail.Memory) }
    {
        if !ends {
            return Ok(());
        }
        let chain = mem::replace(&mut self.chain, no_chain(alloc, 0));
        if self.log.push(chain).is_err() {
            return Err(StoredFail::Memory);
        }
        Ok(())
    }

    fn end_log(&mut self, alloc: Global, ends: bool) -> Result<(), StoredFail>
        ensures { MatchResult result (λ _. said_of self.new ≡ log_closed ends (said_of self.old)) (λ e. e ≡ StoredFail.Memory) }
    {
        if !ends {
            return Ok(());
        }
        let log = mem::replace(&mut self.log, Log::new(alloc));
        if self.logs.push(log).is_err() {
            return Err(StoredFail::Memory);
        }
        Ok(())
    }

    /// Keeps a field.
    pub fn apply(&mut self, alloc: Global, step: Move) -> Result<(), StoredFail>
        ensures { MatchResult result (λ _. said_of self.new ≡ applied step (said_of self.old)) (λ e. e ≡ StoredFail.Memory) }
    {
        self.take(alloc, step.act)?;
        self.end_chain(alloc, step.chain_ends)?;
        self.end_log(alloc, step.log_ends)
    }

    /// Whether this stands before the terms.
    pub fn has_front(&self, front: Front) -> bool
        ensures { result ≡ true → front_of (said_of self.now) ≡ front }
    {
        self.hash == front.hash && self.model == front.model && self.layout == front.layout
    }

    /// Whether no log is begun.
    pub fn is_between_logs(&self) -> bool
        ensures { result ≡ true → (self.now.log ≡ []) × (self.now.chain ≡ chain_of 0 []) }
    {
        self.log.is_empty() && self.chain.first == 0 && self.chain.pairs.is_empty()
    }

    /// What was read, and behind it the logs of another draft. There is none where that one has terms or formulas, or memory runs out.
    pub fn followed_by(self, next: Draft) -> Option<Draft>
        ensures { IfSome result (λ d. said_of d ≡ behind (said_of self) (said_of next)) }
    {
        if !next.terms.is_empty() || !next.formulas.is_empty() {
            return None;
        }
        let hash = next.hash;
        let mut logs = self.logs;
        let mut more = next.logs;
        logs.append(&mut more).ok()?;
        Some(Draft {
            hash,
            model: next.model,
            layout: next.layout,
            terms: self.terms,
            formulas: self.formulas,
            logs,
            log: next.log,
            chain: next.chain,
        })
    }

    /// The certificate that was read.
    pub fn into_cert(self) -> Cert
        ensures { content_of result ≡ content_said (said_of self) }
    {
        let hash = self.hash;
        Cert {
            hash,
            model: self.model,
            layout: self.layout,
            terms: self.terms,
            formulas: self.formulas,
            logs: self.logs,
        }
    }
}
