//! Branches on checks that may have failed, and on the ways out of a block.
ghost use Rattle.std.specs.Prelude.{◌≡◌, IfOk};
ghost use Rattle.block_emission.specs.Putting as made;
ghost use Rattle.block_emission.specs.Putting.{sketch_of};

use crate::draft::{Check, Draft, Waiting};
use crate::terms::Test;
use bv_term::TermId;
use c_graph::{NodeId, Operation};
use lv_base::Memory;

impl Draft {
    /// One branch for all checks that may have failed. The first in the order of places that did is the one that happened.
    pub(crate) fn flush(&mut self) -> Result<(), Memory>
        ensures made { IfOk result (λ u. sketch_of self.new ≡ made.flush (sketch_of self.old)) }
    {
        let fresh = Vec::new(self.alloc);
        let checks = std::mem::replace(&mut self.checks, fresh);
        let any = self.some_failed(&checks)?;
        self.flush_by(&checks, any)
    }

    fn flush_by(&mut self, checks: &[Check], any: Option<TermId>) -> Result<(), Memory>
        ensures made { IfOk result (λ u. sketch_of self.new ≡ made.flush_by (sketch_of self.old) checks.now any) }
    {
        match any {
            None => Ok(()),
            Some(any) => self.branch_on(checks, any),
        }
    }

    fn branch_on(&mut self, checks: &[Check], any: TermId) -> Result<(), Memory>
        ensures made { IfOk result (λ u. sketch_of self.new ≡ made.branch_on (sketch_of self.old) checks.now any) }
    {
        let node = self.branch_node()?;
        self.branch_checks(node, any, checks)?;
        self.go_unfailed(any)
    }

    fn go_unfailed(&mut self, any: TermId) -> Result<(), Memory>
        ensures made { IfOk result (λ u. sketch_of self.new ≡ made.go_unfailed (sketch_of self.old) any) }
    {
        let none = self.complement_in(any)?;
        self.operate(Operation::Assume(none))
    }

    fn branch_checks(&mut self, from: NodeId, any: TermId, checks: &[Check]) -> Result<(), Memory>
        ensures made { IfOk result (λ u. sketch_of self.new ≡ made.branch_checks (sketch_of self.old) from any checks.now) }
    {
        if checks.len() == 1 {
            self.edge_if(from, checks[0].error, any)
        } else {
            self.branch_chain(from, any, checks)
        }
    }

    fn branch_chain(&mut self, from: NodeId, any: TermId, checks: &[Check]) -> Result<(), Memory>
        ensures made { IfOk result (λ u. sketch_of self.new ≡ made.branch_chain (sketch_of self.old) from any checks.now) }
    {
        let chain = self.node()?;
        self.edge_if(from, chain, any)?;
        self.check_chain(chain, checks)
    }

    /// A term that is 1 where one of the checks failed, if there are any.
    fn some_failed(&mut self, checks: &[Check]) -> Result<Option<TermId>, Memory>
        ensures made { IfOk result (λ t. (sketch_of self.new, t) ≡ made.some_failed (sketch_of self.old) checks.now) }
    {
        let mut any = None;
        for behind in 0..checks.len() {
            any = self.fail_with(checks[checks.len() - 1 - behind].cell, any)?;
        }
        Ok(any)
    }

    fn fail_with(&mut self, cell: u32, any: Option<TermId>) -> Result<Option<TermId>, Memory>
        ensures made { IfOk result (λ t. (sketch_of self.new, t) ≡ made.fail_with (made.read (sketch_of self.old) cell) any) }
    {
        let failed = self.read(cell)?;
        match any {
            None => Ok(Some(failed)),
            Some(others) => self.fail_either(failed, others),
        }
    }

    fn fail_either(&mut self, failed: TermId, others: TermId) -> Result<Option<TermId>, Memory>
        ensures made { IfOk result (λ t. (sketch_of self.new, t) ≡ made.fail_either (sketch_of self.old) failed others) }
    {
        let either = self.either_in(failed, others)?;
        Ok(Some(either))
    }

    /// Branches on the checks in their order, the last without a test.
    fn check_chain(&mut self, chain: NodeId, checks: &[Check]) -> Result<(), Memory>
        ensures made { IfOk result (λ u. sketch_of self.new ≡ made.check_chain (sketch_of self.old) chain checks.now) }
    {
        let mut from = chain;
        for number in 1..checks.len() {
            let is_last = number + 1 == checks.len();
            from = self.check_step(from, checks[number - 1], checks[number], is_last)?;
        }
        Ok(())
    }

    /// The branch of one check, and the node of the next.
    fn check_step(
        &mut self,
        from: NodeId,
        check: Check,
        next: Check,
        is_last: bool,
    ) -> Result<NodeId, Memory>
        ensures made { IfOk result (λ v. (sketch_of self.new, v) ≡ made.check_step (sketch_of self.old) from check next is_last) }
    {
        let failed = self.read(check.cell)?;
        self.edge_if(from, check.error, failed)?;
        let to = self.next_check(next, is_last)?;
        let passed = self.complement_in(failed)?;
        self.edge_if(from, to, passed)?;
        Ok(to)
    }

    fn next_check(&mut self, next: Check, is_last: bool) -> Result<NodeId, Memory>
        ensures made { IfOk result (λ v. (sketch_of self.new, v) ≡ made.next_check (sketch_of self.old) next is_last) }
    {
        if is_last { Ok(next.error) } else { self.node() }
    }

    /// Branches on the ways out in the order of their numbers, the last without a test unless a side was lost.
    pub(crate) fn leave(&mut self) -> Result<(), Memory>
        ensures made { IfOk result (λ u. sketch_of self.new ≡ made.leave (sketch_of self.old)) }
    {
        let fresh = Vec::new(self.alloc);
        let exits = std::mem::replace(&mut self.waiting, fresh);
        self.leave_by(&exits)
    }

    fn leave_by(&mut self, exits: &[Waiting]) -> Result<(), Memory>
        ensures made { IfOk result (λ u. sketch_of self.new ≡ made.leave_by (sketch_of self.old) exits.now) }
    {
        for number in 0..exits.len() {
            let is_last = number + 1 == exits.len();
            self.leave_one(exits[number], is_last)?;
        }
        Ok(())
    }

    fn leave_one(&mut self, exit: Waiting, is_last: bool) -> Result<(), Memory>
        ensures made { IfOk result (λ u. sketch_of self.new ≡ made.leave_one (sketch_of self.old) exit is_last) }
    {
        if is_last {
            self.leave_last(exit)
        } else {
            self.leave_under(exit)
        }
    }

    fn leave_last(&mut self, exit: Waiting) -> Result<(), Memory>
        ensures made { IfOk result (λ u. sketch_of self.new ≡ made.leave_last (sketch_of self.old) exit) }
    {
        if self.is_lost {
            self.close_under(exit)
        } else {
            self.close(exit.node)
        }
    }

    fn close_under(&mut self, exit: Waiting) -> Result<(), Memory>
        ensures made { IfOk result (λ u. sketch_of self.new ≡ made.close_under (sketch_of self.old) exit) }
    {
        let test = self.term_in(Test::On(exit.guard))?;
        self.operate(Operation::Assume(test))?;
        self.close(exit.node)
    }

    fn leave_under(&mut self, exit: Waiting) -> Result<(), Memory>
        ensures made { IfOk result (λ u. sketch_of self.new ≡ made.leave_under (sketch_of self.old) exit) }
    {
        let test = self.term_in(Test::On(exit.guard))?;
        let node = self.branch_node()?;
        self.edge_if(node, exit.node, test)?;
        let other = self.complement_in(test)?;
        self.operate(Operation::Assume(other))
    }
}
