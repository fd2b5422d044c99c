//! The edges of one block, by the plan of its graph.
ghost use Rattle.std.specs.Prelude.{◌≡◌, IfOk};
ghost use Rattle.block_emission.specs.Emitting as made;
ghost use Rattle.block_emission.specs.Emitting.{scheme_of};
ghost use Rattle.block_emission.specs.Putting.{sketch_of};

use crate::blocking::Plan;
use crate::draft::{Check, Draft, Waiting};
use crate::terms::{Test, width_of};
use block_plan::{Live, Way, Ways, draws, ways_at};
use bv_term::{Term, TermId};
use c_graph::{Edge, Node, NodeId, Operation};
use lv_base::Memory;

/// So many waiting places are looked at before a store goes through its guard.
const MOST_WAITING: usize = 64;

impl Draft {
    /// The edges of the block with these places, in order; the first is its cut point.
    pub(crate) fn block(&mut self, plan: Plan<'_>, places: &[NodeId]) -> Result<(), Memory>
        ensures made { IfOk result (λ u. sketch_of self.new ≡ made.block (scheme_of plan.entry) (sketch_of self.old) places.now) }
    {
        if places.is_empty() {
            return Ok(());
        }
        self.block_from(plan, places[0], places)
    }

    fn block_from(&mut self, plan: Plan<'_>, start: NodeId, places: &[NodeId]) -> Result<(), Memory>
        ensures made { IfOk result (λ u. sketch_of self.new ≡ made.block_from (scheme_of plan.entry) (sketch_of self.old) start places.now) }
    {
        self.begin(start)?;
        self.places(plan, start, places)?;
        self.flush()?;
        self.leave()?;
        self.count_used();
        Ok(())
    }

    fn count_used(&mut self)
        ensures made { sketch_of self.new ≡ made.count_used (sketch_of self.old) }
    {
        self.used = self.used.max(self.taken);
    }

    fn places(&mut self, plan: Plan<'_>, start: NodeId, places: &[NodeId]) -> Result<(), Memory>
        ensures made { IfOk result (λ u. sketch_of self.new ≡ made.places (scheme_of plan.entry) (sketch_of self.old) start places.now) }
    {
        for number in 0..places.len() {
            self.place(plan, places[number])?;
            self.set_free(start, places[number])?;
        }
        Ok(())
    }

    /// The number of a place behind the first is free for branches.
    fn set_free(&mut self, start: NodeId, place: NodeId) -> Result<(), Memory>
        ensures made { IfOk result (λ u. sketch_of self.new ≡ made.set_free (sketch_of self.old) start place) }
    {
        if place.0 == start.0 {
            return Ok(());
        }
        self.free.push(place)?;
        Ok(())
    }

    /// A place: its guard, its operations, and where it leads.
    fn place(&mut self, plan: Plan<'_>, place: NodeId) -> Result<(), Memory>
        ensures made { IfOk result (λ u. sketch_of self.new ≡ made.place (scheme_of plan.entry) (sketch_of self.old) place) }
    {
        match self.waits(place) {
            None => Ok(()),
            Some(guard) => self.place_on(plan, place, guard),
        }
    }

    fn place_on(&mut self, plan: Plan<'_>, place: NodeId, guard: Option<u32>) -> Result<(), Memory>
        ensures made { IfOk result (λ u. sketch_of self.new ≡ made.place_on (scheme_of plan.entry) (sketch_of self.old) place guard) }
    {
        self.leave_out(place);
        let on = self.arrive(guard)?;
        let blocks = plan.blocks;
        let ways = ways_at(&blocks.ways, place);
        self.ways_out(plan, on, ways)
    }

    fn ways_out(&mut self, plan: Plan<'_>, guard: Option<u32>, ways: Ways) -> Result<(), Memory>
        ensures made { IfOk result (λ u. sketch_of self.new ≡ made.ways_out (scheme_of plan.entry) (sketch_of self.old) guard ways) }
    {
        match ways {
            Ways::Kept => Ok(()),
            Ways::One(way) => self.one_way(plan, guard, way),
            Ways::Two(first, second) => self.two_ways(plan, guard, first, second),
        }
    }

    fn one_way(&mut self, plan: Plan<'_>, guard: Option<u32>, way: Way) -> Result<(), Memory>
        ensures made { IfOk result (λ u. sketch_of self.new ≡ made.one_way (scheme_of plan.entry) (sketch_of self.old) guard way) }
    {
        match way.test {
            None => self.go(plan, guard, way),
            Some(test) => self.go_tested(plan, guard, way, test),
        }
    }

    /// A way behind a test: where it fails, the run is lost.
    fn go_tested(
        &mut self,
        plan: Plan<'_>,
        guard: Option<u32>,
        way: Way,
        test: TermId,
    ) -> Result<(), Memory>
        ensures made { IfOk result (λ u. sketch_of self.new ≡ made.go_tested (scheme_of plan.entry) (sketch_of self.old) guard way test) }
    {
        let cell = self.saved(Test::Under(guard, test))?;
        self.is_lost = true;
        self.go(plan, Some(cell), way)
    }

    fn is_error(&self, node: NodeId) -> bool
        ensures made { result ≡ made.is_error (sketch_of self.now) node }
    {
        match self.nodes.get(node.0 as usize) {
            Some(Node::Error(_, _)) => true,
            _ => false,
        }
    }

    fn two_ways(
        &mut self,
        plan: Plan<'_>,
        guard: Option<u32>,
        first: Way,
        second: Way,
    ) -> Result<(), Memory>
        ensures made { IfOk result (λ u. sketch_of self.new ≡ made.two_ways (scheme_of plan.entry) (sketch_of self.old) guard first second) }
    {
        if self.is_error(first.to) {
            return self.fail_first(plan, guard, first, second);
        }
        if self.is_error(second.to) {
            return self.check_and_go(plan, guard, second, first);
        }
        self.part(plan, guard, first, second)
    }

    /// Two ways, the first of which is a check.
    fn fail_first(
        &mut self,
        plan: Plan<'_>,
        guard: Option<u32>,
        first: Way,
        second: Way,
    ) -> Result<(), Memory>
        ensures made { IfOk result (λ u. sketch_of self.new ≡ made.fail_first (scheme_of plan.entry) (sketch_of self.old) guard first second) }
    {
        if self.is_error(second.to) {
            self.check_both(guard, first, second)
        } else {
            self.check_and_go(plan, guard, first, second)
        }
    }

    fn check_both(&mut self, guard: Option<u32>, first: Way, second: Way) -> Result<(), Memory>
        ensures made { IfOk result (λ u. sketch_of self.new ≡ made.check_both (sketch_of self.old) guard first second) }
    {
        self.check(guard, first)?;
        self.check(guard, second)
    }

    fn check_and_go(
        &mut self,
        plan: Plan<'_>,
        guard: Option<u32>,
        failing: Way,
        passing: Way,
    ) -> Result<(), Memory>
        ensures made { IfOk result (λ u. sketch_of self.new ≡ made.check_and_go (scheme_of plan.entry) (sketch_of self.old) guard failing passing) }
    {
        self.check(guard, failing)?;
        self.go(plan, guard, passing)
    }

    fn part(
        &mut self,
        plan: Plan<'_>,
        guard: Option<u32>,
        first: Way,
        second: Way,
    ) -> Result<(), Memory>
        ensures made { IfOk result (λ u. sketch_of self.new ≡ made.part (scheme_of plan.entry) (sketch_of self.old) guard first second) }
    {
        self.lead(plan, first.to, false, under(guard, first))?;
        self.lead(plan, second.to, false, under(guard, second))
    }

    /// A check: its cell says whether it failed.
    fn check(&mut self, guard: Option<u32>, way: Way) -> Result<(), Memory>
        ensures made { IfOk result (λ u. sketch_of self.new ≡ made.check (sketch_of self.old) guard way) }
    {
        let cell = self.saved(under(guard, way))?;
        self.checks.push(Check {
            cell,
            error: way.to,
        })?;
        Ok(())
    }

    /// The operations of a way behind its test, and where it leads.
    fn go(&mut self, plan: Plan<'_>, guard: Option<u32>, way: Way) -> Result<(), Memory>
        ensures made { IfOk result (λ u. sketch_of self.new ≡ made.go (scheme_of plan.entry) (sketch_of self.old) guard way) }
    {
        match plan.graph.edges().get(way.edge.0 as usize) {
            None => Ok(()),
            Some(edge) => self.go_along(plan, guard, way, edge),
        }
    }

    fn go_along(
        &mut self,
        plan: Plan<'_>,
        guard: Option<u32>,
        way: Way,
        edge: &Edge,
    ) -> Result<(), Memory>
        ensures made { IfOk result (λ u. sketch_of self.new ≡ made.go_along (scheme_of plan.entry) (sketch_of self.old) guard way edge.now) }
    {
        let on = self.before_draw(guard, draws(edge))?;
        self.operations(plan, on, way.test, edge.ops.as_slice())?;
        self.lead(plan, way.to, on.is_none(), Test::On(on))
    }

    /// Before a draw it is known that the run is here.
    fn before_draw(&mut self, guard: Option<u32>, is_draw: bool) -> Result<Option<u32>, Memory>
        ensures made { IfOk result (λ g. (sketch_of self.new, g) ≡ made.before_draw (sketch_of self.old) guard is_draw) }
    {
        if is_draw {
            self.flush()?;
            self.assume_on(guard)?;
            return Ok(None);
        }
        Ok(guard)
    }

    fn operations(
        &mut self,
        plan: Plan<'_>,
        guard: Option<u32>,
        test: Option<TermId>,
        operations: &[Operation],
    ) -> Result<(), Memory>
        ensures made { IfOk result (λ u. sketch_of self.new ≡ made.operations (scheme_of plan.entry) (sketch_of self.old) guard test 0 operations.now) }
    {
        for number in 0..operations.len() {
            if number > 0 || test.is_none() {
                self.operation(plan, guard, operations[number])?;
            }
        }
        Ok(())
    }

    /// A run goes on at a node, under a test.
    fn lead(&mut self, plan: Plan<'_>, to: NodeId, is_sure: bool, test: Test) -> Result<(), Memory>
        ensures made { IfOk result (λ u. sketch_of self.new ≡ made.lead (scheme_of plan.entry) (sketch_of self.old) to is_sure test) }
    {
        let blocks = plan.blocks;
        if !blocks.matters.get(to.0) {
            self.is_lost = true;
            return Ok(());
        }
        match self.waits(to) {
            None => self.lead_new(plan, to, is_sure, test),
            Some(None) => Ok(()),
            Some(Some(cell)) => self.add_to(cell, test),
        }
    }

    fn lead_new(
        &mut self,
        plan: Plan<'_>,
        to: NodeId,
        is_sure: bool,
        test: Test,
    ) -> Result<(), Memory>
        ensures made { IfOk result (λ u. sketch_of self.new ≡ made.lead_new (scheme_of plan.entry) (sketch_of self.old) to is_sure test) }
    {
        let blocks = plan.blocks;
        if is_sure && !blocks.cuts.get(to.0) {
            self.wait(to, None)
        } else {
            self.wait_saved(to, test)
        }
    }

    fn wait_saved(&mut self, to: NodeId, test: Test) -> Result<(), Memory>
        ensures made { IfOk result (λ u. sketch_of self.new ≡ made.wait_saved (sketch_of self.old) to test) }
    {
        let cell = self.saved(test)?;
        self.wait(to, Some(cell))
    }

    /// Whether a waiting place may read a cell before it sets it.
    fn is_awaited(&self, plan: Plan<'_>, cell: u32) -> bool
        ensures made { result ≡ made.is_awaited (scheme_of plan.entry) (sketch_of self.now) cell }
    {
        if self.waiting.len() > MOST_WAITING {
            return true;
        }
        some_reads(plan.live, plan.units.of(cell), &self.waiting)
    }

    fn operation(
        &mut self,
        plan: Plan<'_>,
        guard: Option<u32>,
        operation: Operation,
    ) -> Result<(), Memory>
        ensures made { IfOk result (λ u. sketch_of self.new ≡ made.operation (scheme_of plan.entry) (sketch_of self.old) guard operation) }
    {
        match guard {
            None => self.operate(operation),
            Some(on) => self.guarded(plan, on, operation),
        }
    }

    /// A store goes through its guard where a place that waits may read what it sets.
    fn guarded(&mut self, plan: Plan<'_>, on: u32, operation: Operation) -> Result<(), Memory>
        ensures made { IfOk result (λ u. sketch_of self.new ≡ made.guarded (scheme_of plan.entry) (sketch_of self.old) on operation) }
    {
        match operation {
            Operation::Set(cell, term) => self.set(plan, on, cell, term),
            Operation::SetAt(first, length, index, term) => {
                self.set_at(plan, on, first, length, index, term)
            }
            Operation::Assume(_) | Operation::Draw(_, _) => self.operate(operation),
        }
    }

    fn set(&mut self, plan: Plan<'_>, on: u32, cell: u32, term: TermId) -> Result<(), Memory>
        ensures made { IfOk result (λ u. sketch_of self.new ≡ made.set (scheme_of plan.entry) (sketch_of self.old) on cell term) }
    {
        if self.is_awaited(plan, cell) {
            self.set_under(on, cell, term)
        } else {
            self.operate(Operation::Set(cell, term))
        }
    }

    fn set_under(&mut self, on: u32, cell: u32, term: TermId) -> Result<(), Memory>
        ensures made { IfOk result (λ u. sketch_of self.new ≡ made.set_under (sketch_of self.old) on cell term) }
    {
        let test = self.read(on)?;
        let was = self.read(cell)?;
        let now = self.select_in(test, term, was)?;
        self.operate(Operation::Set(cell, now))
    }

    fn set_at(
        &mut self,
        plan: Plan<'_>,
        on: u32,
        first: u32,
        length: u32,
        index: TermId,
        term: TermId,
    ) -> Result<(), Memory>
        ensures made { IfOk result (λ u. sketch_of self.new ≡ made.set_at (scheme_of plan.entry) (sketch_of self.old) on first length index term) }
    {
        if self.is_awaited(plan, first) {
            self.set_at_under(on, first, length, index, term)
        } else {
            self.operate(Operation::SetAt(first, length, index, term))
        }
    }

    fn set_at_under(
        &mut self,
        on: u32,
        first: u32,
        length: u32,
        index: TermId,
        term: TermId,
    ) -> Result<(), Memory>
        ensures made { IfOk result (λ u. sketch_of self.new ≡ made.set_at_under (sketch_of self.old) on first length index term) }
    {
        let test = self.read(on)?;
        let place = self.guarded_index(test, length, index)?;
        self.operate(Operation::SetAt(first, length, place, term))
    }

    /// The index, or where the guard is 0 one past the end.
    fn guarded_index(&mut self, test: TermId, length: u32, index: TermId) -> Result<TermId, Memory>
        ensures made { IfOk result (λ t. (sketch_of self.new, t) ≡ made.guarded_index (sketch_of self.old) test length index) }
    {
        let width = width_of(&self.truths, index);
        let past = self.put_in(Term::Constant(width, length as u128))?;
        self.select_in(test, index, past)
    }
}

/// Whether one of the places that wait may read a unit before it sets it.
fn some_reads(live: &Live, unit: u32, waiting: &[Waiting]) -> bool
    ensures made { result ≡ made.some_reads live.now unit waiting.now }
{
    for number in 0..waiting.len() {
        if live.is_live(waiting[number].node.0, unit) {
            return true;
        }
    }
    false
}

fn under(guard: Option<u32>, way: Way) -> Test
    ensures made { result ≡ made.under guard way }
{
    match way.test {
        None => Test::On(guard),
        Some(test) => Test::Under(guard, test),
    }
}
