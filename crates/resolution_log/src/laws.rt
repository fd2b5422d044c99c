//! Laws of the definitions, each as the contract of a function that does nothing.

ghost use Rattle.resolution_log.specs.Laws.{ResultsAreImplied, PropagationStays, NewByClosedSet, NoneIsNewOverEmpty, SetsAreEnough, NewLogsGrow, NewLogsAreValid, CutsStayLean, LeanRefutes};

/// Every result of a valid log is implied by the clauses.
pub fn results_are_implied()
    ensures { ResultsAreImplied }
{}

/// Propagation stays inside each closed set that has the given literals.
pub fn propagation_stays()
    ensures { PropagationStays }
{}

/// What makes a learned clause new: a closed set without conflict that has the complements of all its literals but
/// one, and lacks that one.
pub fn new_by_closed_set()
    ensures { NewByClosedSet }
{}

/// Over clauses of which one is empty no clause is new.
pub fn none_is_new_over_empty()
    ensures { NoneIsNewOverEmpty }
{}

/// Chains and newness see clauses as sets of literals alone, so a clause may be stored without repeats.
pub fn sets_are_enough()
    ensures { SetsAreEnough }
{}

/// A new log grows at its end.
pub fn new_logs_grow()
    ensures { NewLogsGrow }
{}

/// A new log is valid.
pub fn new_logs_are_valid()
    ensures { NewLogsAreValid }
{}

/// A lean refutation cut to the cone of its last chain, with its clauses numbered anew, stays lean.
pub fn cuts_stay_lean()
    ensures { CutsStayLean }
{}

/// A lean refutation is a refutation.
pub fn lean_refutes()
    ensures { LeanRefutes }
{}
