//! Laws of cut formulas, each as the contract of a function that does nothing.

ghost use Rattle.interpolants.specs.Laws.{AgreedAreGiven, CutsLead, FirstIsMeant, FirstIsTrue, FormulasLead, FormulasReadTheirCut, LastIsFalse, LastIsMeant, StepsLead};

/// From one cut to the next, at each clause and each result: where the clauses between the two cuts hold, its formula at the first cut
/// implies that at the second, or one of its literals whose variable occurs behind the first cut alone.
pub fn steps_lead()
    ensures { StepsLead }
{}

/// A cut's formula, with the clauses up to the next cut, implies the next cut's formula.
pub fn cuts_lead()
    ensures { CutsLead }
{}

/// The formula of the cut before all clauses is true.
pub fn first_is_true()
    ensures { FirstIsTrue }
{}

/// The formula of the cut behind all clauses is false.
pub fn last_is_false()
    ensures { LastIsFalse }
{}

/// From one cut of a path to the next: under an assignment that gives the bits of both cuts their values in two stores, where the clauses
/// between the cuts hold, the first formula in the one store implies the second in the other.
pub fn formulas_lead()
    ensures { FormulasLead }
{}

/// Where all bits with one variable agree in a store, the assignment that is read from the store gives the bits their values.
pub fn agreed_are_given()
    ensures { AgreedAreGiven }
{}

/// A cut's formula holds in both of two stores that give the cells of the cut the same values, or in none of them.
pub fn formulas_read_their_cut()
    ensures { FormulasReadTheirCut }
{}

/// The first formula is that of its cut, where all bits of the cut with one variable agree in each store.
pub fn first_is_meant()
    ensures { FirstIsMeant }
{}

/// The last formula is that of its cut.
pub fn last_is_meant()
    ensures { LastIsMeant }
{}
