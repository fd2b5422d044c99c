//! What the clauses of a path say, step by step, and what two steps share.
//!
//! The clauses of each step follow its edge alone: they can be met exactly where the edge leads from a store that the literals
//! of the cut before the step spell to one that the literals of the cut behind it spell. Two steps share no other variables
//! than those of the cuts between them. Each law is the contract of a function that does nothing: a caller cites what it
//! ensures.
#![tactic(auto)]

ghost use Rattle.path_laws.specs.Laws.{DrawsAreRead, EdgesMeetSteps, NumbersAreBits, QuestionsAreSteps, QuestionsMakeRuns, RunsMeetQuestions, SharedInCuts, StepsLieBetween, StepsTakeEdges};

/// The question of a path is made of its steps, one an edge, in order: at each number, its first clause, its cuts, its clauses
/// and its draws are those of the step, and all that stands before it is of variables that were made before it.
pub fn questions_are_steps()
    ensures { QuestionsAreSteps }
{}

/// Where a step's clauses hold, all clauses of the question hold from the step's first one up to the next step's.
pub fn steps_lie_between()
    ensures { StepsLieBetween }
{}

/// A variable that occurs in clauses before a cut and in clauses behind it is that of a literal of a cell of the cut.
pub fn shared_in_cuts()
    ensures { SharedInCuts }
{}

/// Where a step's edge leads from one store to another, each assignment that spells the first store at the cut before the step
/// can be changed at variables that are not made before the step, so that the step's clauses hold, the second store is spelled
/// at the cut behind it, and the literals of the draws spell what is drawn; the first store is spelled still. Draws that spelled
/// it before stay as they are.
pub fn edges_meet_steps()
    ensures { EdgesMeetSteps }
{}

/// Where a step's clauses hold, its edge leads from each store that is spelled at the cut before the step to one that is
/// spelled at the cut behind it, drawing what the literals of the draws spell.
pub fn steps_take_edges()
    ensures { StepsTakeEdges }
{}

/// A run along a path gives an assignment that satisfies the clauses of its question, spells the first store at the first cut,
/// and at the draws what is drawn.
pub fn runs_meet_questions()
    ensures { RunsMeetQuestions }
{}

/// An assignment that satisfies the clauses of a path's question gives a run along the path, from each store that it spells at
/// the first cut, with the values that it spells at the draws. There is such a store.
pub fn questions_make_runs()
    ensures { QuestionsMakeRuns }
{}

/// What a run along a path draws, each value in the range of its draw, is what the literals of the draws read: their number, in
/// two's complement where the draw is signed.
pub fn draws_are_read()
    ensures { DrawsAreRead }
{}

/// Literals spell a number of their width exactly where each literal has the value of its bit. So a cut's literals spell a
/// store exactly where each has the value of its bit of its cell.
pub fn numbers_are_bits()
    ensures { NumbersAreBits }
{}
