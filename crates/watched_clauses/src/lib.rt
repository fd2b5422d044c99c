//! Propagation by two watched literals (M. Moskewicz and others, Chaff, 2001).
//!
//! Each clause of at least two different literals names two different ones that are watched, and each literal has the
//! list of the clauses that watch it. Of each false watched literal this is kept: it still waits in the queue, or the
//! clause's other watched literal is true and became so at a level that is not above. So a clause is looked at only when
//! a watched literal of it becomes false, and nothing is to be mended when the search goes back. A clause of two literals
//! is marked where it says what it watches, so that it need not be read. Another literal to watch is searched from the place
//! on at which the clause's last search ended, as literals before it mostly stay false (I. Gent, Optimal Implementation of
//! Watched Literals and More General Techniques, 2013).
#![tactic(auto)]

mod lists;
mod looking;
mod visiting;

pub use lists::WatchLists;
pub use looking::{Finding, Watch, judge, judge_from};
pub use visiting::propagate;
