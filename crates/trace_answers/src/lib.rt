//! What `trace SOURCE RUN` answers: the run of a source on the values of a run file, told line by line, and at its end the line that
//! `lazic replay` prints.
#![tactic(auto)]

mod top;

pub use top::trace_words;
