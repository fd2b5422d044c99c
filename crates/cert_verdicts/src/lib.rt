//! Whether some bytes are a certificate of a source that is accepted on the source's graph; and that there is one answer to that.
#![tactic(auto)]

mod judging;
mod laws;

pub use judging::judge;
pub use laws::{certificate_is_accepted, judged_is_unique};
