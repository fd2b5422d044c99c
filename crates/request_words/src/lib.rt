//! What the program's words ask for, where they ask to check a certificate, to verify a source, to make one or to replay one: names,
//! options, and numbers.
//!
//! Behind the command stand names and options in any order. An option is `--name value` in two words or `--name=value` in one, and
//! stands at most once. A name is not empty, does not begin with `-`, and has no byte below 0x20 and no byte 0x7F. A number has
//! decimal digits without leading zeros and lies in its range. Anything else asks for nothing.
//!
//! `clap` takes the words behind `check`, `verify`, `replay` and `generate` apart, by a command of each. What it does not state is tested here: that
//! no word is `--`, and what a name, a data model and a number are. That both together are the rules above is proved of all words.
#![tactic(auto)]

mod asking;
mod commands;
mod gathering;
mod options;
mod replaying;
mod values;

pub use asking::{Asked, Checking, LEARN, UNITS, Verifying, names_are_apart, request};
pub use commands::Command;
pub use gathering::{Given, Texts};
pub use options::Choice;
pub use replaying::{Replaying, TURNS, replay_request};
pub use values::{is_name, model_in, number_in, numbers_are_read, seed_in, seeds_are_read};
