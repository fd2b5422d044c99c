//! The outside: where files come from, where text goes, and what lets workers in. Each is a trait with its forms in
//! memory, which tell what they hold, and the host's, which tell nothing.
#![tactic(auto)]

mod files;
mod folder;
mod gate;
mod host;
mod mem_folder;
mod mem_sink;
mod no_fault_folder;
mod no_fault_sink;
mod sink;
mod streams;

pub use files::names_differ;
pub use folder::{FileFail, Folder, Got};
pub use gate::{FreeGate, Gate};
pub use host::{HostFolder, HostGate, HostSink};
pub use mem_folder::MemFolder;
pub use mem_sink::MemSink;
pub use no_fault_folder::NoFaultFolder;
pub use no_fault_sink::NoFaultSink;
pub use sink::{Failed, Sink};
pub use streams::{read_whole, write_whole};
