ghost use Rattle.std.specs.Prelude.{◌≡◌, ◌≤◌, ◌+◌, ◌++◌, [], IfOk, vec_capacity, length, min};

use crate::{Failed, Sink};
use lv_base::Memory;
use std::alloc::Global;

/// A sink in memory that never fails: its count is always 0. It tells its text while all that was put fits into its room;
/// bytes past the room are dropped, and from then on it tells nothing.
#[derive(Debug, Drop)]
pub struct NoFaultSink {
    text: Vec<u8>,
    room: usize,
    // How many bytes were put, as far as a count of 64 bits goes.
    given: u64,
    ghost has_room: { room ≤ vec_capacity text },
    ghost counted: { length text.items ≤ given },
}

impl NoFaultSink {
    ghost use Rattle.lv_outside.specs.Folders.{no_fault_text, no_fault_room, IsWhole};

    /// An empty sink that has taken its room.
    pub fn new(alloc: Global, room: usize) -> Result<NoFaultSink, Memory>
        ensures text { IfOk result (λ s. no_fault_text s ≡ []) }
        ensures room { IfOk result (λ s. no_fault_room s ≡ room) }
        ensures whole { IfOk result IsWhole }
    {
        let text = Vec::with_capacity(alloc, room)?;
        Ok(NoFaultSink {
            text,
            room,
            given: 0,
        })
    }

    /// What was put so far, up to the room.
    pub fn text(&self) -> &[u8]
        ensures { result.now ≡ no_fault_text self.now }
    {
        &self.text
    }

    /// How many bytes fit in.
    pub fn room(&self) -> usize
        ensures { result ≡ no_fault_room self.now }
    {
        self.room
    }
}

impl Sink for NoFaultSink {
    ghost use Rattle.lv_outside.specs.Folders.{IsWhole};

    ghost tells = { λ s. IsWhole s };

    ghost text = { λ s. s.text.items };

    ghost faults = { λ s. 0 };

    fn put(&mut self, bytes: &[u8]) -> Result<(), Failed> {
        let length = self.text.len();
        self.given = self.given.saturating_add(bytes.len() as u64);
        if length <= self.room {
            let part = bytes.len().min(self.room - length);
            self.text.extend_from_slice(&bytes[..part]).unwrap();
        }
        Ok(())
    }
}
