ghost use Rattle.std.specs.Prelude.{◌≡◌, ◌≤◌, ◌++◌, [], IfOk, OnOk, OnErr, vec_capacity, ⊤, true, false};
ghost use Rattle.lv_outside.specs.Bytes.{GrewByFront};
ghost use Rattle.lv_outside.specs.Counts.{Rose, counted, raised};

use crate::files::names_call;
use crate::{Failed, Sink};
use lv_base::Memory;
use std::alloc::Global;

/// A sink in memory, for tests. It has room for so many bytes. A put fails where its number, counted from 0, is listed,
/// or where its bytes would pass the room, and then it appends nothing.
#[derive(Debug, Drop)]
pub struct MemSink {
    text: Vec<u8>,
    room: usize,
    fails: Vec<u32>,
    calls: u64,
    faults: u64,
    ghost has_room: { room ≤ vec_capacity text },
}

impl MemSink {
    ghost use Rattle.lv_outside.specs.Folders.{sink_text, sink_room, sink_fails, sink_calls};

    /// An empty sink that has taken its room.
    pub fn new(alloc: Global, room: usize, fails: Vec<u32>) -> Result<MemSink, Memory>
        ensures text { IfOk result (λ s. sink_text s ≡ []) }
        ensures room { IfOk result (λ s. sink_room s ≡ room) }
        ensures fails { IfOk result (λ s. sink_fails s ≡ fails.items) }
        ensures calls { IfOk result (λ s. sink_calls s ≡ 0) }
    {
        let text = Vec::with_capacity(alloc, room)?;
        Ok(MemSink {
            text,
            room,
            fails,
            calls: 0,
            faults: 0,
        })
    }

    /// What was put so far.
    pub fn text(&self) -> &[u8]
        ensures { result.now ≡ sink_text self.now }
    {
        &self.text
    }

    /// How many bytes fit in.
    pub fn room(&self) -> usize
        ensures { result ≡ sink_room self.now }
    {
        self.room
    }

    /// The numbers, from 0, of the puts that fail.
    pub fn fails(&self) -> &[u32]
        ensures { result.now ≡ sink_fails self.now }
    {
        &self.fails
    }

    /// How many puts there were, as far as a count of 64 bits goes.
    pub fn calls(&self) -> u64
        ensures { result ≡ sink_calls self.now }
    {
        self.calls
    }
}

impl Sink for MemSink {
    ghost use Rattle.lv_outside.specs.Folders.{fails_put};

    ghost tells = { λ s. ⊤ };

    ghost text = { λ s. s.text.items };

    ghost faults = { λ s. s.faults };

    fn put(&mut self, bytes: &[u8]) -> Result<(), Failed>
        ensures fails { OnErr result (fails_put self.old bytes.now ≡ true) }
        ensures holds { OnOk result (fails_put self.old bytes.now ≡ false) }
        ensures counted_ok { OnOk result (self.new.faults ≡ self.old.faults) }
        ensures counted_err { OnErr result (self.new.faults ≡ raised self.old.faults) }
        ensures calls { self.new.calls ≡ raised self.old.calls }
        ensures room { self.new.room ≡ self.old.room }
        ensures listed { self.new.fails.items ≡ self.old.fails.items }
        ensures put { OnOk result (self.new.text.items ≡ self.old.text.items ++ bytes.now) }
        ensures kept { OnErr result (self.new.text.items ≡ self.old.text.items) }
        ensures failed { OnErr result (GrewByFront self.old.text.items self.new.text.items bytes.now) }
        ensures cause { OnErr result (Rose self.old.faults self.new.faults) }
        ensures later { self.old.faults ≤ self.new.faults }
    {
        let fails = names_call(&self.fails, self.calls);
        self.calls = self.calls.saturating_add(1);
        let length = self.text.len();
        if fails || length > self.room || bytes.len() > self.room - length {
            self.faults = self.faults.saturating_add(1);
            return Err(Failed);
        }
        self.text.extend_from_slice(bytes).unwrap();
        Ok(())
    }
}
