ghost use Rattle.std.specs.Prelude.{◌≡◌, IfOk, length, slice_get};
ghost use Rattle.event_log.specs.Noted.{noted, forgot, empty};

use crate::event::Event;
use lv_base::Memory;
use std::alloc::Global;
use std::collections::VecDeque;
use std::marker::Model;

/// The last events of a run, up to so many of them, the oldest first, and how many were left out before them.
#[derive(Drop)]
pub struct Log {
    events: VecDeque<Event>,
    most: usize,
    left_out: u64,
}

impl Model for Log {
    ghost use Rattle.event_log.specs.Noted.{Noted};

    ghost Value = { Noted };

    ghost view = { λ l. record {
      events = l.events.items;
      most = l.most;
      left_out = l.left_out;
    } };
}

impl Log {
    /// A log without events that keeps the last ones, up to so many. It takes no memory yet.
    pub fn new(alloc: Global, most: usize) -> Log
        ensures { result ≡ empty most }
    {
        Log {
            events: VecDeque::new(alloc),
            most,
            left_out: 0,
        }
    }

    /// Notes an event behind the others; the oldest is left out where there are as many as are kept.
    ///
    /// Fails with `Memory` where there is no room for it.
    pub fn note(&mut self, event: Event) -> Result<(), Memory>
        ensures { IfOk result (λ _. self.new ≡ noted self.old event) }
    {
        if self.events.len() >= self.most {
            self.leave_one_out();
        }
        self.events.push_back(event)?;
        Ok(())
    }

    // The oldest event is left out.
    fn leave_one_out(&mut self)
        ensures { self.new ≡ forgot self.old }
    {
        let _oldest = self.events.pop_front();
        self.left_out = self.left_out.saturating_add(1);
    }

    /// How many events are kept.
    pub fn count(&self) -> usize
        ensures { result ≡ length (self.now).events }
    {
        self.events.len()
    }

    /// The event of this number among those that are kept, the oldest being 0; none behind the last.
    pub fn event(&self, number: usize) -> Option<Event>
        ensures { result ≡ slice_get (self.now).events number }
    {
        match self.events.get(number) {
            Some(event) => Some(*event),
            None => None,
        }
    }

    /// How many events were left out, or the greatest number where there were more.
    pub fn left_out(&self) -> u64
        ensures { result ≡ (self.now).left_out }
    {
        self.left_out
    }
}
