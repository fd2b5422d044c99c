//! The gates. The host's shows what it hears where it was asked to, by a clock that the test sets.

use lv_outside::{FreeGate, Gate, HostGate};
use std::fmt::{self, Display, Formatter};
use std::io;
use std::sync::atomic::{AtomicU64, Ordering};
use std::time::{Clock, Duration};

const LINE: &str = "5 s: 64 units, 3 open leaves, 7 learned clauses";

// A clock that shows these seconds, and a standard error that counts the lines that are `LINE` and those that are not.
#[derive(Drop)]
struct Shown {
    seconds: AtomicU64,
    right: AtomicU64,
    wrong: AtomicU64,
}

impl Shown {
    fn new() -> Shown {
        Shown {
            seconds: AtomicU64::new(100),
            right: AtomicU64::new(0),
            wrong: AtomicU64::new(0),
        }
    }

    fn set(&self, seconds: u64) {
        self.seconds.store(seconds, Ordering::SeqCst);
    }

    fn counts(&self) -> (u64, u64) {
        (
            self.right.load(Ordering::SeqCst),
            self.wrong.load(Ordering::SeqCst),
        )
    }
}

impl Clock for Shown {
    fn monotonic(&self) -> io::Result<Duration> {
        Ok(Duration::from_secs(self.seconds.load(Ordering::SeqCst)))
    }

    fn since_1970(&self) -> io::Result<Duration> {
        Ok(Duration::from_secs(0))
    }
}

// What is left of `LINE` behind a text that it begins with.
#[derive(Drop)]
struct Rest {
    left: Option<&'static str>,
}

impl fmt::Write for Rest {
    fn write_str(&mut self, text: &str) -> fmt::Result {
        self.left = match self.left {
            Some(left) => left.strip_prefix(text),
            None => None,
        };
        Ok(())
    }
}

impl Eprint for Shown {
    fn eprint<D: Display + Drop>(&self, _value: D) -> io::Result<()> {
        self.wrong.fetch_add(1, Ordering::SeqCst);
        Ok(())
    }

    fn eprintln<D: Display + Drop>(&self, value: D) -> io::Result<()> {
        let mut to = Formatter::new(Rest { left: Some(LINE) });
        let _ = to.write(&value);
        match to.into_inner().left {
            Some("") => self.right.fetch_add(1, Ordering::SeqCst),
            _ => self.wrong.fetch_add(1, Ordering::SeqCst),
        };
        Ok(())
    }
}

#[test]
fn the_gate_of_the_host_shows_what_it_hears(rt: HostRuntime) {
    let shown = Shown::new();
    let gate = HostGate::new(&shown, true);
    gate.enter(0);
    assert_eq!(rt; gate.seconds(), 0);
    shown.set(105);
    assert_eq!(rt; gate.seconds(), 5);
    assert_eq!(rt; shown.counts(), (0, 0));
    gate.working(64, 3, 7);
    assert_eq!(rt; shown.counts(), (1, 0));
}

#[test]
fn a_gate_that_is_not_to_show_has_no_clock(rt: HostRuntime) {
    let shown = Shown::new();
    let gate = HostGate::new(&shown, false);
    shown.set(105);
    assert_eq!(rt; gate.seconds(), 0);
    FreeGate.enter(0);
    assert_eq!(rt; FreeGate.seconds(), 0);
    FreeGate.working(64, 3, 7);
}
