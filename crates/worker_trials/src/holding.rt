//! A gate that shows whether workers run beside each other.

use lv_outside::Gate;
use std::sync::atomic::{AtomicU64, Ordering};

// So often is it asked whether worker 1 has entered.
const TURNS: u32 = 500_000_000;

/// Holds worker 0 until worker 1 has entered, and notes whether it has.
#[derive(Drop)]
pub struct HoldGate {
    entered: AtomicU64,
    seen: AtomicU64,
}

impl Gate for HoldGate {
    fn enter(&self, part: u32) {
        if part != 0 {
            self.entered.store(1, Ordering::SeqCst);
            return;
        }
        for _ in 0..TURNS {
            if self.entered.load(Ordering::SeqCst) == 1 {
                self.seen.store(1, Ordering::SeqCst);
                return;
            }
        }
    }
}

impl HoldGate {
    /// Nobody has entered.
    pub fn new() -> HoldGate {
        HoldGate {
            entered: AtomicU64::new(0),
            seen: AtomicU64::new(0),
        }
    }

    /// Whether worker 1 entered while worker 0 was held.
    pub fn has_seen(&self) -> bool {
        self.seen.load(Ordering::SeqCst) == 1
    }
}
