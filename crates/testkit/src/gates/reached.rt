//! How far a worker is, for those that wait for it.

use std::sync::atomic::{AtomicU64, Ordering};
use std::thread;

/// How often a waiting worker looks before it gives up.
const MOST_LOADS: u64 = 100_000_000;

/// The greatest number that was told, 0 at the start.
#[derive(Drop)]
pub(crate) struct Reached {
    number: AtomicU64,
}

impl Reached {
    pub(crate) fn new() -> Reached {
        Reached {
            number: AtomicU64::new(0),
        }
    }

    pub(crate) fn tell(&self, number: u32) {
        self.number.fetch_max(u64::from(number), Ordering::SeqCst);
    }

    pub(crate) fn is_told(&self, number: u32) -> bool {
        self.number.load(Ordering::SeqCst) >= u64::from(number)
    }

    /// Waits until the number is told. No where that was in vain.
    // On a busy machine the other worker may have no processor. So behind each look this one gives
    // its own away, and waits for long before it gives up.
    pub(crate) fn comes_to(&self, number: u32) -> bool {
        for _ in 0..MOST_LOADS {
            if self.is_told(number) {
                return true;
            }
            thread::yield_now();
        }
        false
    }
}
