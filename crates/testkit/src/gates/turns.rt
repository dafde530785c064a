//! Two workers that go in turn.

use crate::gates::reached::Reached;
use gate_run::Gate;

/// Session 0 begins a line once session 1 has come between pin and commit in the line of that
/// number, and session 1 goes on from there once session 0 has its answer.
#[derive(Drop)]
pub struct Turns {
    answered: Reached,
    between: Reached,
    given_up: Reached,
}

impl Turns {
    pub fn new() -> Turns {
        Turns {
            answered: Reached::new(),
            between: Reached::new(),
            given_up: Reached::new(),
        }
    }

    /// Whether a session waited in vain.
    pub fn is_given_up(&self) -> bool {
        self.given_up.is_told(1)
    }

    fn wait_for(&self, other: &Reached, line: u32) {
        if !other.comes_to(line) {
            self.given_up.tell(1);
        }
    }
}

impl Gate for Turns {
    fn before(&self, session: u16, line: u32) {
        if session == 0 {
            self.wait_for(&self.between, line);
        }
    }

    fn between(&self, session: u16, line: u32) {
        if session == 1 {
            self.between.tell(line);
            self.wait_for(&self.answered, line);
        }
    }

    fn after(&self, session: u16, line: u32) {
        if session == 0 {
            self.answered.tell(line);
        }
    }
}
