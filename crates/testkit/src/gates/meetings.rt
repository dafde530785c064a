//! Gates at which the scripts of a run meet: which line of one waits for which line of another.

use crate::gates::reached::Reached;
use gate_run::Gate;

/// Where a line stands: before its work, between its pin and its commit, or behind its answer.
#[derive(Clone, Copy, Debug, PartialEq, Eq)]
pub enum GatePoint {
    Before,
    Between,
    After,
}

/// A session, the number of a line of its script, and a place of that line.
pub type Moment = (u16, u32, GatePoint);

/// The first moment waits until the second was come to.
pub type Rule = (Moment, Moment);

/// A gate of at most two rules.
#[derive(Drop)]
pub struct Meeting<'r> {
    rules: &'r [Rule],
    come_to: [Reached; 2],
    given_up: Reached,
}

impl<'r> Meeting<'r> {
    pub fn new(rules: &'r [Rule]) -> Meeting<'r> {
        Meeting {
            rules,
            come_to: [Reached::new(), Reached::new()],
            given_up: Reached::new(),
        }
    }

    /// Whether some line waited in vain.
    pub fn is_given_up(&self) -> bool {
        self.given_up.is_told(1)
    }

    fn come(&self, moment: Moment) {
        for (&(_, until), own) in self.rules.iter().zip(&self.come_to) {
            if until == moment {
                own.tell(1);
            }
        }
        for (&(waits, _), other) in self.rules.iter().zip(&self.come_to) {
            if waits == moment && !other.comes_to(1) {
                self.given_up.tell(1);
            }
        }
    }
}

impl<'r> Gate for Meeting<'r> {
    fn before(&self, session: u16, line: u32) {
        self.come((session, line, GatePoint::Before));
    }

    fn between(&self, session: u16, line: u32) {
        self.come((session, line, GatePoint::Between));
    }

    fn after(&self, session: u16, line: u32) {
        self.come((session, line, GatePoint::After));
    }
}
