//! What a session's call is made with.
ghost use Rattle.std.specs.Prelude.{◌<◌};
ghost use Rattle.session.specs.Resting.{IsBlankOf};

use node_words::Steps;
use std::sync::ledger::{Blank, Ledger};

/// What a call of a session waits with, the gate that it passes, and its count of turns. No clause
/// speaks of it.
#[derive(Drop)]
pub(crate) struct CallContext<'a, R, G, L: Ledger> {
    pub(crate) rt: &'a R,
    pub(crate) gate: &'a G,
    pub(crate) steps: Steps<L>,
}

/// The same before the first turn is counted, with the blank of the count.
pub(crate) struct CallStart<'a, R, G> {
    pub(crate) rt: &'a R,
    pub(crate) gate: &'a G,
    pub(crate) blank: Blank,
}

impl<'a, R, G> CallStart<'a, R, G> {
    pub(crate) fn new(rt: &'a R, gate: &'a G) -> CallStart<'a, R, G>
        ensures { 0 < result.blank.parts }
    {
        CallStart {
            rt,
            gate,
            blank: Blank::new(1),
        }
    }

    /// No turn is counted yet.
    pub(crate) fn open<L: Ledger>(self) -> CallContext<'a, R, G, L>
        requires { IsBlankOf self.blank.name self.blank.parts L.name L.parts }
    {
        let CallStart { rt, gate, blank } = self;
        CallContext {
            rt,
            gate,
            steps: Steps::start(blank),
        }
    }
}
