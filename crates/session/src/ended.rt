//! What a closed world leaves.
ghost use Rattle.std.specs.Prelude.{◌≡◌};
ghost use Rattle.session.specs.Closes.{coloured_as};

use node_table::Closed;
use std::marker::Model;

/// What a closed world leaves: its history, the root of each kept version, and how many nodes of
/// each level were live. [`World::close`](crate::World::close) alone makes one.
#[derive(Drop)]
pub struct Ended {
    closed: Closed,
}

impl Model for Ended {
    ghost use Rattle.node_table.specs.Closed.{Closed};

    ghost Value = { Closed };

    ghost view = { λ e. e.closed };
}

impl Ended {
    // What closing a world's table left, with a history that is as coloured as this.
    pub(crate) fn of(mut closed: Closed, coloured: bool) -> Ended
        ensures { result ≡ coloured_as coloured closed }
    {
        closed.history.coloured = coloured;
        Ended { closed }
    }

    /// What the world's table left.
    pub fn closed(&self) -> &Closed
        ensures { result.now ≡ self.now }
    {
        &self.closed
    }
}
