//! A world is closed.
ghost use Rattle.std.specs.Prelude.{◌≡◌, [], All, IfErr, IfOk, vec_len};
ghost use Rattle.node_table.specs.Closing.{EndsTable};
ghost use Rattle.conformance.specs.sessions.Ran.{ClosesWorld};
ghost use Rattle.session.specs.Closes.{HadHistory, RefusesWorld, CountsLive, session_views};
ghost use Rattle.session.specs.Resting.{IsAtRest};

use crate::ended::Ended;
use crate::world::{Session, World};
use node_table::TableCloseRefused;
use std::alloc::Global;

/// Why a world is not closed. All that was handed in comes back.
pub enum CloseRefused {
    /// There are not as many sessions as were made.
    Count {
        world: World,
        sessions: Vec<Session>,
        made: u16,
    },
    /// There was no room for the answer.
    Memory {
        world: World,
        sessions: Vec<Session>,
    },
}

impl World {
    /// Takes all sessions of the world, and tells what it leaves: one history of all of them, from
    /// which each saw a part. Refused, all comes back.
    pub fn close(self, alloc: Global, sessions: Vec<Session>) -> Result<Ended, CloseRefused>
        requires rest { All (IsAtRest self.table) sessions.items }
        requires spare { All (λ s. s.view.held ≡ []) sessions.items }
        ensures made { IfOk result (λ e. vec_len sessions ≡ self.table.made) }
        ensures ends { IfOk result (λ e. EndsTable self.table e) }
        ensures live { IfOk result (λ e. CountsLive self.table e) }
        ensures closes { IfOk result (λ e. ClosesWorld self.tint self.table.plan
            self.table.models (session_views sessions.items) e.history) }
        ensures refused { IfErr result (λ e. RefusesWorld self sessions.items e) }
    {
        let World {
            table,
            drawn,
            tint,
            keep,
        } = self;
        match table.close(alloc, sessions) {
            Ok(closed) => Ok(Ended::of(closed, tint)),
            Err(
                TableCloseRefused::Count {
                    table,
                    passes,
                    made,
                },
            ) => Err(CloseRefused::Count {
                world: World {
                    table,
                    drawn,
                    tint,
                    keep,
                },
                sessions: passes,
                made,
            }),
            Err(TableCloseRefused::Memory { table, passes }) => Err(CloseRefused::Memory {
                world: World {
                    table,
                    drawn,
                    tint,
                    keep,
                },
                sessions: passes,
            }),
        }
    }
    /// Gives up the world with all its sessions, which had one history of them all. It takes no
    /// memory.
    pub fn give_up(self, sessions: Vec<Session>)
        requires rest { All (IsAtRest self.table) sessions.items }
        requires spare { All (λ s. s.view.held ≡ []) sessions.items }
        requires made { vec_len sessions ≡ self.table.made }
        ensures { HadHistory self.tint self.table.plan self.table.models
            (session_views sessions.items) }
    {
        let World {
            table,
            drawn: _,
            tint: _,
            keep: _,
        } = self;
        table.give_up(sessions);
    }
}
