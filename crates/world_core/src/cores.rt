ghost use Rattle.std.specs.Prelude.{◌≡◌, ◌≤◌, IfOk, OnErr, length};
ghost use Rattle.world_core.specs.Answering.{Replies};
ghost use Rattle.world_core.specs.Beginning.{HasBegun};
ghost use Rattle.world_core.specs.Stored.{IsStored, stored_state};

use crate::Entries;
use crate::events::{Event, Reply};
use crate::parts::{Parts, no_history, no_holdings, no_roots};
use node_words::Plan;
use std::alloc::Global;
use std::marker::Model;
use vox_read::Models;
use vw_cell::Memory;

/// The pure core of a world: its entries, its versions with their roots, and what each session
/// holds. Contracts see the lists that it keeps.
#[derive(Drop)]
pub struct Core<'m> {
    parts: Parts<'m>,
}

impl<'m> Model for Core<'m> {
    ghost use Rattle.world_core.specs.Kept.{stored};
    ghost use Rattle.world_core.specs.Stored.{IsStored, Stored};

    ghost Value = { Stored };

    ghost view = { λ c. stored c.parts };

    ghost invariant = { λ c. IsStored (stored c.parts) };
}

impl<'m> Core<'m> {
    /// A core of 1 to 64 sessions with no entries and no records, in which nobody holds anything.
    /// The models say what a stamp makes.
    pub fn begin(
        alloc: Global,
        plan: &Plan,
        models: &'m Models,
        sessions: u16,
    ) -> Result<Core<'m>, Memory>
        requires sessions { (1 ≤ sessions) × (sessions ≤ 64) }
        ensures plan { IfOk result (λ c. c.plan ≡ plan.now) }
        ensures models { IfOk result (λ c. c.models ≡ models.entry.now) }
        ensures begun { IfOk result (λ c. HasBegun plan.now sessions (stored_state c)) }
    {
        let parts = Parts {
            plan: *plan,
            models,
            entries: Entries::begin(alloc, plan)?,
            roots: no_roots(alloc)?,
            history: no_history(alloc, plan),
            held: no_holdings(alloc, sessions)?,
        };
        Ok(Core { parts })
    }

    /// Answers the event. Where memory is missing nothing changes.
    pub fn apply(&mut self, alloc: Global, event: &Event) -> Result<Reply, Memory>
        ensures answers { IfOk result (λ r. Replies self.old.plan self.old.models event.now r
            (stored_state self.old) (stored_state self.new)) }
        ensures plan { self.new.plan ≡ self.old.plan }
        ensures models { self.new.models ≡ self.old.models }
        ensures stored { IsStored self.new }
        ensures unchanged { OnErr result (self.new ≡ self.old) }
    {
        if !self.parts.allows(alloc, event)? {
            return Ok(Reply::Unlawful);
        }
        self.parts.answer(alloc, event)
    }
}
