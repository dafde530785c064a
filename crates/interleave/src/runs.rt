ghost use Rattle.std.specs.Prelude.{◌≡◌, ◌≤◌, IfOk, OnOk};
ghost use Rattle.interleave.specs.Runs.{HasRun};
ghost use Rattle.interleave.specs.Statements.{EntriesLeaveByLastShares, HeldShapesStay};
ghost use Rattle.interleave.specs.Statements.{RootsTellCells, RunsSpareShares, StatesAreSound};
ghost use Rattle.interleave.specs.Statements.{VersionsKeepCells};
ghost use Rattle.world_core.specs.Stored.{stored_state};

use node_words::Plan;
use std::alloc::Global;
use vox_read::Models;
use vw_cell::Memory;
use world_core::{Core, Event, Reply};

/// A core after some events, and the reply to each of them.
#[derive(Drop)]
pub struct Ran<'m> {
    pub core: Core<'m>,
    pub replies: Vec<Reply>,
}

/// Answers the events one after another, beginning with a core in which nothing was done.
///
/// What holds of all states on the way is said for whatever states the events can have led
/// through. The core that comes back is of the same plan and models, so it may be given more
/// events.
pub fn run_events<'m>(
    alloc: Global,
    plan: &Plan,
    models: &'m Models,
    sessions: u16,
    events: &[Event],
) -> Result<Ran<'m>, Memory>
    requires sessions { (1 ≤ sessions) × (sessions ≤ 64) }
    ensures run { IfOk result (λ ran. HasRun plan.now models.entry.now sessions events.now
        ran.replies.items (stored_state ran.core)) }
    ensures plan { IfOk result (λ ran. ran.core.plan ≡ plan.now) }
    ensures models { IfOk result (λ ran. ran.core.models ≡ models.entry.now) }
    ensures sound { OnOk result (StatesAreSound plan.now models.entry.now sessions events.now) }
    ensures roots { OnOk result (RootsTellCells plan.now models.entry.now sessions events.now) }
    ensures cells { OnOk result (VersionsKeepCells plan.now models.entry.now sessions events.now) }
    ensures shares { OnOk result (HeldShapesStay plan.now models.entry.now sessions events.now) }
    ensures spared { OnOk result (RunsSpareShares plan.now models.entry.now sessions events.now) }
    ensures leaves { OnOk result
        (EntriesLeaveByLastShares plan.now models.entry.now sessions events.now) }
{
    let _low = plan.side();
    let mut core = Core::begin(alloc, plan, models, sessions)?;
    let mut replies = Vec::with_capacity(alloc, events.len())?;
    for event in events {
        let reply = core.apply(alloc, event)?;
        replies.push(reply)?;
    }
    Ok(Ran { core, replies })
}
