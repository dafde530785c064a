//! A world is begun.
ghost use Rattle.std.specs.Prelude.{◌≡◌, ◌≤◌, true, IfOk};
ghost use Rattle.vox_read.specs.Contents.{AreModels};
ghost use Rattle.session.specs.Begun.{AreNewSessions, IsNewWorld};

use crate::world::{Session, World};
use act_rebuilds::own_models;
use node_table::NodeTable;
use node_words::Plan;
use std::alloc::Global;
use vox_read::Models;
use vw_cell::Memory;

impl World {
    /// An empty world, whose cells have tints or have none, and its sessions, numbered from 0 up.
    /// The models are given up: to the world, or where it is refused. Where cells have tints the
    /// world has a quarter of the plan's side, which is 16 at least. It holds the last `keep`
    /// versions alone, or with 0 all: as record n is appended, version n - keep is forgotten,
    /// unless it has a mark.
    pub fn begin(
        alloc: Global,
        plan: &Plan,
        models: Models,
        sessions: u16,
        tint: bool,
        keep: u32,
    ) -> Result<(World, Vec<Session>), Memory>
        requires sessions { (1 ≤ sessions) × (sessions ≤ 64) }
        requires models { AreModels models }
        requires large { tint ≡ true → 4 ≤ plan.now.side }
        ensures world { IfOk result (λ r. IsNewWorld plan.now models tint keep r.0) }
        ensures sessions { IfOk result (λ r. AreNewSessions sessions r.0.table r.1.items) }
    {
        let (table, sessions) = NodeTable::begin(alloc, plan, &models, sessions)?;
        match own_models(alloc, models, tint) {
            Ok(drawn) => {
                let world = World {
                    table,
                    drawn,
                    tint,
                    keep,
                };
                Ok((world, sessions))
            }
            Err(refused) => {
                table.give_up(sessions);
                Err(refused)
            }
        }
    }
}
