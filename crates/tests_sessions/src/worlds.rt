//! Worlds that begin and end.
ghost use Rattle.std.specs.Prelude.{◌≤◌, All, IfOk, IfSome};
ghost use Rattle.vw_cell.specs.Places.{FitsAt, IsInWorld};
ghost use Rattle.vox_read.specs.Contents.{AreModels};
ghost use Rattle.session.specs.SessionWorlds.{side_seen};
ghost use Rattle.tests_sessions.specs.Free.{IsFree};

use history_model::{Act, TintAct};
use node_words::Plan;
use session::{Session, World};
use std::alloc::Global;
use std::test::Fail;
use vox_read::Models;
use vw_cell::{Boxed, Cell, Side};

/// All cells of a world of side 8.
pub const WHOLE: Boxed = Boxed {
    at: Cell { x: 0, y: 0, z: 0 },
    size: Cell { x: 8, y: 8, z: 8 },
};

/// The first cell of a world.
pub const FIRST: Boxed = Boxed {
    at: Cell { x: 0, y: 0, z: 0 },
    size: Cell { x: 1, y: 1, z: 1 },
};

/// The cell beside it, in the same leaf.
pub const SECOND: Boxed = Boxed {
    at: Cell { x: 1, y: 0, z: 0 },
    size: Cell { x: 1, y: 1, z: 1 },
};

/// The first cell of the next leaf.
pub const AWAY: Boxed = Boxed {
    at: Cell { x: 4, y: 0, z: 0 },
    size: Cell { x: 1, y: 1, z: 1 },
};

/// How a world is begun: the side of its store, so many buckets of so many slots on each level,
/// whether its cells have tints, and how many last versions alone it holds, or 0 for all.
#[derive(Clone, Copy)]
pub struct Begun {
    pub side: u32,
    pub buckets: u16,
    pub cap: u16,
    pub tint: bool,
    pub keep: u32,
}

/// A world of side 8 without tints, which holds all versions.
pub const PLAIN: Begun = Begun {
    side: 8,
    buckets: 64,
    cap: 256,
    tint: false,
    keep: 0,
};

/// A world of side 8 whose cells have tints.
pub const TINTED: Begun = Begun {
    side: 32,
    buckets: 64,
    cap: 256,
    tint: true,
    keep: 0,
};

/// No models.
pub fn no_models(alloc: Global) -> Models
    ensures { AreModels result }
{
    Models {
        list: Vec::new(alloc),
    }
}

/// A world that is begun so, and its sessions.
pub fn world_begun(
    alloc: Global,
    begun: Begun,
    models: Models,
    sessions: u16,
) -> Result<(World, Vec<Session>), Fail>
    requires sessions { (1 ≤ sessions) × (sessions ≤ 64) }
    requires models { AreModels models }
    ensures { IfOk result (λ r. All (IsFree r.0) r.1.items) }
{
    let side = Side::new(begun.side).ok_or("a side")?;
    let plan = Plan::even(side, begun.buckets, begun.cap).ok_or("a plan")?;
    if plan.side().exponent() < 4 && begun.tint {
        return Err(Fail::from("a side"));
    }
    match World::begin(alloc, &plan, models, sessions, begun.tint, begun.keep) {
        Ok(world_begun) => Ok(world_begun),
        Err(_) => Err(Fail::from("memory")),
    }
}

/// The box, where it lies in the world.
pub fn within(world: &World, part: Boxed) -> Option<Boxed>
    ensures { IfSome result (λ b. FitsAt b.at b.size (side_seen world.now)) }
{
    if world.fits(&Act::Fill(part)) {
        return Some(part);
    }
    if world.fits(&Act::Tint(TintAct::Fill(part, 1))) {
        return Some(part);
    }
    None
}

/// The cell, where it lies in the world.
pub fn cell_within(world: &World, cell: Cell) -> Option<Cell>
    ensures { IfSome result (λ c. IsInWorld (side_seen world.now) c) }
{
    let part = Boxed {
        at: cell,
        size: Cell { x: 1, y: 1, z: 1 },
    };
    match within(world, part) {
        Some(part) => Some(part.at),
        None => None,
    }
}

/// The sessions are given up.
pub fn sessions_ended(world: &World, mut sessions: Vec<Session>)
    requires { All (IsFree world.now) sessions.items }
{
    while let Some(session) = sessions.pop() {
        session.end();
    }
    sessions.destroy_empty();
}
