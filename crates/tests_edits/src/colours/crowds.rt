//! Tinted acts in a store with one bucket a level, for each number of nodes that a bucket may have.

use crate::colours::asking::{Asked, Told};
use crate::colours::tests::small_stencil;
use crate::colours::worlds::TintWorld;
use colour::TintStencil;
use history_model::TintAct;
use std::alloc::Global;
use std::test::Fail;
use testkit::Refusal;
use vw_cell::{Ball, Boxed, Cell};

const WHOLE: Boxed = Boxed {
    at: Cell { x: 0, y: 0, z: 0 },
    size: Cell { x: 8, y: 8, z: 8 },
};

const BALL: Ball = Ball {
    centre: Cell { x: 3, y: 4, z: 3 },
    radius: 2,
};

/// What is done to a world of side 8, one after the other.
const ACTS: [TintAct; 4] = [
    TintAct::Fill(WHOLE, 255),
    TintAct::Ball(BALL, 7),
    TintAct::Stamp(0, Cell { x: 1, y: 2, z: 3 }),
    TintAct::Erase(WHOLE),
];

/// What comes of an act. Where it meets a full bucket, whether all is as it was.
#[derive(Clone, Copy, Debug, PartialEq, Eq)]
enum Came {
    Done,
    Full,
    FullAndChanged,
    Unfit,
}

use Came::{Done, Full};

/// From how many slots a bucket to how many, and what comes of each act, where that goes by the
/// cells before and behind it alone. A fill has two nodes of level 2, with those of its parts nine;
/// the ball has nine leaves with the fill's; the stamp has 13 leaves with the ball's, with those of
/// its parts 17; the erasure leaves nothing beside the 12 leaves before.
const ROWS: &[(u16, u16, Want, Want, Want, Want)] = &[
    (1, 1, Some(Full), Some(Full), Some(Full), Some(Done)),
    (2, 8, None, None, None, None),
    (9, 12, Some(Done), Some(Done), Some(Full), Some(Done)),
    (13, 16, Some(Done), Some(Done), None, Some(Done)),
    (17, 40, Some(Done), Some(Done), Some(Done), Some(Done)),
];

type Want = Option<Came>;

// The shares that are held, the live nodes of each level, and the number of set cells.
fn state(world: &mut TintWorld) -> (u32, [u32; 4], Option<Told>) {
    let cells = world.ask(&Asked::Count(WHOLE));
    (world.held(), world.lives(), cells)
}

fn edited(world: &mut TintWorld, act: &TintAct, stencil: &TintStencil) -> Came {
    let before = state(world);
    let drawn = match act {
        TintAct::Stamp(_, _) => Some(stencil),
        _ => None,
    };
    match world.edit(act, drawn) {
        Ok(_) => Done,
        Err(Refusal::Unfit) => Came::Unfit,
        Err(Refusal::Full(_)) => {
            if state(world) == before {
                Full
            } else {
                Came::FullAndChanged
            }
        }
    }
}

// What comes of the acts in a store with buckets of so many slots.
fn results(alloc: Global, cap: u16, stencil: &TintStencil) -> Result<[Came; 4], Fail> {
    let mut world = TintWorld::empty(alloc, 8, 1, cap)?;
    let acts = ACTS;
    let mut came = [Came::Unfit; 4];
    for k in 0..4usize {
        came[k] = edited(&mut world, &acts[k], stencil);
    }
    Ok(came)
}

// Whether each act is done or meets a full bucket, and those of which that is told as it is told.
fn is_wanted(came: &[Came; 4], want: &[Want; 4]) -> bool {
    for k in 0..4usize {
        let right = match want[k] {
            Some(one) => came[k] == one,
            None => came[k] == Done || came[k] == Full,
        };
        if !right {
            return false;
        }
    }
    true
}

#[test]
fn tinted_acts_that_meet_a_full_bucket_leave_the_store_as_it_was(
    rt: HostRuntime,
) -> Result<(), Fail> {
    let stencil = small_stencil(rt.alloc())?;
    for &(from, to, fill, ball, stamp, erasure) in ROWS {
        let want = [fill, ball, stamp, erasure];
        for cap in from..=to {
            let came = results(rt.alloc(), cap, &stencil)?;
            assert!(rt;
                is_wanted(&came, &want),
                "cap {cap}: {came:?}, and not {want:?}"
            );
        }
    }
    Ok(())
}
