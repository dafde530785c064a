//! A world of tints that stands open: the tints of some cells of each of its versions.
ghost use Rattle.std.specs.Prelude.{All};
ghost use Rattle.vox_read.specs.Contents.{IsInsideModel};

use crate::colours::cells::{Tinted, are_tints, voxels_of};
use crate::colours::tests::drawn_models;
use history_model::{Act, TintAct};
use node_words::Plan;
use std::alloc::Global;
use std::test::Fail;
use store_run::OpenWorld;
use transcript::Answer;
use vox_read::Voxel;
use vw_cell::{Boxed, Cell, Side};

const ORIGIN: Cell = Cell { x: 0, y: 0, z: 0 };

const CORNER: Boxed = Boxed {
    at: ORIGIN,
    size: Cell { x: 1, y: 1, z: 1 },
};

const FAR: Boxed = Boxed {
    at: Cell { x: 1, y: 2, z: 5 },
    size: Cell { x: 2, y: 1, z: 1 },
};

const WHOLE: Boxed = Boxed {
    at: ORIGIN,
    size: Cell { x: 8, y: 8, z: 8 },
};

const PART: Boxed = Boxed {
    at: Cell { x: 1, y: 1, z: 4 },
    size: Cell { x: 2, y: 2, z: 2 },
};

/// Lines, the boxes that a world of side 8 is filled in, one a version, and with which tint.
const FILLS: &[(u32, Boxed, u8)] = &[(1, CORNER, 6), (2, FAR, 200), (3, CORNER, 33)];

/// Versions, boxes, and cells of them with their tints.
const ROWS: &[(u32, Boxed, &[Tinted])] = &[
    (0, WHOLE, &[[0, 0, 0, 0], [1, 2, 5, 0]]),
    (1, WHOLE, &[[1, 2, 5, 0], [0, 0, 0, 6]]),
    (
        2,
        WHOLE,
        &[[0, 0, 0, 6], [2, 2, 5, 200], [0, 0, 0, 6], [3, 2, 5, 0]],
    ),
    (3, WHOLE, &[[1, 2, 5, 200], [0, 0, 0, 33], [1, 0, 0, 0]]),
    (2, PART, &[[0, 1, 1, 200], [0, 0, 1, 0], [1, 1, 0, 0]]),
    (1, PART, &[[0, 1, 1, 0]]),
    (3, PART, &[]),
];

fn new_world(alloc: Global) -> Result<OpenWorld, Fail> {
    let side = Side::new(32).ok_or("a side")?;
    let plan = Plan::even(side, 64, 64).ok_or("a plan")?;
    if plan.side().exponent() < 4 {
        return Err("a side of a store with tints".into());
    }
    let models = drawn_models(alloc).ok_or("models")?;
    Ok(OpenWorld::begin(alloc, &plan, models, true)?)
}

// Gives the cells of the box this tint, as a line of session 0.
fn fill(world: &mut OpenWorld, line: u32, b: Boxed, c: u8) -> Result<(), Fail> {
    if c == 0 || !world.tint() {
        return Err("a tint".into());
    }
    let b = Boxed::new(b.at, b.size, world.side()).ok_or("a box of the world")?;
    match world.change(0, line, Act::Tint(TintAct::Fill(b, c)))? {
        Answer::Done => Ok(()),
        answer => Err(Fail::new(format_args!("line {line}: {answer:?}"))),
    }
}

// The tints of these cells of the box.
fn tints_told(
    alloc: Global,
    world: &mut OpenWorld,
    version: u32,
    part: Boxed,
    voxels: &[Voxel],
) -> Result<Vec<u8>, Fail>
    requires { All (IsInsideModel part.size) voxels.now }
{
    if part.size.x > 256 || part.size.y > 256 || part.size.z > 256 {
        return Err("a box of 256 cells a side".into());
    }
    if !world.tint() || !world.holds_version(version) {
        return Err("a version with tints".into());
    }
    let part = Boxed::new(part.at, part.size, world.side()).ok_or("a box of the world")?;
    Ok(world.tints_of(alloc, version, part, voxels)?)
}

#[test]
fn each_version_tells_its_tints(rt: HostRuntime) -> Result<(), Fail> {
    let mut world = new_world(rt.alloc())?;
    for &(line, b, c) in FILLS {
        fill(&mut world, line, b, c)?;
    }
    for &(version, part, cells) in ROWS {
        let voxels = voxels_of(rt.alloc(), part.size, cells)?;
        let tints = tints_told(rt.alloc(), &mut world, version, part, voxels.as_slice())?;
        are_tints(tints.as_slice(), cells)?;
    }
    Ok(())
}
