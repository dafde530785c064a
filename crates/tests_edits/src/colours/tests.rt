ghost use Rattle.std.specs.Prelude.{IfSome};
ghost use Rattle.vox_read.specs.Contents.{AreModels};

use crate::colours::asking::{Asked, Told};
use crate::colours::cells::{Tinted, are_tints, voxels_of};
use crate::colours::worlds::TintWorld;
use colour::TintStencil;
use history_model::TintAct;
use std::alloc::Global;
use std::test::Fail;
use vox_read::{Models, Voxel, read_models};
use vw_cell::{Ball, Boxed, Cell};

const ORIGIN: Cell = Cell { x: 0, y: 0, z: 0 };

const ONE: Cell = Cell { x: 1, y: 1, z: 1 };

const EIGHT: Cell = Cell { x: 8, y: 8, z: 8 };

const CORNER: Boxed = Boxed {
    at: ORIGIN,
    size: ONE,
};

const WHOLE: Boxed = Boxed {
    at: ORIGIN,
    size: EIGHT,
};

const NEXT: Cell = Cell { x: 1, y: 0, z: 0 };

/// All of a world of side 32.
const WIDE: Boxed = Boxed {
    at: ORIGIN,
    size: Cell {
        x: 32,
        y: 32,
        z: 32,
    },
};

/// A model of 3 by 2 by 2 places. The one at 1 0 0 has voxels of colours 2 and 255, the one at 2 1
/// 1 those of colours 8 and 0; the one at 0 0 0 has colour 5, the one at 0 1 0 colour 129.
const FILE: &[u8] =
    b"VOX \x96\0\0\0MAIN\0\0\0\0\x40\0\0\0SIZE\x0c\0\0\0\0\0\0\0\x03\0\0\0\x02\0\0\0\
\x02\0\0\0XYZI\x1c\0\0\0\0\0\0\0\x06\0\0\0\0\0\0\x05\x01\0\0\x02\x01\0\0\xff\x02\x01\x01\x08\x02\
\x01\x01\0\0\x01\0\x81";

/// That model alone.
pub fn drawn_models(alloc: Global) -> Option<Models>
    ensures { IfSome result AreModels }
{
    match read_models(alloc, FILE) {
        Ok(models) => Some(models),
        Err(_) => None,
    }
}

fn first_stencil(alloc: Global, models: &Models) -> Option<TintStencil>
    requires { AreModels models.now }
{
    match models.list.first() {
        None => None,
        Some(model) => match TintStencil::new(alloc, model) {
            Ok(stencil) => Some(stencil),
            Err(_) => None,
        },
    }
}

/// The stencil of that model.
pub fn small_stencil(alloc: Global) -> Result<TintStencil, Fail> {
    let models = drawn_models(alloc).ok_or("models")?;
    Ok(first_stencil(alloc, &models).ok_or("a stencil")?)
}

/// Acts on a world of side 8, the question then, and its answer.
const ROWS: &[(&[TintAct], Asked, Told)] = &[
    (
        &[TintAct::Fill(CORNER, 5)],
        Asked::Tint(ORIGIN),
        Told::Tint(5),
    ),
    (
        &[TintAct::Fill(CORNER, 5)],
        Asked::Tint(NEXT),
        Told::Tint(0),
    ),
    (
        &[TintAct::Fill(CORNER, 5)],
        Asked::Count(WHOLE),
        Told::Number(1),
    ),
    (
        &[TintAct::Fill(CORNER, 5), TintAct::Fill(CORNER, 2)],
        Asked::Tint(ORIGIN),
        Told::Tint(2),
    ),
    (
        &[TintAct::Fill(CORNER, 255), TintAct::Erase(CORNER)],
        Asked::Tint(ORIGIN),
        Told::Tint(0),
    ),
    (
        &[TintAct::Fill(CORNER, 7), TintAct::Copy(CORNER, NEXT)],
        Asked::Tint(NEXT),
        Told::Tint(7),
    ),
    (
        &[TintAct::Ball(
            Ball {
                centre: NEXT,
                radius: 1,
            },
            9,
        )],
        Asked::Tint(ORIGIN),
        Told::Tint(9),
    ),
    (
        &[
            TintAct::Fill(WHOLE, 9),
            TintAct::Carve(Ball {
                centre: NEXT,
                radius: 1,
            }),
        ],
        Asked::Tint(ORIGIN),
        Told::Tint(0),
    ),
    (&[], Asked::Bounds, Told::Extent(None)),
    (
        &[TintAct::Fill(CORNER, 128)],
        Asked::Bounds,
        Told::Extent(Some(CORNER)),
    ),
    (
        &[TintAct::Fill(CORNER, 128)],
        Asked::Ray(Cell { x: 3, y: 0, z: 0 }, [-1, 0, 0]),
        Told::Hit(Some(ORIGIN)),
    ),
    (
        &[TintAct::Fill(CORNER, 128)],
        Asked::Ray(Cell { x: 3, y: 0, z: 0 }, [1, 0, 0]),
        Told::Hit(None),
    ),
];

/// The same on a world of side 32, whose planes have more than one block of 16.
const LARGE_ROWS: &[(&[TintAct], Asked, Told)] = &[
    (
        &[TintAct::Fill(WIDE, 85)],
        Asked::Tint(Cell { x: 31, y: 31, z: 0 }),
        Told::Tint(85),
    ),
    (
        &[TintAct::Fill(WIDE, 85), TintAct::Fill(CORNER, 170)],
        Asked::Tint(ORIGIN),
        Told::Tint(170),
    ),
    (
        &[TintAct::Fill(WIDE, 85), TintAct::Erase(CORNER)],
        Asked::Tint(ORIGIN),
        Told::Tint(0),
    ),
    (
        &[TintAct::Fill(WIDE, 85), TintAct::Erase(CORNER)],
        Asked::Tint(NEXT),
        Told::Tint(85),
    ),
    (
        &[TintAct::Fill(WIDE, 85), TintAct::Erase(WIDE)],
        Asked::Bounds,
        Told::Extent(None),
    ),
];

// The answer after the acts on a world of this side, where none was refused.
fn answer_after(
    alloc: Global,
    side: u32,
    acts: &[TintAct],
    asked: &Asked,
) -> Result<Option<Told>, Fail> {
    let mut world = TintWorld::empty(alloc, side, 64, 64)?;
    if !are_done(&mut world, acts) {
        return Ok(None);
    }
    Ok(world.ask(asked))
}

// Does the acts, up to the first one that is refused; whether there is none.
fn are_done(world: &mut TintWorld, acts: &[TintAct]) -> bool {
    for act in acts {
        if world.edit(act, None).is_err() {
            return false;
        }
    }
    true
}

#[test]
fn tints_are_told(rt: HostRuntime) -> Result<(), Fail> {
    for &(acts, asked, told) in ROWS {
        assert_eq!(rt; answer_after(rt.alloc(), 8, acts, &asked)?, Some(told));
    }
    Ok(())
}

#[test]
fn tints_of_larger_worlds_are_told(rt: HostRuntime) -> Result<(), Fail> {
    for &(acts, asked, told) in LARGE_ROWS {
        assert_eq!(rt; answer_after(rt.alloc(), 32, acts, &asked)?, Some(told));
    }
    Ok(())
}

#[test]
fn two_versions_share_their_nodes(rt: HostRuntime) -> Result<(), Fail> {
    let mut world = TintWorld::empty(rt.alloc(), 8, 64, 64)?;
    assert!(rt; world.edit(&TintAct::Fill(CORNER, 5), None).is_ok());
    let second = world.edit(&TintAct::Fill(CORNER, 2), None);
    assert_eq!(rt; second, Ok([1, 1, 3, 2]));
    assert_eq!(rt; world.held(), 0);
    Ok(())
}

/// The model at 1 2 3 in a world of tint 3, and the tints of its places then.
const STAMPED: &[(Cell, u8)] = &[
    (Cell { x: 1, y: 2, z: 3 }, 5),
    (Cell { x: 2, y: 2, z: 3 }, 255),
    (Cell { x: 3, y: 3, z: 4 }, 3),
    (Cell { x: 1, y: 3, z: 3 }, 129),
    (Cell { x: 3, y: 2, z: 3 }, 3),
];

const STAMP: TintAct = TintAct::Stamp(0, Cell { x: 1, y: 2, z: 3 });

fn is_stamped(world: &mut TintWorld, stencil: &TintStencil) -> bool {
    are_done(world, &[TintAct::Fill(WHOLE, 3)]) && done(world, &STAMP, stencil)
}

fn have_tints(world: &mut TintWorld, tints: &[(Cell, u8)]) -> bool {
    for &(c, tint) in tints {
        if world.ask(&Asked::Tint(c)) != Some(Told::Tint(tint)) {
            return false;
        }
    }
    true
}

// Whether the stamp leaves these tints in a new world.
fn leaves_tints(alloc: Global, stencil: &TintStencil, tints: &[(Cell, u8)]) -> Result<bool, Fail> {
    let mut world = TintWorld::empty(alloc, 8, 64, 64)?;
    Ok(is_stamped(&mut world, stencil) && have_tints(&mut world, tints))
}

#[test]
fn stamps_give_the_tint_of_the_last_voxel(rt: HostRuntime) -> Result<(), Fail> {
    let stencil = small_stencil(rt.alloc())?;
    assert!(rt; leaves_tints(rt.alloc(), &stencil, STAMPED)?);
    Ok(())
}

const FAR: Boxed = Boxed {
    at: Cell { x: 1, y: 2, z: 0 },
    size: ONE,
};

const TWO_CELLS: &[TintAct] = &[TintAct::Fill(CORNER, 6), TintAct::Fill(FAR, 200)];

const TWO_VOXELS: &[Voxel] = &[
    Voxel {
        x: 0,
        y: 0,
        z: 0,
        colour: 6,
    },
    Voxel {
        x: 1,
        y: 2,
        z: 0,
        colour: 200,
    },
];

fn lists(alloc: Global, world: &mut TintWorld, b: Boxed, want: &[Voxel]) -> bool {
    let mut voxels: Vec<Voxel> = Vec::new(alloc);
    world.voxels(b, &mut voxels) && voxels.as_slice() == want
}

#[test]
fn voxels_have_their_tints(rt: HostRuntime) -> Result<(), Fail> {
    let mut world = TintWorld::empty(rt.alloc(), 8, 64, 64)?;
    assert!(rt; are_done(&mut world, TWO_CELLS));
    assert!(rt; lists(rt.alloc(), &mut world, WHOLE, TWO_VOXELS));
    Ok(())
}

/// A box of 2 by 2 by 6 cells.
const PART: Boxed = Boxed {
    at: Cell { x: 1, y: 1, z: 0 },
    size: Cell { x: 2, y: 2, z: 6 },
};

const HIGH: Boxed = Boxed {
    at: Cell { x: 1, y: 1, z: 5 },
    size: ONE,
};

const THREE_CELLS: &[TintAct] = &[
    TintAct::Fill(CORNER, 6),
    TintAct::Fill(FAR, 200),
    TintAct::Fill(HIGH, 33),
];

/// Sides of worlds, acts on them, boxes, and cells of them with their tints then.
const SOME_CELLS: &[(u32, &[TintAct], Boxed, &[Tinted])] = &[
    (8, &[], WHOLE, &[[0, 0, 0, 0], [7, 7, 7, 0]]),
    (
        8,
        THREE_CELLS,
        WHOLE,
        &[
            [0, 0, 0, 6],
            [1, 1, 5, 33],
            [1, 2, 0, 200],
            [0, 0, 0, 6],
            [7, 7, 7, 0],
        ],
    ),
    (
        8,
        THREE_CELLS,
        PART,
        &[[0, 1, 0, 200], [0, 0, 5, 33], [0, 0, 0, 0], [1, 1, 5, 0]],
    ),
    (
        32,
        &[TintAct::Fill(WIDE, 85), TintAct::Fill(CORNER, 170)],
        WIDE,
        &[
            [31, 31, 31, 85],
            [0, 0, 0, 170],
            [16, 0, 0, 85],
            [0, 0, 1, 85],
        ],
    ),
    (8, THREE_CELLS, PART, &[]),
];

// Whether the cells have their tints after the acts on a world of this side.
fn have_their_tints(
    alloc: Global,
    side: u32,
    acts: &[TintAct],
    part: Boxed,
    cells: &[Tinted],
) -> Result<(), Fail> {
    let mut world = TintWorld::empty(alloc, side, 64, 64)?;
    if !are_done(&mut world, acts) {
        return Err("acts".into());
    }
    let voxels = voxels_of(alloc, part.size, cells)?;
    let tints = world.tints(alloc, part, voxels.as_slice()).ok_or("tints")?;
    are_tints(tints.as_slice(), cells)
}

#[test]
fn some_cells_have_their_tints(rt: HostRuntime) -> Result<(), Fail> {
    for &(side, acts, part, cells) in SOME_CELLS {
        have_their_tints(rt.alloc(), side, acts, part, cells)?;
    }
    Ok(())
}

fn done(world: &mut TintWorld, act: &TintAct, stencil: &TintStencil) -> bool {
    match act {
        TintAct::Stamp(_, _) => world.edit(act, Some(stencil)).is_ok(),
        _ => world.edit(act, None).is_ok(),
    }
}
