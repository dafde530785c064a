use crate::edited::{acts_done, floor, number_of_cells, stencil_of, world_of};
use edit_stamp::{Stencil, StencilCover};
use history_model::{Act, Question};
use node_words::{Full, Plan};
use std::alloc::Global;
use testkit::{Drawing, Found, StoredWorld};
use vw_cell::{Ball, Boxed, Cell, Side};

const ORIGIN: Cell = Cell { x: 0, y: 0, z: 0 };

const ONE: Cell = Cell { x: 1, y: 1, z: 1 };

/// The cell at x = 0, 2 and 4 alone.
const FIRST: Act = Act::Fill(CORNER);

const THIRD: Act = Act::Fill(Boxed {
    at: Cell { x: 2, y: 0, z: 0 },
    size: ONE,
});

const FIFTH: Act = Act::Fill(Boxed {
    at: Cell { x: 4, y: 0, z: 0 },
    size: ONE,
});

const CORNER: Boxed = Boxed {
    at: ORIGIN,
    size: ONE,
};

/// The whole of a world of side 8.
const WHOLE: Act = Act::Fill(Boxed {
    at: ORIGIN,
    size: Cell { x: 8, y: 8, z: 8 },
});

/// The first four cells, moved by one.
const MOVE: Act = Act::Copy(FOUR, Cell { x: 1, y: 0, z: 0 });

const FOUR: Boxed = Boxed {
    at: ORIGIN,
    size: Cell { x: 4, y: 1, z: 1 },
};

const AROUND_0: Ball = Ball {
    centre: Cell { x: 4, y: 4, z: 4 },
    radius: 0,
};

const AROUND_1: Ball = Ball {
    centre: Cell { x: 4, y: 4, z: 4 },
    radius: 1,
};

const AROUND_2: Ball = Ball {
    centre: Cell { x: 4, y: 4, z: 4 },
    radius: 2,
};

const CORNER_BALL: Ball = Ball {
    centre: ORIGIN,
    radius: 2,
};

/// Sides, edits of an empty world, and how many cells are set then. Of the model's places eight
/// have a colour.
const ROWS: &[(u32, &[Act], u64)] = &[
    (8, &[WHOLE], 512),
    (8, &[FIRST, THIRD, MOVE], 3),
    (8, &[FIRST, Act::Erase(CORNER)], 0),
    (8, &[WHOLE, Act::Erase(CORNER)], 511),
    (16, &[Act::Ball(AROUND_0)], 1),
    (16, &[Act::Ball(AROUND_1)], 7),
    (16, &[Act::Ball(AROUND_2)], 33),
    (8, &[Act::Ball(CORNER_BALL)], 11),
    (8, &[WHOLE, Act::Carve(CORNER_BALL)], 501),
    (8, &[Act::Stamp(0, Cell { x: 3, y: 4, z: 5 })], 8),
    (8, &[FIRST, FIFTH], 2),
];

/// Voxels of colour 0 stand after and before others of their place.
const VOXELS: &[[u8; 4]] = &[
    [0, 0, 0, 1],
    [1, 0, 0, 2],
    [2, 0, 0, 0],
    [4, 3, 2, 9],
    [4, 3, 2, 0],
    [3, 1, 1, 0],
    [3, 1, 1, 5],
    [0, 2, 2, 7],
    [4, 0, 2, 7],
    [2, 2, 0, 3],
    [2, 3, 0, 3],
    [1, 1, 1, 255],
];

// The world after these edits, where none meets a full bucket and no share stays held.
fn edited(alloc: Global, side: u32, acts: &[Act], stencil: &Stencil) -> Option<StoredWorld> {
    match world_of(alloc, side, 16, 16) {
        Some(mut world) => {
            if acts_done(&mut world, acts, stencil).is_none() && world.held() == 0 {
                Some(world)
            } else {
                None
            }
        }
        None => None,
    }
}

// How many cells are set after edits with this stencil.
fn cells_with(alloc: Global, side: u32, acts: &[Act], stencil: &Stencil) -> Option<u64> {
    match edited(alloc, side, acts, stencil) {
        Some(mut world) => number_of_cells(&mut world),
        None => None,
    }
}

// How many cells are set after these edits of an empty world.
fn cells_after(alloc: Global, side: u32, acts: &[Act]) -> Option<u64> {
    match stencil_of(alloc, [5, 4, 3], VOXELS) {
        Some(stencil) => cells_with(alloc, side, acts, &stencil),
        None => None,
    }
}

#[test]
fn edits_set_so_many_cells(rt: HostRuntime) {
    for &(side, acts, cells) in ROWS {
        let found = cells_after(rt.alloc(), side, acts);
        assert!(rt; found == Some(cells), "{acts:?}");
    }
}

const MOVED: &[Act] = &[FIRST, THIRD, MOVE];

const SET: &[(Cell, bool)] = &[
    (ORIGIN, true),
    (Cell { x: 1, y: 0, z: 0 }, true),
    (Cell { x: 2, y: 0, z: 0 }, false),
    (Cell { x: 3, y: 0, z: 0 }, true),
    (Cell { x: 4, y: 0, z: 0 }, false),
];

// The first of these cells that isn't set where it is said to be, or is where it isn't.
fn wrong_cell(world: &mut StoredWorld, cells: &[(Cell, bool)]) -> Option<Cell> {
    for &(c, is_set) in cells {
        if world.ask(&Question::Get(c)) != Some(Found::Is(is_set)) {
            return Some(c);
        }
    }
    None
}

/// A wrong cell after the copy, and the least box.
#[derive(Clone, Copy, Debug, PartialEq, Eq)]
struct Copied {
    wrong: Option<Cell>,
    bounds: Option<Found>,
}

fn after_copy(alloc: Global, stencil: &Stencil) -> Option<Copied> {
    match edited(alloc, 8, MOVED, stencil) {
        Some(mut world) => {
            let wrong = wrong_cell(&mut world, SET);
            let bounds = world.ask(&Question::Bounds);
            Some(Copied { wrong, bounds })
        }
        None => None,
    }
}

fn copies(alloc: Global) -> Option<Copied> {
    match stencil_of(alloc, [1, 1, 1], &[]) {
        Some(stencil) => after_copy(alloc, &stencil),
        None => None,
    }
}

// The cells at x = 0, 1 and 3: those before the copy, and not the one that it wrote.
#[test]
fn copies_read_the_cells_before(rt: HostRuntime) {
    let want = Copied {
        wrong: None,
        bounds: Some(Found::Extent(Some(FOUR))),
    };
    assert_eq!(rt; copies(rt.alloc()), Some(want));
}

/// A model of three cells, which stand at 3 3 3, 5 3 3 and 4 4 4 of the world, and of a voxel of
/// colour 0, which stands at 3 4 3 and is none.
const SPREAD: &[[u8; 4]] = &[[0, 0, 0, 1], [2, 0, 0, 2], [1, 1, 1, 3], [0, 1, 0, 0]];

const SPREAD_AT: Cell = Cell { x: 3, y: 3, z: 3 };

/// The eight cells around the point 4 4 4, each in a leaf of its own. Two are the model's.
const AROUND: Act = Act::Fill(Boxed {
    at: SPREAD_AT,
    size: Cell { x: 2, y: 2, z: 2 },
});

/// Edits of a world of side 8, how many cells are set once the model's are cleared, and of some
/// cells whether they are.
const CLEARED: &[(&[Act], u64, &[(Cell, bool)])] = &[
    (&[], 0, &[(Cell { x: 5, y: 3, z: 3 }, false)]),
    (
        &[AROUND],
        6,
        &[
            (Cell { x: 3, y: 3, z: 3 }, false),
            (Cell { x: 4, y: 3, z: 3 }, true),
            (Cell { x: 3, y: 4, z: 3 }, true),
            (Cell { x: 4, y: 4, z: 3 }, true),
            (Cell { x: 3, y: 3, z: 4 }, true),
            (Cell { x: 4, y: 3, z: 4 }, true),
            (Cell { x: 3, y: 4, z: 4 }, true),
            (Cell { x: 4, y: 4, z: 4 }, false),
            // was unset before
            (Cell { x: 5, y: 3, z: 3 }, false),
        ],
    ),
    (
        &[WHOLE],
        509,
        &[
            (Cell { x: 3, y: 3, z: 3 }, false),
            (Cell { x: 5, y: 3, z: 3 }, false),
            (Cell { x: 4, y: 4, z: 4 }, false),
        ],
    ),
];

// Whether a stamp that clears leaves so many cells, and these as they are told.
fn leaves(world: &mut StoredWorld, stencil: &Stencil, cells: u64, set: &[(Cell, bool)]) -> bool {
    world.unstamp(stencil, SPREAD_AT).is_ok()
        && world.held() == 0
        && number_of_cells(world) == Some(cells)
        && wrong_cell(world, set).is_none()
}

// Whether it does so after these edits.
fn leaves_after(
    alloc: Global,
    acts: &[Act],
    stencil: &Stencil,
    cells: u64,
    set: &[(Cell, bool)],
) -> bool {
    match edited(alloc, 8, acts, stencil) {
        Some(mut world) => leaves(&mut world, stencil, cells, set),
        None => false,
    }
}

// The same with the model's stencil.
fn clears(alloc: Global, acts: &[Act], cells: u64, set: &[(Cell, bool)]) -> bool {
    match stencil_of(alloc, [3, 2, 2], SPREAD) {
        Some(stencil) => leaves_after(alloc, acts, &stencil, cells, set),
        None => false,
    }
}

#[test]
fn models_are_cleared(rt: HostRuntime) {
    for &(acts, cells, set) in CLEARED {
        assert!(rt; clears(rt.alloc(), acts, cells, set), "{acts:?}");
    }
}

/// Edits one after another, and how many cells are set after each.
const FLOORS: &[(Act, u64)] = &[
    (Act::Stamp(0, ORIGIN), 15_876),
    (Act::Stamp(0, Cell { x: 126, y: 0, z: 0 }), 31_752),
    (Act::Copy(FLOOR, Cell { x: 0, y: 126, z: 0 }), 47_628),
];

const FLOOR: Boxed = Boxed {
    at: ORIGIN,
    size: Cell {
        x: 126,
        y: 126,
        z: 1,
    },
};

// The usual plan, whose buckets are enough for floors.
fn usual_world(alloc: Global) -> Option<StoredWorld> {
    match Side::new(256) {
        Some(side) => StoredWorld::empty(alloc, &Plan::usual(side)).ok(),
        None => None,
    }
}

/// An edit that meets a full bucket, keeps a share, or leaves another number of cells than it
/// should, with the cells that it leaves.
type Wrong = Option<(Act, Option<u64>)>;

// The first wrong one of these edits.
fn wrong_edit(world: &mut StoredWorld, edits: &[(Act, u64)], stencil: &Stencil) -> Wrong {
    for (act, cells) in edits {
        let is_done = world.edit(act, stencil).is_ok() && world.held() == 0;
        let found = number_of_cells(world);
        if !is_done || found != Some(*cells) {
            return Some((*act, found));
        }
    }
    None
}

fn lay_floors(alloc: Global, stencil: &Stencil) -> Option<Wrong> {
    match usual_world(alloc) {
        Some(mut world) => Some(wrong_edit(&mut world, FLOORS, stencil)),
        None => None,
    }
}

fn floor_stencil(alloc: Global) -> Option<Stencil> {
    match floor(alloc, 126) {
        Some(model) => model.stencil(alloc),
        None => None,
    }
}

fn floors(alloc: Global) -> Option<Wrong> {
    match floor_stencil(alloc) {
        Some(stencil) => lay_floors(alloc, &stencil),
        None => None,
    }
}

// A floor of 126 by 126 voxels in a model of that height, twice, and then once more by a copy.
#[test]
fn floors_are_stamped(rt: HostRuntime) {
    assert_eq!(rt; floors(rt.alloc()), Some(None));
}

/// Blocks of a world that has two models of two leaves at `PLACE`, and whether these are the same
/// there. The first leaves are the same, the second ones differ, at 9 6 6 and 10 6 6 of the world.
const BESIDE: &[(Cell, u8, bool)] = &[
    (Cell { x: 4, y: 4, z: 4 }, 0, true),
    (Cell { x: 8, y: 4, z: 4 }, 0, false),
    (Cell { x: 12, y: 4, z: 4 }, 0, true),
    (ORIGIN, 0, true),
    (ORIGIN, 1, true),
    (Cell { x: 8, y: 0, z: 0 }, 1, false),
    (ORIGIN, 2, false),
    (ORIGIN, 10, false),
    // Blocks that touch the second leaf, with and without places where its words differ.
    (Cell { x: 5, y: 4, z: 4 }, 0, true),
    (Cell { x: 6, y: 4, z: 4 }, 0, false),
    (Cell { x: 10, y: 4, z: 4 }, 0, false),
    (Cell { x: 11, y: 4, z: 4 }, 0, true),
    (Cell { x: 8, y: 7, z: 4 }, 0, true),
    (Cell { x: 8, y: 4, z: 3 }, 0, false),
    (Cell { x: 8, y: 4, z: 2 }, 0, true),
    (Cell { x: 1, y: 0, z: 0 }, 1, true),
    (Cell { x: 2, y: 0, z: 0 }, 1, false),
];

const PLACE: Cell = Cell { x: 4, y: 4, z: 4 };

/// Two models, whose second leaves have a cell at another x.
const LEAVES: &[[u8; 4]] = &[[0, 0, 0, 1], [5, 1, 1, 1], [5, 2, 2, 1]];

const OTHER_LEAVES: &[[u8; 4]] = &[[0, 0, 0, 1], [5, 1, 1, 1], [6, 2, 2, 1]];

// The first of these blocks, with its level, in which the stencils don't agree though they should,
// or do though they shouldn't.
fn wrong_block(one: &Stencil, other: &Stencil, rows: &[(Cell, u8, bool)]) -> Option<(Cell, u8)> {
    for &(at, level, is_same) in rows {
        if level > 10 || one.agrees(other, PLACE, at, level) != is_same {
            return Some((at, level));
        }
    }
    None
}

/// The wrong blocks of a stencil beside another, of that beside the first, and of the first beside
/// itself.
#[derive(Clone, Copy, Debug, PartialEq, Eq)]
struct WrongBlocks {
    forth: Option<(Cell, u8)>,
    back: Option<(Cell, u8)>,
    own: Option<(Cell, u8)>,
}

const NONE_WRONG: WrongBlocks = WrongBlocks {
    forth: None,
    back: None,
    own: None,
};

// The stencil beside that of this model.
fn agree_with(
    alloc: Global,
    one: &Stencil,
    size: [u8; 3],
    voxels: &[[u8; 4]],
    rows: &[(Cell, u8, bool)],
) -> Option<WrongBlocks> {
    match stencil_of(alloc, size, voxels) {
        Some(other) => Some(WrongBlocks {
            forth: wrong_block(one, &other, rows),
            back: wrong_block(&other, one, rows),
            own: wrong_block(one, one, &[(ORIGIN, 10, true)]),
        }),
        None => None,
    }
}

// The same of the first model.
fn leaves_agree(
    alloc: Global,
    size: [u8; 3],
    voxels: &[[u8; 4]],
    rows: &[(Cell, u8, bool)],
) -> Option<WrongBlocks> {
    match stencil_of(alloc, [8, 4, 4], LEAVES) {
        Some(one) => agree_with(alloc, &one, size, voxels, rows),
        None => None,
    }
}

#[test]
fn stencils_agree_in_blocks_of_the_same_places(rt: HostRuntime) {
    let wrong = leaves_agree(rt.alloc(), [8, 4, 4], OTHER_LEAVES, BESIDE);
    assert_eq!(rt; wrong, Some(NONE_WRONG));
}

#[test]
fn stencils_of_two_sizes_never_agree(rt: HostRuntime) {
    let rows = &[(PLACE, 0, false), (ORIGIN, 0, false)];
    let wrong = leaves_agree(rt.alloc(), [8, 4, 5], LEAVES, rows);
    assert_eq!(rt; wrong, Some(NONE_WRONG));
}

/// Blocks of a world that has a model of two leaves at `PLACE`, the first filled and the second
/// empty, and what is shown of its places there.
const HALVES: &[(Cell, u8, StencilCover)] = &[
    (PLACE, 0, StencilCover::Set),
    (Cell { x: 8, y: 4, z: 4 }, 0, StencilCover::Unset),
    (Cell { x: 6, y: 4, z: 4 }, 0, StencilCover::Either),
    (Cell { x: 2, y: 4, z: 4 }, 0, StencilCover::Set),
    (Cell { x: 9, y: 5, z: 5 }, 0, StencilCover::Unset),
    (ORIGIN, 1, StencilCover::Set),
    (Cell { x: 8, y: 0, z: 0 }, 1, StencilCover::Unset),
    (ORIGIN, 2, StencilCover::Either),
];

// Appends the voxels of a leaf. Says whether there was memory.
fn fill_leaf(voxels: &mut Vec<[u8; 4]>) -> bool {
    for n in 0..64u8 {
        if voxels.push([n % 4, n / 4 % 4, n / 16, 1]).is_err() {
            return false;
        }
    }
    true
}

fn half_filled(alloc: Global) -> Option<Stencil> {
    let size = [8, 4, 4];
    let mut voxels: Vec<[u8; 4]> = Vec::new(alloc);
    if fill_leaf(&mut voxels) {
        Drawing { size, voxels }.stencil(alloc)
    } else {
        None
    }
}

fn is_shown(found: StencilCover, wanted: StencilCover) -> bool {
    match (found, wanted) {
        (StencilCover::Unset, StencilCover::Unset) => true,
        (StencilCover::Set, StencilCover::Set) => true,
        (StencilCover::Either, StencilCover::Either) => true,
        _ => false,
    }
}

// The first of these blocks, with its level, that is shown otherwise.
fn wrong_cover(stencil: &Stencil, rows: &[(Cell, u8, StencilCover)]) -> Option<(Cell, u8)> {
    for &(at, level, wanted) in rows {
        if level > 10 || !is_shown(stencil.coverage(PLACE, at, level), wanted) {
            return Some((at, level));
        }
    }
    None
}

fn halves_show(alloc: Global) -> Option<Option<(Cell, u8)>> {
    match half_filled(alloc) {
        Some(stencil) => Some(wrong_cover(&stencil, HALVES)),
        None => None,
    }
}

#[test]
fn stencils_show_blocks_that_are_filled_or_empty(rt: HostRuntime) {
    assert_eq!(rt; halves_show(rt.alloc()), Some(None));
}

/// Sides, edits of which the second meets a full bucket, and the level of that bucket.
const CROWDED: &[(u32, &[Act], u8)] = &[(8, &[FIRST, FIFTH], 1), (4, &[FIRST, SECOND], 0)];

const SECOND: Act = Act::Fill(Boxed {
    at: Cell { x: 1, y: 0, z: 0 },
    size: ONE,
});

// Whether a world of one cell has a node on each level, and no share is held.
fn has_one_cell(world: &mut StoredWorld) -> bool {
    for level in 0..=world.side().root_level() {
        if world.live(level) != 1 {
            return false;
        }
    }
    world.held() == 0 && number_of_cells(world) == Some(1)
}

// Whether the edits meet the full bucket of this level and leave one cell, in a world with one
// bucket of one node a level.
fn tell_full(alloc: Global, side: u32, acts: &[Act], level: u8, stencil: &Stencil) -> bool {
    match world_of(alloc, side, 1, 1) {
        Some(mut world) => {
            acts_done(&mut world, acts, stencil) == Some(Full { level, bucket: 0 })
                && has_one_cell(&mut world)
        }
        None => false,
    }
}

fn meet_full(alloc: Global, side: u32, acts: &[Act], level: u8) -> bool {
    match stencil_of(alloc, [1, 1, 1], &[]) {
        Some(stencil) => tell_full(alloc, side, acts, level, &stencil),
        None => false,
    }
}

#[test]
fn full_buckets_are_told(rt: HostRuntime) {
    for &(side, acts, level) in CROWDED {
        assert!(rt; meet_full(rt.alloc(), side, acts, level), "side {side}");
    }
}
