use edit_stamp::Stencil;
use history_model::{Act, Question, Way};
use node_words::Plan;
use std::alloc::Global;
use std::test::Fail;
use testkit::{Drawing, Found, StoredWorld};
use vox_read::Voxel;
use vw_cell::{Boxed, Cell, Side};

const ORIGIN: Cell = Cell { x: 0, y: 0, z: 0 };

const ONE: Cell = Cell { x: 1, y: 1, z: 1 };

const EIGHT: Boxed = Boxed {
    at: ORIGIN,
    size: Cell { x: 8, y: 8, z: 8 },
};

const MOST: Boxed = Boxed {
    at: ORIGIN,
    size: Cell {
        x: 4096,
        y: 4096,
        z: 4096,
    },
};

const FOUR: Boxed = Boxed {
    at: ORIGIN,
    size: Cell { x: 4, y: 1, z: 1 },
};

// The cells of a row at x = 0, 1 and 3, and two others.
const FIRST: Boxed = Boxed {
    at: ORIGIN,
    size: ONE,
};

const SECOND: Boxed = Boxed {
    at: Cell { x: 1, y: 0, z: 0 },
    size: ONE,
};

const FOURTH: Boxed = Boxed {
    at: Cell { x: 3, y: 0, z: 0 },
    size: ONE,
};

const CORNER: Boxed = Boxed {
    at: Cell { x: 1, y: 1, z: 0 },
    size: ONE,
};

const ABOVE: Boxed = Boxed {
    at: Cell { x: 0, y: 1, z: 0 },
    size: ONE,
};

const LAST: Boxed = Boxed {
    at: Cell { x: 7, y: 7, z: 7 },
    size: ONE,
};

const SOME: &[Boxed] = &[FIRST, SECOND, FOURTH];

// An empty world in a store with so many buckets a level, each for as many nodes.
pub(super) fn empty_world(alloc: Global, side: u32, room: u16) -> Result<StoredWorld, Fail> {
    let side = Side::new(side).ok_or("a side")?;
    let plan = Plan::even(side, room, room).ok_or("a plan")?;
    Ok(StoredWorld::empty(alloc, &plan)?)
}

// A stencil where none is stamped.
pub(super) fn any_stencil(alloc: Global) -> Option<Stencil> {
    let nothing = Drawing {
        size: [1, 1, 1],
        voxels: Vec::new(alloc),
    };
    nothing.stencil(alloc)
}

// Sets the cells of some boxes; whether that went.
fn fill(alloc: Global, world: &mut StoredWorld, boxes: &[Boxed]) -> bool {
    match any_stencil(alloc) {
        Some(stencil) => fill_beside(world, boxes, &stencil),
        None => false,
    }
}

fn fill_beside(world: &mut StoredWorld, boxes: &[Boxed], stencil: &Stencil) -> bool {
    for b in boxes {
        if world.edit(&Act::Fill(*b), stencil).is_err() {
            return false;
        }
    }
    true
}

// Whether a world of this side with the cells of some boxes gives this answer, and holds no share
// then.
fn has_answer(
    alloc: Global,
    side: u32,
    boxes: &[Boxed],
    question: &Question,
    answer: Found,
) -> Result<bool, Fail> {
    let mut world = empty_world(alloc, side, 16)?;
    Ok(fill(alloc, &mut world, boxes) && answers(&mut world, question, answer))
}

fn answers(world: &mut StoredWorld, question: &Question, answer: Found) -> bool {
    let found = world.ask(question);
    found == Some(answer) && world.held() == 0
}

// Sides, boxes that are set, a box, and how many of its cells are set. The largest world has 4,096
// cubed cells, and six sides of 4,096 squared.
const COUNTS: &[(u32, &[Boxed], Boxed, u64)] = &[
    (8, &[EIGHT], EIGHT, 512),
    (8, SOME, EIGHT, 3),
    (4096, &[MOST], MOST, 68_719_476_736),
];

const FACES: &[(u32, &[Boxed], Boxed, u64)] = &[
    (8, &[EIGHT], EIGHT, 384),
    (8, SOME, EIGHT, 16),
    (4096, &[MOST], MOST, 100_663_296),
];

const BOUNDS: &[(u32, &[Boxed], Option<Boxed>)] = &[
    (8, &[EIGHT], Some(EIGHT)),
    (8, &[], None),
    (8, SOME, Some(FOUR)),
    (4096, &[MOST], Some(MOST)),
];

const CELLS: &[(&[Boxed], Cell, bool)] = &[
    (&[], ORIGIN, false),
    (SOME, Cell { x: 2, y: 0, z: 0 }, false),
    (SOME, Cell { x: 3, y: 0, z: 0 }, true),
];

#[test]
fn boxes_have_so_many_cells(rt: HostRuntime) -> Result<(), Fail> {
    for &(side, boxes, b, number) in COUNTS {
        let answer = Found::Number(number);
        let same = has_answer(rt.alloc(), side, boxes, &Question::Count(b), answer)?;
        assert!(rt; same, "count at side {side}");
    }
    Ok(())
}

#[test]
fn boxes_have_so_many_faces(rt: HostRuntime) -> Result<(), Fail> {
    for &(side, boxes, b, number) in FACES {
        let answer = Found::Number(number);
        let same = has_answer(rt.alloc(), side, boxes, &Question::Faces(b), answer)?;
        assert!(rt; same, "faces at side {side}");
    }
    Ok(())
}

#[test]
fn worlds_have_these_bounds(rt: HostRuntime) -> Result<(), Fail> {
    for &(side, boxes, bounds) in BOUNDS {
        let answer = Found::Extent(bounds);
        let same = has_answer(rt.alloc(), side, boxes, &Question::Bounds, answer)?;
        assert!(rt; same, "bounds {bounds:?}");
    }
    Ok(())
}

#[test]
fn cells_are_set_or_not(rt: HostRuntime) -> Result<(), Fail> {
    for &(boxes, c, is_set) in CELLS {
        let answer = Found::Is(is_set);
        let same = has_answer(rt.alloc(), 8, boxes, &Question::Get(c), answer)?;
        assert!(rt; same, "{c:?}");
    }
    Ok(())
}

const MIDDLES: &[Cell] = &[
    Cell { x: 3, y: 3, z: 3 },
    Cell { x: 4, y: 4, z: 4 },
    Cell { x: 5, y: 6, z: 5 },
];

fn single(at: Cell) -> Boxed {
    Boxed { at, size: ONE }
}

// The cell beside this one in one of six directions. A place before the first is none of a
// world's.
fn beside(at: Cell, direction: u8) -> Cell {
    let Cell { x, y, z } = at;
    match direction {
        0 => Cell {
            x: x.wrapping_sub(1),
            y,
            z,
        },
        1 => Cell {
            x: x.wrapping_add(1),
            y,
            z,
        },
        2 => Cell {
            x,
            y: y.wrapping_sub(1),
            z,
        },
        3 => Cell {
            x,
            y: y.wrapping_add(1),
            z,
        },
        4 => Cell {
            x,
            y,
            z: z.wrapping_sub(1),
        },
        _ => Cell {
            x,
            y,
            z: z.wrapping_add(1),
        },
    }
}

// Whether the cell has five faces beside its neighbour in this direction.
fn is_covered(alloc: Global, at: Cell, direction: u8) -> Result<bool, Fail> {
    let middle = single(at);
    let boxes = [middle, single(beside(at, direction))];
    has_answer(alloc, 8, &boxes, &Question::Faces(middle), Found::Number(5))
}

// A cell has a face less where its neighbour on one side is set, in its own leaf or in the next.
#[test]
fn neighbours_cover_one_face_each(rt: HostRuntime) -> Result<(), Fail> {
    for &at in MIDDLES {
        for direction in 0..6u8 {
            let covered = is_covered(rt.alloc(), at, direction)?;
            assert!(rt; covered, "{at:?} {direction}");
        }
    }
    Ok(())
}

/// A ray in a world of side 8 with some cells set, and what it hits.
#[derive(Clone, Copy)]
struct Shot<'a> {
    boxes: &'a [Boxed],
    from: Cell,
    steps: [i16; 3],
    hit: Option<Cell>,
}

const SHOTS: &[Shot<'static>] = &[
    // It passes from (0, 0, 0) to (1, 1, 1) at one instant.
    Shot {
        boxes: &[SECOND],
        from: ORIGIN,
        steps: [1, 1, 1],
        hit: None,
    },
    // The cell is touched at one instant alone.
    Shot {
        boxes: &[CORNER],
        from: Cell { x: 0, y: 1, z: 0 },
        steps: [1, -1, 0],
        hit: Some(Cell { x: 1, y: 1, z: 0 }),
    },
    // It passes the side along y first, and is never in (1, 0, 0).
    Shot {
        boxes: &[SECOND],
        from: ORIGIN,
        steps: [1, 2, 0],
        hit: None,
    },
    Shot {
        boxes: &[SECOND, ABOVE, CORNER],
        from: ORIGIN,
        steps: [1, 2, 0],
        hit: Some(Cell { x: 0, y: 1, z: 0 }),
    },
    Shot {
        boxes: &[FIRST],
        from: ORIGIN,
        steps: [-1, 0, 0],
        hit: Some(ORIGIN),
    },
    Shot {
        boxes: &[FIRST],
        from: Cell { x: 7, y: 0, z: 0 },
        steps: [-1024, 0, 0],
        hit: Some(ORIGIN),
    },
    Shot {
        boxes: &[FIRST],
        from: Cell { x: 7, y: 0, z: 0 },
        steps: [1024, 0, 0],
        hit: None,
    },
    Shot {
        boxes: &[LAST],
        from: ORIGIN,
        steps: [1024, 1024, 1024],
        hit: Some(Cell { x: 7, y: 7, z: 7 }),
    },
    Shot {
        boxes: &[LAST],
        from: ORIGIN,
        steps: [1024, 1024, 0],
        hit: None,
    },
];

fn hits(alloc: Global, shot: &Shot<'_>) -> Result<bool, Fail> {
    let [dx, dy, dz] = shot.steps;
    let way = Way::new(dx, dy, dz).ok_or("a way")?;
    let question = Question::Ray(shot.from, way);
    has_answer(alloc, 8, shot.boxes, &question, Found::Hit(shot.hit))
}

#[test]
fn rays_hit_these_cells(rt: HostRuntime) -> Result<(), Fail> {
    for shot in SHOTS {
        assert!(rt; hits(rt.alloc(), shot)?, "{:?} {:?}", shot.from, shot.steps);
    }
    Ok(())
}

const LISTED: &[Boxed] = &[
    Boxed {
        at: Cell { x: 3, y: 3, z: 3 },
        size: ONE,
    },
    Boxed {
        at: Cell { x: 3, y: 4, z: 3 },
        size: ONE,
    },
    Boxed {
        at: Cell { x: 4, y: 3, z: 3 },
        size: ONE,
    },
    Boxed {
        at: Cell { x: 3, y: 3, z: 4 },
        size: ONE,
    },
];

const PART: Boxed = Boxed {
    at: Cell { x: 2, y: 3, z: 1 },
    size: Cell { x: 6, y: 5, z: 7 },
};

// The places of set cells of a box, by rising z, then y, then x, from the box's corner on.
const LISTS: &[(Boxed, &[[u8; 3]])] = &[
    (
        Boxed {
            at: Cell { x: 3, y: 3, z: 3 },
            size: ONE,
        },
        &[[0, 0, 0]],
    ),
    (FIRST, &[]),
    (PART, &[[1, 0, 2], [2, 0, 2], [1, 1, 2], [1, 0, 3]]),
];

fn are_at(voxels: &[Voxel], places: &[[u8; 3]]) -> bool {
    if voxels.len() != places.len() {
        return false;
    }
    for (voxel, place) in voxels.iter().zip(places) {
        let &[x, y, z] = place;
        if *voxel != (Voxel { x, y, z, colour: 1 }) {
            return false;
        }
    }
    true
}

// Whether the list of the box has these places.
fn lists(alloc: Global, world: &mut StoredWorld, b: Boxed, places: &[[u8; 3]]) -> bool {
    let mut voxels: Vec<Voxel> = Vec::new(alloc);
    world.cells(b, &mut voxels) && are_at(voxels.as_slice(), places)
}

#[test]
fn cells_are_listed_in_order(rt: HostRuntime) -> Result<(), Fail> {
    let mut world = empty_world(rt.alloc(), 8, 16)?;
    assert!(rt; fill(rt.alloc(), &mut world, LISTED));
    for &(b, places) in LISTS {
        assert!(rt; lists(rt.alloc(), &mut world, b, places), "{b:?}");
    }
    Ok(())
}
