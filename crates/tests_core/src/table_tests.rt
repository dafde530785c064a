use crate::plans::{no_models, plan_of};
use history_model::{Act, Mark};
use node_words::{Full, Name};
use std::alloc::{AllocError, Global};
use std::test::Fail;
use vox_read::{Model, Models, Voxel};
use vw_cell::{Boxed, Cell, Memory};
use world_core::{Core, Event, Reply};

/// Whether both replies are one.
pub fn is_same(a: &Reply, b: &Reply) -> bool {
    match (a, b) {
        (Reply::Held(a), Reply::Held(b)) => *a == *b,
        (Reply::Full(a), Reply::Full(b)) => *a == *b,
        (Reply::Left, Reply::Left) => true,
        (Reply::Freed(a), Reply::Freed(b)) => *a == *b,
        (Reply::Pinned(v, at, root), Reply::Pinned(w, to, other)) => {
            *v == *w && *at == *to && *root == *other
        }
        (Reply::NoVersion(a), Reply::NoVersion(b)) => *a == *b,
        (Reply::Forgotten(at, a), Reply::Forgotten(to, b)) => *at == *to && *a == *b,
        (Reply::Appended(a), Reply::Appended(b)) => *a == *b,
        (Reply::LogFull, Reply::LogFull) => true,
        (Reply::Stale(a), Reply::Stale(b)) => *a == *b,
        (Reply::Forgot(at, a), Reply::Forgot(to, b)) => *at == *to && *a == *b,
        (Reply::IsHead(a), Reply::IsHead(b)) => *a == *b,
        (Reply::Unlawful, Reply::Unlawful) => true,
        _ => false,
    }
}

const A: Name = Name {
    level: 0,
    bucket: 0,
    slot: 0,
};

const B: Name = Name {
    level: 1,
    bucket: 0,
    slot: 0,
};

/// The box of the first cell.
const ONE: Boxed = Boxed {
    at: Cell { x: 0, y: 0, z: 0 },
    size: Cell { x: 1, y: 1, z: 1 },
};

const FULL: Full = Full {
    level: 0,
    bucket: 0,
};

const MARK: Mark = Mark {
    version: 1,
    at: 4,
    session: 1,
    line: 7,
};

/// A leaf of session 0 that comes, keeps the next out, and goes, in such a world. Before anything
/// is appended there is nothing to undo.
const ONE_LEAF: [(Event, Reply); 5] = [
    (Event::Leaf(0, 1), Reply::Held(A)),
    (Event::Leaf(0, 2), Reply::Full(FULL)),
    (Event::Lower(0, A), Reply::Freed([None; 8])),
    (Event::Lower(0, A), Reply::Unlawful),
    (Event::Append(0, 1, Act::Undo, 0, None), Reply::Unlawful),
];

/// Events of a world of one leaf, and a bucket of one slot, with their replies: the leaf and its
/// shares, then versions, then what is forgotten.
const SMALL: [(Event, Reply); 36] = [
    (Event::Leaf(0, 1), Reply::Held(A)),
    (Event::Leaf(0, 2), Reply::Full(FULL)),
    (Event::Leaf(0, 0), Reply::Unlawful),
    (Event::Leaf(2, 1), Reply::Unlawful),
    (Event::Leaf(1, 1), Reply::Held(A)),
    (Event::Raise(0, A), Reply::Held(A)),
    (Event::Lower(0, A), Reply::Left),
    (Event::Lower(1, A), Reply::Left),
    (Event::Lower(1, A), Reply::Unlawful),
    (Event::Raise(1, A), Reply::Unlawful),
    (Event::Append(0, 1, Act::Undo, 0, None), Reply::Unlawful),
    (
        Event::Append(0, 2, Act::Fill(ONE), 0, Some(A)),
        Reply::Appended(1),
    ),
    (Event::Lower(0, A), Reply::Unlawful),
    (
        Event::Append(1, 3, Act::Fill(ONE), 0, None),
        Reply::Stale(1),
    ),
    (
        Event::Append(1, 3, Act::Fill(ONE), 2, None),
        Reply::Unlawful,
    ),
    (
        Event::Append(1, 3, Act::Fill(ONE), 1, None),
        Reply::Unlawful,
    ),
    (
        Event::Append(1, 3, Act::Erase(ONE), 1, None),
        Reply::Appended(2),
    ),
    (Event::Pin(1, Some(1)), Reply::Pinned(1, 2, Some(A))),
    (Event::Pin(1, None), Reply::Pinned(2, 2, None)),
    (Event::Pin(1, Some(3)), Reply::NoVersion(2)),
    (Event::Pin(2, None), Reply::Unlawful),
    (Event::Append(1, 5, Act::Undo, 2, None), Reply::Unlawful),
    (
        Event::Append(1, 5, Act::Undo, 2, Some(A)),
        Reply::Appended(3),
    ),
    (Event::Append(1, 6, Act::Redo, 3, None), Reply::Appended(4)),
    (Event::Forget(1, 7, 1), Reply::Forgot(4, Some(A))),
    (Event::Forget(1, 8, 1), Reply::Forgotten(4, MARK)),
    (Event::Forget(1, 8, 4), Reply::IsHead(4)),
    (Event::Forget(1, 8, 5), Reply::NoVersion(4)),
    (Event::Forget(2, 8, 0), Reply::Unlawful),
    (Event::Pin(0, Some(1)), Reply::Forgotten(4, MARK)),
    (Event::Append(1, 9, Act::Undo, 4, Some(A)), Reply::Unlawful),
    (Event::Lower(1, A), Reply::Left),
    (Event::Forget(1, 10, 3), Reply::Forgot(4, Some(A))),
    (Event::Lower(1, A), Reply::Freed([None; 8])),
    (Event::Lower(1, A), Reply::Unlawful),
    (Event::Leaf(1, 2), Reply::Held(A)),
];

const FIRST: [Option<Name>; 8] = [Some(A), None, None, None, None, None, None, None];

const SECOND: [Option<Name>; 8] = [None, Some(A), None, None, None, None, None, None];

const FULL_ABOVE: Full = Full {
    level: 1,
    bucket: 0,
};

/// Events of a world of eight leaves, and buckets of one slot, with their replies.
const NODES: [(Event, Reply); 19] = [
    (Event::Leaf(0, 1), Reply::Held(A)),
    (Event::Node(0, 1, [None; 8]), Reply::Unlawful),
    (Event::Node(0, 2, FIRST), Reply::Unlawful),
    (Event::Node(1, 1, FIRST), Reply::Unlawful),
    (Event::Node(0, 1, FIRST), Reply::Held(B)),
    (Event::Node(0, 1, FIRST), Reply::Unlawful),
    (Event::Leaf(0, 1), Reply::Held(A)),
    (Event::Node(0, 1, FIRST), Reply::Held(B)),
    (Event::Node(0, 1, SECOND), Reply::Full(FULL_ABOVE)),
    (Event::Lower(0, A), Reply::Left),
    (Event::Raise(0, A), Reply::Held(A)),
    (Event::Raise(1, A), Reply::Unlawful),
    (Event::Raise(0, B), Reply::Held(B)),
    (Event::Raise(2, B), Reply::Unlawful),
    (Event::Lower(0, B), Reply::Left),
    (Event::Lower(0, B), Reply::Left),
    (Event::Lower(0, B), Reply::Freed(FIRST)),
    (Event::Lower(0, A), Reply::Left),
    (Event::Lower(0, A), Reply::Freed([None; 8])),
];

// One model of two cells, of which the second has no colour.
fn two_cells(alloc: Global) -> Result<Models, AllocError> {
    let mut voxels: Vec<Voxel> = Vec::new(alloc);
    for (x, colour) in [(0u8, 3u8), (1, 0)] {
        voxels.push(Voxel {
            x,
            y: 0,
            z: 0,
            colour,
        })?;
    }
    let size = Cell { x: 2, y: 1, z: 1 };
    let mut list: Vec<Model> = Vec::new(alloc);
    list.push(Model { size, voxels })?;
    Ok(Models { list })
}

const OTHER: Name = Name {
    level: 0,
    bucket: 0,
    slot: 1,
};

const AT: Cell = Cell { x: 1, y: 2, z: 3 };

const EDGE: Cell = Cell { x: 3, y: 2, z: 3 };

/// Events of a world of one leaf, where the cell (1, 2, 3) is bit 57, with their replies.
const STAMPS: [(Event, Reply); 11] = [
    (Event::Leaf(0, 1 << 57), Reply::Held(A)),
    (Event::Leaf(0, 3 << 57), Reply::Held(OTHER)),
    (
        Event::Append(0, 1, Act::Stamp(0, AT), 0, None),
        Reply::Unlawful,
    ),
    (
        Event::Append(0, 1, Act::Stamp(0, AT), 0, Some(OTHER)),
        Reply::Unlawful,
    ),
    (
        Event::Append(0, 1, Act::Stamp(1, AT), 0, Some(A)),
        Reply::Unlawful,
    ),
    (
        Event::Append(0, 1, Act::Stamp(0, EDGE), 0, Some(A)),
        Reply::Unlawful,
    ),
    (
        Event::Append(0, 1, Act::Stamp(0, AT), 0, Some(A)),
        Reply::Appended(1),
    ),
    (Event::Pin(1, None), Reply::Pinned(1, 1, Some(A))),
    (
        Event::Append(1, 2, Act::Stamp(0, AT), 1, Some(A)),
        Reply::Appended(2),
    ),
    (Event::Pin(0, Some(0)), Reply::Pinned(0, 2, None)),
    (Event::Pin(0, Some(2)), Reply::Pinned(2, 2, Some(A))),
];

// The number of the first event that has another reply, where there is one.
fn first_wrong(
    core: &mut Core,
    alloc: Global,
    rows: &[(Event, Reply)],
) -> Result<Option<usize>, Memory> {
    for (index, (event, reply)) in rows.iter().enumerate() {
        let answer = core.apply(alloc, event)?;
        if !is_same(&answer, reply) {
            return Ok(Some(index));
        }
    }
    Ok(None)
}

// The same of two sessions of a new core, which has a bucket of so many slots on each level.
fn first_wrong_of(
    alloc: Global,
    side: u32,
    cap: u16,
    models: &Models,
    rows: &[(Event, Reply)],
) -> Result<Option<usize>, Fail> {
    let plan = plan_of(side, 1, cap)?;
    let mut core = Core::begin(alloc, &plan, models, 2)?;
    Ok(first_wrong(&mut core, alloc, rows)?)
}

fn wrong_of_one_leaf(alloc: Global, models: &Models) -> Result<Option<usize>, Fail> {
    let rows = ONE_LEAF;
    first_wrong_of(alloc, 4, 1, models, &rows)
}

#[test]
fn a_leaf_of_the_smallest_core_comes_and_goes(rt: HostRuntime) -> Result<(), Fail> {
    let models = no_models(rt.alloc());
    assert_eq!(rt; wrong_of_one_leaf(rt.alloc(), &models)?, None);
    Ok(())
}

fn wrong_of_small(alloc: Global, models: &Models) -> Result<Option<usize>, Fail> {
    let rows = SMALL;
    first_wrong_of(alloc, 4, 1, models, &rows)
}

// A world of one leaf, and a bucket of one slot.
#[test]
fn the_smallest_core_answers_by_its_table(rt: HostRuntime) -> Result<(), Fail> {
    let models = no_models(rt.alloc());
    assert_eq!(rt; wrong_of_small(rt.alloc(), &models)?, None);
    Ok(())
}

fn wrong_of_nodes(alloc: Global, models: &Models) -> Result<Option<usize>, Fail> {
    let rows = NODES;
    first_wrong_of(alloc, 8, 1, models, &rows)
}

// A world of eight leaves, and buckets of one slot.
#[test]
fn nodes_are_answered_by_the_table(rt: HostRuntime) -> Result<(), Fail> {
    let models = no_models(rt.alloc());
    assert_eq!(rt; wrong_of_nodes(rt.alloc(), &models)?, None);
    Ok(())
}

fn wrong_of_stamps(alloc: Global, models: &Models) -> Result<Option<usize>, Fail> {
    let rows = STAMPS;
    first_wrong_of(alloc, 4, 2, models, &rows)
}

// A world of one leaf, where the cell (1, 2, 3) is bit 57.
#[test]
fn a_stamp_makes_the_cells_of_its_model(rt: HostRuntime) -> Result<(), Fail> {
    let models = two_cells(rt.alloc())?;
    assert_eq!(rt; wrong_of_stamps(rt.alloc(), &models)?, None);
    Ok(())
}

// How many of 65,535 acts one after another became records.
fn appended(core: &mut Core, alloc: Global, act: Act) -> Result<u32, Memory> {
    let mut appended: u32 = 0;
    for version in 0..65_535u32 {
        let answer = core.apply(alloc, &Event::Append(0, 1, act, version, None))?;
        if is_same(&answer, &Reply::Appended(version + 1)) {
            appended = appended.saturating_add(1);
        }
    }
    Ok(appended)
}

/// Events of a world of one leaf with 65,535 records, and their replies.
const LAST: [(Event, Reply); 5] = [
    (
        Event::Append(0, 2, Act::Erase(ONE), 65_535, None),
        Reply::LogFull,
    ),
    (
        Event::Append(0, 2, Act::Erase(ONE), 7, None),
        Reply::LogFull,
    ),
    (
        Event::Append(0, 2, Act::Erase(ONE), 65_536, None),
        Reply::Unlawful,
    ),
    (Event::Pin(0, None), Reply::Pinned(65_535, 65_535, None)),
    (Event::Forget(0, 3, 65_535), Reply::IsHead(65_535)),
];

fn wrong_at_last(core: &mut Core, alloc: Global) -> Result<Option<usize>, Memory> {
    let rows = LAST;
    first_wrong(core, alloc, &rows)
}

// How many records a new core takes, and the first event then that has another reply.
fn filled_log(alloc: Global, models: &Models) -> Result<(u32, Option<usize>), Fail> {
    let plan = plan_of(4, 1, 1)?;
    let mut core = Core::begin(alloc, &plan, models, 1)?;
    let number = appended(&mut core, alloc, Act::Erase(ONE))?;
    Ok((number, wrong_at_last(&mut core, alloc)?))
}

// A world of one leaf, in which nothing is erased as often as there is room.
#[test]
fn a_log_has_room_for_so_many_records(rt: HostRuntime) -> Result<(), Fail> {
    let models = no_models(rt.alloc());
    assert_eq!(rt; filled_log(rt.alloc(), &models)?, (65_535, None));
    Ok(())
}
