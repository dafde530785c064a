use crate::plans::{no_models, plan_of};
use crate::table_tests::is_same;
use history_model::Act;
use interleave::{Ran, run_events};
use node_words::Name;
use std::alloc::Global;
use std::test::Fail;
use vox_read::Models;
use vw_cell::{Boxed, Cell};
use world_core::{Event, Reply};

/// The leaves of the first and of the second cell, and the nodes over them.
const LEAF: Name = Name {
    level: 0,
    bucket: 0,
    slot: 0,
};

const OTHER_LEAF: Name = Name {
    level: 0,
    bucket: 0,
    slot: 1,
};

const NODE: Name = Name {
    level: 1,
    bucket: 0,
    slot: 0,
};

const OTHER_NODE: Name = Name {
    level: 1,
    bucket: 0,
    slot: 1,
};

/// A node with one child, in its first octant.
const OVER: [Option<Name>; 8] = [Some(LEAF), None, None, None, None, None, None, None];

const OVER_OTHER: [Option<Name>; 8] = [Some(OTHER_LEAF), None, None, None, None, None, None, None];

const FIRST: Boxed = Boxed {
    at: Cell { x: 0, y: 0, z: 0 },
    size: Cell { x: 1, y: 1, z: 1 },
};

const SECOND: Boxed = Boxed {
    at: Cell { x: 1, y: 0, z: 0 },
    size: Cell { x: 1, y: 1, z: 1 },
};

/// What session 0 does for the lines `undo`, `fill 0 0 0 1 1 1`, `undo`, `fill 1 0 0 1 1 1`,
/// `redo`, `undo` and a count, in a world of eight leaves.
const EVENTS: [Event; 11] = [
    Event::Append(0, 1, Act::Undo, 0, None),
    Event::Leaf(0, 1),
    Event::Node(0, 1, OVER),
    Event::Append(0, 2, Act::Fill(FIRST), 0, Some(NODE)),
    Event::Append(0, 3, Act::Undo, 1, None),
    Event::Leaf(0, 2),
    Event::Node(0, 1, OVER_OTHER),
    Event::Append(0, 4, Act::Fill(SECOND), 2, Some(OTHER_NODE)),
    Event::Append(0, 5, Act::Redo, 3, None),
    Event::Append(0, 6, Act::Undo, 3, None),
    Event::Pin(0, None),
];

/// Nothing is there to undo or redo where the core says so; the last version has no cell.
const WANTED: [Reply; 11] = [
    Reply::Unlawful,
    Reply::Held(LEAF),
    Reply::Held(NODE),
    Reply::Appended(1),
    Reply::Appended(2),
    Reply::Held(OTHER_LEAF),
    Reply::Held(OTHER_NODE),
    Reply::Appended(3),
    Reply::Unlawful,
    Reply::Appended(4),
    Reply::Pinned(4, 4, None),
];

fn are_same(replies: &[Reply], wanted: &[Reply]) -> bool {
    if replies.len() != wanted.len() {
        return false;
    }
    for (reply, want) in replies.iter().zip(wanted) {
        if !is_same(reply, want) {
            return false;
        }
    }
    true
}

// The core after the events, with two slots in a bucket.
fn ran(alloc: Global, models: &Models) -> Result<Ran<'_>, Fail> {
    let plan = plan_of(8, 1, 2)?;
    let events = EVENTS;
    Ok(run_events(alloc, &plan, models, 2, &events)?)
}

// The core goes on afterwards, and has the version that was undone.
#[test]
fn the_events_of_a_script_have_their_replies(rt: HostRuntime) -> Result<(), Fail> {
    let models = no_models(rt.alloc());
    let Ran { mut core, replies } = ran(rt.alloc(), &models)?;
    let replies = replies.as_slice();
    let wanted = WANTED;
    assert!(rt;
        are_same(replies, &wanted),
        "{replies:?}, wanted are {wanted:?}"
    );
    let kept = core.apply(rt.alloc(), &Event::Pin(1, Some(3)))?;
    let want = Reply::Pinned(3, 4, Some(OTHER_NODE));
    assert!(rt; is_same(&kept, &want), "{kept:?}, wanted is {want:?}");
    Ok(())
}
