//! One ball in a store with one bucket a level, for each number of nodes that a bucket may have.

use crate::edited::{number_of_cells, stencil_of, world_of};
use edit_stamp::Stencil;
use history_model::Act;
use std::alloc::Global;
use testkit::{Refusal, StoredWorld};
use vw_cell::{Ball, Boxed, Cell};

/// The last cell of a world of side 16, which stands in the store before.
const LAST: Act = Act::Fill(Boxed {
    at: Cell {
        x: 15,
        y: 15,
        z: 15,
    },
    size: Cell { x: 1, y: 1, z: 1 },
});

/// A ball of 123 cells over 27 leaves, ten of them different, under seven different nodes.
const BALL: Act = Act::Ball(Ball {
    centre: Cell { x: 6, y: 6, z: 6 },
    radius: 3,
});

/// How many leaves the ball and the cell have, which is how many a bucket has to have room for.
const LEAVES: u16 = 11;

/// How many shares are held, how many nodes of each level are live, and how many cells are set.
#[derive(Clone, Copy, Debug, PartialEq, Eq)]
struct Holds {
    shares: u32,
    live: [u32; 3],
    cells: Option<u64>,
}

const BEFORE: Holds = Holds {
    shares: 0,
    live: [1, 1, 1],
    cells: Some(1),
};

const BEHIND: Holds = Holds {
    shares: 0,
    live: [11, 8, 1],
    cells: Some(124),
};

/// What came of the ball, and what the store holds then.
#[derive(Clone, Copy, Debug, PartialEq, Eq)]
enum Came {
    Done(Holds),
    Full(Holds),
    Unfit,
}

fn state(world: &mut StoredWorld) -> Holds {
    let cells = number_of_cells(world);
    Holds {
        shares: world.held(),
        live: [world.live(0), world.live(1), world.live(2)],
        cells,
    }
}

fn edited(world: &mut StoredWorld, act: &Act, stencil: &Stencil) -> Came {
    match world.edit(act, stencil) {
        Ok(()) => Came::Done(state(world)),
        Err(Refusal::Full(_)) => Came::Full(state(world)),
        Err(Refusal::Unfit) => Came::Unfit,
    }
}

// What the cell and then the ball leave in a store with buckets of so many nodes.
fn results(alloc: Global, cap: u16, stencil: &Stencil) -> Option<(Came, Came)> {
    match world_of(alloc, 16, 1, cap) {
        Some(mut world) => {
            let first = edited(&mut world, &LAST, stencil);
            let second = edited(&mut world, &BALL, stencil);
            Some((first, second))
        }
        None => None,
    }
}

// The same with a stencil where none is stamped.
fn came_at(alloc: Global, cap: u16) -> Option<(Came, Came)> {
    match stencil_of(alloc, [1, 1, 1], &[]) {
        Some(stencil) => results(alloc, cap, &stencil),
        None => None,
    }
}

// What has to come: where one leaf has no room, all is as it was before the ball.
fn wanted(cap: u16) -> (Came, Came) {
    let second = if cap < LEAVES {
        Came::Full(BEFORE)
    } else {
        Came::Done(BEHIND)
    };
    (Came::Done(BEFORE), second)
}

#[test]
fn a_ball_that_meets_a_full_bucket_leaves_the_store_as_it_was(rt: HostRuntime) {
    for cap in 1..=32u16 {
        assert_eq!(rt; came_at(rt.alloc(), cap), Some(wanted(cap)), "cap {cap}");
    }
}
