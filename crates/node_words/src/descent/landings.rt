ghost use Rattle.std.specs.Prelude.{◌≡◌, ◌-◌, ◌/◌, ◌%◌, ◌<◌, ◌≤◌, ℕ, Some, IsSome};
ghost use Rattle.vw_cell.specs.Places.{block_side, IsInWorld};
ghost use Rattle.node_words.specs.shapes.Tree.{Tree};
ghost use Rattle.node_words.specs.descent.Roots.{HasBlock, IsBlockOf};
ghost use Rattle.node_words.specs.descent.Parts.{placed};
ghost use Rattle.node_words.specs.descent.Landings.{IsAtMost, LandsAt, inner_place};

use crate::Blocks;
use crate::descent::blocks::{half_side, octant_name};
use crate::descent::looks::whole_block;
use crate::shapes::Name;
use vw_cell::Cell;

/// Where a way down to a cell stands: a block, and the cell's place in it.
#[derive(Clone, Copy)]
pub struct Landing {
    pub level: u8,
    pub block: Option<Name>,
    pub inner: Cell,
}

/// The way down to a cell of a block, to its leaf or to the first block in which nothing stands.
pub fn descend<B: Blocks>(store: &mut B, level: u8, block: Option<Name>, c: Cell) -> Landing
    requires level { level ≤ 10 }
    requires block { HasBlock (B.seen store.old).held level block }
    requires cell { IsInWorld (block_side level) c }
    ensures level { result.level ≤ level }
    ensures inner { IsInWorld (block_side result.level) result.inner }
    ensures within { IsAtMost result.inner c }
    ensures lands { (t : Tree) → IsBlockOf (B.seen store.old).held level block t
        → LandsAt (B.seen store.old).held level c result t }
    ensures last { IsSome result.block → result.level ≡ 0 }
    ensures block { HasBlock (B.seen store.old).held result.level result.block }
    ensures seen { B.seen store.new ≡ B.seen store.old }
    ensures rests { B.rests store.old store.new }
{
    match block {
        Some(n) => go_down(store, level, n, c),
        None => Landing {
            level,
            block: None,
            inner: c,
        },
    }
}

// The same from a node. Bucket and slot of the node that it stands at are kept apart: put together
// as a name from one turn to the next, they would be taken apart again before each read.
fn go_down<B: Blocks>(store: &mut B, level: u8, n: Name, c: Cell) -> Landing
    requires level { level ≤ 10 }
    requires block { HasBlock (B.seen store.old).held level (Some n) }
    requires cell { IsInWorld (block_side level) c }
    ensures level { result.level ≤ level }
    ensures inner { IsInWorld (block_side result.level) result.inner }
    ensures within { IsAtMost result.inner c }
    ensures lands { (t : Tree) → IsBlockOf (B.seen store.old).held level (Some n) t
        → LandsAt (B.seen store.old).held level c result t }
    ensures last { IsSome result.block → result.level ≡ 0 }
    ensures block { HasBlock (B.seen store.old).held result.level result.block }
    ensures seen { B.seen store.new ≡ B.seen store.old }
    ensures rests { B.rests store.old store.new }
{
    let mut at = level;
    let mut bucket = n.bucket;
    let mut slot = n.slot;
    while at > 0 {
        let name = Name {
            bucket,
            level: at,
            slot,
        };
        let octant = octant_of(at, c);
        let child = octant_name(store, at, Some(name), octant);
        at -= 1;
        match child {
            Some(m) => {
                bucket = m.bucket;
                slot = m.slot;
            }
            None => {
                return Landing {
                    level: at,
                    block: None,
                    inner: place_in(at, c),
                };
            }
        }
    }
    let name = Name {
        bucket,
        level: 0,
        slot,
    };
    Landing {
        level: 0,
        block: Some(name),
        inner: place_in(0, c),
    }
}

// The octant that has the cell, of each block of this level in a grid of such blocks.
fn octant_of(level: u8, c: Cell) -> u8
    requires level { (1 ≤ level) × (level ≤ 10) }
    ensures octant { result < 8 }
    ensures place { inner_place level c ≡
        placed (block_side (level - 1)) result (inner_place (level - 1) c) }
{
    let half = half_side(level);
    let x = upper(c.x, half);
    let y = upper(c.y, half);
    let z = upper(c.z, half);
    x + 2 * y + 4 * z
}

// Whether the place lies in the upper half of twice so many places.
fn upper(place: u16, half: u16) -> u8
    requires half { 1 ≤ half }
    ensures upper { result ≡ place / half % 2 }
    ensures below { result < 2 }
{
    (place / half % 2) as u8
}

// The place of the cell in its block of this level.
fn place_in(level: u8, c: Cell) -> Cell
    requires level { level ≤ 10 }
    ensures { result ≡ inner_place level c }
{
    let side = whole_block(level).size.x;
    Cell {
        x: c.x % side,
        y: c.y % side,
        z: c.z % side,
    }
}
