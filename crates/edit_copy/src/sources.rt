ghost use Rattle.std.specs.Prelude.{◌≡◌, ◌+◌, ◌-◌, ◌*◌, ◌/◌, ◌%◌, ◌<◌, ◌≤◌, ◌^◌, ◌↔◌, ℕ, None, IsTrue, true, slice_index, length};
ghost use Rattle.vw_cell.specs.Counts.{cell_at};
ghost use Rattle.node_words.specs.shapes.Shape.{bits_of};
ghost use Rattle.node_words.specs.shapes.Tree.{shape_of};
ghost use Rattle.node_words.specs.Held.{name_in};
ghost use Rattle.node_words.specs.descent.Roots.{IsBlockOf};
ghost use Rattle.edit_copy.specs.Copies.{begin_of, rest_of, source_from, source_octant, source_of, is_unread, IsOffset, IsSource, IsBegin, HoldsBlocks, ForBlocks};

use edit_walk::side_of;
use node_words::{Blocks, Name, leaf_bits, octant_name, same_names};
use vw_cell::Cell;

// Where the sources of an octant begin, in blocks of its size, and the offset in the first of them.
#[derive(Clone, Copy)]
pub(crate) struct Step {
    pub(crate) at: Cell,
    pub(crate) rest: Cell,
}

// The step on each axis, for an octant of this level.
#[tactic(auto, using(crate::proofs::StepLaws::side_twice))]
pub(crate) fn step_to(offset: Cell, level: u8, octant: u8) -> Step
    requires level { level ≤ 9 }
    requires octant { octant < 8 }
    requires offset { IsOffset (level + 1) offset }
    ensures at { result.at ≡ begin_of level octant offset }
    ensures rest { result.rest ≡ rest_of level octant offset }
{
    let side = side_of(level);
    let x = axis_step(side, octant % 2, offset.x);
    let y = axis_step(side, octant / 2 % 2, offset.y);
    let z = axis_step(side, octant / 4 % 2, offset.z);
    Step {
        at: Cell {
            x: x.at,
            y: y.at,
            z: z.at,
        },
        rest: Cell {
            x: x.rest,
            y: y.rest,
            z: z.rest,
        },
    }
}

// On one axis, in which block of an octant's size a place lies, and where in it.
#[derive(Clone, Copy)]
struct AxisStep {
    at: u16,
    rest: u16,
}

// Where the lower or the upper half begins, moved by an offset. It divides by nothing, since a walk
// asks this thrice an octant.
#[tactic(auto, using(crate::proofs::StepLaws::step_near, crate::proofs::StepLaws::step_far))]
fn axis_step(side: u32, half: u8, offset: u16) -> AxisStep
    requires half { half < 2 }
    requires offset { offset < 2 * side }
    ensures at { result.at ≡ (half * side + offset) / side }
    ensures rest { result.rest ≡ (half * side + offset) % side }
{
    let place = u32::from(offset);
    if place < side {
        let at = u16::from(half);
        return AxisStep { at, rest: offset };
    }
    let at = u16::from(half) + 1;
    let rest = (place - side) as u16;
    AxisStep { at, rest }
}

// Whether no cell is taken from source j: it is the farther one on an axis on which the offset is
// 0.
fn unread(offset: Cell, j: u8) -> bool
    requires { j < 8 }
    ensures { result ≡ is_unread offset j }
{
    is_far(j % 2, offset.x) || is_far(j / 2 % 2, offset.y) || is_far(j / 4 % 2, offset.z)
}

fn is_far(half: u8, offset: u16) -> bool
    ensures { result ≡ is_unread_on half offset }
{
    half == 1 && offset == 0
}

ghost use Rattle.edit_copy.specs.Copies.{is_unread_on};

// Source j of the octant whose sources begin here, from this offset on.
#[inline(always)]
fn source_in<B: Blocks>(
    store: &mut B,
    level: u8,
    sources: &[Option<Name>; 8],
    at: Cell,
    offset: Cell,
    j: u8,
) -> Option<Name>
    requires level { 1 ≤ level }
    requires at { IsBegin at }
    requires source { j < 8 }
    requires sources { HoldsBlocks (B.seen store.old).held level sources.now }
    ensures source { ForBlocks (B.seen store.old).held level sources.now
        (λ row. IsSource (B.seen store.old).held (level - 1) row at offset j result) }
    ensures seen { B.seen store.new ≡ B.seen store.old }
    ensures rests { B.rests store.old store.new }
{
    if unread(offset, j) {
        return None;
    }
    let x = at.x + u16::from(j % 2);
    let y = at.y + u16::from(j / 2 % 2);
    let z = at.z + u16::from(j / 4 % 2);
    let from = usize::from(x / 2 + 2 * (y / 2) + 4 * (z / 2));
    let octant = (x % 2 + 2 * (y % 2) + 4 * (z % 2)) as u8;
    let source = sources[from];
    octant_name(store, level, source, octant)
}

// The eight sources of the octant whose sources begin here, from this offset on.
pub(crate) fn sources_in<B: Blocks>(
    store: &mut B,
    level: u8,
    sources: &[Option<Name>; 8],
    at: Cell,
    offset: Cell,
) -> [Option<Name>; 8]
    requires level { 1 ≤ level }
    requires at { IsBegin at }
    requires sources { HoldsBlocks (B.seen store.old).held level sources.now }
    ensures sources { ForBlocks (B.seen store.old).held level sources.now
        (λ row. (j : ℕ) → j < 8
        → IsSource (B.seen store.old).held (level - 1) row at offset j (name_in result j)) }
    ensures seen { B.seen store.new ≡ B.seen store.old }
    ensures rests { B.rests store.old store.new }
{
    [
        source_in(store, level, sources, at, offset, 0),
        source_in(store, level, sources, at, offset, 1),
        source_in(store, level, sources, at, offset, 2),
        source_in(store, level, sources, at, offset, 3),
        source_in(store, level, sources, at, offset, 4),
        source_in(store, level, sources, at, offset, 5),
        source_in(store, level, sources, at, offset, 6),
        source_in(store, level, sources, at, offset, 7),
    ]
}

// The bits of eight leaves, or of none.
pub(crate) fn leaves_in<B: Blocks>(store: &mut B, sources: &[Option<Name>; 8]) -> [u64; 8]
    requires sources { HoldsBlocks (B.seen store.old).held 0 sources.now }
    ensures leaves { ForBlocks (B.seen store.old).held 0 sources.now
        (λ row. (j : ℕ) → j < 8 → slice_index result j ≡ bits_of (shape_of (row j))) }
    ensures seen { B.seen store.new ≡ B.seen store.old }
    ensures rests { B.rests store.old store.new }
{
    let mut leaves: [u64; 8] = [0; 8];
    for j in 0..8usize {
        let source = sources[j];
        let bits = leaf_bits(store, source);
        leaves[j] = bits;
    }
    leaves
}

// Whether none of the eight is a block with a set cell.
pub(crate) fn are_none(sources: &[Option<Name>; 8]) -> bool
    ensures { IsTrue result → (j : ℕ) → j < 8 → name_in sources.now j ≡ None }
{
    for j in 0..8usize {
        if sources[j].is_some() {
            return false;
        }
    }
    true
}

pub(crate) fn same_sources(a: &[Option<Name>; 8], b: &[Option<Name>; 8]) -> bool
    ensures { IsTrue result → (j : ℕ) → j < 8 → name_in a.now j ≡ name_in b.now j }
{
    for j in 0..8usize {
        if !same_names(a[j], b[j]) {
            return false;
        }
    }
    true
}
