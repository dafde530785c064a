//! Where the tints that two roots keep differ.
ghost use Rattle.std.specs.Prelude.{◌≡◌, ℕ, ◌+◌, ◌-◌, ◌^◌, ◌<◌, ◌≤◌, option_copied};
ghost use Rattle.vw_cell.specs.Extents.{IsExtent};
ghost use Rattle.node_words.specs.shapes.Tree.{child_of};
ghost use Rattle.node_words.specs.descent.Parts.{EndsBy};
ghost use Rattle.node_words.specs.descent.Roots.{HoldsRoot, ForWorld, IsBlockOf};
ghost use Rattle.measure.specs.Changes.{differs};
ghost use Rattle.measure.specs.Widening.{EndsInside};
ghost use Rattle.core_laws.specs.tints.Planes.{tint_in};
ghost use Rattle.colour.specs.Layers.{ForRoot, bit_cells};
ghost use Rattle.store_run.specs.TintChanges.{tints_differ, IsStretchOf, HasBoth, IsJoined};

use measure::changes_in;
use node_words::{Blocks, Name, Share, name_of, octant_name};
use vw_cell::{Boxed, Cell, Side};

/// The least box of all cells whose tints differ in the worlds whose tints two roots keep. `None`
/// exactly where none do.
pub(crate) fn tint_changes<B: Blocks>(
    store: &mut B,
    before: Option<&Share>,
    after: Option<&Share>,
    side: Side,
) -> Option<Boxed>
    requires before { HoldsRoot (B.seen store.old).held side (option_copied before) }
    requires after { HoldsRoot (B.seen store.old).held side (option_copied after) }
    requires large { 4 ≤ side }
    ensures extent { ForWorld (B.seen store.old).held side (option_copied before.entry)
        (λ old. ForWorld (B.seen store.old).held side (option_copied after.entry)
        (λ new. IsExtent (2 ^ (side - 2)) (tints_differ (tint_in (2 ^ (side - 2)) old)
        (tint_in (2 ^ (side - 2)) new)) result)) }
    ensures seen { B.seen store.new ≡ B.seen store.old }
    ensures rests { B.rests store.old store.new }
{
    let _exponent = side.exponent();
    let mut found = None;
    for bit in 0..8u8 {
        let more = bit_changes(store, before, after, side, bit);
        found = joined(found, more);
    }
    found
}

// The least box of all cells in which a bit of the two tints differs.
fn bit_changes<B: Blocks>(
    store: &mut B,
    before: Option<&Share>,
    after: Option<&Share>,
    side: Side,
    bit: u8,
) -> Option<Boxed>
    requires before { HoldsRoot (B.seen store.old).held side (option_copied before) }
    requires after { HoldsRoot (B.seen store.old).held side (option_copied after) }
    requires large { 4 ≤ side }
    requires bit { bit < 8 }
    ensures extent { ForRoot (B.seen store.old).held side (option_copied before.entry)
        (λ s. ForRoot (B.seen store.old).held side (option_copied after.entry)
        (λ t. IsExtent (2 ^ (side - 2)) (differs (bit_cells side s bit) (bit_cells side t bit))
        result)) }
    ensures seen { B.seen store.new ≡ B.seen store.old }
    ensures rests { B.rests store.old store.new }
{
    let level = side.root_level();
    let old = plane_of(store, before, side, bit);
    let new = plane_of(store, after, side, bit);
    changes_in(store, level - 2, old, new)
}

// What stands in the plane of a bit.
fn plane_of<B: Blocks>(store: &mut B, root: Option<&Share>, side: Side, bit: u8) -> Option<Name>
    requires root { HoldsRoot (B.seen store.old).held side (option_copied root) }
    requires large { 4 ≤ side }
    requires bit { bit < 8 }
    ensures plane { ForRoot (B.seen store.old).held side (option_copied root.entry)
        (λ t. IsBlockOf (B.seen store.old).held (side - 2 - 2) result
        (child_of (child_of t 1) bit)) }
    ensures seen { B.seen store.new ≡ B.seen store.old }
    ensures rests { B.rests store.old store.new }
{
    let level = side.root_level();
    let half = octant_name(store, level, name_of(root), 1);
    octant_name(store, level - 1, half, bit)
}

// The least box that has two boxes, where they are there.
fn joined(first: Option<Boxed>, second: Option<Boxed>) -> Option<Boxed>
    requires first { EndsInside first }
    requires second { EndsInside second }
    ensures { IsJoined first second result }
{
    match first {
        None => second,
        Some(a) => match second {
            None => Some(a),
            Some(b) => Some(both(a, b)),
        },
    }
}

fn both(a: Boxed, b: Boxed) -> Boxed
    requires first { EndsBy 4096 a }
    requires second { EndsBy 4096 b }
    ensures { HasBoth a b result }
{
    let x = least_stretch(a.at.x, a.size.x, b.at.x, b.size.x);
    let y = least_stretch(a.at.y, a.size.y, b.at.y, b.size.y);
    let z = least_stretch(a.at.z, a.size.z, b.at.z, b.size.z);
    let at = Cell {
        x: x.at,
        y: y.at,
        z: z.at,
    };
    let size = Cell {
        x: x.size,
        y: y.size,
        z: z.size,
    };
    Boxed { at, size }
}

#[derive(Clone, Copy)]
struct Stretch {
    at: u16,
    size: u16,
}

// The least stretch of an axis that has two.
fn least_stretch(at: u16, size: u16, also: u16, long: u16) -> Stretch
    requires first { at + size ≤ 4096 }
    requires second { also + long ≤ 4096 }
    ensures { IsStretchOf at size also long result.at result.size }
{
    let from = at.min(also);
    let to = (at + size).max(also + long);
    Stretch {
        at: from,
        size: to - from,
    }
}
