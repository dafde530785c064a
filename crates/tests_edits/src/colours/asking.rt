ghost use Rattle.std.specs.Prelude.{◌≡◌, ◌≤◌, ◌-◌, All, option_copied};
ghost use Rattle.node_words.specs.descent.Roots.{HoldsRoot};
ghost use Rattle.vox_read.specs.Contents.{IsInsideModel};

use colour::{tint_at, tint_bounds, tint_ray, tints_in, tints_of};
use history_model::Way;
use measure::count;
use node_words::{Blocks, Share};
use std::alloc::Global;
use vox_read::Voxel;
use vw_cell::{Boxed, Cell, Side};

/// A question of a world of tints.
#[derive(Clone, Copy)]
pub enum Asked {
    Tint(Cell),
    Count(Boxed),
    Bounds,
    Ray(Cell, [i16; 3]),
}

/// An answer to one.
#[derive(Clone, Copy, Debug, PartialEq, Eq)]
pub enum Told {
    Tint(u8),
    Number(u64),
    Extent(Option<Boxed>),
    Hit(Option<Cell>),
}

/// The answer of the root's world, where the question fits the world of tints, whose side is
/// `plane`.
pub fn answer<B: Blocks>(
    store: &mut B,
    root: Option<&Share>,
    side: Side,
    plane: Side,
    asked: &Asked,
) -> Option<Told>
    requires root { HoldsRoot (B.seen store.old).held side (option_copied root) }
    requires large { 4 ≤ side }
    requires plane { plane ≡ side - 2 }
    ensures seen { B.seen store.new ≡ B.seen store.old }
    ensures rests { B.rests store.old store.new }
{
    match *asked {
        Asked::Tint(c) => {
            if c.is_in_world(plane) {
                Some(Told::Tint(tint_at(store, root, side, c)))
            } else {
                None
            }
        }
        Asked::Count(b) => match Boxed::new(b.at, b.size, side) {
            Some(b) => Some(Told::Number(count(store, root, side, b))),
            None => None,
        },
        Asked::Bounds => Some(Told::Extent(tint_bounds(store, root, side))),
        Asked::Ray(from, way) => {
            if !from.is_in_world(plane) {
                return None;
            }
            match heading(way) {
                Some(way) => Some(Told::Hit(tint_ray(store, root, side, from, way))),
                None => None,
            }
        }
    }
}

fn heading(way: [i16; 3]) -> Option<Way> {
    Way::new(way[0], way[1], way[2])
}

/// Appends the voxels of the box, where it fits the world of tints and there is memory.
pub fn list_tints<B: Blocks>(
    store: &mut B,
    root: Option<&Share>,
    side: Side,
    plane: Side,
    b: Boxed,
    into: &mut Vec<Voxel>,
) -> bool
    requires root { HoldsRoot (B.seen store.old).held side (option_copied root) }
    requires large { 4 ≤ side }
    requires plane { plane ≡ side - 2 }
    ensures seen { B.seen store.new ≡ B.seen store.old }
    ensures rests { B.rests store.old store.new }
{
    if b.size.x > 256 || b.size.y > 256 || b.size.z > 256 {
        return false;
    }
    match Boxed::new(b.at, b.size, plane) {
        Some(b) => tints_in(store, root, side, b, into).is_ok(),
        None => false,
    }
}

/// The tints of some cells of the box, where it fits the world of tints and there is memory.
pub fn some_tints<B: Blocks>(
    alloc: Global,
    store: &mut B,
    root: Option<&Share>,
    side: Side,
    plane: Side,
    b: Boxed,
    voxels: &[Voxel],
) -> Option<Vec<u8>>
    requires root { HoldsRoot (B.seen store.old).held side (option_copied root) }
    requires large { 4 ≤ side }
    requires plane { plane ≡ side - 2 }
    requires voxels { All (IsInsideModel b.size) voxels.now }
    ensures seen { B.seen store.new ≡ B.seen store.old }
    ensures rests { B.rests store.old store.new }
{
    if b.size.x > 256 || b.size.y > 256 || b.size.z > 256 {
        return None;
    }
    match Boxed::new(b.at, b.size, plane) {
        Some(b) => tints_of(alloc, store, root, side, b, voxels).ok(),
        None => None,
    }
}
