ghost use Rattle.std.specs.Prelude.{◌≡◌, option_copied};
ghost use Rattle.node_words.specs.descent.Roots.{HoldsRoot};

use extract::{cells_in, surface_in};
use history_model::Question;
use measure::{bounds, count, faces, get};
use node_words::{Blocks, Share};
use ray_walk::ray;
use vox_read::Voxel;
use vw_cell::{Boxed, Cell, Side};

/// An answer to a question.
#[derive(Clone, Copy, Debug, PartialEq, Eq)]
pub enum Found {
    Is(bool),
    Number(u64),
    Extent(Option<Boxed>),
    Hit(Option<Cell>),
}

// The answer of the root's world, where the question fits it.
pub(crate) fn answer<B: Blocks>(
    store: &mut B,
    root: Option<&Share>,
    side: Side,
    question: &Question,
) -> Option<Found>
    requires root { HoldsRoot (B.seen store.old).held side (option_copied root) }
    ensures seen { B.seen store.new ≡ B.seen store.old }
    ensures rests { B.rests store.old store.new }
{
    match *question {
        Question::Get(c) => {
            if c.is_in_world(side) {
                Some(Found::Is(get(store, root, side, c)))
            } else {
                None
            }
        }
        // these worlds are plain: each set cell has tint 1
        Question::Colour(c) => {
            if c.is_in_world(side) {
                let set = get(store, root, side, c);
                Some(Found::Number(u64::from(set)))
            } else {
                None
            }
        }
        Question::Count(b) => match Boxed::new(b.at, b.size, side) {
            Some(b) => Some(Found::Number(count(store, root, side, b))),
            None => None,
        },
        Question::Bounds => Some(Found::Extent(bounds(store, root, side))),
        Question::Faces(b) => match Boxed::new(b.at, b.size, side) {
            Some(b) => Some(Found::Number(faces(store, root, side, b))),
            None => None,
        },
        Question::Ray(from, way) => {
            if from.is_in_world(side) {
                Some(Found::Hit(ray(store, root, side, from, way)))
            } else {
                None
            }
        }
    }
}

// Appends the set cells of the box, where it fits the world and there is memory.
pub(crate) fn list_cells<B: Blocks>(
    store: &mut B,
    root: Option<&Share>,
    side: Side,
    b: Boxed,
    into: &mut Vec<Voxel>,
) -> bool
    requires root { HoldsRoot (B.seen store.old).held side (option_copied root) }
    ensures seen { B.seen store.new ≡ B.seen store.old }
    ensures rests { B.rests store.old store.new }
{
    if b.size.x > 256 || b.size.y > 256 || b.size.z > 256 {
        return false;
    }
    match Boxed::new(b.at, b.size, side) {
        Some(b) => cells_in(store, root, side, b, into).is_ok(),
        None => false,
    }
}

// Appends the cells of the box that can be seen, where it fits the world and there is memory.
pub(crate) fn list_surface<B: Blocks>(
    store: &mut B,
    root: Option<&Share>,
    side: Side,
    b: Boxed,
    into: &mut Vec<Voxel>,
) -> bool
    requires root { HoldsRoot (B.seen store.old).held side (option_copied root) }
    ensures seen { B.seen store.new ≡ B.seen store.old }
    ensures rests { B.rests store.old store.new }
{
    if b.size.x > 256 || b.size.y > 256 || b.size.z > 256 {
        return false;
    }
    match Boxed::new(b.at, b.size, side) {
        Some(b) => surface_in(store, root, side, b, into).is_ok(),
        None => false,
    }
}
