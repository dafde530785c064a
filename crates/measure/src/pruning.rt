ghost use Rattle.std.specs.Prelude.{◌≡◌, ◌≤◌, ◌<◌, ◌+◌, ◌^◌, ℕ, IsTrue, Bool, List, Option};
ghost use Rattle.vw_cell.specs.Places.{LiesIn, IsInBox, IsInWorld, IsWithin, block_side};
ghost use Rattle.node_words.specs.shapes.Tree.{Tree};
ghost use Rattle.node_words.specs.descent.Answers.{AreRight};
ghost use Rattle.node_words.specs.descent.Parts.{EndsBy};
ghost use Rattle.measure.specs.Widening.{EndsInside, WidensBy, from_corner};
ghost use Rattle.measure.specs.Pruning.{tells_within};

use crate::tallies::{Subject, part_mark};
use node_words::{Answers, Query, same_boxes};
use vw_cell::{Block, Boxed, Cell};

/// What stands in a block, and a part of the block that has all of its cells that count.
#[derive(Clone, Copy)]
pub(crate) struct Within<S> {
    subject: S,
    level: u8,
    part: Boxed,
}

impl<S: Subject> Query for Within<S> {
    ghost tells = { tells_within S.counts };

    fn is_same(&self, other: &Within<S>) -> bool {
        self.level == other.level
            && self.subject.is_same(&other.subject)
            && same_boxes(self.part, other.part)
    }

    fn place(&self) -> usize {
        (self.subject.mark() + part_mark(self.part)) % 256
    }
}

/// Whether it is remembered that the box found so far has all cells of the block that count.
pub(crate) fn is_known<S: Subject>(
    answers: &Answers<Within<S>>,
    subject: S,
    place: Block,
    found: Option<Boxed>,
) -> bool
    requires level { place.level ≤ 10 }
    requires inside { LiesIn 4096 place }
    requires found { EndsInside found }
    ensures { IsTrue result → (held : List Tree)
        → AreRight (tells_within S.counts) held answers.now.places
        → WidensBy S.counts held subject place found found }
{
    match found {
        Some(b) => {
            let within = Within {
                subject,
                level: place.level,
                part: part_at(b, place),
            };
            answers.find(&within).is_some()
        }
        None => false,
    }
}

/// Remembers that a box has all cells of the block that count, by which it was widened.
pub(crate) fn note<S: Subject>(
    answers: &mut Answers<Within<S>>,
    subject: S,
    place: Block,
    wide: Option<Boxed>,
)
    requires level { place.level ≤ 10 }
    requires inside { LiesIn 4096 place }
    requires wide { EndsInside wide }
    ensures { (held : List Tree) (found : Option Boxed)
        → AreRight (tells_within S.counts) held answers.old.places
        → WidensBy S.counts held subject place found wide
        → AreRight (tells_within S.counts) held answers.new.places }
{
    match wide {
        Some(b) => {
            let within = Within {
                subject,
                level: place.level,
                part: part_at(b, place),
            };
            answers.keep(within, 0);
        }
        None => {}
    }
}

// What of a box lies in a block, told from the block's corner. A part without a cell has a size 0.
fn part_at(b: Boxed, place: Block) -> Boxed
    requires level { place.level ≤ 10 }
    requires inside { LiesIn 4096 place }
    requires ends { EndsBy 4096 b }
    ensures from { (c : Cell) → IsInWorld (block_side place.level) c → IsInBox result c
        → IsInBox b (from_corner place c) }
    ensures to { (c : Cell) → IsInWorld (block_side place.level) c → IsInBox b (from_corner place c)
        → IsInBox result c }
{
    let side = side_of(place.level);
    let x = stretch_at(b.at.x, b.size.x, place.at.x, side);
    let y = stretch_at(b.at.y, b.size.y, place.at.y, side);
    let z = stretch_at(b.at.z, b.size.z, place.at.z, side);
    let at = Cell {
        x: x.at,
        y: y.at,
        z: z.at,
    };
    let size = Cell {
        x: x.size,
        y: y.size,
        z: z.size,
    };
    Boxed { at, size }
}

#[tactic(auto, using(node_words::proofs::OfDescent::LookLaws::whole_side))]
fn side_of(level: u8) -> u16
    requires { level ≤ 10 }
    ensures { result ≡ block_side level }
{
    4 << level
}

#[derive(Clone, Copy)]
struct Stretch {
    at: u16,
    size: u16,
}

// What of a stretch lies in the `side` places from `low` on, told from there.
fn stretch_at(at: u16, size: u16, low: u16, side: u16) -> Stretch
    requires { at + size ≤ 4096 }
    ensures from { (c : ℕ) → c < side → IsWithin result.at result.size c
        → IsWithin at size (low + c) }
    ensures to { (c : ℕ) → c < side → IsWithin at size (low + c)
        → IsWithin result.at result.size c }
{
    let from = at.saturating_sub(low).min(side);
    let to = (at + size).saturating_sub(low).min(side);
    Stretch {
        at: from,
        size: to.saturating_sub(from),
    }
}

ghost use Rattle.vw_cell.specs.declared.cells.Cell.{Cell};
