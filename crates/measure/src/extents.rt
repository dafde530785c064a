ghost use Rattle.std.specs.Prelude.{◌≡◌, ◌^◌, ◌<◌, ◌≤◌, ◌-◌, ◌+◌, ℕ, IsTrue, Bool, Some, option_copied};
ghost use Rattle.vw_cell.specs.declared.cells.Cell.{Cell};
ghost use Rattle.vw_cell.specs.Places.{IsInBlock, IsInWorld, LiesIn, block_side, octant_of};
ghost use Rattle.node_words.specs.kernels.Leaves.{LeafShows};
ghost use Rattle.vw_cell.specs.Extents.{IsExtent};
ghost use Rattle.node_words.specs.descent.Roots.{HasBlock, HoldsRoot, ForBlock, ForWorld, cells_of};
ghost use Rattle.node_words.specs.descent.Answers.{AreRight};
ghost use Rattle.node_words.specs.descent.Parts.{EndsBy};
ghost use Rattle.measure.specs.Pruning.{tells_within};
ghost use Rattle.measure.specs.Widening.{IsFound, EndsInside, Widens, IsSetIn, IsSetInSome, IsOther, IsOtherAt, IsSetAt, ForCounted, WidensBy};

use crate::counts::SetCells;
use crate::pruning::{Within, is_known, note};
use crate::tallies::Subject;
use node_words::{Answers, Blocks, Name, Share, box_bits, name_of};
use vw_cell::{Block, Boxed, Cell, Side};

/// The least box of all set cells of the root's world. `None` exactly where no cell is set.
pub fn bounds<B: Blocks>(store: &mut B, root: Option<&Share>, side: Side) -> Option<Boxed>
    requires root { HoldsRoot (B.seen store.old).held side (option_copied root) }
    ensures extent { ForWorld (B.seen store.old).held side (option_copied root.entry)
        (λ cells. IsExtent (2 ^ side) cells result) }
    ensures seen { B.seen store.new ≡ B.seen store.old }
    ensures rests { B.rests store.old store.new }
{
    bounds_in(store, side.root_level(), name_of(root))
}

/// The least box of all set cells of a block, told from the block's corner. `None` exactly where no
/// cell is set.
pub fn bounds_in<B: Blocks>(store: &mut B, level: u8, block: Option<Name>) -> Option<Boxed>
    requires level { level ≤ 10 }
    requires block { HasBlock (B.seen store.old).held level block }
    ensures extent { ForBlock (B.seen store.old).held level block
        (λ s. IsExtent (block_side level) (cells_of level s) result) }
    ensures seen { B.seen store.new ≡ B.seen store.old }
    ensures rests { B.rests store.old store.new }
{
    let mut answers = Answers::new();
    let at = Cell { x: 0, y: 0, z: 0 };
    let place = Block { level, at };
    let subject = SetCells { block };
    let mut found = None;
    widen(store, &mut answers, subject, place, 0, &mut found);
    found
}

/// Widens the box by the cells of a block that count. A block that can't widen the box found so far
/// is passed over: one that lies in it, and one like an earlier block that lies as far within it.
#[cycle(widen)]
pub(crate) fn widen<S: Subject, B: Blocks>(
    store: &mut B,
    answers: &mut Answers<Within<S>>,
    subject: S,
    place: Block,
    corner: u8,
    found: &mut Option<Boxed>,
)
    requires level { place.level ≤ 10 }
    requires block { (test : Cell → Bool)
        × S.counts (B.seen store.old).held place.level subject test }
    requires inside { LiesIn 4096 place }
    requires corner { corner < 8 }
    requires found { EndsInside found.old }
    requires answers { AreRight (tells_within S.counts) (B.seen store.old).held answers.old.places }
    ensures widens { WidensBy S.counts (B.seen store.old).held subject place found.old found.new }
    ensures found { EndsInside found.new }
    ensures answers { AreRight (tells_within S.counts) (B.seen store.old).held answers.new.places }
    ensures seen { B.seen store.new ≡ B.seen store.old }
    ensures rests { B.rests store.old store.new }
{
    if subject.is_nothing() {
        return;
    }
    if covers(*found, place) {
        return;
    }
    if place.level == 0 {
        let bits = subject.leaf(store);
        *found = with_leaf(bits, place, *found);
        return;
    }
    if is_known(answers, subject, place, *found) {
        return;
    }
    widen_by_octants(store, answers, subject, place, corner, found);
    note(answers, subject, place, *found);
}

// The same, octant by octant. The corner of its own block that an octant lies at comes first, and
// the opposite one next, so the box is soon wide.
#[cycle(widen)]
fn widen_by_octants<S: Subject, B: Blocks>(
    store: &mut B,
    answers: &mut Answers<Within<S>>,
    subject: S,
    place: Block,
    corner: u8,
    found: &mut Option<Boxed>,
)
    requires level { (1 ≤ place.level) × (place.level ≤ 10) }
    requires block { (test : Cell → Bool)
        × S.counts (B.seen store.old).held place.level subject test }
    requires inside { LiesIn 4096 place }
    requires corner { corner < 8 }
    requires found { EndsInside found.old }
    requires answers { AreRight (tells_within S.counts) (B.seen store.old).held answers.old.places }
    ensures widens { WidensBy S.counts (B.seen store.old).held subject place found.old found.new }
    ensures found { EndsInside found.new }
    ensures answers { AreRight (tells_within S.counts) (B.seen store.old).held answers.new.places }
    ensures seen { B.seen store.new ≡ B.seen store.old }
    ensures rests { B.rests store.old store.new }
{
    widen_in(store, answers, subject, place, corner, found);
    widen_in(store, answers, subject, place, 7 - corner, found);
    widen_by_others(store, answers, subject, place, corner, found);
}

// The same of one octant.
#[cycle(widen)]
fn widen_in<S: Subject, B: Blocks>(
    store: &mut B,
    answers: &mut Answers<Within<S>>,
    subject: S,
    place: Block,
    octant: u8,
    found: &mut Option<Boxed>,
)
    requires level { (1 ≤ place.level) × (place.level ≤ 10) }
    requires block { (test : Cell → Bool)
        × S.counts (B.seen store.old).held place.level subject test }
    requires inside { LiesIn 4096 place }
    requires octant { octant < 8 }
    requires found { EndsInside found.old }
    requires answers { AreRight (tells_within S.counts) (B.seen store.old).held answers.old.places }
    ensures widens { ForCounted S.counts (B.seen store.old).held subject place
        (λ cells. Widens (IsSetIn (octant_of place octant) cells)
        (IsSetIn place cells) found.old found.new) }
    ensures found { EndsInside found.new }
    ensures answers { AreRight (tells_within S.counts) (B.seen store.old).held answers.new.places }
    ensures block { (test : Cell → Bool)
        × S.counts (B.seen store.new).held place.level subject test }
    ensures seen { B.seen store.new ≡ B.seen store.old }
    ensures rests { B.rests store.old store.new }
{
    let child = subject.octant(store, place.level, octant);
    widen(store, answers, child, place.child(octant), octant, found);
}

// The same of all octants but that of the corner and its opposite.
#[cycle(widen)]
fn widen_by_others<S: Subject, B: Blocks>(
    store: &mut B,
    answers: &mut Answers<Within<S>>,
    subject: S,
    place: Block,
    corner: u8,
    found: &mut Option<Boxed>,
)
    requires level { (1 ≤ place.level) × (place.level ≤ 10) }
    requires block { (test : Cell → Bool)
        × S.counts (B.seen store.old).held place.level subject test }
    requires inside { LiesIn 4096 place }
    requires corner { corner < 8 }
    requires found { EndsInside found.old }
    requires answers { AreRight (tells_within S.counts) (B.seen store.old).held answers.old.places }
    ensures widens { ForCounted S.counts (B.seen store.old).held subject place
        (λ cells. Widens (IsSetInSome place cells (IsOther corner 8))
        (IsSetIn place cells) found.old found.new) }
    ensures found { EndsInside found.new }
    ensures answers { AreRight (tells_within S.counts) (B.seen store.old).held answers.new.places }
    ensures seen { B.seen store.new ≡ B.seen store.old }
    ensures rests { B.rests store.old store.new }
{
    for octant in 0..8u8 {
        widen_apart(store, answers, subject, place, corner, octant, found);
    }
}

// The same of one octant, if it isn't that of the corner or its opposite.
#[cycle(widen)]
fn widen_apart<S: Subject, B: Blocks>(
    store: &mut B,
    answers: &mut Answers<Within<S>>,
    subject: S,
    place: Block,
    corner: u8,
    octant: u8,
    found: &mut Option<Boxed>,
)
    requires level { (1 ≤ place.level) × (place.level ≤ 10) }
    requires block { (test : Cell → Bool)
        × S.counts (B.seen store.old).held place.level subject test }
    requires inside { LiesIn 4096 place }
    requires corner { corner < 8 }
    requires octant { octant < 8 }
    requires found { EndsInside found.old }
    requires answers { AreRight (tells_within S.counts) (B.seen store.old).held answers.old.places }
    ensures widens { ForCounted S.counts (B.seen store.old).held subject place
        (λ cells. Widens (IsSetInSome place cells (IsOtherAt corner octant))
        (IsSetIn place cells) found.old found.new) }
    ensures found { EndsInside found.new }
    ensures answers { AreRight (tells_within S.counts) (B.seen store.old).held answers.new.places }
    ensures block { (test : Cell → Bool)
        × S.counts (B.seen store.new).held place.level subject test }
    ensures seen { B.seen store.new ≡ B.seen store.old }
    ensures rests { B.rests store.old store.new }
{
    if octant == corner {
        return;
    }
    if octant == 7 - corner {
        return;
    }
    widen_in(store, answers, subject, place, octant, found);
}

// Whether the box has each cell of the block.
fn covers(found: Option<Boxed>, place: Block) -> bool
    ensures { IsTrue result → (c : Cell) → IsInBlock place c → IsFound found c }
{
    match found {
        Some(b) => b.holds_block(place),
        None => false,
    }
}

// The box widened by the set cells of a leaf.
fn with_leaf(bits: u64, place: Block, found: Option<Boxed>) -> Option<Boxed>
    requires level { place.level ≡ 0 }
    requires inside { LiesIn 4096 place }
    requires found { EndsInside found }
    ensures widens { (cells : Cell → Bool) → LeafShows bits place cells
        → Widens (IsSetIn place cells) (IsSetIn place cells) found result }
    ensures found { EndsInside result }
{
    if has_leaf(found, bits, place) {
        return found;
    }
    let mut wide = found;
    for bit in 0..64u8 {
        wide = with_bit(bits, place, bit, wide);
    }
    wide
}

// Whether the box found so far has all set cells of a leaf.
fn has_leaf(found: Option<Boxed>, bits: u64, place: Block) -> bool
    requires level { place.level ≡ 0 }
    ensures { IsTrue result → (cells : Cell → Bool) → LeafShows bits place cells
        → Widens (IsSetIn place cells) (IsSetIn place cells) found found }
{
    match found {
        Some(b) => {
            let within = box_bits(b, place);
            bits & within == bits
        }
        None => false,
    }
}

// The box widened by the cell of one bit, if that is set.
fn with_bit(bits: u64, place: Block, bit: u8, found: Option<Boxed>) -> Option<Boxed>
    requires level { place.level ≡ 0 }
    requires inside { LiesIn 4096 place }
    requires bit { bit < 64 }
    requires found { EndsInside found }
    ensures widens { (cells : Cell → Bool) → LeafShows bits place cells
        → Widens (IsSetAt place cells (λ n. n ≡ bit)) (IsSetIn place cells) found result }
    ensures found { EndsInside result }
{
    if !has_bit(bits, bit) {
        return found;
    }
    Some(with_cell(found, cell_of(place, bit)))
}

#[tactic(auto, using(std::proofs::lemmas::Nat::Bits::shr_and_one))]
fn has_bit(bits: u64, bit: u8) -> bool
    requires { bit < 64 }
    ensures { result ≡ (bit_at bits bit == 1) }
{
    bits >> bit & 1 == 1
}

ghost use Rattle.std.specs.Int.{bit_at};
ghost use Rattle.std.specs.Prelude.{◌==◌};

// The cell that a leaf's bit stands for.
fn cell_of(place: Block, bit: u8) -> Cell
    requires level { place.level ≡ 0 }
    requires inside { LiesIn 4096 place }
    requires bit { bit < 64 }
    ensures cell { result ≡ leaf_cell place bit }
    ensures inside { IsInWorld 4096 result }
{
    Cell {
        x: place.at.x + u16::from(bit % 4),
        y: place.at.y + u16::from(bit / 4 % 4),
        z: place.at.z + u16::from(bit / 16),
    }
}

// The least box that has the box found so far and a cell.
fn with_cell(found: Option<Boxed>, c: Cell) -> Boxed
    requires cell { IsInWorld 4096 c }
    requires found { EndsInside found }
    ensures widens { Widens (λ p. p ≡ c) (λ p. p ≡ c) found (Some result) }
    ensures found { EndsBy 4096 result }
{
    match found {
        Some(b) => {
            let x = stretch_to(b.at.x, b.size.x, c.x);
            let y = stretch_to(b.at.y, b.size.y, c.y);
            let z = stretch_to(b.at.z, b.size.z, c.z);
            boxed(x, y, z)
        }
        None => {
            let size = Cell { x: 1, y: 1, z: 1 };
            Boxed { at: c, size }
        }
    }
}

#[derive(Clone, Copy)]
struct Stretch {
    at: u16,
    size: u16,
}

// The least stretch of an axis that has a stretch and a place.
fn stretch_to(at: u16, size: u16, place: u16) -> Stretch
    requires ends { at + size ≤ 4096 }
    requires place { place < 4096 }
    ensures at { result.at ≡ min at place }
    ensures end { result.at + result.size ≡ max (at + size) (place + 1) }
{
    let from = at.min(place);
    let to = (at + size).max(place + 1);
    Stretch {
        at: from,
        size: to - from,
    }
}

fn boxed(x: Stretch, y: Stretch, z: Stretch) -> Boxed
    ensures at { result.at ≡ cell_at x.at y.at z.at }
    ensures size { result.size ≡ cell_at x.size y.size z.size }
{
    let at = Cell {
        x: x.at,
        y: y.at,
        z: z.at,
    };
    let size = Cell {
        x: x.size,
        y: y.size,
        z: z.size,
    };
    Boxed { at, size }
}

ghost use Rattle.std.specs.Prelude.{min, max};
ghost use Rattle.vw_cell.specs.Counts.{cell_at};
ghost use Rattle.measure.specs.Widening.{leaf_cell};
