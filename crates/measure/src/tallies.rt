ghost use Rattle.std.specs.Prelude.{◌≡◌, ◌-◌, ◌<◌, ◌≤◌, ℕ, IsTrue, Bool, List};
ghost use Rattle.vw_cell.specs.declared.cells.Cell.{Cell};
ghost use Rattle.vw_cell.specs.Places.{block_side};
ghost use Rattle.vw_cell.specs.Counts.{number_in};
ghost use Rattle.node_words.specs.shapes.Tree.{Tree};
ghost use Rattle.node_words.specs.descent.Answers.{AreRight};
ghost use Rattle.node_words.specs.descent.Parts.{EndsBy, part_in};
ghost use Rattle.measure.specs.Leaves.{BitsPassTest};
ghost use Rattle.measure.specs.Tallies.{in_octant, LeavesPassTest, PassesNone, IsTally, IsWholeTally, IsOctantTally};

use crate::leaf_parts::tally_leaf_parts;
use crate::leaves::count_leaf;
use crate::octant_parts::either_part;
use crate::wholes::{WholeBlock, tally_whole};
use node_words::{Answers, Blocks, Query, half_side, is_empty, part_of, same_boxes, whole_block};
use vw_cell::Boxed;

/// What stands in a block, and with it which of the block's cells count.
pub trait Subject: Copy {
    /// The cells that count in a block of this level, while these trees are held.
    ghost counts: { List Tree → ℕ → Self → (Cell → Bool) → Type 0 };

    /// Whether no cell counts. It may miss that none does.
    fn is_nothing(&self) -> bool
        ensures { IsTrue result → (held : List Tree) (level : ℕ) (test : Cell → Bool)
            → counts held level self.now test → PassesNone level test };

    /// The bits of a leaf's cells that count.
    fn leaf<B: Blocks>(&self, store: &mut B) -> u64
        requires { (test : Cell → Bool) × counts (B.seen store.old).held 0 self.now test }
        ensures bits { (test : Cell → Bool) → counts (B.seen store.old).held 0 self.now test
            → BitsPassTest result test }
        ensures seen { B.seen store.new ≡ B.seen store.old }
        ensures rests { B.rests store.old store.new };

    /// The bits that count of the leaves below a block of eight, by octant.
    fn leaves<B: Blocks>(&self, store: &mut B) -> [u64; 8]
        requires block { (test : Cell → Bool) × counts (B.seen store.old).held 1 self.now test }
        ensures leaves { (test : Cell → Bool) → counts (B.seen store.old).held 1 self.now test
            → LeavesPassTest 8 result test }
        ensures seen { B.seen store.new ≡ B.seen store.old }
        ensures rests { B.rests store.old store.new }
    {
        let mut leaves = [0; 8];
        for octant in 0..8u8 {
            let subject = self.octant(store, 1, octant);
            leaves[usize::from(octant)] = subject.leaf(store);
        }
        leaves
    }

    /// What stands in an octant.
    fn octant<B: Blocks>(&self, store: &mut B, level: u8, octant: u8) -> Self
        requires level { 1 ≤ level }
        requires octant { octant < 8 }
        requires block { (test : Cell → Bool) × counts (B.seen store.old).held level self.now test }
        ensures octant { (test : Cell → Bool) → counts (B.seen store.old).held level self.now test
            → counts (B.seen store.old).held (level - 1) result (in_octant level octant test) }
        ensures seen { B.seen store.new ≡ B.seen store.old }
        ensures rests { B.rests store.old store.new };

    /// Whether both say the same of a block. It may miss that they do.
    fn is_same(&self, other: &Self) -> bool
        ensures { IsTrue result → self.now ≡ other.now };

    /// A number that differs where subjects do, more often than not.
    fn mark(&self) -> usize
        ensures { result < 2 ^ 32 };

    /// Whether it is worth to ask first if no cell of the whole block counts. No tally depends on
    /// it; `passes_none` misses less where it is true.
    fn is_even(&self) -> bool;

    /// Whether the number of a block of eight leaves is worth to be remembered. No answer depends
    /// on it.
    fn is_memo_worthy(&self) -> bool;
}

ghost use Rattle.std.specs.Prelude.{◌^◌};

/// A part of a block of some level, and what stands in the block.
#[derive(Clone, Copy)]
pub(crate) struct Part<S> {
    pub(crate) subject: S,
    pub(crate) level: u8,
    pub(crate) part: Boxed,
}

impl<S: Subject> Query for Part<S> {
    ghost tells = { IsTally S.counts };

    fn is_same(&self, other: &Part<S>) -> bool {
        self.level == other.level
            && self.subject.is_same(&other.subject)
            && same_boxes(self.part, other.part)
    }

    fn place(&self) -> usize {
        (self.subject.mark() + part_mark(self.part)) % 256
    }
}

/// A number that differs where parts do, more often than not.
pub(crate) fn part_mark(part: Boxed) -> usize
    ensures { result < 2 ^ 24 }
{
    let at = usize::from(part.at.x) + 3 * usize::from(part.at.y) + 5 * usize::from(part.at.z);
    let x = 7 * usize::from(part.size.x);
    let y = 11 * usize::from(part.size.y);
    let z = 13 * usize::from(part.size.z);
    at + x + y + z
}

/// How many cells of the part count. Parts that are alike have one number, which is remembered; a
/// part that is a whole block goes by what stands there alone.
#[inline(always)]
#[cycle(tally)]
pub(crate) fn tally<S: Subject, B: Blocks>(
    store: &mut B,
    answers: &mut Answers<Part<S>>,
    wholes: &mut Answers<WholeBlock<S>>,
    of: &Part<S>,
) -> u64
    requires level { of.now.level ≤ 10 }
    requires block { (test : Cell → Bool)
        × S.counts (B.seen store.old).held of.now.level of.now.subject test }
    requires part { EndsBy (block_side of.now.level) of.now.part }
    requires answers { AreRight (IsTally S.counts) (B.seen store.old).held answers.old.places }
    requires wholes { AreRight (IsWholeTally S.counts) (B.seen store.old).held wholes.old.places }
    ensures number { IsTally S.counts (B.seen store.old).held of.now result }
    ensures answers { AreRight (IsTally S.counts) (B.seen store.old).held answers.new.places }
    ensures wholes { AreRight (IsWholeTally S.counts) (B.seen store.old).held wholes.new.places }
    ensures seen { B.seen store.new ≡ B.seen store.old }
    ensures rests { B.rests store.old store.new }
{
    if of.subject.is_nothing() {
        return 0;
    }
    if is_empty(of.part) {
        return 0;
    }
    tally_some(store, answers, wholes, of)
}

// The same, where something stands in the block and the part has cells.
#[cycle(tally)]
fn tally_some<S: Subject, B: Blocks>(
    store: &mut B,
    answers: &mut Answers<Part<S>>,
    wholes: &mut Answers<WholeBlock<S>>,
    of: &Part<S>,
) -> u64
    requires level { of.now.level ≤ 10 }
    requires block { (test : Cell → Bool)
        × S.counts (B.seen store.old).held of.now.level of.now.subject test }
    requires part { EndsBy (block_side of.now.level) of.now.part }
    requires answers { AreRight (IsTally S.counts) (B.seen store.old).held answers.old.places }
    requires wholes { AreRight (IsWholeTally S.counts) (B.seen store.old).held wholes.old.places }
    ensures number { IsTally S.counts (B.seen store.old).held of.now result }
    ensures answers { AreRight (IsTally S.counts) (B.seen store.old).held answers.new.places }
    ensures wholes { AreRight (IsWholeTally S.counts) (B.seen store.old).held wholes.new.places }
    ensures seen { B.seen store.new ≡ B.seen store.old }
    ensures rests { B.rests store.old store.new }
{
    if of.level == 0 {
        let bits = of.subject.leaf(store);
        return count_leaf(bits, of.part);
    }
    if same_boxes(of.part, whole_block(of.level)) {
        return tally_whole(store, wholes, block_of(of));
    }
    if of.level == 1 {
        return tally_leaf_parts(store, of);
    }
    if let Some(number) = answers.find(of) {
        return number;
    }
    if has_none(store, wholes, of) {
        return 0;
    }
    let number = tally_octants(store, answers, wholes, of);
    answers.keep(*of, number);
    number
}

// The whole block of which this is a part.
fn block_of<S: Subject>(of: &Part<S>) -> WholeBlock<S>
    ensures { result ≡ record { subject = of.now.subject; level = of.now.level } }
{
    WholeBlock {
        subject: of.subject,
        level: of.level,
    }
}

/// Whether no cell of the part counts since none of its block does. It is asked only where two
/// octants say the same, as of a block that is alike everywhere, and may miss that none does.
pub(crate) fn has_none<S: Subject, B: Blocks>(
    store: &mut B,
    wholes: &mut Answers<WholeBlock<S>>,
    of: &Part<S>,
) -> bool
    requires level { (1 ≤ of.now.level) × (of.now.level ≤ 10) }
    requires block { (test : Cell → Bool)
        × S.counts (B.seen store.old).held of.now.level of.now.subject test }
    requires part { EndsBy (block_side of.now.level) of.now.part }
    requires wholes { AreRight (IsWholeTally S.counts) (B.seen store.old).held wholes.old.places }
    ensures none { IsTrue result → IsTally S.counts (B.seen store.old).held of.now 0 }
    ensures block { (test : Cell → Bool)
        × S.counts (B.seen store.new).held of.now.level of.now.subject test }
    ensures wholes { AreRight (IsWholeTally S.counts) (B.seen store.old).held wholes.new.places }
    ensures seen { B.seen store.new ≡ B.seen store.old }
    ensures rests { B.rests store.old store.new }
{
    if !of.subject.is_even() {
        return false;
    }
    let whole = block_of(of);
    if let Some(number) = wholes.find(&whole) {
        return number == 0;
    }
    if !has_alike_octants(store, whole) {
        return false;
    }
    let number = tally_whole(store, wholes, whole);
    if number > 0 {
        return false;
    }
    true
}

// Whether the first and the last octant say the same.
fn has_alike_octants<S: Subject, B: Blocks>(store: &mut B, of: WholeBlock<S>) -> bool
    requires level { 1 ≤ of.level }
    requires block { (test : Cell → Bool)
        × S.counts (B.seen store.old).held of.level of.subject test }
    ensures block { (test : Cell → Bool)
        × S.counts (B.seen store.new).held of.level of.subject test }
    ensures seen { B.seen store.new ≡ B.seen store.old }
    ensures rests { B.rests store.old store.new }
{
    let first = of.subject.octant(store, of.level, 0);
    let last = of.subject.octant(store, of.level, 7);
    first.is_same(&last)
}

// The same, octant by octant.
#[cycle(tally)]
fn tally_octants<S: Subject, B: Blocks>(
    store: &mut B,
    answers: &mut Answers<Part<S>>,
    wholes: &mut Answers<WholeBlock<S>>,
    of: &Part<S>,
) -> u64
    requires level { (1 ≤ of.now.level) × (of.now.level ≤ 10) }
    requires block { (test : Cell → Bool)
        × S.counts (B.seen store.old).held of.now.level of.now.subject test }
    requires part { EndsBy (block_side of.now.level) of.now.part }
    requires answers { AreRight (IsTally S.counts) (B.seen store.old).held answers.old.places }
    requires wholes { AreRight (IsWholeTally S.counts) (B.seen store.old).held wholes.old.places }
    ensures number { IsTally S.counts (B.seen store.old).held of.now result }
    ensures answers { AreRight (IsTally S.counts) (B.seen store.old).held answers.new.places }
    ensures wholes { AreRight (IsWholeTally S.counts) (B.seen store.old).held wholes.new.places }
    ensures seen { B.seen store.new ≡ B.seen store.old }
    ensures rests { B.rests store.old store.new }
{
    let half = half_side(of.level);
    let low = part_of(half, of.part, 0);
    let high = part_of(half, of.part, 7);
    let mut number = 0;
    for octant in 0..8u8 {
        let part = either_part(low, high, octant);
        number += tally_octant(store, answers, wholes, of, octant, part);
    }
    number
}

// The same, of one octant, where this is the part in it. Where none lies there, nothing of the
// octant is read.
#[inline(always)]
#[cycle(tally)]
fn tally_octant<S: Subject, B: Blocks>(
    store: &mut B,
    answers: &mut Answers<Part<S>>,
    wholes: &mut Answers<WholeBlock<S>>,
    of: &Part<S>,
    octant: u8,
    part: Boxed,
) -> u64
    requires level { (1 ≤ of.now.level) × (of.now.level ≤ 10) }
    requires octant { octant < 8 }
    requires block { (test : Cell → Bool)
        × S.counts (B.seen store.old).held of.now.level of.now.subject test }
    requires part { part ≡ part_in (block_side (of.now.level - 1)) of.now.part octant }
    requires ends { EndsBy (block_side (of.now.level - 1)) part }
    requires answers { AreRight (IsTally S.counts) (B.seen store.old).held answers.old.places }
    requires wholes { AreRight (IsWholeTally S.counts) (B.seen store.old).held wholes.old.places }
    ensures number { IsOctantTally S.counts (B.seen store.old).held of.now octant result }
    ensures answers { AreRight (IsTally S.counts) (B.seen store.old).held answers.new.places }
    ensures wholes { AreRight (IsWholeTally S.counts) (B.seen store.old).held wholes.new.places }
    ensures seen { B.seen store.new ≡ B.seen store.old }
    ensures rests { B.rests store.old store.new }
{
    if is_empty(part) {
        return 0;
    }
    let subject = of.subject.octant(store, of.level, octant);
    let inner = Part {
        subject,
        level: of.level - 1,
        part,
    };
    tally(store, answers, wholes, &inner)
}
