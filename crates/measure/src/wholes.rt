ghost use Rattle.std.specs.Prelude.{◌≡◌, ◌≤◌, IsTrue, Bool};
ghost use Rattle.vw_cell.specs.declared.cells.Cell.{Cell};
ghost use Rattle.node_words.specs.descent.Answers.{AreRight};
ghost use Rattle.measure.specs.Tallies.{IsWholeTally};

use crate::leaves::count_leaf;
use crate::tallies::Subject;
use node_words::{Answers, Blocks, Query, whole_block};

/// A whole block of some level, and what stands in it.
#[derive(Clone, Copy)]
pub struct WholeBlock<S> {
    pub(crate) subject: S,
    pub(crate) level: u8,
}

impl<S: Subject> Query for WholeBlock<S> {
    ghost tells = { IsWholeTally S.counts };

    fn is_same(&self, other: &WholeBlock<S>) -> bool {
        self.level == other.level && self.subject.is_same(&other.subject)
    }

    fn place(&self) -> usize {
        self.subject.mark() % 256
    }
}

/// How many cells of a whole block count. Blocks that are alike have one number, which is
/// remembered by what stands in them alone.
#[inline(always)]
#[cycle(tally_whole)]
pub(crate) fn tally_whole<S: Subject, B: Blocks>(
    store: &mut B,
    answers: &mut Answers<WholeBlock<S>>,
    of: WholeBlock<S>,
) -> u64
    requires level { of.level ≤ 10 }
    requires block { (test : Cell → Bool)
        × S.counts (B.seen store.old).held of.level of.subject test }
    requires answers { AreRight (IsWholeTally S.counts) (B.seen store.old).held answers.old.places }
    ensures number { IsWholeTally S.counts (B.seen store.old).held of result }
    ensures answers { AreRight (IsWholeTally S.counts) (B.seen store.old).held answers.new.places }
    ensures seen { B.seen store.new ≡ B.seen store.old }
    ensures rests { B.rests store.old store.new }
{
    if of.subject.is_nothing() {
        return 0;
    }
    tally_something(store, answers, of)
}

// The same, where something may count.
#[cycle(tally_whole)]
fn tally_something<S: Subject, B: Blocks>(
    store: &mut B,
    answers: &mut Answers<WholeBlock<S>>,
    of: WholeBlock<S>,
) -> u64
    requires level { of.level ≤ 10 }
    requires block { (test : Cell → Bool)
        × S.counts (B.seen store.old).held of.level of.subject test }
    requires answers { AreRight (IsWholeTally S.counts) (B.seen store.old).held answers.old.places }
    ensures number { IsWholeTally S.counts (B.seen store.old).held of result }
    ensures answers { AreRight (IsWholeTally S.counts) (B.seen store.old).held answers.new.places }
    ensures seen { B.seen store.new ≡ B.seen store.old }
    ensures rests { B.rests store.old store.new }
{
    if of.level == 0 {
        let bits = of.subject.leaf(store);
        return count_leaf(bits, whole_block(0));
    }
    if of.level == 1 && !of.subject.is_memo_worthy() {
        return tally_leaves(store, of);
    }
    if let Some(number) = answers.find(&of) {
        return number;
    }
    let number = tally_whole_octants(store, answers, of);
    answers.keep(of, number);
    number
}

// The same, octant by octant.
#[cycle(tally_whole)]
fn tally_whole_octants<S: Subject, B: Blocks>(
    store: &mut B,
    answers: &mut Answers<WholeBlock<S>>,
    of: WholeBlock<S>,
) -> u64
    requires level { (1 ≤ of.level) × (of.level ≤ 10) }
    requires block { (test : Cell → Bool)
        × S.counts (B.seen store.old).held of.level of.subject test }
    requires answers { AreRight (IsWholeTally S.counts) (B.seen store.old).held answers.old.places }
    ensures number { IsWholeTally S.counts (B.seen store.old).held of result }
    ensures answers { AreRight (IsWholeTally S.counts) (B.seen store.old).held answers.new.places }
    ensures seen { B.seen store.new ≡ B.seen store.old }
    ensures rests { B.rests store.old store.new }
{
    if of.level == 1 {
        return tally_leaves(store, of);
    }
    let level = of.level - 1;
    let mut number = 0;
    for octant in 0..8u8 {
        let subject = of.subject.octant(store, of.level, octant);
        number += tally_whole(store, answers, WholeBlock { subject, level });
    }
    number
}

// The same of a block of eight leaves, whose bits are read at once.
fn tally_leaves<S: Subject, B: Blocks>(store: &mut B, of: WholeBlock<S>) -> u64
    requires level { of.level ≡ 1 }
    requires block { (test : Cell → Bool)
        × S.counts (B.seen store.old).held of.level of.subject test }
    ensures number { IsWholeTally S.counts (B.seen store.old).held of result }
    ensures seen { B.seen store.new ≡ B.seen store.old }
    ensures rests { B.rests store.old store.new }
{
    let leaves = of.subject.leaves(store);
    let whole = whole_block(0);
    let mut number = 0;
    for octant in 0..8usize {
        number += count_leaf(leaves[octant], whole);
    }
    number
}
