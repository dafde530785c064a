ghost use Rattle.std.specs.Prelude.{◌≡◌, ◌≤◌, IsTrue, Bool};
ghost use Rattle.vw_cell.specs.declared.cells.Cell.{Cell};
ghost use Rattle.node_words.specs.descent.Answers.{AreRight};
ghost use Rattle.measure.specs.Tallies.{PassesNone, IsWholeTally};

use crate::tallies::{Part, Subject, has_none};
use crate::wholes::WholeBlock;
use node_words::{Answers, Blocks, whole_block};

/// Whether no cell of a whole block counts. It is found out only where two octants say the same, as
/// of a block that is alike everywhere, and may miss that none does.
#[inline(always)]
pub fn passes_none<S: Subject, B: Blocks>(
    store: &mut B,
    wholes: &mut Answers<WholeBlock<S>>,
    subject: S,
    level: u8,
) -> bool
    requires level { (1 ≤ level) × (level ≤ 10) }
    requires block { (test : Cell → Bool) × S.counts (B.seen store.old).held level subject test }
    requires wholes { AreRight (IsWholeTally S.counts) (B.seen store.old).held wholes.old.places }
    ensures none { IsTrue result → (test : Cell → Bool)
        → S.counts (B.seen store.old).held level subject test → PassesNone level test }
    ensures block { (test : Cell → Bool) × S.counts (B.seen store.new).held level subject test }
    ensures wholes { AreRight (IsWholeTally S.counts) (B.seen store.old).held wholes.new.places }
    ensures seen { B.seen store.new ≡ B.seen store.old }
    ensures rests { B.rests store.old store.new }
{
    let whole = Part {
        subject,
        level,
        part: whole_block(level),
    };
    has_none(store, wholes, &whole)
}
