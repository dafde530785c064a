ghost use Rattle.std.specs.Prelude.{◌≡◌, List};
ghost use Rattle.node_words.specs.shapes.Tree.{Tree};
ghost use Rattle.history_model.specs.declared.acts.Act.TheVariants.{Copy};
ghost use Rattle.edit_copy.specs.Copies.{MakesCopy};
ghost use Rattle.edit_walk.specs.Memos.{IsInMemo, RecallsHeld};

use crate::drawn::Lends;
use crate::lists::DrawnList;
use crate::makers::ActMaker;
use edit_copy::{CopyTask, rebuild_copy_with};
use edit_walk::Latest;
use history_model::Act;
use node_words::{Full, NodeStore, Share, Steps};
use std::sync::ledger::Ledger;
use vw_cell::{Boxed, Cell, Side};

/// A box that is copied to another place. A further root takes over what was made of the blocks
/// that stayed the same, where what is copied into them did so too.
#[derive(Drop)]
pub struct CopyAct<'w, B: Lends + Drop> {
    models: &'w DrawnList<B>,
    from: Boxed,
    to: Cell,
    memo: Latest<CopyTask>,
}

impl<'w, B: Lends + Drop> CopyAct<'w, B> {
    /// Nothing is made yet.
    #[tactic(auto, using(edit_walk::proofs::MemoLaws::recalls_none))]
    pub fn new(models: &'w DrawnList<B>, from: Boxed, to: Cell) -> CopyAct<'w, B>
        ensures models { result.models.now ≡ models.now }
        ensures act { Copy result.from result.to ≡ Copy from to }
        ensures recalls { (held : List Tree)
            → RecallsHeld MakesCopy held (IsInMemo result.memo.places) }
    {
        let memo = Latest::new();
        CopyAct {
            models,
            from,
            to,
            memo,
        }
    }
}

impl<'w, B: Lends + Drop> ActMaker for CopyAct<'w, B> {
    ghost use Rattle.history_model.specs.declared.acts.Act.TheVariants.{Copy};
    ghost use Rattle.edit_copy.specs.Copies.{MakesCopy};
    ghost use Rattle.edit_walk.specs.Memos.{IsInMemo, RecallsHeld};
    ghost use Rattle.act_rebuilds.specs.Recalling.{recalls_more};

    ghost drawn = { λ m. m.models.now };

    ghost act = { λ m. Copy m.from m.to };

    ghost recalls = { λ m held. RecallsHeld MakesCopy held (IsInMemo m.memo.places) };

    ghost recalls_more = { λ m held more k r. recalls_more MakesCopy held more
        (IsInMemo m.memo.places) k r };

    fn act(&self) -> Act {
        Act::Copy(self.from, self.to)
    }

    fn make<N: NodeStore, L: Ledger>(
        &mut self,
        store: &mut N,
        old: Option<&Share>,
        side: Side,
        steps: &mut Steps<L>,
    ) -> Result<Option<Share>, Full> {
        rebuild_copy_with(store, old, side, self.from, self.to, &mut self.memo, steps)
    }
}
