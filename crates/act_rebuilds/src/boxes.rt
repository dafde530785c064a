ghost use Rattle.std.specs.Prelude.{◌≡◌, List};
ghost use Rattle.node_words.specs.shapes.Tree.{Tree};
ghost use Rattle.edit_ops.specs.Boxes.{MakesBox, box_act};
ghost use Rattle.edit_walk.specs.Memos.{IsInMemo, RecallsHeld};

use crate::drawn::Lends;
use crate::lists::DrawnList;
use crate::makers::ActMaker;
use edit_ops::{BoxTask, rebuild_box_with};
use edit_walk::Latest;
use history_model::Act;
use node_words::{Full, NodeStore, Share, Steps};
use std::sync::ledger::Ledger;
use vw_cell::{Boxed, Side};

/// A box that is set or cleared. A further root takes over what was made of the blocks that stayed
/// the same.
#[derive(Drop)]
pub struct BoxAct<'w, B: Lends + Drop> {
    models: &'w DrawnList<B>,
    part: Boxed,
    set: bool,
    memo: Latest<BoxTask>,
}

impl<'w, B: Lends + Drop> BoxAct<'w, B> {
    /// Nothing is made yet.
    #[tactic(auto, using(edit_walk::proofs::MemoLaws::recalls_none))]
    pub fn new(models: &'w DrawnList<B>, part: Boxed, set: bool) -> BoxAct<'w, B>
        ensures models { result.models.now ≡ models.now }
        ensures act { box_act result.set result.part ≡ box_act set part }
        ensures recalls { (held : List Tree)
            → RecallsHeld MakesBox held (IsInMemo result.memo.places) }
    {
        let memo = Latest::new();
        BoxAct {
            models,
            part,
            set,
            memo,
        }
    }
}

impl<'w, B: Lends + Drop> ActMaker for BoxAct<'w, B> {
    ghost use Rattle.edit_ops.specs.Boxes.{MakesBox, box_act};
    ghost use Rattle.edit_walk.specs.Memos.{IsInMemo, RecallsHeld};
    ghost use Rattle.act_rebuilds.specs.Recalling.{recalls_more};

    ghost drawn = { λ m. m.models.now };

    ghost act = { λ m. box_act m.set m.part };

    ghost recalls = { λ m held. RecallsHeld MakesBox held (IsInMemo m.memo.places) };

    ghost recalls_more = { λ m held more k r. recalls_more MakesBox held more
        (IsInMemo m.memo.places)
        k r };

    fn act(&self) -> Act {
        if self.set {
            Act::Fill(self.part)
        } else {
            Act::Erase(self.part)
        }
    }

    fn make<N: NodeStore, L: Ledger>(
        &mut self,
        store: &mut N,
        old: Option<&Share>,
        side: Side,
        steps: &mut Steps<L>,
    ) -> Result<Option<Share>, Full> {
        rebuild_box_with(store, old, side, self.part, self.set, &mut self.memo, steps)
    }
}
