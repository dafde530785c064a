ghost use Rattle.std.specs.Prelude.{◌≡◌, List};
ghost use Rattle.node_words.specs.shapes.Tree.{Tree};
ghost use Rattle.edit_ops.specs.Balls.{ball_act, makes_ball};
ghost use Rattle.edit_walk.specs.Memos.{IsInMemo, RecallsHeld};

use crate::drawn::Lends;
use crate::lists::DrawnList;
use crate::makers::ActMaker;
use edit_ops::{BallTask, rebuild_ball_with};
use edit_walk::Upper;
use history_model::Act;
use node_words::{Full, NodeStore, Share, Steps};
use std::sync::ledger::Ledger;
use vw_cell::{Ball, Side};

/// A ball that is set or cleared. A further root takes over what was made of the large blocks that
/// stayed the same.
#[derive(Drop)]
pub struct BallAct<'w, 'b, B: Lends + Drop> {
    models: &'w DrawnList<B>,
    ball: &'b Ball,
    set: bool,
    memo: Upper<BallTask>,
}

impl<'w, 'b, B: Lends + Drop> BallAct<'w, 'b, B> {
    /// Nothing is made yet.
    #[tactic(auto, using(edit_walk::proofs::MemoLaws::recalls_none))]
    pub fn new(models: &'w DrawnList<B>, ball: &'b Ball, set: bool) -> BallAct<'w, 'b, B>
        ensures models { result.models.now ≡ models.now }
        ensures act { ball_act result.set result.ball.now ≡ ball_act set ball.now }
        ensures recalls { (held : List Tree)
            → RecallsHeld makes_ball held (IsInMemo result.memo.places) }
    {
        let memo = Upper::new();
        BallAct {
            models,
            ball,
            set,
            memo,
        }
    }
}

impl<'w, 'b, B: Lends + Drop> ActMaker for BallAct<'w, 'b, B> {
    ghost use Rattle.edit_ops.specs.Balls.{ball_act, makes_ball};
    ghost use Rattle.edit_walk.specs.Memos.{IsInMemo, RecallsHeld};
    ghost use Rattle.act_rebuilds.specs.Recalling.{recalls_more};

    ghost drawn = { λ m. m.models.now };

    ghost act = { λ m. ball_act m.set m.ball.now };

    ghost recalls = { λ m held. RecallsHeld makes_ball held (IsInMemo m.memo.places) };

    ghost recalls_more = { λ m held more k r. recalls_more makes_ball held more
        (IsInMemo m.memo.places) k r };

    fn act(&self) -> Act {
        if self.set {
            Act::Ball(*self.ball)
        } else {
            Act::Carve(*self.ball)
        }
    }

    fn make<N: NodeStore, L: Ledger>(
        &mut self,
        store: &mut N,
        old: Option<&Share>,
        side: Side,
        steps: &mut Steps<L>,
    ) -> Result<Option<Share>, Full> {
        rebuild_ball_with(store, old, side, self.ball, self.set, &mut self.memo, steps)
    }
}
