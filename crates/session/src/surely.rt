// An edit under the log's turn, while no other session commits.
ghost use Rattle.std.specs.Prelude.{◌+◌, option_copied};
ghost use Rattle.node_words.specs.Held.{most_before_call};
ghost use Rattle.session.specs.Attempts.{AnswersAct, HoldsHead, MayBeMade, act_answer};
ghost use Rattle.session.specs.Resting.{Calls, HasLog, IsReady};

use crate::attempts::EditAnswer;
use crate::contexts::CallContext;
use crate::world::{Session, World};
use act_rebuilds::ActMaker;
use node_words::Share;
use std::sync::Wait;
use std::sync::ledger::Ledger;
use version_log::{Committed, SureRefused, no_lookahead};

impl World {
    // The edit of the newest version, whose root is held. The turn goes back.
    fn make_surely<M: ActMaker, R: Wait, G, L: Ledger>(
        &self,
        s: &mut Session,
        call: &mut CallContext<'_, R, G, L>,
        head: Option<&Share>,
        line: u32,
        maker: &mut M,
    ) -> EditAnswer
        requires turn { HasLog self.now.table s.old }
        requires maker { MayBeMade self.now.table (M.drawn maker.old) (M.act maker.old)
            (M.recalls maker.old s.old.view.held) }
        requires head { HoldsHead (most_before_call + 9) s.old.view (option_copied head) }
        ensures calls { Calls self.now.table s.old s.new }
        ensures told { AnswersAct self.now line (M.act maker.old) (act_answer result) s.old.view
            s.new.view }
    {
        match self.make_next(s, call, head, maker) {
            Ok(root) => match self.finish(s, no_lookahead(), line, &maker.act(), root) {
                Ok(Committed { n, fallen }) => {
                    self.give_root(s, call, fallen);
                    EditAnswer::Done { n }
                }
                Err(SureRefused::LogFull { root }) => {
                    self.give_root(s, call, root);
                    EditAnswer::LogFull
                }
            },
            Err(full) => {
                let at = self.leave(s);
                EditAnswer::Full { at, full }
            }
        }
    }

    // An edit of the newest version, under the log's turn.
    pub(crate) fn edit_surely<M: ActMaker, R: Wait, G, L: Ledger>(
        &self,
        s: &mut Session,
        call: &mut CallContext<'_, R, G, L>,
        line: u32,
        maker: &mut M,
    ) -> EditAnswer
        requires ready { IsReady self.now.table (most_before_call + 2) s.old }
        requires maker { MayBeMade self.now.table (M.drawn maker.old) (M.act maker.old)
            (M.recalls maker.old s.old.view.held) }
        ensures calls { Calls self.now.table s.old s.new }
        ensures told { AnswersAct self.now line (M.act maker.old) (act_answer result) s.old.view
            s.new.view }
    {
        self.take(call.rt, s);
        let head = self.keep_head(s, call);
        let answer = self.make_surely(s, call, head.as_ref(), line, maker);
        self.give_root(s, call, head);
        answer
    }
}
