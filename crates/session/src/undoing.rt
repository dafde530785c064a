// Undos and redos: the version that they go to is looked at under the log's turn.
ghost use Rattle.std.specs.Prelude.{◌≡◌, ◌≤◌, false};
ghost use Rattle.history_model.specs.Worlds.{is_edit};
ghost use Rattle.node_words.specs.shapes.Weights.{number_of_trees};
ghost use Rattle.node_words.specs.Held.{most_before_call};
ghost use Rattle.session.specs.Attempts.{AnswersAct, WayCame, nothing_to};
ghost use Rattle.session.specs.Resting.{Calls, HasLog, IsReady, LooksInTurn};

use crate::contexts::CallContext;
use crate::world::{Session, World};
use conformance::ActAnswer;
use history_model::Act;
use node_table::{log_length, log_mark};
use node_words::Share;
use std::sync::Wait;
use std::sync::ledger::Ledger;
use version_log::{Committed, Lookahead, SureRefused};

// The root of the version that an undo or a redo goes to, and what was looked up of where the
// history stands then.
pub(crate) struct UndoTarget {
    pub(crate) root: Option<Share>,
    pub(crate) ahead: Lookahead,
}

// Why an undo or a redo goes nowhere.
fn nothing_to(act: &Act, at: u32) -> ActAnswer
    ensures { result ≡ nothing_to act.now at }
{
    match act {
        Act::Undo => ActAnswer::NothingToUndo { at },
        _ => ActAnswer::NothingToRedo { at },
    }
}

impl World {
    // The way that an undo or a redo goes, or why it goes nowhere.
    fn find_undo_target<R: Wait, G, L: Ledger>(
        &self,
        s: &mut Session,
        call: &mut CallContext<'_, R, G, L>,
        act: &Act,
    ) -> Result<UndoTarget, ActAnswer>
        requires turn { HasLog self.now.table s.old }
        requires other { is_edit act.now ≡ false }
        requires room { number_of_trees s.old.view.held ≤ 4095 }
        ensures looks { LooksInTurn self.now.table s.old s.new }
        ensures came { WayCame self.now act.now result s.old.view s.new.view }
    {
        let at = log_length(&self.table, s);
        let lead = version_log::target(&self.table, s, act);
        match lead.to {
            Some(to) => match log_mark(&self.table, s, to) {
                Some(mark) => Err(ActAnswer::Forgotten { at, mark }),
                None => {
                    let root = version_log::keep_version(
                        call.rt,
                        &self.table,
                        s,
                        to,
                        &mut call.steps,
                    );
                    Ok(UndoTarget {
                        root,
                        ahead: lead.ahead,
                    })
                }
            },
            None => Err(nothing_to(act, at)),
        }
    }

    // An undo or a redo, under the log's turn.
    pub(crate) fn go<R: Wait, G, L: Ledger>(
        &self,
        s: &mut Session,
        call: &mut CallContext<'_, R, G, L>,
        line: u32,
        act: &Act,
    ) -> ActAnswer
        requires ready { IsReady self.now.table most_before_call s.old }
        requires other { is_edit act.now ≡ false }
        ensures calls { Calls self.now.table s.old s.new }
        ensures told { AnswersAct self.now line act.now result s.old.view s.new.view }
    {
        self.take(call.rt, s);
        match self.find_undo_target(s, call, act) {
            Ok(UndoTarget { root, ahead }) => match self.finish(s, ahead, line, act, root) {
                Ok(Committed { n, fallen }) => {
                    self.give_root(s, call, fallen);
                    ActAnswer::Done { n }
                }
                Err(SureRefused::LogFull { root }) => {
                    self.give_root(s, call, root);
                    ActAnswer::LogFull
                }
            },
            Err(answer) => {
                self.leave(s);
                answer
            }
        }
    }
}
