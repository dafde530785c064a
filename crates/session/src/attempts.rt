// Attempts at an edit: each makes its root of the newest version that the session has seen.
ghost use Rattle.std.specs.Prelude.{◌+◌, OnErr, OnOk, option_copied};
ghost use Rattle.node_words.specs.Held.{most_before_call};
ghost use Rattle.session.specs.Lendable.{IsLendable, StaysLendable};
ghost use Rattle.version_log.specs.Coming.{CommitCame};
ghost use Rattle.session.specs.Attempts.{Attempts, HasPinnedHead, HoldsHead, MakesNext};
ghost use Rattle.session.specs.Attempts.{MayBeMade, MayCommitNext, SameEdit};
ghost use Rattle.session.specs.Resting.{ReturnsAtRest, IsReady};

use crate::contexts::CallContext;
use crate::world::{Session, World};
use act_rebuilds::ActMaker;
use gate_run::Gate;
use history_model::Act;
use node_words::{Full, Share};
use std::sync::Wait;
use std::sync::ledger::Ledger;
use version_log::{CommitRefused, Committed, Pinned, commit};

/// What an edit came to.
#[derive(Clone, Copy, Debug, PartialEq, Eq)]
pub(crate) enum EditAnswer {
    /// It is record `n`.
    Done { n: u32 },
    /// A bucket that it needs has no room, at this length of the history.
    Full { at: u32, full: Full },
    /// The history has all records that it can have.
    LogFull,
}

/// Another session was faster, and the history has this length. The root that was made is held.
pub(crate) struct StaleRoot {
    pub(crate) at: u32,
    pub(crate) root: Option<Share>,
}

impl World {
    // A share of the root of what the edit makes of the newest version that the session has seen,
    // whose root it holds.
    pub(crate) fn make_next<M: ActMaker, R: Wait, G, L: Ledger>(
        &self,
        s: &mut Session,
        call: &mut CallContext<'_, R, G, L>,
        base: Option<&Share>,
        maker: &mut M,
    ) -> Result<Option<Share>, Full>
        requires ready { IsLendable self.now.table s.old }
        requires maker { MayBeMade self.now.table (M.drawn maker.old) (M.act maker.old)
            (M.recalls maker.old s.old.view.held) }
        requires head { HoldsHead (most_before_call + 9) s.old.view (option_copied base) }
        ensures stays { StaysLendable self.now.table s.old s.new }
        ensures edit { SameEdit (M.drawn maker.new) (M.drawn maker.old) (M.act maker.new)
            (M.act maker.old) }
        ensures made { MakesNext self.now.table (M.act maker.old) result s.old.view s.new.view }
        ensures recalls { OnOk result (M.recalls maker.new s.new.view.held) }
    {
        let side = self.table.plan().side();
        let mut hand = self.hand(call.rt, s);
        maker.make(&mut hand, base, side, &mut call.steps)
    }

    // Commits what was made of the version that is pinned. The share of the root of the version
    // that fell out then is handed over.
    fn commit_root<R: Wait>(
        &self,
        rt: &R,
        s: &mut Session,
        base: &Pinned,
        line: u32,
        act: &Act,
        root: Option<Share>,
    ) -> Result<Committed, CommitRefused>
        requires ready { IsReady self.now.table 4095 s.old }
        requires base { HasPinnedHead s.old.view base.now }
        requires may { MayCommitNext self.now.table s.old.view act.now root }
        ensures back { ReturnsAtRest self.now.table s.old s.new }
        ensures came { CommitCame base.now self.now.keep line act.now root result s.old.view
            s.new.view }
    {
        match commit(rt, &self.table, s, base, line, act, root, self.keep) {
            Ok(committed) => Ok(committed),
            Err(refused) => Err(refused),
        }
    }

    // The edit of the newest version, which is pinned. Too late, its root stays held.
    pub(crate) fn attempt<M: ActMaker, R: Wait, G: Gate, L: Ledger>(
        &self,
        s: &mut Session,
        call: &mut CallContext<'_, R, G, L>,
        base: &Pinned,
        line: u32,
        maker: &mut M,
    ) -> Result<EditAnswer, StaleRoot>
        requires ready { IsReady self.now.table (most_before_call + 1) s.old }
        requires maker { MayBeMade self.now.table (M.drawn maker.old) (M.act maker.old)
            (M.recalls maker.old s.old.view.held) }
        requires base { HasPinnedHead s.old.view base.now }
        ensures back { ReturnsAtRest self.now.table s.old s.new }
        ensures edit { SameEdit (M.drawn maker.new) (M.drawn maker.old) (M.act maker.new)
            (M.act maker.old) }
        ensures comes { Attempts self.now line (M.act maker.old) base.now result s.old.view
            s.new.view }
        ensures recalls { OnErr result (M.recalls maker.new s.new.view.held) }
    {
        match self.make_next(s, call, base.root.as_ref(), maker) {
            Ok(root) => {
                call.gate.between(s.number(), line);
                match self.commit_root(call.rt, s, base, line, &maker.act(), root) {
                    Ok(Committed { n, fallen }) => {
                        self.give_root(s, call, fallen);
                        Ok(EditAnswer::Done { n })
                    }
                    Err(CommitRefused::LogFull { root }) => {
                        self.give_root(s, call, root);
                        Ok(EditAnswer::LogFull)
                    }
                    Err(CommitRefused::Stale { now, root }) => Err(StaleRoot { at: now, root }),
                }
            }
            Err(full) => Ok(EditAnswer::Full {
                at: base.moment,
                full,
            }),
        }
    }
}
