//! Changes of a world: edits, undos and redos, and one attempt at an edit.
ghost use Rattle.std.specs.Prelude.{◌≡◌, ◌∷◌, [], ℕ};
ghost use Rattle.node_words.specs.Held.{most_before_call};
ghost use Rattle.act_rebuilds.specs.Balls.{ball_act};
ghost use Rattle.act_rebuilds.specs.Boxes.{box_act};
ghost use Rattle.history_model.specs.declared.acts.Act.TheVariants.{Copy};
ghost use Rattle.conformance.specs.sessions.CallSpecs.{ActSpec, OnceSpec};
ghost use Rattle.session.specs.Attempts.{AnswersAct, AnswersOnce, MayBeMade, act_answer, once_answer};
ghost use Rattle.session.specs.Resting.{Calls, IsBlankOf, IsReady};
ghost use Rattle.session.specs.SessionWorlds.{IsActOf, IsEditOf, KnowsItself, of_world, session_view};

use crate::attempts::{EditAnswer, StaleRoot};
use crate::contexts::{CallContext, CallStart};
use crate::world::{Session, World};
use act_rebuilds::{ActMaker, AnyAct, BallAct, BoxAct, CopyAct, box_may_repeat, copy_may_repeat};
use conformance::{ActAnswer, OnceAnswer};
use gate_run::Gate;
use history_model::Act;
use node_words::Share;
use std::marker::Brand;
use std::sync::Wait;
use std::sync::ledger::Ledger;
use version_log::Pinned;
use vw_cell::{Ball, Boxed, Cell};

// To make a memo ready costs more than it saves in a ball of a smaller radius.
const FEW: u16 = 32;

fn act_answer(answer: EditAnswer) -> ActAnswer
    ensures { result ≡ act_answer answer }
{
    match answer {
        EditAnswer::Done { n } => ActAnswer::Done { n },
        EditAnswer::Full { at, full } => ActAnswer::Full { at, full },
        EditAnswer::LogFull => ActAnswer::LogFull,
    }
}

fn once_answer(answer: EditAnswer) -> OnceAnswer
    ensures { result ≡ once_answer answer }
{
    match answer {
        EditAnswer::Done { n } => OnceAnswer::Done { n },
        EditAnswer::Full { at, full } => OnceAnswer::Full { at, full },
        EditAnswer::LogFull => OnceAnswer::LogFull,
    }
}

// The share of what was pinned.
fn taken(p: Pinned) -> Option<Share>
    ensures { result ≡ p.root }
{
    let Pinned {
        version: _,
        moment: _,
        root,
    } = p;
    root
}

impl World {
    /// Carries the act out, as the newest record. An edit whose first attempt comes too late is
    /// made again while no other session commits, so this is never `Stale`.
    ///
    /// It passes the gate between the first attempt and its commit.
    pub fn act<R: Wait, G: Gate>(
        &self,
        rt: &R,
        s: &mut Session,
        line: u32,
        act: &Act,
        gate: &G,
    ) -> ActAnswer
        requires ready { IsReady self.now.table most_before_call s.old }
        requires fits { IsActOf self.now act.now }
        ensures calls { Calls self.now.table s.old s.new }
        ensures told { (number : ℕ) → s.old.view.numbers ≡ number ∷ [] → ActSpec
            (of_world self.now number) line act.now (session_view s.old.view)
            (session_view s.new.view) result }
        ensures knows { KnowsItself s.new.view }
    {
        let start = CallStart::new(rt, gate);
        let answer = self.act_on::<R, G, Brand>(s, start, line, act);
        s.tell();
        answer
    }

    fn act_on<R: Wait, G: Gate, L: Ledger>(
        &self,
        s: &mut Session,
        start: CallStart<'_, R, G>,
        line: u32,
        act: &Act,
    ) -> ActAnswer
        requires ready { IsReady self.now.table most_before_call s.old }
        requires fits { IsActOf self.now act.now }
        requires blank { IsBlankOf start.blank.name start.blank.parts L.name L.parts }
        ensures calls { Calls self.now.table s.old s.new }
        ensures told { AnswersAct self.now line act.now result s.old.view s.new.view }
    {
        let mut call = start.open::<L>();
        self.carry_out(s, &mut call, line, act)
    }

    fn carry_out<R: Wait, G: Gate, L: Ledger>(
        &self,
        s: &mut Session,
        call: &mut CallContext<'_, R, G, L>,
        line: u32,
        act: &Act,
    ) -> ActAnswer
        requires ready { IsReady self.now.table most_before_call s.old }
        requires fits { IsActOf self.now act.now }
        ensures calls { Calls self.now.table s.old s.new }
        ensures told { AnswersAct self.now line act.now result s.old.view s.new.view }
    {
        match act {
            Act::Undo | Act::Redo => self.go(s, call, line, act),
            Act::Fill(b) => self.edit_box(s, call, line, act, *b, true),
            Act::Erase(b) => self.edit_box(s, call, line, act, *b, false),
            Act::Ball(ball) => self.edit_ball(s, call, line, act, ball, true),
            Act::Carve(ball) => self.edit_ball(s, call, line, act, ball, false),
            Act::Copy(from, to) => self.edit_copy(s, call, line, act, *from, *to),
            Act::Stamp(_, _) | Act::Tint(_) => self.edit_anew(s, call, line, act),
        }
    }

    // An edit that is made anew of each root. Too late, all of its attempt has gone back before it
    // is made again.
    fn edit_anew<R: Wait, G: Gate, L: Ledger>(
        &self,
        s: &mut Session,
        call: &mut CallContext<'_, R, G, L>,
        line: u32,
        act: &Act,
    ) -> ActAnswer
        requires ready { IsReady self.now.table most_before_call s.old }
        requires edit { IsEditOf self.now act.now }
        ensures calls { Calls self.now.table s.old s.new }
        ensures told { AnswersAct self.now line act.now result s.old.view s.new.view }
    {
        match self.attempt_anew(s, call, line, act) {
            OnceAnswer::Done { n } => ActAnswer::Done { n },
            OnceAnswer::Full { at, full } => ActAnswer::Full { at, full },
            OnceAnswer::LogFull => ActAnswer::LogFull,
            OnceAnswer::Stale { at: _, base: _ } => self.surely_anew(s, call, line, act),
        }
    }

    // An edit that is made anew, under the log's turn.
    fn surely_anew<R: Wait, G, L: Ledger>(
        &self,
        s: &mut Session,
        call: &mut CallContext<'_, R, G, L>,
        line: u32,
        act: &Act,
    ) -> ActAnswer
        requires ready { IsReady self.now.table most_before_call s.old }
        requires edit { IsEditOf self.now act.now }
        ensures calls { Calls self.now.table s.old s.new }
        ensures told { AnswersAct self.now line act.now result s.old.view s.new.view }
    {
        let mut maker = AnyAct {
            models: &self.drawn,
            edit: *act,
        };
        act_answer(self.edit_surely(s, call, line, &mut maker))
    }

    // A box. Of a large one the second attempt takes over what the first one made.
    fn edit_box<R: Wait, G: Gate, L: Ledger>(
        &self,
        s: &mut Session,
        call: &mut CallContext<'_, R, G, L>,
        line: u32,
        act: &Act,
        b: Boxed,
        set: bool,
    ) -> ActAnswer
        requires ready { IsReady self.now.table most_before_call s.old }
        requires act { act.now ≡ box_act set b }
        requires edit { IsEditOf self.now act.now }
        ensures calls { Calls self.now.table s.old s.new }
        ensures told { AnswersAct self.now line act.now result s.old.view s.new.view }
    {
        if !box_may_repeat(b.size, self.plan().side()) {
            return self.edit_anew(s, call, line, act);
        }
        let mut maker = BoxAct::new(&self.drawn, b, set);
        self.edit(s, call, line, act, &mut maker)
    }

    // A ball, and so of a large one.
    fn edit_ball<R: Wait, G: Gate, L: Ledger>(
        &self,
        s: &mut Session,
        call: &mut CallContext<'_, R, G, L>,
        line: u32,
        act: &Act,
        ball: &Ball,
        set: bool,
    ) -> ActAnswer
        requires ready { IsReady self.now.table most_before_call s.old }
        requires act { act.now ≡ ball_act set ball.now }
        requires edit { IsEditOf self.now act.now }
        ensures calls { Calls self.now.table s.old s.new }
        ensures told { AnswersAct self.now line act.now result s.old.view s.new.view }
    {
        if ball.radius < FEW {
            return self.edit_anew(s, call, line, act);
        }
        let mut maker = BallAct::new(&self.drawn, ball, set);
        self.edit(s, call, line, act, &mut maker)
    }

    // A copy, and so of a large one.
    fn edit_copy<R: Wait, G: Gate, L: Ledger>(
        &self,
        s: &mut Session,
        call: &mut CallContext<'_, R, G, L>,
        line: u32,
        act: &Act,
        from: Boxed,
        to: Cell,
    ) -> ActAnswer
        requires ready { IsReady self.now.table most_before_call s.old }
        requires act { act.now ≡ Copy from to }
        requires edit { IsEditOf self.now act.now }
        ensures calls { Calls self.now.table s.old s.new }
        ensures told { AnswersAct self.now line act.now result s.old.view s.new.view }
    {
        if !copy_may_repeat(from.size) {
            return self.edit_anew(s, call, line, act);
        }
        let mut maker = CopyAct::new(&self.drawn, from, to);
        self.edit(s, call, line, act, &mut maker)
    }

    // An edit whose second attempt, under the log's turn, takes over what the first one made, which
    // stays held for that. Where a bucket is full then, all goes back and it is made once more.
    fn edit<M: ActMaker, R: Wait, G: Gate, L: Ledger>(
        &self,
        s: &mut Session,
        call: &mut CallContext<'_, R, G, L>,
        line: u32,
        act: &Act,
        maker: &mut M,
    ) -> ActAnswer
        requires ready { IsReady self.now.table most_before_call s.old }
        requires fits { IsActOf self.now act.now }
        requires act { M.act maker.old ≡ act.now }
        requires maker { MayBeMade self.now.table (M.drawn maker.old) (M.act maker.old)
            (M.recalls maker.old s.old.view.held) }
        ensures calls { Calls self.now.table s.old s.new }
        ensures told { AnswersAct self.now line act.now result s.old.view s.new.view }
    {
        let base = self.pin_head(s, call);
        match self.attempt(s, call, &base, line, maker) {
            Ok(answer) => {
                self.give_root(s, call, taken(base));
                act_answer(answer)
            }
            Err(StaleRoot { at: _, root }) => {
                let answer = self.edit_surely(s, call, line, maker);
                self.give_root(s, call, root);
                self.give_root(s, call, taken(base));
                match answer {
                    EditAnswer::Full { .. } => self.surely_anew(s, call, line, act),
                    _ => act_answer(answer),
                }
            }
        }
    }

    // One attempt at an edit, of which nothing stays held.
    fn attempt_anew<R: Wait, G: Gate, L: Ledger>(
        &self,
        s: &mut Session,
        call: &mut CallContext<'_, R, G, L>,
        line: u32,
        act: &Act,
    ) -> OnceAnswer
        requires ready { IsReady self.now.table most_before_call s.old }
        requires edit { IsEditOf self.now act.now }
        ensures calls { Calls self.now.table s.old s.new }
        ensures told { AnswersOnce self.now line act.now result s.old.view s.new.view }
    {
        let mut maker = AnyAct {
            models: &self.drawn,
            edit: *act,
        };
        let base = self.pin_head(s, call);
        let moment = base.moment;
        match self.attempt(s, call, &base, line, &mut maker) {
            Ok(answer) => {
                self.give_root(s, call, taken(base));
                once_answer(answer)
            }
            Err(StaleRoot { at, root }) => {
                self.give_root(s, call, root);
                self.give_root(s, call, taken(base));
                OnceAnswer::Stale { at, base: moment }
            }
        }
    }

    /// Attempts the edit once.
    pub fn act_once<R: Wait, G: Gate>(
        &self,
        rt: &R,
        s: &mut Session,
        line: u32,
        act: &Act,
        gate: &G,
    ) -> OnceAnswer
        requires ready { IsReady self.now.table most_before_call s.old }
        requires edit { IsEditOf self.now act.now }
        ensures calls { Calls self.now.table s.old s.new }
        ensures told { (number : ℕ) → s.old.view.numbers ≡ number ∷ [] → OnceSpec
            (of_world self.now number) line act.now (session_view s.old.view)
            (session_view s.new.view) result }
        ensures knows { KnowsItself s.new.view }
    {
        let start = CallStart::new(rt, gate);
        let answer = self.act_once_on::<R, G, Brand>(s, start, line, act);
        s.tell();
        answer
    }

    fn act_once_on<R: Wait, G: Gate, L: Ledger>(
        &self,
        s: &mut Session,
        start: CallStart<'_, R, G>,
        line: u32,
        act: &Act,
    ) -> OnceAnswer
        requires ready { IsReady self.now.table most_before_call s.old }
        requires edit { IsEditOf self.now act.now }
        requires blank { IsBlankOf start.blank.name start.blank.parts L.name L.parts }
        ensures calls { Calls self.now.table s.old s.new }
        ensures told { AnswersOnce self.now line act.now result s.old.view s.new.view }
    {
        let mut call = start.open::<L>();
        self.attempt_anew(s, &mut call, line, act)
    }
}
