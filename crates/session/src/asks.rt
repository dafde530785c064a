//! What is asked of a version.
ghost use Rattle.std.specs.Prelude.{◌≡◌, ◌^◌, true, ℕ, option_copied};
ghost use Rattle.node_words.specs.descent.Roots.{HoldsRoot};
ghost use Rattle.node_words.specs.Held.{most_before_call};
ghost use Rattle.session.specs.Lendable.{IsLendable};
ghost use Rattle.script.specs.Fitting.{QuestionFits};
ghost use Rattle.conformance.specs.Kinds.{is_resting};
ghost use Rattle.table_rule.specs.LogFacts.{seen_has};
ghost use Rattle.version_log.specs.declared.answers.Pinned.{Pinned};
ghost use Rattle.version_log.specs.Pins.{IsPinned};
ghost use Rattle.conformance.specs.sessions.CallSpecs.{AskSpec, AnswersStored};
ghost use Rattle.act_rebuilds.specs.questions.AnswersByRoots.{AnswersByRoot};
ghost use Rattle.session.specs.Resting.{Calls, IsAtRest, IsBlankOf, IsLentToRead, IsOnlyRead};
ghost use Rattle.session.specs.Resting.{IsReady};
ghost use Rattle.session.specs.Roots.{AnswersHeld};
ghost use Rattle.session.specs.SessionWorlds.{KnowsItself, of_world, session_view, side_seen};

use crate::contexts::CallStart;
use crate::world::{Session, World};
use act_rebuilds::{answer_tinted, tell};
use conformance::AskedAt;
use history_model::Question;
use node_words::Share;
use std::marker::Brand;
use std::sync::Wait;
use std::sync::ledger::Ledger;
use transcript::Answer;
use version_log::{PinRefused, Pinned};

impl World {
    // What is asked of the cells of the store, by a root that the session holds. It takes no turn
    // and waits for nobody.
    pub(crate) fn answer_cells(
        &self,
        s: &mut Session,
        root: Option<&Share>,
        question: Question,
    ) -> Answer
        requires ready { IsLendable self.now.table s.old }
        requires root { HoldsRoot s.old.view.held self.now.table.plan.side (option_copied root) }
        requires fits { QuestionFits (2 ^ self.now.table.plan.side) question }
        ensures read { IsLentToRead self.now.table s.old s.new }
        ensures tells { AnswersByRoot s.old.view.held self.now.table.plan.side
            (option_copied root.entry) question result }
        ensures resting { is_resting result ≡ true }
    {
        let side = self.table.plan().side();
        let mut hand = self.hand(&(), s);
        tell(&mut hand, root, side, question)
    }

    // The same of the tints that they keep.
    fn answer_tints(&self, s: &mut Session, root: Option<&Share>, question: Question) -> Answer
        requires ready { IsLendable self.now.table s.old }
        requires tint { self.now.tint ≡ true }
        requires root { HoldsRoot s.old.view.held self.now.table.plan.side (option_copied root) }
        requires fits { QuestionFits (side_seen self.now) question }
        ensures read { IsLentToRead self.now.table s.old s.new }
        ensures tells { AnswersHeld true s.old.view.held self.now.table.plan.side
            (option_copied root.entry) question result }
        ensures resting { is_resting result ≡ true }
    {
        let side = self.table.plan().side();
        let mut hand = self.hand(&(), s);
        answer_tinted(&mut hand, root, side, question)
    }

    // What is asked of the world, by a root that the session holds.
    fn answer_root(&self, s: &mut Session, root: Option<&Share>, question: Question) -> Answer
        requires ready { IsLendable self.now.table s.old }
        requires root { HoldsRoot s.old.view.held self.now.table.plan.side (option_copied root) }
        requires fits { QuestionFits (side_seen self.now) question }
        ensures read { IsLentToRead self.now.table s.old s.new }
        ensures tells { AnswersHeld self.now.tint s.old.view.held self.now.table.plan.side
            (option_copied root.entry) question result }
        ensures resting { is_resting result ≡ true }
    {
        if self.tint {
            self.answer_tints(s, root, question)
        } else {
            self.answer_cells(s, root, question)
        }
    }

    /// The answer to a question about the world at a version that is pinned. Where its cells have
    /// no tints, each set one has tint 1. It takes no turn, and waits for nobody.
    pub fn ask(&self, s: &mut Session, p: &Pinned, question: &Question) -> Answer
        requires rest { IsAtRest self.now.table s.old }
        requires pinned { IsPinned s.old.view p.now }
        requires fits { QuestionFits (side_seen self.now) question.now }
        ensures read { IsOnlyRead self.now.table s.old s.new }
        ensures tells { AnswersStored self.now.tint (2 ^ self.now.table.plan.side)
            (seen_has s.old.view p.now.version) question.now result }
        ensures pinned { (q : Pinned) → IsPinned s.old.view q → IsPinned s.new.view q }
        ensures knows { KnowsItself s.new.view }
    {
        let answer = self.answer_root(s, p.root.as_ref(), *question);
        s.tell();
        answer
    }

    /// Answers the question about this version, or about the newest. The version is pinned while
    /// its root is walked.
    pub fn ask_version<R: Wait>(
        &self,
        rt: &R,
        s: &mut Session,
        version: Option<u32>,
        question: Question,
    ) -> Result<AskedAt, PinRefused>
        requires ready { IsReady self.now.table most_before_call s.old }
        requires fits { QuestionFits (side_seen self.now) question }
        ensures calls { Calls self.now.table s.old s.new }
        ensures told { (number : ℕ) → AskSpec (of_world self.now number) version question
            (session_view s.old.view) (session_view s.new.view) result }
        ensures knows { KnowsItself s.new.view }
    {
        let start = CallStart::new(rt, &());
        let answer = self.ask_on::<R, Brand>(s, start, version, question);
        s.tell();
        answer
    }

    fn ask_on<R: Wait, L: Ledger>(
        &self,
        s: &mut Session,
        start: CallStart<'_, R, ()>,
        version: Option<u32>,
        question: Question,
    ) -> Result<AskedAt, PinRefused>
        requires ready { IsReady self.now.table most_before_call s.old }
        requires fits { QuestionFits (side_seen self.now) question }
        requires blank { IsBlankOf start.blank.name start.blank.parts L.name L.parts }
        ensures calls { Calls self.now.table s.old s.new }
        ensures told { (number : ℕ) → AskSpec (of_world self.now number) version question
            (session_view s.old.view) (session_view s.new.view) result }
    {
        let mut call = start.open::<L>();
        match version_log::pin(call.rt, &self.table, s, version, &mut call.steps) {
            Ok(
                Pinned {
                    version: _,
                    moment,
                    root,
                },
            ) => {
                let answer = self.answer_root(s, root.as_ref(), question);
                self.give_back(s, &mut call, root);
                Ok(AskedAt { at: moment, answer })
            }
            Err(refused) => Err(refused),
        }
    }
}
