//! Versions are forgotten.
ghost use Rattle.std.specs.Prelude.{◌≡◌, ◌≤◌, ◌∷◌, [], ℕ};
ghost use Rattle.node_words.specs.shapes.Weights.{number_of_trees};
ghost use Rattle.edit_walk.specs.blocks.Blocks.{ReturnsShare, MayGoBack};
ghost use Rattle.node_words.specs.Held.{OnlyHeldChanges, most_before_call, most_before_release};
ghost use Rattle.table_rule.specs.Views.{seen_of};
ghost use Rattle.session.specs.Lendable.{IsLendable, StaysLendable};
ghost use Rattle.conformance.specs.sessions.CallSpecs.{ForgetSpec};
ghost use Rattle.session.specs.Resting.{Calls, IsBlankOf, IsReady};
ghost use Rattle.session.specs.SessionWorlds.{KnowsItself, of_world, session_view};

use crate::contexts::{CallContext, CallStart};
use crate::world::{Session, World};
use edit_walk::back_if;
use node_words::Share;
use std::marker::Brand;
use std::sync::Wait;
use std::sync::ledger::Ledger;
use version_log::ForgetRefused;

impl World {
    // Gives back what may be a root.
    pub(crate) fn give_back<R: Wait, G, L: Ledger>(
        &self,
        s: &mut Session,
        call: &mut CallContext<'_, R, G, L>,
        root: Option<Share>,
    )
        requires ready { IsLendable self.now.table s.old }
        requires held { MayGoBack s.old.view.held root }
        requires room { number_of_trees s.old.view.held ≤ most_before_release }
        ensures stays { StaysLendable self.now.table s.old s.new }
        ensures gone { ReturnsShare root s.old.view.held s.new.view.held }
        ensures only { OnlyHeldChanges (seen_of s.old.view) (seen_of s.new.view) }
    {
        let mut hand = self.hand(call.rt, s);
        back_if(&mut hand, root, &mut call.steps);
    }

    /// Forgets the version, by this line. The log's share of its root is given back.
    pub fn forget<R: Wait>(
        &self,
        rt: &R,
        s: &mut Session,
        line: u32,
        version: u32,
    ) -> Result<u32, ForgetRefused>
        requires ready { IsReady self.now.table most_before_call s.old }
        ensures calls { Calls self.now.table s.old s.new }
        ensures told { (number : ℕ) → s.old.view.numbers ≡ number ∷ [] → ForgetSpec
            (of_world self.now number) line version (session_view s.old.view)
            (session_view s.new.view) result }
        ensures knows { KnowsItself s.new.view }
    {
        let start = CallStart::new(rt, &());
        let answer = self.forget_on::<R, Brand>(s, start, line, version);
        s.tell();
        answer
    }

    fn forget_on<R: Wait, L: Ledger>(
        &self,
        s: &mut Session,
        start: CallStart<'_, R, ()>,
        line: u32,
        version: u32,
    ) -> Result<u32, ForgetRefused>
        requires ready { IsReady self.now.table most_before_call s.old }
        requires blank { IsBlankOf start.blank.name start.blank.parts L.name L.parts }
        ensures calls { Calls self.now.table s.old s.new }
        ensures told { (number : ℕ) → s.old.view.numbers ≡ number ∷ [] → ForgetSpec
            (of_world self.now number) line version (session_view s.old.view)
            (session_view s.new.view) result }
    {
        let mut call = start.open::<L>();
        match version_log::forget(call.rt, &self.table, s, version, line) {
            Ok(version_log::Forgot { at, root }) => {
                self.give_back(s, &mut call, root);
                Ok(at)
            }
            Err(refused) => Err(refused),
        }
    }
}
