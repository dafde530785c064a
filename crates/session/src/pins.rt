//! Versions that are pinned, and what goes back.
ghost use Rattle.std.specs.Prelude.{◌≡◌, ◌+◌};
ghost use Rattle.edit_walk.specs.blocks.Blocks.{ReturnsShare, MayGoBack};
ghost use Rattle.node_words.specs.Held.{most_before_call, most_before_release};
ghost use Rattle.version_log.specs.Pins.{IsPinned};
ghost use Rattle.version_log.specs.Roots.{GetsRoot};
ghost use Rattle.version_log.specs.Seeing.{OnlyReadsLog};
ghost use Rattle.session.specs.Attempts.{HasPinnedHead, PinCame};
ghost use Rattle.session.specs.Resting.{ReturnsAtRest, IsBlankOf, IsReady};
ghost use Rattle.session.specs.SessionWorlds.{KnowsItself, session_view};

use crate::contexts::{CallContext, CallStart};
use crate::world::{Session, World};
use node_words::Share;
use std::marker::Brand;
use std::sync::Wait;
use std::sync::ledger::Ledger;
use version_log::{PinRefused, Pinned, pins_stay_and_tell};

impl World {
    /// Pins this version, or the newest: it is kept as long as it isn't given back by `unpin`.
    pub fn pin<R: Wait>(
        &self,
        rt: &R,
        s: &mut Session,
        version: Option<u32>,
    ) -> Result<Pinned, PinRefused>
        requires ready { IsReady self.now.table most_before_call s.old }
        ensures back { ReturnsAtRest self.now.table s.old s.new }
        ensures looks { OnlyReadsLog s.old.view s.new.view }
        ensures came { PinCame version result s.old.view s.new.view }
        ensures knows { KnowsItself s.new.view }
    {
        let start = CallStart::new(rt, &());
        let answer = self.pin_on::<R, Brand>(s, start, version);
        s.tell();
        answer
    }

    fn pin_on<R: Wait, L: Ledger>(
        &self,
        s: &mut Session,
        start: CallStart<'_, R, ()>,
        version: Option<u32>,
    ) -> Result<Pinned, PinRefused>
        requires ready { IsReady self.now.table most_before_call s.old }
        requires blank { IsBlankOf start.blank.name start.blank.parts L.name L.parts }
        ensures back { ReturnsAtRest self.now.table s.old s.new }
        ensures looks { OnlyReadsLog s.old.view s.new.view }
        ensures came { PinCame version result s.old.view s.new.view }
    {
        let mut call = start.open::<L>();
        version_log::pin(call.rt, &self.table, s, version, &mut call.steps)
    }

    /// Gives back what was pinned.
    pub fn unpin<R: Wait>(&self, rt: &R, s: &mut Session, p: Pinned)
        requires ready { IsReady self.now.table (most_before_call + 1) s.old }
        requires pinned { IsPinned s.old.view p }
        ensures back { ReturnsAtRest self.now.table s.old s.new }
        ensures seen { session_view s.new.view ≡ session_view s.old.view }
        ensures gone { ReturnsShare p.root s.old.view.held s.new.view.held }
        ensures knows { KnowsItself s.new.view }
    {
        let Pinned {
            version: _,
            moment: _,
            root,
        } = p;
        let start = CallStart::new(rt, &());
        self.unpin_on::<R, Brand>(s, start, root);
        s.tell();
    }

    fn unpin_on<R: Wait, L: Ledger>(
        &self,
        s: &mut Session,
        start: CallStart<'_, R, ()>,
        root: Option<Share>,
    )
        requires ready { IsReady self.now.table most_before_release s.old }
        requires held { MayGoBack s.old.view.held root }
        requires blank { IsBlankOf start.blank.name start.blank.parts L.name L.parts }
        ensures back { ReturnsAtRest self.now.table s.old s.new }
        ensures seen { session_view s.new.view ≡ session_view s.old.view }
        ensures gone { ReturnsShare root s.old.view.held s.new.view.held }
    {
        let mut call = start.open::<L>();
        self.give_root(s, &mut call, root);
    }

    // Gives back what may be a root.
    pub(crate) fn give_root<R: Wait, G, L: Ledger>(
        &self,
        s: &mut Session,
        call: &mut CallContext<'_, R, G, L>,
        root: Option<Share>,
    )
        requires ready { IsReady self.now.table most_before_release s.old }
        requires held { MayGoBack s.old.view.held root }
        ensures back { ReturnsAtRest self.now.table s.old s.new }
        ensures seen { session_view s.new.view ≡ session_view s.old.view }
        ensures gone { ReturnsShare root s.old.view.held s.new.view.held }
    {
        self.give_back(s, call, root);
    }

    // Pins the newest version.
    pub(crate) fn pin_head<R: Wait, G, L: Ledger>(
        &self,
        s: &mut Session,
        call: &mut CallContext<'_, R, G, L>,
    ) -> Pinned
        requires ready { IsReady self.now.table most_before_call s.old }
        ensures back { ReturnsAtRest self.now.table s.old s.new }
        ensures looks { OnlyReadsLog s.old.view s.new.view }
        ensures head { HasPinnedHead s.new.view result }
        ensures gains { GetsRoot s.old.view.held result.root s.new.view.held }
    {
        pins_stay_and_tell();
        match version_log::pin(call.rt, &self.table, s, None, &mut call.steps) {
            Ok(base) => base,
            Err(_) => unreachable!(),
        }
    }
}
