ghost use Rattle.std.specs.Prelude.{◌≡◌, ◌≢◌, ◌<◌, ◌≤◌, ◌+◌, ℕ, [], ◌∷◌, Some, None, IfOk, OnErr, OnOk, MatchOption};
ghost use Rattle.std.specs.Prelude.{length};
ghost use Rattle.core_laws.specs.contents.Versions.{IsUnmarked};
ghost use Rattle.core_laws.specs.LogEvents.{MayAppend};
ghost use Rattle.world_core.specs.Kept.{stored};
ghost use Rattle.world_core.specs.Lawful.{HoldsShares, HoldsAtMost};
ghost use Rattle.world_core.specs.Steps.{AppendsRoot, MarksRoot};
ghost use Rattle.world_core.specs.Stored.{IsStored, stored_state};

use crate::logs::{append, count, insert, place_for};
use crate::parts::Parts;
use history_model::{Mark, Record};
use node_words::Name;
use std::alloc::Global;
use vw_cell::Memory;

impl Parts<'_> {
    // How many records there are.
    pub(crate) fn moment(&self) -> u32
        requires { IsStored (stored self.now) }
        ensures number { result ≡ length self.now.history.records }
        ensures small { result ≤ 65535 }
    {
        count(&self.history) as u32
    }

    // The next record, and the root of the version that it makes.
    pub(crate) fn record(
        &mut self,
        alloc: Global,
        next: Record,
        root: Option<Name>,
    ) -> Result<(), Memory>
        requires stored { IsStored (stored self.old) }
        requires may { MayAppend self.old.plan self.old.models.now next root
            (stored_state (stored self.old)) }
        requires held { HoldsShares (stored_state (stored self.old)) next.session (root ∷ []) }
        ensures appends { OnOk result (AppendsRoot (stored self.old) next root (stored self.new)) }
        ensures unchanged { OnErr result (stored self.new ≡ stored self.old) }
    {
        let at = usize::from(next.session);
        let version = count(&self.history) + 1;
        let after = self.held[at].traded(alloc, &[root], &[])?;
        append(&mut self.history, next)?;
        self.roots[version] = root;
        self.held[at] = after;
        Ok(())
    }

    // The mark of an earlier version, whose root leaves.
    pub(crate) fn mark(&mut self, alloc: Global, mark: Mark) -> Result<Option<Name>, Memory>
        requires stored { IsStored (stored self.old) }
        requires earlier { mark.version < length self.old.history.records }
        requires now { mark.at ≡ length self.old.history.records }
        requires unmarked { IsUnmarked self.old.history.marks mark.version }
        requires room { HoldsAtMost (stored_state (stored self.old)) mark.session 4095 }
        ensures marks { IfOk result (λ root.
            MarksRoot (stored self.old) mark root (stored self.new)) }
        ensures unchanged { OnErr result (stored self.new ≡ stored self.old) }
    {
        let at = usize::from(mark.session);
        let place = place_for(&self.history, mark.version);
        let root = self.roots[mark.version as usize];
        let after = self.held[at].traded(alloc, &[], &[root])?;
        insert(&mut self.history, place, mark)?;
        self.roots[mark.version as usize] = None;
        self.held[at] = after;
        Ok(root)
    }
}
