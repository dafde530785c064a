//! The roots of versions, each with a share that is held.
ghost use Rattle.std.specs.Prelude.{◌≡◌, IfOk};
ghost use Rattle.one_store.specs.Known.{known_state};
ghost use Rattle.store_run.specs.Kept.{log_of, plan_of, AreStoredVersions, HoldsNothing};
ghost use Rattle.store_run.specs.Marked.{HoldsVersions};

use crate::lent_roots::take_root;
use crate::stored_versions::Versions;
use node_words::Share;
use one_store::OneStore;
use std::alloc::Global;
use vw_cell::Memory;

/// Versions by rising number, each with its root, and the store that holds a share of each.
pub struct HeldRoots {
    pub store: OneStore,
    pub roots: Vec<(u32, Option<Share>)>,
}

impl Versions {
    // The roots of the versions that are kept leave their places.
    #[tactic(auto, using(crate::proofs::Taken::taken_few, crate::proofs::Taken::none_taken, crate::proofs::Taken::all_taken))]
    pub(crate) fn held_roots(self, alloc: Global) -> Result<HeldRoots, Memory>
        requires are { AreStoredVersions self }
        requires free { HoldsNothing self.store }
        ensures side { IfOk result (λ h. h.store.words.plan ≡ plan_of self) }
        ensures roots { IfOk result (λ h. HoldsVersions (plan_of self).side self.models.models
            (log_of self) (known_state h.store).held h.roots.items) }
    {
        let versions = self.records.len() + 1;
        let roots = Vec::with_capacity(alloc, versions)?;
        let Versions { store, marks, .. } = self;
        let mut held = HeldRoots { store, roots };
        for version in 0..versions {
            take_root(
                &mut held.store,
                version as u32,
                marks[version],
                &mut held.roots,
            );
        }
        Ok(held)
    }
}

impl HeldRoots {
    /// Gives up the roots, and the store with them.
    pub fn give_up(self) {
        let HeldRoots { store: _, roots } = self;
        let mut roots = roots.into_iter();
        while let Some(item) = roots.next() {
            let (_, root) = item;
            if let Some(share) = root {
                let _name = share.spend();
            }
        }
        roots.destroy_empty();
    }
}
