//! The set cells of versions that are pinned, and their files.
ghost use Rattle.std.specs.Prelude.{◌≡◌, ◌++◌, true, IfOk, OnErr, OnOk, option_copied};
ghost use Rattle.node_words.specs.descent.Roots.{ForWorld, HoldsRoot};
ghost use Rattle.table_rule.specs.LogFacts.{seen_has};
ghost use Rattle.session.specs.Lendable.{IsLendable};
ghost use Rattle.version_log.specs.declared.answers.Pinned.{Pinned};
ghost use Rattle.version_log.specs.Pins.{IsPinned};
ghost use Rattle.session.specs.Resting.{IsAtRest, IsLentToRead, IsOnlyRead};
ghost use Rattle.session.specs.Roots.{stored_file, stored_voxels};
ghost use Rattle.session.specs.SessionWorlds.{KnowsItself, MayBeListed};

use crate::world::{Session, World};
use act_rebuilds::tints_in;
use extract::cells_in;
use node_words::Share;
use std::alloc::Global;
use version_log::Pinned;
use vox_read::Voxel;
use vox_write::write_model;
use vw_cell::{Boxed, Memory};

impl World {
    // The set cells of a box, each with its tint, of the world whose tints the store of a root
    // keeps.
    fn tints_of_root(
        &self,
        s: &mut Session,
        root: Option<&Share>,
        part: Boxed,
        into: &mut Vec<Voxel>,
    ) -> Result<(), Memory>
        requires ready { IsLendable self.now.table s.old }
        requires tint { self.now.tint ≡ true }
        requires root { HoldsRoot s.old.view.held self.now.table.plan.side (option_copied root) }
        requires part { MayBeListed self.now part }
        ensures read { IsLentToRead self.now.table s.old s.new }
        ensures voxels { OnOk result
            (ForWorld s.old.view.held self.now.table.plan.side (option_copied root.entry)
            (λ cells. into.new.items ≡ into.old.items
            ++ stored_voxels true self.now.table.plan.side part cells)) }
        ensures memory { OnErr result (into.new.items ≡ into.old.items) }
    {
        let side = self.table.plan().side();
        let mut hand = self.hand(&(), s);
        tints_in(&mut hand, root, side, part, into)
    }

    // The set cells of a box by a root that the session holds. It takes no turn and waits for
    // nobody.
    fn cells_of_root(
        &self,
        s: &mut Session,
        root: Option<&Share>,
        part: Boxed,
        into: &mut Vec<Voxel>,
    ) -> Result<(), Memory>
        requires ready { IsLendable self.now.table s.old }
        requires root { HoldsRoot s.old.view.held self.now.table.plan.side (option_copied root) }
        requires part { MayBeListed self.now part }
        ensures read { IsLentToRead self.now.table s.old s.new }
        ensures voxels { OnOk result
            (ForWorld s.old.view.held self.now.table.plan.side (option_copied root.entry)
            (λ cells. into.new.items ≡ into.old.items
            ++ stored_voxels self.now.tint self.now.table.plan.side part cells)) }
        ensures memory { OnErr result (into.new.items ≡ into.old.items) }
    {
        if self.tint {
            return self.tints_of_root(s, root, part, into);
        }
        let side = self.table.plan().side();
        let mut hand = self.hand(&(), s);
        cells_in(&mut hand, root, side, part, into)
    }

    // The file of a box by a root that the session holds.
    pub(crate) fn file_of_root(
        &self,
        alloc: Global,
        s: &mut Session,
        root: Option<&Share>,
        part: Boxed,
    ) -> Result<Vec<u8>, Memory>
        requires ready { IsLendable self.now.table s.old }
        requires root { HoldsRoot s.old.view.held self.now.table.plan.side (option_copied root) }
        requires part { MayBeListed self.now part }
        ensures read { IsLentToRead self.now.table s.old s.new }
        ensures file { IfOk result
            (λ file. ForWorld s.old.view.held self.now.table.plan.side (option_copied root.entry)
            (λ cells. file.items ≡ stored_file self.now.tint self.now.table.plan.side part cells)) }
    {
        let mut voxels = Vec::new(alloc);
        self.cells_of_root(s, root, part, &mut voxels)?;
        let mut file = Vec::new(alloc);
        write_model(part.size, voxels.as_slice(), &mut file)?;
        Ok(file)
    }

    /// Appends the set cells of a box of a version that is pinned, told from the box's corner, by
    /// rising z, then y, then x: with their tints as colours, or with colour 1 where cells have
    /// none. It takes no turn, and waits for nobody.
    pub fn cells_in(
        &self,
        s: &mut Session,
        p: &Pinned,
        part: Boxed,
        into: &mut Vec<Voxel>,
    ) -> Result<(), Memory>
        requires rest { IsAtRest self.now.table s.old }
        requires pinned { IsPinned s.old.view p.now }
        requires part { MayBeListed self.now part }
        ensures read { IsOnlyRead self.now.table s.old s.new }
        ensures voxels { OnOk result (into.new.items ≡ into.old.items
            ++ stored_voxels self.now.tint self.now.table.plan.side part
            (seen_has s.old.view p.now.version)) }
        ensures memory { OnErr result (into.new.items ≡ into.old.items) }
        ensures pinned { (q : Pinned) → IsPinned s.old.view q → IsPinned s.new.view q }
        ensures knows { KnowsItself s.new.view }
    {
        let listed = self.cells_of_root(s, p.root.as_ref(), part, into);
        s.tell();
        listed
    }
}
