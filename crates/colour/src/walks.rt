ghost use Rattle.std.specs.Prelude.{◌≡◌, ◌-◌, ◌<◌, ◌≤◌, ℕ, List, Option, option_copied};
ghost use Rattle.node_words.specs.declared.shapes.names.Name.{Name};
ghost use Rattle.edit_walk.specs.Edits.{MayEdit, Edits};
ghost use Rattle.edit_walk.specs.Memos.{RecallsHeld};
ghost use Rattle.node_words.specs.shapes.Tree.{Tree};
ghost use Rattle.node_words.specs.contents.CellShapes.{Cells};
ghost use Rattle.colour.specs.Walks.{root_octants, first_octants, bit_octants, makes_tint, CellEdit, all_planes, MakesPlanes};

use edit_walk::{Memo, Repeats, Task, Whole, leaf_bits, name_of, old_whole, rebuild_world};
use node_words::{Blocks, Full, Name, NodeStore, Share, Steps};
use std::sync::ledger::Ledger;
use vw_cell::Side;

/// What an act makes of each plane of a store of tints, as a task of the plane's block.
pub(crate) trait Planes<T: Task>: Copy {
    ghost task_of: { Self → ℕ → Option Name → T };

    /// The task of a plane, of which this is the old block.
    fn task(&self, plane: u8, old: Option<Name>) -> T
        requires plane { plane < 9 }
        ensures task { result ≡ task_of self.now plane old };
}

/// What an act makes of a block of a store of tints.
#[derive(Clone, Copy)]
pub(crate) enum TintTask<P, T> {
    /// The root.
    Root(Option<Name>, P),
    /// Octant 0 of the root, whose octant 0 is plane 0.
    Cells(Option<Name>, P),
    /// Octant 1 of the root, whose octants are the planes of the bits.
    Bits(Option<Name>, P),
    /// A block that is in no plane.
    Kept(Option<Name>),
    /// A block in a plane.
    Plane(T),
}

impl<P: Planes<T>, T: Task> Task for TintTask<P, T> {
    ghost use Rattle.edit_walk.specs.cells.Tasks.{blocks_in};
    ghost use Rattle.std.specs.Prelude.{◌-◌};
    ghost use Rattle.colour.specs.Walks.{makes_tint, tint_lasts, tint_was};

    ghost makes = { makes_tint P.task_of T.makes };

    ghost lasts = { tint_lasts P.task_of T.makes T.lasts };

    ghost mixed = { λ level t. blocks_in level };

    ghost mixed_in = { λ level t k. blocks_in (level - 1) };

    ghost was = { tint_was T.was };

    fn old(&self) -> Option<Name> {
        match self {
            TintTask::Root(old, _) => *old,
            TintTask::Cells(old, _) => *old,
            TintTask::Bits(old, _) => *old,
            TintTask::Kept(old) => *old,
            TintTask::Plane(task) => task.old(),
        }
    }

    #[inline(always)]
    fn octant<B: Blocks>(
        &self,
        store: &mut B,
        level: u8,
        octant: u8,
        old: Option<Name>,
    ) -> TintTask<P, T> {
        match self {
            TintTask::Root(_, planes) => root_octant(*planes, octant, old),
            TintTask::Cells(_, planes) => first_octant(*planes, octant, old),
            TintTask::Bits(_, planes) => bit_octant(*planes, octant, old),
            TintTask::Kept(_) => TintTask::Kept(old),
            TintTask::Plane(task) => TintTask::Plane(task.octant(store, level, octant, old)),
        }
    }

    fn whole(&self, level: u8) -> Whole {
        match self {
            TintTask::Root(_, _) => Whole::Mixed,
            TintTask::Cells(_, _) => Whole::Mixed,
            TintTask::Bits(_, _) => Whole::Mixed,
            TintTask::Kept(old) => old_whole(*old),
            TintTask::Plane(task) => task.whole(level),
        }
    }

    fn bits<B: Blocks>(&self, store: &mut B) -> u64 {
        match self {
            // These stand above the leaves.
            TintTask::Root(_, _) => 0,
            TintTask::Cells(_, _) => 0,
            TintTask::Bits(_, _) => 0,
            TintTask::Kept(old) => leaf_bits(store, *old),
            TintTask::Plane(task) => task.bits(store),
        }
    }
}

// What is made of an octant of the root, of which this is the old block.
fn root_octant<P: Planes<T>, T: Task>(planes: P, octant: u8, old: Option<Name>) -> TintTask<P, T>
    requires { octant < 8 }
    ensures { (base : List Tree) (level : ℕ) (cells : Cells)
        → root_octants P.task_of T.makes planes octant old base level cells
        → makes_tint P.task_of T.makes result base level cells }
{
    if octant == 0 {
        return TintTask::Cells(old, planes);
    }
    if octant == 1 {
        return TintTask::Bits(old, planes);
    }
    TintTask::Kept(old)
}

// The same of octant 0 of the root.
fn first_octant<P: Planes<T>, T: Task>(planes: P, octant: u8, old: Option<Name>) -> TintTask<P, T>
    requires { octant < 8 }
    ensures { (base : List Tree) (level : ℕ) (cells : Cells)
        → first_octants P.task_of T.makes planes octant old base level cells
        → makes_tint P.task_of T.makes result base level cells }
{
    if octant == 0 {
        return TintTask::Plane(planes.task(0, old));
    }
    TintTask::Kept(old)
}

// The same of octant 1 of the root.
fn bit_octant<P: Planes<T>, T: Task>(planes: P, octant: u8, old: Option<Name>) -> TintTask<P, T>
    requires { octant < 8 }
    ensures { (base : List Tree) (level : ℕ) (cells : Cells)
        → bit_octants P.task_of T.makes planes octant old base level cells
        → makes_tint P.task_of T.makes result base level cells }
{
    TintTask::Plane(planes.task(octant + 1, old))
}

impl<P: Planes<T>, T: Repeats> Repeats for TintTask<P, T> {
    #[inline(always)]
    fn is_same(&self, other: &TintTask<P, T>) -> bool {
        match self {
            TintTask::Plane(task) => match other {
                TintTask::Plane(kept) => task.is_same(kept),
                _ => false,
            },
            _ => false,
        }
    }

    #[inline(always)]
    fn place(&self, level: u8) -> usize {
        match self {
            TintTask::Plane(task) => task.place(level),
            _ => 0,
        }
    }
}

/// A share of the root of the store's world with each plane made by its task, in one walk. Blocks
/// of planes that are alike are made once, where the memo remembers them.
pub(crate) fn rebuild_planes<
    P: Planes<T>,
    T: Task,
    M: Memo<TintTask<P, T>>,
    N: NodeStore,
    L: Ledger,
>(
    store: &mut N,
    old: Option<&Share>,
    side: Side,
    planes: P,
    memo: &mut M,
    steps: &mut Steps<L>,
) -> Result<Option<Share>, Full>
    requires may { MayEdit 3910 (N.seen store.old) side (option_copied old) }
    requires large { 4 ≤ side }
    requires memo { RecallsHeld (makes_tint P.task_of T.makes) (N.seen store.old).held
        (M.has memo.old) }
    requires planes { (edit : CellEdit) × MakesPlanes P.task_of T.makes planes
        (N.seen store.old).held (side - 2 - 2) edit }
    ensures made { (edit : CellEdit) → MakesPlanes P.task_of T.makes planes
        (N.seen store.old).held (side - 2 - 2) edit
        → Edits (N.seen store.old) side (option_copied old.entry) (all_planes side edit) result
        (N.seen store.new) }
    ensures rests { N.rests store.old store.new }
{
    let task = TintTask::Root(name_of(old), planes);
    let _held = store.held();
    let _level = side.root_level();
    rebuild_world(store, side, &task, memo, steps)
}
