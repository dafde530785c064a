ghost use Rattle.std.specs.Prelude.{◌≡◌, ◌-◌, ◌<◌, ◌≤◌, ℕ};
ghost use Rattle.edit_walk.specs.cells.Tasks.{MakesCells};
ghost use Rattle.edit_walk.specs.Octants.{octant_task, AreOctantTasks};

use crate::cells::Task;
use node_words::{Blocks, octant_names};

/// The tasks of a block's octants, in their order.
#[derive(Clone, Copy)]
pub(crate) struct Octants<T>(T, T, T, T, T, T, T, T);

impl<T: Task> Octants<T> {
    // All are told side by side, before any of these blocks is built: the names of the octants are
    // read once for all, and what the tasks say of the block's halves is one thing. The task comes
    // by value, so that no read of the store stands between reads of it.
    #[inline(always)]
    pub(crate) fn of<B: Blocks>(store: &mut B, level: u8, task: T) -> Octants<T>
        requires level { 1 ≤ level }
        requires task { MakesCells (T.makes task) (B.seen store.old).held level }
        ensures tasks { AreOctantTasks T.makes (B.seen store.old).held level task result }
        ensures mixed { (k : ℕ) → k < 8
            → T.mixed (level - 1) (octant_task result k) ≤ T.mixed_in level task k }
        ensures seen { B.seen store.new ≡ B.seen store.old }
        ensures rests { B.rests store.old store.new }
    {
        let old = octant_names(store, level, task.old());
        let a = task.octant(store, level, 0, old[0]);
        let b = task.octant(store, level, 1, old[1]);
        let c = task.octant(store, level, 2, old[2]);
        let d = task.octant(store, level, 3, old[3]);
        let e = task.octant(store, level, 4, old[4]);
        let f = task.octant(store, level, 5, old[5]);
        let g = task.octant(store, level, 6, old[6]);
        let h = task.octant(store, level, 7, old[7]);
        Octants(a, b, c, d, e, f, g, h)
    }

    // The task of octant k.
    #[inline(always)]
    pub(crate) fn at(&self, k: usize) -> &T
        requires { k < 8 }
        ensures { result.now ≡ octant_task self.now k }
    {
        match k {
            0 => &self.0,
            1 => &self.1,
            2 => &self.2,
            3 => &self.3,
            4 => &self.4,
            5 => &self.5,
            6 => &self.6,
            _ => &self.7,
        }
    }
}
