ghost use Rattle.std.specs.Prelude.{◌≡◌, None, Some};
ghost use Rattle.voxdag_c.specs.held.Holding.{is_there, IsHeldBy};

use crate::held::kept::WorldPtr;
use crate::held::worlds::CWorld;
use std::alloc::Global;
use std::mem::replace;

/// What C holds of a world between two calls. All bytes 0 is a handle that holds none.
#[repr(C)]
pub struct Handle {
    is_open: bool,
    pub kept: WorldPtr,
    pub ghost says: { is_open ≡ is_there kept.value },
}

impl Handle {
    /// The world, which the handle has no longer.
    pub fn take(&mut self, alloc: Global) -> Option<Box<CWorld, Global>>
        ensures gone { self.new.kept.value ≡ None }
        ensures taken { IsHeldBy self.old.kept.value result }
    {
        let closed = Handle {
            is_open: false,
            kept: WorldPtr::none(alloc),
        };
        let Handle { is_open, kept } = replace(self, closed);
        if is_open {
            Some(kept.into_box())
        } else {
            kept.let_go();
            None
        }
    }

    /// The world comes to a handle that has none.
    pub fn put(&mut self, world: Box<CWorld, Global>)
        requires { self.old.kept.value ≡ None }
        ensures { self.new.kept.value ≡ Some world.value }
    {
        let open = Handle {
            is_open: true,
            kept: WorldPtr::of(world),
        };
        let Handle { is_open: _, kept } = replace(self, open);
        kept.let_go();
    }
}

fn crosses<T: Send>() {}

/// A handle may go to another thread, which is for whoever orders its calls.
pub fn handles_cross() {
    crosses::<Handle>()
}
