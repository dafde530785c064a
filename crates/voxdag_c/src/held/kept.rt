//! A box of the world as a pointer that C may keep, or no box.
ghost use Rattle.std.specs.Prelude.{◌≡◌, Option, None, Some, true};
ghost use Rattle.voxdag_c.specs.declared.held.worlds.CWorld.{CWorld};
ghost use Rattle.voxdag_c.specs.held.Owned.{ptr_owns, ptr_coded};
ghost use Rattle.voxdag_c.specs.held.Holding.{is_there};

use crate::held::parts::Parts;
use crate::held::worlds::CWorld;
use std::alloc::Global;
use std::marker::Model;
use std::ptr::null_mut;

#[repr(C)]
pub struct WorldPtr {
    at: *mut u8,
    alloc: Global,
    pub ghost value: { Option CWorld } by { ptr_coded },
}

impl Model for WorldPtr {
    ghost also_owns = { λ k. ptr_owns k.alloc k.at k.value };
}

impl WorldPtr {
    pub(crate) fn none(alloc: Global) -> WorldPtr
        ensures { result.value ≡ None }
    {
        WorldPtr {
            at: null_mut(),
            alloc,
        }
    }

    pub(crate) fn of(world: Box<CWorld, Global>) -> WorldPtr
        ensures { result.value ≡ Some world.value }
    {
        WorldPtr::of_parts(Parts::of(world))
    }

    pub(crate) fn into_box(self) -> Box<CWorld, Global>
        requires { is_there self.value ≡ true }
        ensures { Some result.value ≡ self.value }
    {
        self.into_parts().into_box()
    }

    pub(crate) fn let_go(self)
        requires { self.value ≡ None }
    {
        let WorldPtr { at: _, alloc: _ } = self;
    }

    fn of_parts(parts: Parts<CWorld, Global>) -> WorldPtr
        ensures { result.value ≡ Some parts.value }
    {
        let Parts { ptr, alloc } = parts;
        WorldPtr {
            at: ptr as *mut u8,
            alloc,
        }
    }

    fn into_parts(self) -> Parts<CWorld, Global>
        requires { is_there self.value ≡ true }
        ensures { Some result.value ≡ self.value }
    {
        let WorldPtr { at, alloc } = self;
        Parts {
            ptr: at as *mut CWorld,
            alloc,
        }
    }
}

// It may go to another thread, as a box of the world may.
unsafe impl Send for WorldPtr {}
