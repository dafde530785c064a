ghost use Rattle.std.specs.Prelude.{◌≡◌, None, Some};
ghost use Rattle.voxdag_c.specs.held.Holding.{is_there, IsHeldBy};

use crate::held::file_ptr::FilePtr;
use crate::held::files::CFile;
use std::alloc::Global;
use std::mem::replace;

/// What C holds of a file of versions between two calls. All bytes 0 is a handle that holds none.
#[repr(C)]
pub struct FileHandle {
    is_open: bool,
    pub kept: FilePtr,
    pub ghost says: { is_open ≡ is_there kept.value },
}

impl FileHandle {
    /// The file, which the handle has no longer.
    pub(crate) fn take(&mut self, alloc: Global) -> Option<Box<CFile, Global>>
        ensures gone { self.new.kept.value ≡ None }
        ensures taken { IsHeldBy self.old.kept.value result }
    {
        let closed = FileHandle {
            is_open: false,
            kept: FilePtr::none(alloc),
        };
        let FileHandle { is_open, kept } = replace(self, closed);
        if is_open {
            Some(kept.into_box())
        } else {
            kept.let_go();
            None
        }
    }

    /// The file comes to a handle that has none.
    pub(crate) fn put(&mut self, file: Box<CFile, Global>)
        requires { self.old.kept.value ≡ None }
        ensures { self.new.kept.value ≡ Some file.value }
    {
        let open = FileHandle {
            is_open: true,
            kept: FilePtr::of(file),
        };
        let FileHandle { is_open: _, kept } = replace(self, open);
        kept.let_go();
    }
}

fn crosses<T: Send>() {}

/// A handle may go to another thread, which is for whoever orders its calls.
pub fn file_handles_cross() {
    crosses::<FileHandle>()
}
