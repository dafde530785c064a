//! A box of a file as a pointer that C may keep, or no box.
ghost use Rattle.std.specs.Prelude.{◌≡◌, Option, None, Some, true};
ghost use Rattle.voxdag_c.specs.declared.held.files.CFile.{CFile};
ghost use Rattle.voxdag_c.specs.held.OwnedFiles.{file_owns, file_coded};
ghost use Rattle.voxdag_c.specs.held.Holding.{is_there};

use crate::held::files::CFile;
use crate::held::parts::Parts;
use std::alloc::Global;
use std::marker::Model;
use std::ptr::null_mut;

#[repr(C)]
pub struct FilePtr {
    at: *mut u8,
    alloc: Global,
    pub ghost value: { Option CFile } by { file_coded },
}

impl Model for FilePtr {
    ghost also_owns = { λ k. file_owns k.alloc k.at k.value };
}

impl FilePtr {
    pub(crate) fn none(alloc: Global) -> FilePtr
        ensures { result.value ≡ None }
    {
        FilePtr {
            at: null_mut(),
            alloc,
        }
    }

    pub(crate) fn of(file: Box<CFile, Global>) -> FilePtr
        ensures { result.value ≡ Some file.value }
    {
        FilePtr::of_parts(Parts::of(file))
    }

    pub(crate) fn into_box(self) -> Box<CFile, Global>
        requires { is_there self.value ≡ true }
        ensures { Some result.value ≡ self.value }
    {
        self.into_parts().into_box()
    }

    pub(crate) fn let_go(self)
        requires { self.value ≡ None }
    {
        let FilePtr { at: _, alloc: _ } = self;
    }

    fn of_parts(parts: Parts<CFile, Global>) -> FilePtr
        ensures { result.value ≡ Some parts.value }
    {
        let Parts { ptr, alloc } = parts;
        FilePtr {
            at: ptr as *mut u8,
            alloc,
        }
    }

    fn into_parts(self) -> Parts<CFile, Global>
        requires { is_there self.value ≡ true }
        ensures { Some result.value ≡ self.value }
    {
        let FilePtr { at, alloc } = self;
        Parts {
            ptr: at as *mut CFile,
            alloc,
        }
    }
}

// It may go to another thread, as a box of the file may.
unsafe impl Send for FilePtr {}
