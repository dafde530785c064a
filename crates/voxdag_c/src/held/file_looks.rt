//! Two versions of a file beside each other, and what is saved, seen and reached in one.
ghost use Rattle.std.specs.Prelude.{◌≡◌, ◌↔◌, ◌≤◌, IsTrue, false, length, map};
ghost use Rattle.vw_cell.specs.Places.{IsInBox};
ghost use Rattle.voxdag_c.specs.held.Calls.{WritesItems};
ghost use Rattle.voxdag_c.specs.held.Places.{box_of, cell_of_c_place, extent_of, shown_by};
ghost use Rattle.voxdag_c.specs.held.Files.{FileCompares, FileDiffers, FileSaves, FileShows, FileFloods};

use crate::held::asks::{is_small, put_extent};
use crate::held::files::CFile;
use crate::held::looks::is_region;
use crate::held::outputs::put_bytes;
use crate::held::places::{CBox, CPlace};
use crate::held::shown::{CShown, copy_shown};
use crate::held::statuses as status;
use dag_answers::{version_changes, version_file, version_region, version_same, version_surface};
use std::alloc::Global;
use vox_read::Voxel;

impl CFile {
    /// Whether two versions have the same cells.
    pub(crate) fn same(&self, a: u32, b: u32, same: &mut bool) -> u32
        ensures { FileCompares self.now a b same.old same.new result }
    {
        let mut view = self.file.view();
        match version_same(&mut view, a, b) {
            Some(told) => {
                *same = told;
                status::DONE
            }
            None => status::NO_VERSION,
        }
    }

    /// The least box of all cells that differ in two versions, where any do.
    pub(crate) fn changes(&self, a: u32, b: u32, some: &mut bool, least: &mut CBox) -> u32
        ensures { FileDiffers self.now a b
            (λ found. (found ≡ extent_of some.new least.new)
            × (some.new ≡ false → least.new ≡ least.old))
            ((some.new ≡ some.old) × (least.new ≡ least.old)) result }
    {
        let mut view = self.file.view();
        match version_changes(&mut view, a, b) {
            Some(found) => {
                put_extent(found, some, least);
                status::DONE
            }
            None => status::NO_VERSION,
        }
    }

    /// Writes the VOX file of a box of a version, which has 256 cells a side at most, where there
    /// is room for it, and says how many bytes it has.
    pub(crate) fn save(
        &self,
        alloc: Global,
        version: u32,
        part: CBox,
        out: &mut [u8],
        needed: &mut usize,
    ) -> u32
        ensures saves { FileSaves self.now version (box_of part) out.old out.new needed.old
            needed.new result }
        ensures room { length out.new ≡ length out.old }
    {
        let mut view = self.file.view();
        let b = match part.box_in(view.side()) {
            Some(b) => b,
            None => return status::OUTSIDE,
        };
        if !is_small(b) {
            return status::OUTSIDE;
        }
        match version_file(alloc, &mut view, version, b) {
            Some(Ok(file)) => put_bytes(out, needed, file.as_slice()),
            Some(Err(_)) => status::NO_MEMORY,
            None => status::NO_VERSION,
        }
    }

    /// Writes the cells of a box of a version that can be seen, each with tint 1, where there is
    /// room for them, and says how many they are. The box has 256 cells a side at most.
    pub(crate) fn surface(
        &self,
        alloc: Global,
        version: u32,
        part: CBox,
        out: &mut [CShown],
        needed: &mut usize,
    ) -> u32
        ensures shows { FileShows self.now version (box_of part) out.old out.new needed.old
            needed.new result }
        ensures room { length out.new ≡ length out.old }
    {
        let mut view = self.file.view();
        let b = match part.box_in(view.side()) {
            Some(b) => b,
            None => return status::OUTSIDE,
        };
        if !is_small(b) {
            return status::OUTSIDE;
        }
        match version_surface(alloc, &mut view, version, b) {
            Some(Ok(voxels)) => put_shown(out, needed, voxels.as_slice()),
            Some(Err(_)) => status::NO_MEMORY,
            None => status::NO_VERSION,
        }
    }

    /// Writes the VOX file of the cells of a box of a version that ways through its clear cells
    /// join with one of its cells, where there is room for it, and says how many cells and how
    /// many bytes these are. The box has 256 cells a side at most.
    pub(crate) fn flood(
        &self,
        alloc: Global,
        version: u32,
        part: CBox,
        from: CPlace,
        cells: &mut u64,
        out: &mut [u8],
        needed: &mut usize,
    ) -> u32
        ensures floods { FileFloods self.now version (box_of part) (cell_of_c_place from)
            cells.old cells.new out.old out.new needed.old needed.new result }
        ensures room { length out.new ≡ length out.old }
    {
        let mut view = self.file.view();
        let side = view.side();
        let b = match part.box_in(side) {
            Some(b) => b,
            None => return status::OUTSIDE,
        };
        let start = match from.cell_in(side) {
            Some(start) => start,
            None => return status::OUTSIDE,
        };
        if !is_region(b, start) {
            return status::OUTSIDE;
        }
        match version_region(alloc, &mut view, version, b, start) {
            Some(Ok(region)) => {
                *cells = u64::from(region.cells);
                put_bytes(out, needed, region.file.as_slice())
            }
            Some(Err(_)) => status::NO_MEMORY,
            None => status::NO_VERSION,
        }
    }
}

// Writes cells, each with tint 1, where there is room for them.
fn put_shown(out: &mut [CShown], needed: &mut usize, voxels: &[Voxel]) -> u32
    ensures writes { WritesItems (map (shown_by (λ v. 1)) voxels.now) out.old out.new needed.new
        result }
    ensures room { length out.new ≡ length out.old }
{
    *needed = voxels.len();
    if voxels.len() > out.len() {
        return status::TOO_SMALL;
    }
    copy_shown(out, voxels);
    status::DONE
}
