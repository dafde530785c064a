//! What differs between two versions, and what can be seen or reached in one.
ghost use Rattle.std.specs.Prelude.{◌≡◌, ◌↔◌, ◌≤◌, IsTrue, false, length};
ghost use Rattle.vw_cell.specs.Places.{IsInBox};
ghost use Rattle.core_laws.specs.contents.Versions.{HoldsVersion};
ghost use Rattle.extract.specs.Surface.{surface_of_box};
ghost use Rattle.voxdag_c.specs.held.Places.{box_of, cell_of_c_place, extent_of};
ghost use Rattle.voxdag_c.specs.held.Calls.{FitsFile, WorldDiffers, WorldShows, WorldFloods, cells_of_version, held_side};

use crate::held::asks::{is_small, put_extent};
use crate::held::outputs::put_bytes;
use crate::held::places::{CBox, CPlace};
use crate::held::shown::{CShown, copy_shown, copy_tinted};
use crate::held::statuses as status;
use crate::held::worlds::CWorld;
use std::alloc::Global;
use vox_read::Voxel;
use vw_cell::{Boxed, Cell};

impl CWorld {
    /// The least box of all cells whose tints differ in two versions, where any do: of all cells
    /// that differ, where cells have no tints.
    pub fn changes(&mut self, a: u32, b: u32, some: &mut bool, least: &mut CBox) -> u32
        ensures differs { WorldDiffers self.old a b
            (λ found. (found ≡ extent_of some.new least.new)
            × (some.new ≡ false → least.new ≡ least.old))
            ((some.new ≡ some.old) × (least.new ≡ least.old)) result }
        ensures same { self.new ≡ self.old }
    {
        if !self.open.holds_version(a) {
            return self.why_gone(a);
        }
        if !self.open.holds_version(b) {
            return self.why_gone(b);
        }
        put_extent(self.open.changes(a, b), some, least);
        status::DONE
    }

    /// Writes the cells of a box of a version that can be seen, each with its tint, where there is
    /// room for them, and says how many they are. The box has 256 cells a side at most.
    pub fn surface(
        &mut self,
        alloc: Global,
        version: u32,
        part: CBox,
        out: &mut [CShown],
        needed: &mut usize,
    ) -> u32
        ensures shows { WorldShows self.old version (box_of part) out.old out.new needed.old
            needed.new result }
        ensures room { length out.new ≡ length out.old }
        ensures same { self.new ≡ self.old }
    {
        let b = match part.box_in(self.open.side()) {
            Some(b) => b,
            None => return status::OUTSIDE,
        };
        if !is_small(b) {
            return status::OUTSIDE;
        }
        if !self.open.holds_version(version) {
            return self.why_gone(version);
        }
        match self.open.surface(alloc, version, b) {
            Ok(voxels) => self.put_seen(alloc, version, b, voxels.as_slice(), out, needed),
            Err(_) => status::NO_MEMORY,
        }
    }

    // Writes cells of a box of a version, each with its tint, where there is room for them.
    fn put_seen(
        &mut self,
        alloc: Global,
        version: u32,
        part: Boxed,
        voxels: &[Voxel],
        out: &mut [CShown],
        needed: &mut usize,
    ) -> u32
        requires kept { HoldsVersion self.old.open.log version }
        requires fits { FitsFile (held_side self.old) part }
        requires seen { voxels.now ≡ surface_of_box (held_side self.old)
            (cells_of_version self.old version) part }
        ensures shows { WorldShows self.old version part out.old out.new needed.old needed.new
            result }
        ensures room { length out.new ≡ length out.old }
        ensures same { self.new ≡ self.old }
    {
        if voxels.len() > out.len() {
            *needed = voxels.len();
            return status::TOO_SMALL;
        }
        if !self.open.tint() {
            *needed = voxels.len();
            copy_shown(out, voxels);
            return status::DONE;
        }
        match self.open.tints_of(alloc, version, part, voxels) {
            Ok(tints) => {
                *needed = voxels.len();
                copy_tinted(out, voxels, tints.as_slice());
                status::DONE
            }
            Err(_) => status::NO_MEMORY,
        }
    }

    /// Writes the VOX file of the cells of a box of a version that ways through its clear cells
    /// join with one of its cells, where there is room for it, and says how many cells and how
    /// many bytes these are. The box has 256 cells a side at most.
    pub fn flood(
        &mut self,
        alloc: Global,
        version: u32,
        part: CBox,
        from: CPlace,
        cells: &mut u64,
        out: &mut [u8],
        needed: &mut usize,
    ) -> u32
        ensures floods { WorldFloods self.old version (box_of part) (cell_of_c_place from)
            cells.old cells.new out.old out.new needed.old needed.new result }
        ensures room { length out.new ≡ length out.old }
        ensures same { self.new ≡ self.old }
    {
        let side = self.open.side();
        let b = match part.box_in(side) {
            Some(b) => b,
            None => return status::OUTSIDE,
        };
        let start = match from.cell_in(side) {
            Some(start) => start,
            None => return status::OUTSIDE,
        };
        if !is_region(b, start) {
            return status::OUTSIDE;
        }
        if !self.open.holds_version(version) {
            return self.why_gone(version);
        }
        match self.open.flood(alloc, version, b, start) {
            Ok(region) => {
                *cells = u64::from(region.cells);
                put_bytes(out, needed, region.file.as_slice())
            }
            Err(_) => status::NO_MEMORY,
        }
    }
}

// Whether a region of a box of this size can be asked for from the cell.
pub(crate) fn is_region(b: Boxed, from: Cell) -> bool
    ensures { IsTrue result
        ↔ (((b.size.x ≤ 256) × (b.size.y ≤ 256) × (b.size.z ≤ 256)) × IsInBox b from) }
{
    is_small(b) && b.has(from)
}
