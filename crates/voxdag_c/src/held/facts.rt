//! The file of the versions that are held, and what a world is.
ghost use Rattle.std.specs.Prelude.{◌≡◌, length};
ghost use Rattle.vw_cell.specs.Sums.{one_if};
ghost use Rattle.voxdag_c.specs.held.Facts.{WorldFiles, PutsPlan};

use crate::held::outputs::put_bytes;
use crate::held::plans::CPlan;
use crate::held::statuses as status;
use crate::held::worlds::CWorld;
use std::alloc::Global;

impl CWorld {
    /// Writes the file of the versions that aren't forgotten, where there is room for it, and says
    /// how many bytes it has.
    pub fn dag(&mut self, alloc: Global, out: &mut [u8], needed: &mut usize) -> u32
        ensures writes { WorldFiles self.old out.old out.new needed.old needed.new result }
        ensures room { length out.new ≡ length out.old }
        ensures same { self.new ≡ self.old }
    {
        match self.open.dag(alloc) {
            Ok(file) => put_bytes(out, needed, file.as_slice()),
            Err(_) => status::NO_MEMORY,
        }
    }

    /// What the world is.
    pub fn put_plan(&self, plan: &mut CPlan) -> u32
        ensures { PutsPlan self.now result plan.new }
    {
        let side = self.open.side().cells();
        let cap = u32::from(self.open.cap());
        let tints = one_if(self.open.tint());
        let keep = self.keep;
        *plan = CPlan {
            side,
            cap,
            keep,
            tints,
        };
        status::DONE
    }
}

fn one_if(is: bool) -> u32
    ensures { result ≡ one_if is }
{
    if is { 1 } else { 0 }
}
