//! Whether an act lies in a world whose models were drawn.
ghost use Rattle.std.specs.Prelude.{◌≡◌, ◌↔◌, ◌^◌, false, IsTrue};
ghost use Rattle.vw_cell.specs.Places.{Fits};
ghost use Rattle.history_model.specs.Logs.{FitsWorld};
ghost use Rattle.act_rebuilds.specs.Drawn.{SizeFits, stamps_model};

use crate::drawn::Lends;
use crate::lists::DrawnList;
use history_model::{Act, TintAct};
use vox_read::Models;
use vw_cell::{Cell, Side};

fn span_fits(at: u16, size: u16, n: u32) -> bool
    ensures { IsTrue result ↔ Fits at size n }
{
    size >= 1 && u32::from(at) + u32::from(size) <= n
}

// Whether a model of this size, where there is one, stands within so many cells an axis.
fn size_fits(size: Option<Cell>, at: Cell, n: u32) -> bool
    ensures { IsTrue result ↔ SizeFits n size at }
{
    match size {
        None => false,
        Some(size) => {
            span_fits(at.x, size.x, n) && span_fits(at.y, size.y, n) && span_fits(at.z, size.z, n)
        }
    }
}

impl<B: Lends + Drop> DrawnList<B> {
    // The same of an act that stamps no model.
    fn unstamped_fits(&self, side: Side, act: &Act) -> bool
        requires { stamps_model act.now ≡ false }
        ensures { IsTrue result ↔ FitsWorld (2 ^ side) self.now.models act.now }
    {
        let none = Models {
            list: Vec::new(self.allocator()),
        };
        act.fits(side, &none)
    }

    /// Whether the act lies in the world of this side, and its model is there. A tinted act lies in
    /// the world of a quarter of the side.
    pub fn fits(&self, side: Side, act: &Act) -> bool
        ensures { IsTrue result ↔ FitsWorld (2 ^ side) self.now.models act.now }
    {
        match act {
            Act::Stamp(m, at) => size_fits(self.size(usize::from(*m)), *at, side.cells()),
            Act::Tint(TintAct::Stamp(m, at)) => {
                size_fits(self.size(usize::from(*m)), *at, side.cells() / 4)
            }
            _ => self.unstamped_fits(side, act),
        }
    }
}
