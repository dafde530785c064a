ghost use Rattle.std.specs.Prelude.{◌≡◌, ◌+◌, ◌-◌, ◌*◌, ◌≤◌, ◌<◌, ◌^◌, ℕ, None};
ghost use Rattle.vw_cell.specs.Places.{FitsAt};
ghost use Rattle.edit_copy.specs.Starts.{IsWholeTask, IsShift};

use crate::copies::CopyTask;
use node_words::Name;
use vw_cell::{Boxed, Cell, Side};

// The task of the whole world, which is one of eight blocks round the place that its first cell
// comes from.
pub(crate) fn whole_task(old: Option<Name>, side: Side, from: Boxed, to: Cell) -> CopyTask
    requires from { FitsAt from.at from.size (2 ^ side) }
    requires to { FitsAt to from.size (2 ^ side) }
    ensures { IsWholeTask side old from to result }
{
    let x = shift_of(from.at.x, to.x, side);
    let y = shift_of(from.at.y, to.y, side);
    let z = shift_of(from.at.z, to.z, side);
    let mut sources: [Option<Name>; 8] = [None; 8];
    sources[x.half + 2 * y.half + 4 * z.half] = old;
    CopyTask {
        old,
        sources,
        offset: Cell {
            x: x.offset,
            y: y.offset,
            z: z.offset,
        },
        part: Boxed {
            at: to,
            size: from.size,
        },
    }
}

// Of two blocks side by side the one that is the world, and how far into the first the first cell
// comes from.
#[derive(Clone, Copy)]
pub(crate) struct Shift {
    pub(crate) half: usize,
    pub(crate) offset: u16,
}

fn shift_of(from: u16, to: u16, side: Side) -> Shift
    requires from { from < 2 ^ side }
    requires to { to < 2 ^ side }
    ensures { IsShift side from to result.half result.offset }
{
    if to <= from {
        return Shift {
            half: 0,
            offset: from - to,
        };
    }
    let offset = side.cells() + u32::from(from) - u32::from(to);
    Shift {
        half: 1,
        offset: offset as u16,
    }
}
