ghost use Rattle.std.specs.Prelude.{◌↔◌, ◌^◌, ◌/◌, ◌≤◌, IsTrue};
ghost use Rattle.std.specs.List.{slice_get};
ghost use Rattle.vw_cell.specs.Places.{Fits, FitsAt, IsInWorld};
ghost use Rattle.history_model.specs.Logs.{FitsWorld, FitsModel, TintFits};

use crate::acts::{Act, TintAct};
use vox_read::Models;
use vw_cell::{Ball, Boxed, Cell, Side};

impl Act {
    /// Whether the act lies in the world of this side, and its model is there. A tinted act lies in
    /// the world of a quarter of the side.
    pub fn fits(&self, side: Side, models: &Models) -> bool
        ensures { IsTrue result ↔ FitsWorld (2 ^ side) models.now self.now }
    {
        match self {
            Act::Fill(b) => fits_at(b.at, b.size, side),
            Act::Erase(b) => fits_at(b.at, b.size, side),
            Act::Ball(ball) => Ball::new(ball.centre, ball.radius, side).is_some(),
            Act::Carve(ball) => Ball::new(ball.centre, ball.radius, side).is_some(),
            Act::Copy(b, to) => fits_at(b.at, b.size, side) && fits_at(*to, b.size, side),
            Act::Stamp(m, at) => fits_model(models, *m, *at, side),
            Act::Tint(act) => tint_fits(act, side, models),
            Act::Undo => true,
            Act::Redo => true,
        }
    }
}

// Whether the tinted act lies in the world of a quarter of this side, its tint is one, and its
// model is there.
fn tint_fits(act: &TintAct, side: Side, models: &Models) -> bool
    ensures { IsTrue result ↔ TintFits (2 ^ side / 4) models.now act.now }
{
    let n = side.cells() / 4;
    match act {
        TintAct::Fill(b, tint) => fits_below(b.at, b.size, n) && *tint != 0,
        TintAct::Erase(b) => fits_below(b.at, b.size, n),
        TintAct::Ball(ball, tint) => is_ball_below(*ball, n) && *tint != 0,
        TintAct::Carve(ball) => is_ball_below(*ball, n),
        TintAct::Copy(b, to) => fits_below(b.at, b.size, n) && fits_below(*to, b.size, n),
        TintAct::Stamp(m, at) => model_fits_below(models, *m, *at, n),
    }
}

// Whether the box of this place and size has a cell and ends within this many cells.
fn fits_below(at: Cell, size: Cell, n: u32) -> bool
    ensures { IsTrue result ↔ FitsAt at size n }
{
    fits(at.x, size.x, n) && fits(at.y, size.y, n) && fits(at.z, size.z, n)
}

fn fits(at: u16, size: u16, n: u32) -> bool
    ensures { IsTrue result ↔ Fits at size n }
{
    size >= 1 && u32::from(at) + u32::from(size) <= n
}

fn is_ball_below(ball: Ball, n: u32) -> bool
    ensures { IsTrue result ↔ (IsInWorld n ball.centre × (ball.radius ≤ 4095)) }
{
    let c = ball.centre;
    u32::from(c.x) < n && u32::from(c.y) < n && u32::from(c.z) < n && ball.radius <= 4095
}

fn model_fits_below(models: &Models, m: u16, at: Cell, n: u32) -> bool
    ensures { IsTrue result ↔ FitsModel n (slice_get models.now m) at }
{
    match models.list.get(usize::from(m)) {
        None => false,
        Some(model) => fits_below(at, model.size, n),
    }
}

fn fits_at(at: Cell, size: Cell, side: Side) -> bool
    ensures { IsTrue result ↔ FitsAt at size (2 ^ side) }
{
    Boxed::new(at, size, side).is_some()
}

fn fits_model(models: &Models, m: u16, at: Cell, side: Side) -> bool
    ensures { IsTrue result ↔ FitsModel (2 ^ side) (slice_get models.now m) at }
{
    match models.list.get(usize::from(m)) {
        None => false,
        Some(model) => fits_at(at, model.size, side),
    }
}
