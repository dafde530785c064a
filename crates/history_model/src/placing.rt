ghost use Rattle.std.specs.Prelude.{◌≡◌, ◌/◌, ◌^◌, ◌<◌, ◌≤◌, ◌↔◌, IsTrue, MatchOption, true};
ghost use Rattle.history_model.specs.declared.spelling.Spelled.TheVariants.{Copy, Stamp};
ghost use Rattle.vw_cell.specs.Places.{FitsAt, IsInWorld};
ghost use Rattle.history_model.specs.Worlds.{box_at};
ghost use Rattle.history_model.specs.Tints.{IsTint};
ghost use Rattle.history_model.specs.Reach.{GivesWhere, ActLiesIn, TakesTint};
ghost use Rattle.history_model.specs.Spelled.{act_of, spelled_act};
ghost use Rattle.history_model.specs.Spelling.{IsLarge, tinted_act};

use crate::acts::{Act, TintAct};
use crate::spelling::{Spelled, SpelledTint, Three};
use vw_cell::{Ball, Boxed, Cell, Side};

/// The act that was spelled, where it lies in the world of this side.
pub(crate) fn place(spelled: &Spelled, side: Side) -> Option<Act>
    ensures { GivesWhere (ActLiesIn (2 ^ side) (act_of spelled.now)) (act_of spelled.now) result }
{
    match *spelled {
        Spelled::Fill(at, size) => Some(Act::Fill(place_box(at, size, side)?)),
        Spelled::Erase(at, size) => Some(Act::Erase(place_box(at, size, side)?)),
        Spelled::Ball(centre, radius) => Some(Act::Ball(place_ball(centre, radius, side)?)),
        Spelled::Carve(centre, radius) => Some(Act::Carve(place_ball(centre, radius, side)?)),
        Spelled::Copy(at, size, to) => place_copy(at, size, to, side),
        Spelled::Stamp(model, at) => place_stamp(model, at, side),
        Spelled::Undo => Some(Act::Undo),
        Spelled::Redo => Some(Act::Redo),
    }
}

/// The act that was spelled, with its tint in a coloured history, where it lies in a store of this
/// side.
pub(crate) fn place_spelled(spelled: &SpelledTint, side: Side, coloured: bool) -> Option<Act>
    requires { coloured ≡ true → 4 ≤ side }
    ensures { GivesWhere
        (ActLiesIn (2 ^ side) (spelled_act coloured spelled.now))
        (spelled_act coloured spelled.now)
        result }
{
    if coloured {
        return place_tinted(spelled, side);
    }
    place(&spelled.act, side)
}

// The same in a coloured history.
#[tactic(auto, using(crate::proofs::TintPlacing::placed_none, crate::proofs::TintPlacing::placed_some))]
fn place_tinted(spelled: &SpelledTint, side: Side) -> Option<Act>
    requires { 4 ≤ side }
    ensures { GivesWhere
        (ActLiesIn (2 ^ side) (spelled_act true spelled.now))
        (spelled_act true spelled.now)
        result }
{
    let act = place(&spelled.act, quarter(side))?;
    tint(act, spelled.tint)
}

// The side of the world that a store of this side keeps.
#[tactic(auto, using(crate::proofs::MarkLaws::quarter_is_side))]
fn quarter(side: Side) -> Side
    requires { 4 ≤ side }
    ensures { 2 ^ result ≡ 2 ^ side / 4 }
{
    let _exponent = side.exponent();
    match Side::new(side.cells() / 4) {
        Some(world) => world,
        None => unreachable!(),
    }
}

// A plain act with this tint, where it can have it.
fn tint(act: Act, tint: u32) -> Option<Act>
    ensures { GivesWhere (TakesTint tint act) (tinted_act tint act) result }
{
    match act {
        Act::Fill(b) if is_tint(tint) => Some(Act::Tint(TintAct::Fill(b, tint as u8))),
        Act::Fill(_) => None,
        Act::Ball(b) if is_tint(tint) => Some(Act::Tint(TintAct::Ball(b, tint as u8))),
        Act::Ball(_) => None,
        Act::Erase(b) => Some(Act::Tint(TintAct::Erase(b))),
        Act::Carve(b) => Some(Act::Tint(TintAct::Carve(b))),
        Act::Copy(b, to) => Some(Act::Tint(TintAct::Copy(b, to))),
        Act::Stamp(m, at) => Some(Act::Tint(TintAct::Stamp(m, at))),
        other => Some(other),
    }
}

fn is_tint(tint: u32) -> bool
    ensures { IsTrue result ↔ IsTint tint }
{
    1 <= tint && tint <= 255
}

fn place_box(at: Three, size: Three, side: Side) -> Option<Boxed>
    ensures { GivesWhere (FitsAt at size (2 ^ side)) (box_at at size) result }
{
    let _side = side.cells();
    let at = cell(at)?;
    let size = cell(size)?;
    Boxed::new(at, size, side)
}

fn place_ball(centre: Three, radius: u32, side: Side) -> Option<Ball>
    ensures { GivesWhere
        (IsInWorld (2 ^ side) centre × (radius ≤ 4095))
        (record { centre = centre; radius = radius })
        result }
{
    let _side = side.cells();
    if radius > 4095 {
        return None;
    }
    let centre = cell(centre)?;
    Ball::new(centre, radius as u16, side)
}

fn place_copy(at: Three, size: Three, to: Three, side: Side) -> Option<Act>
    ensures { GivesWhere
        (FitsAt at size (2 ^ side) × FitsAt to size (2 ^ side))
        (act_of (Copy at size to))
        result }
{
    let from = place_box(at, size, side)?;
    let there = place_box(to, size, side)?;
    Some(Act::Copy(from, there.at))
}

fn place_stamp(model: u32, at: Three, side: Side) -> Option<Act>
    ensures { GivesWhere
        ((model < 1024) × IsInWorld (2 ^ side) at)
        (act_of (Stamp model at))
        result }
{
    let _side = side.cells();
    if model > 1023 {
        return None;
    }
    let at = cell(at)?;
    if !at.is_in_world(side) {
        return None;
    }
    Some(Act::Stamp(model as u16, at))
}

// The cell of three numbers that are small enough for one.
fn cell(numbers: Three) -> Option<Cell>
    ensures { MatchOption result (IsLarge numbers) (λ c. c ≡ numbers) }
{
    if numbers.x > 65535 || numbers.y > 65535 || numbers.z > 65535 {
        return None;
    }
    Some(Cell {
        x: numbers.x as u16,
        y: numbers.y as u16,
        z: numbers.z as u16,
    })
}
