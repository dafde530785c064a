ghost use Rattle.std.specs.Prelude.{◌≡◌, ◌^◌, ◌<◌, true, false, IfOk, OnOk, MatchOption, MatchResult};
ghost use Rattle.std.specs.List.{list_all, slice_get};
ghost use Rattle.history_model.specs.Contents.{AreModels};
ghost use Rattle.history_model.specs.Spelled.{act_of, spelled_act};
ghost use Rattle.history_model.specs.Worlds.{box_at};
ghost use Rattle.script.specs.declared.faults.ScriptKind.TheVariants.{Range};
ghost use Rattle.script.specs.Numbers.{IsLong, box_in, cell_in, ball_in, way_in, is_digit};
ghost use Rattle.script.specs.Placing.{model_size, corner_in, stamp_placed, copy_placed, tint_placed, tint_fill_placed, tint_ball_placed, tint_copy_placed, tint_stamp_placed, plain_placed, tint_act_placed, act_placed, ray_placed, question_placed, is_letter, is_name_byte, begins_name, is_save_name, save_placed, command_placed};
ghost use Rattle.script.specs.Said.{step_said, way_said, question_said, name_said, command_said};
ghost use Rattle.history_model.specs.Spelling.{IsLarge};

use crate::commands::{Command, SaveName};
use crate::faults::ScriptKind;
use crate::said::{Asked, NameWord, SignedSize, SpelledCommand, SpelledSteps};
use history_model::{Act, Models, Question, Spelled, SpelledTint, Three, TintAct, Way};
use vw_cell::{Ball, Boxed, Cell, Side};

/// The command that was spelled in a world with tints or without, where what it names is there.
pub(crate) fn place_command(
    tint: bool,
    said: &SpelledCommand,
    side: Side,
    models: &Models,
) -> Result<Command, ScriptKind>
    requires { AreModels models.now }
    ensures { result ≡ command_placed tint (2 ^ side) models.now (command_said tint said.now) }
{
    match *said {
        SpelledCommand::Edit(act, once) => {
            let act = place_act(tint, &act, side, models)?;
            Ok(Command::Edit { act, once })
        }
        SpelledCommand::Forget(v) => Ok(Command::Forget(v)),
        SpelledCommand::Ask(version, asked) => {
            let question = place_question(&asked, side)?;
            Ok(Command::Ask { version, question })
        }
        SpelledCommand::Save(version, name, at, size) => place_save(version, &name, at, size, side),
        SpelledCommand::Same(v, w) => Ok(Command::Same(v, w)),
        SpelledCommand::Head => Ok(Command::Head),
    }
}

// The save, where a file can have the name and the box.
fn place_save(
    version: Option<u32>,
    name: &NameWord,
    at: Three,
    size: Three,
    side: Side,
) -> Result<Command, ScriptKind>
    ensures { result ≡ save_placed (2 ^ side) version (name_said name.now) (box_at at size) }
{
    let Some(name) = file_name(name) else {
        return Err(ScriptKind::Range);
    };
    if size.x > 256 || size.y > 256 || size.z > 256 {
        return Err(ScriptKind::Range);
    }
    let part = make_box(at, size, side)?;
    Ok(Command::Save {
        version,
        name,
        part,
    })
}

// The name, where a file can have it.
#[tactic(auto, using(crate::proofs::SaveNames::is_name))]
fn file_name(word: &NameWord) -> Option<SaveName>
    ensures { MatchOption result (is_save_name (name_said word.now) ≡ false)
        (λ name. (name ≡ name_said word.now) × (is_save_name name ≡ true)) }
{
    if word.len > 64 {
        return None;
    }
    let name = &word.bytes[..word.len];
    if !begins_name(name) || !are_name_bytes(name) {
        return None;
    }
    Some(SaveName {
        bytes: word.bytes,
        len: word.len as u8,
    })
}

fn are_name_bytes(name: &[u8]) -> bool
    ensures { result ≡ list_all is_name_byte name.now }
{
    name.iter().all(|b| is_name_byte(*b))
}

fn begins_name(name: &[u8]) -> bool
    ensures { result ≡ begins_name name.now }
{
    match name {
        [] => false,
        [first, ..] => is_letter(*first) || is_digit(*first),
    }
}

fn is_letter(b: u8) -> bool
    ensures { result ≡ is_letter b }
{
    (65 <= b && b <= 90) || (97 <= b && b <= 122)
}

fn is_digit(b: u8) -> bool
    ensures { result ≡ is_digit b }
{
    48 <= b && b <= 57
}

fn is_name_byte(b: u8) -> bool
    ensures { result ≡ is_name_byte b }
{
    is_letter(b) || is_digit(b) || b == b'.' || b == b'_' || b == b'-'
}

fn place_act(tint: bool, told: &SpelledTint, side: Side, models: &Models) -> Result<Act, ScriptKind>
    requires { AreModels models.now }
    ensures { result ≡ act_placed tint (2 ^ side) models.now (spelled_act tint told.now) }
{
    if tint {
        return place_tinted(told, side, models);
    }
    place_plain(&told.act, side, models)
}

fn place_tinted(told: &SpelledTint, side: Side, models: &Models) -> Result<Act, ScriptKind>
    requires { AreModels models.now }
    ensures { result ≡ tint_act_placed (2 ^ side) models.now (spelled_act true told.now) }
{
    let SpelledTint { act, tint } = *told;
    match act {
        Spelled::Fill(at, size) => Ok(Act::Tint(place_tint_fill(at, size, tint, side)?)),
        Spelled::Erase(at, size) => Ok(Act::Tint(TintAct::Erase(make_box(at, size, side)?))),
        Spelled::Ball(centre, radius) => {
            Ok(Act::Tint(place_tint_ball(centre, radius, tint, side)?))
        }
        Spelled::Carve(centre, radius) => {
            Ok(Act::Tint(TintAct::Carve(make_ball(centre, radius, side)?)))
        }
        Spelled::Copy(at, size, to) => Ok(Act::Tint(place_tint_copy(at, size, to, side)?)),
        Spelled::Stamp(model, at) => Ok(Act::Tint(place_tint_stamp(model, at, side, models)?)),
        Spelled::Undo => Ok(Act::Undo),
        Spelled::Redo => Ok(Act::Redo),
    }
}

#[tactic(auto, unfolding(crate::specs::Placing::tint_fill_placed))]
fn place_tint_fill(at: Three, size: Three, tint: u32, side: Side) -> Result<TintAct, ScriptKind>
    ensures { result ≡ tint_fill_placed (2 ^ side) (box_at at size) tint }
{
    let b = make_box(at, size, side)?;
    let tint = make_tint(tint)?;
    Ok(TintAct::Fill(b, tint))
}

#[tactic(auto, unfolding(crate::specs::Placing::tint_ball_placed))]
fn place_tint_ball(centre: Three, radius: u32, tint: u32, side: Side) -> Result<TintAct, ScriptKind>
    ensures { result ≡ tint_ball_placed (2 ^ side) (record { centre = centre; radius = radius })
        tint }
{
    let ball = make_ball(centre, radius, side)?;
    let tint = make_tint(tint)?;
    Ok(TintAct::Ball(ball, tint))
}

// A tint from 1 to 255.
fn make_tint(tint: u32) -> Result<u8, ScriptKind>
    ensures { result ≡ tint_placed tint }
{
    if 1 <= tint && tint <= 255 {
        return Ok(tint as u8);
    }
    Err(ScriptKind::Range)
}

#[tactic(auto, unfolding(crate::specs::Placing::tint_copy_placed))]
fn place_tint_copy(at: Three, size: Three, to: Three, side: Side) -> Result<TintAct, ScriptKind>
    ensures { result ≡ tint_copy_placed (2 ^ side) (box_at at size) to }
{
    let from = make_box(at, size, side)?;
    let to = make_box(to, size, side)?;
    Ok(TintAct::Copy(from, to.at))
}

#[tactic(auto, unfolding(crate::specs::Placing::tint_stamp_placed))]
fn place_tint_stamp(
    model: u32,
    at: Three,
    side: Side,
    models: &Models,
) -> Result<TintAct, ScriptKind>
    requires { AreModels models.now }
    ensures { result ≡ tint_stamp_placed (2 ^ side) models.now model at }
{
    let size = size_of(models, model)?;
    let at = make_corner(at, size, side)?;
    Ok(TintAct::Stamp(model as u16, at))
}

fn place_plain(spelled: &Spelled, side: Side, models: &Models) -> Result<Act, ScriptKind>
    requires { AreModels models.now }
    ensures { result ≡ plain_placed (2 ^ side) models.now (act_of spelled.now) }
{
    match *spelled {
        Spelled::Fill(at, size) => Ok(Act::Fill(make_box(at, size, side)?)),
        Spelled::Erase(at, size) => Ok(Act::Erase(make_box(at, size, side)?)),
        Spelled::Ball(centre, radius) => Ok(Act::Ball(make_ball(centre, radius, side)?)),
        Spelled::Carve(centre, radius) => Ok(Act::Carve(make_ball(centre, radius, side)?)),
        Spelled::Copy(at, size, to) => place_copy(at, size, to, side),
        Spelled::Stamp(model, at) => place_stamp(model, at, side, models),
        Spelled::Undo => Ok(Act::Undo),
        Spelled::Redo => Ok(Act::Redo),
    }
}

#[tactic(auto, unfolding(crate::specs::Placing::copy_placed))]
fn place_copy(at: Three, size: Three, to: Three, side: Side) -> Result<Act, ScriptKind>
    ensures { result ≡ copy_placed (2 ^ side) (box_at at size) to }
{
    let from = make_box(at, size, side)?;
    let there = make_box(to, size, side)?;
    Ok(Act::Copy(from, there.at))
}

#[tactic(auto, unfolding(crate::specs::Placing::stamp_placed))]
fn place_stamp(model: u32, at: Three, side: Side, models: &Models) -> Result<Act, ScriptKind>
    requires { AreModels models.now }
    ensures { result ≡ stamp_placed (2 ^ side) models.now model at }
{
    let size = size_of(models, model)?;
    let at = make_corner(at, size, side)?;
    Ok(Act::Stamp(model as u16, at))
}

fn place_question(asked: &Asked, side: Side) -> Result<Question, ScriptKind>
    ensures { result ≡ question_placed (2 ^ side) (question_said asked.now) }
{
    match *asked {
        Asked::Get(c) => Ok(Question::Get(make_cell(c, side)?)),
        Asked::Colour(c) => Ok(Question::Colour(make_cell(c, side)?)),
        Asked::Count(at, size) => Ok(Question::Count(make_box(at, size, side)?)),
        Asked::Bounds => Ok(Question::Bounds),
        Asked::Faces(at, size) => Ok(Question::Faces(make_box(at, size, side)?)),
        Asked::Ray(from, steps) => place_ray(from, &steps, side),
    }
}

#[tactic(auto, unfolding(crate::specs::Placing::ray_placed))]
fn place_ray(from: Three, steps: &SpelledSteps, side: Side) -> Result<Question, ScriptKind>
    ensures { result ≡ ray_placed (2 ^ side) from (way_said steps.now) }
{
    let from = make_cell(from, side)?;
    let way = make_way(steps)?;
    Ok(Question::Ray(from, way))
}

// The size of the model of this number.
fn size_of(models: &Models, number: u32) -> Result<Cell, ScriptKind>
    requires { AreModels models.now }
    ensures value { result ≡ model_size (slice_get models.now number) }
    ensures few { OnOk result (number < 1024) }
{
    match models.list.get(number as usize) {
        Some(model) => Ok(model.size),
        None => Err(ScriptKind::NoModel),
    }
}

// The corner, where a model of this size has room there.
#[tactic(auto, using(crate::proofs::Fitting::corner_large), unfolding(crate::specs::Placing::corner_in))]
fn make_corner(corner: Three, size: Cell, side: Side) -> Result<Cell, ScriptKind>
    ensures { result ≡ corner_in (2 ^ side) corner size }
{
    let at = cell(corner)?;
    match Boxed::new(at, size, side) {
        Some(_) => Ok(at),
        None => Err(ScriptKind::Range),
    }
}

#[tactic(auto, using(crate::proofs::Fitting::large_corner, crate::proofs::Fitting::large_extent, crate::proofs::Fitting::box_made))]
fn make_box(at: Three, size: Three, side: Side) -> Result<Boxed, ScriptKind>
    ensures { result ≡ box_in (2 ^ side) at size }
{
    let at = cell(at)?;
    let size = cell(size)?;
    Boxed::new(at, size, side).ok_or(ScriptKind::Range)
}

#[tactic(auto, using(crate::proofs::Fitting::large_cell, crate::proofs::Fitting::cell_there, crate::proofs::Fitting::cell_outside))]
fn make_cell(numbers: Three, side: Side) -> Result<Cell, ScriptKind>
    ensures { result ≡ cell_in (2 ^ side) numbers }
{
    let c = cell(numbers)?;
    if !c.is_in_world(side) {
        return Err(ScriptKind::Range);
    }
    Ok(c)
}

#[tactic(auto, using(crate::proofs::Fitting::large_radius, crate::proofs::Fitting::large_centre, crate::proofs::Fitting::ball_made))]
fn make_ball(centre: Three, radius: u32, side: Side) -> Result<Ball, ScriptKind>
    ensures { result ≡ ball_in (2 ^ side) centre radius }
{
    if radius > 4095 {
        return Err(ScriptKind::Range);
    }
    let centre = cell(centre)?;
    Ball::new(centre, radius as u16, side).ok_or(ScriptKind::Range)
}

#[tactic(auto, using(crate::proofs::Fitting::long_dx, crate::proofs::Fitting::long_dy, crate::proofs::Fitting::long_dz, crate::proofs::Fitting::way_made))]
fn make_way(steps: &SpelledSteps) -> Result<Way, ScriptKind>
    ensures { result ≡ way_in (way_said steps.now) }
{
    let dx = make_step(&steps.x)?;
    let dy = make_step(&steps.y)?;
    let dz = make_step(&steps.z)?;
    Way::new(dx, dy, dz).ok_or(ScriptKind::Range)
}

// The step, where it is none too long.
fn make_step(step: &SignedSize) -> Result<i16, ScriptKind>
    ensures { MatchResult result
        (λ d. d ≡ step_said step.now)
        (λ kind. (kind ≡ Range) × IsLong (step_said step.now)) }
{
    if step.size > 1024 {
        return Err(ScriptKind::Range);
    }
    let size = step.size as i16;
    if step.low {
        return Ok(-size);
    }
    Ok(size)
}

// The cell of numbers that are small enough for one.
fn cell(numbers: Three) -> Result<Cell, ScriptKind>
    ensures { MatchResult result
        (λ c. c ≡ numbers)
        (λ kind. (kind ≡ Range) × IsLarge numbers) }
{
    if numbers.x > 65535 || numbers.y > 65535 || numbers.z > 65535 {
        return Err(ScriptKind::Range);
    }
    Ok(Cell {
        x: numbers.x as u16,
        y: numbers.y as u16,
        z: numbers.z as u16,
    })
}
