//! Where the numbers of a question must lie.
ghost use Rattle.std.specs.Prelude.{◌≡◌, ◌^◌, IfOk, MatchResult};
ghost use Rattle.vw_cell.specs.Places.{FitsAt, IsInWorld};
ghost use Rattle.history_model.specs.Ways.{IsHeading};
ghost use Rattle.script.specs.Fitting.{QuestionFits};
ghost use Rattle.history_model.specs.Spelling.{IsLarge};
ghost use Rattle.history_model.specs.declared.questions.Question.{Question};
ghost use Rattle.script.specs.declared.faults.ScriptKind.TheVariants.{Range};
ghost use Rattle.script.specs.Numbers.{IsLong, box_in, cell_in, way_in};
ghost use Rattle.script.specs.Placing.{ray_placed, question_placed};
ghost use Rattle.dag_answers.specs.Questions.{step_spelled, heading_spelled, question_spelled};

use crate::questions::{SpelledQuestion, SpelledStep, SpelledWay};
use history_model::{Question, Three, Way};
use script::ScriptKind;
use vw_cell::{Boxed, Cell, Side};

/// The question, where its places and its way are those of a world of this side.
pub(crate) fn place_question(asked: &SpelledQuestion, side: Side) -> Result<Question, ScriptKind>
    ensures placed { result ≡ question_placed (2 ^ side) (question_spelled asked.now) }
    ensures fits { IfOk result (QuestionFits (2 ^ side)) }
{
    match *asked {
        SpelledQuestion::Get(c) => Ok(Question::Get(make_cell(c, side)?)),
        SpelledQuestion::Count(at, size) => Ok(Question::Count(make_box(at, size, side)?)),
        SpelledQuestion::Bounds => Ok(Question::Bounds),
        SpelledQuestion::Faces(at, size) => Ok(Question::Faces(make_box(at, size, side)?)),
        SpelledQuestion::Ray(from, way) => place_ray(from, &way, side),
    }
}

#[tactic(auto, unfolding(script::specs::Placing::ray_placed))]
fn place_ray(from: Three, way: &SpelledWay, side: Side) -> Result<Question, ScriptKind>
    ensures placed { result ≡ ray_placed (2 ^ side) from (heading_spelled way.now) }
    ensures fits { IfOk result (QuestionFits (2 ^ side)) }
{
    let from = make_cell(from, side)?;
    let way = make_way(way)?;
    Ok(Question::Ray(from, way))
}

#[tactic(auto, using(script::proofs::Fitting::large_corner, script::proofs::Fitting::large_extent, script::proofs::Fitting::box_made, crate::proofs::PlaceLaws::box_fits))]
fn make_box(at: Three, size: Three, side: Side) -> Result<Boxed, ScriptKind>
    ensures placed { result ≡ box_in (2 ^ side) at size }
    ensures fits { IfOk result (λ b. FitsAt b.at b.size (2 ^ side)) }
{
    let at = cell(at)?;
    let size = cell(size)?;
    Boxed::new(at, size, side).ok_or(ScriptKind::Range)
}

#[tactic(auto, using(script::proofs::Fitting::large_cell, script::proofs::Fitting::cell_there, script::proofs::Fitting::cell_outside))]
fn make_cell(numbers: Three, side: Side) -> Result<Cell, ScriptKind>
    ensures placed { result ≡ cell_in (2 ^ side) numbers }
    ensures fits { IfOk result (IsInWorld (2 ^ side)) }
{
    let c = cell(numbers)?;
    if !c.is_in_world(side) {
        return Err(ScriptKind::Range);
    }
    Ok(c)
}

#[tactic(auto, using(script::proofs::Fitting::long_dx, script::proofs::Fitting::long_dy, script::proofs::Fitting::long_dz, script::proofs::Fitting::way_made, crate::proofs::PlaceLaws::way_fits))]
fn make_way(way: &SpelledWay) -> Result<Way, ScriptKind>
    ensures placed { result ≡ way_in (heading_spelled way.now) }
    ensures fits { IfOk result IsHeading }
{
    let dx = make_step(&way.x)?;
    let dy = make_step(&way.y)?;
    let dz = make_step(&way.z)?;
    Way::new(dx, dy, dz).ok_or(ScriptKind::Range)
}

// The step, where it is none too long.
fn make_step(step: &SpelledStep) -> Result<i16, ScriptKind>
    ensures { MatchResult result
        (λ d. d ≡ step_spelled step.now)
        (λ kind. (kind ≡ Range) × IsLong (step_spelled step.now)) }
{
    if step.size > 1024 {
        return Err(ScriptKind::Range);
    }
    let size = step.size as i16;
    if step.low {
        return Ok(-size);
    }
    Ok(size)
}

// The cell of numbers that are small enough for one.
fn cell(numbers: Three) -> Result<Cell, ScriptKind>
    ensures { MatchResult result
        (λ c. c ≡ numbers)
        (λ kind. (kind ≡ Range) × IsLarge numbers) }
{
    if numbers.x > 65535 || numbers.y > 65535 || numbers.z > 65535 {
        return Err(ScriptKind::Range);
    }
    Ok(Cell {
        x: numbers.x as u16,
        y: numbers.y as u16,
        z: numbers.z as u16,
    })
}
