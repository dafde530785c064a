//! The calls of a world whose cells have tints.
ghost use Rattle.std.specs.Prelude.{◌≡◌, ◌↔◌, ◌≤◌, IfSome, IsSome, true};
ghost use Rattle.history_model.specs.declared.acts.TintAct.TheVariants as tints;
ghost use Rattle.history_model.specs.declared.questions.Question.TheVariants as questions;
ghost use Rattle.history_model.specs.Tints.{IsTint};
ghost use Rattle.transcript.specs.declared.answers.Answer.TheVariants as answers;
ghost use Rattle.voxdag_c.specs.held.Places.{ball_of, box_of, cell_of_c_place};
ghost use Rattle.voxdag_c.specs.held.Calls.{ByKind, WorldAsks, WorldTints, tint_in_answer};

use crate::held::places::{CBox, CPlace};
use crate::held::statuses as status;
use crate::held::worlds::CWorld;
use history_model::{Act, Question, TintAct};
use transcript::Answer;

impl CWorld {
    /// Gives the cells of a box a tint.
    pub fn fill_tint(&mut self, part: CBox, tint: u32) -> u32
        ensures { WorldTints self.old (tints.Fill (box_of part) tint) tint result self.new }
    {
        if !self.open.tint() {
            return status::OTHER_KIND;
        }
        let tint = match tint_of(tint) {
            Some(tint) => tint,
            None => return status::BAD_TINT,
        };
        match part.box_in(self.open.side()) {
            Some(b) => self.change(Act::Tint(TintAct::Fill(b, tint))),
            None => status::OUTSIDE,
        }
    }

    /// Gives the cells of a ball a tint.
    pub fn ball_tint(&mut self, centre: CPlace, radius: u32, tint: u32) -> u32
        ensures { WorldTints self.old (tints.Ball (ball_of centre radius) tint) tint result
            self.new }
    {
        if !self.open.tint() {
            return status::OTHER_KIND;
        }
        let tint = match tint_of(tint) {
            Some(tint) => tint,
            None => return status::BAD_TINT,
        };
        match centre.ball_in(radius, self.open.side()) {
            Some(ball) => self.change(Act::Tint(TintAct::Ball(ball, tint))),
            None => status::OUTSIDE,
        }
    }

    /// The tint of a cell of a version, 0 where it is clear.
    pub fn colour(&mut self, version: u32, place: CPlace, tint: &mut u8) -> u32
        ensures asks { ByKind true self.old (tint.new ≡ tint.old)
            (λ status. WorldAsks self.old version (questions.Colour (cell_of_c_place place))
            (λ a. a ≡ answers.Colour tint.new) (tint.new ≡ tint.old) status) result }
        ensures same { self.new ≡ self.old }
    {
        if !self.open.tint() {
            return status::OTHER_KIND;
        }
        match place.cell_in(self.open.side()) {
            Some(c) => match self.ask(version, Question::Colour(c)) {
                Ok(answer) => {
                    *tint = tint_in_answer(answer);
                    status::DONE
                }
                Err(status) => status,
            },
            None => status::OUTSIDE,
        }
    }
}

// The number as a tint, where it is one.
fn tint_of(tint: u32) -> Option<u8>
    ensures exactly { IsSome result ↔ IsTint tint }
    ensures value { IfSome result (λ t. t ≡ tint) }
{
    if 1 <= tint && tint <= 255 {
        Some(tint as u8)
    } else {
        None
    }
}

fn tint_in_answer(answer: Answer) -> u8
    ensures { result ≡ tint_in_answer answer }
{
    match answer {
        Answer::Colour(tint) => tint,
        _ => 0,
    }
}
