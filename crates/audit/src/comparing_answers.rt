//! Whether what is told of a version is what a transcript says.
ghost use Rattle.std.specs.Prelude.{◌≡◌, ◌↔◌, ℕ, IsTrue, Option, Some, None};
ghost use Rattle.history_model.specs.Worlds.{World};
ghost use Rattle.history_model.specs.Tints.{Tints};
ghost use Rattle.history_model.specs.declared.questions.Question.{Question};
ghost use Rattle.transcript.specs.declared.answers.Answer.TheVariants as answers;
ghost use Rattle.conformance.specs.QuestionAnswers.{AnswersTo};

use transcript::Answer;
use vw_cell::{Boxed, Cell};

// Whether the answer is the one that was told of a question.
#[tactic(auto, using(crate::proofs::Told::none_told))]
pub(crate) fn is_told(told: Answer, answer: Answer) -> bool
    ensures { (side : ℕ) (w : World) (tints : Tints) (question : Question)
        → AnswersTo side w tints question told → IsTrue result ↔ (answer ≡ told) }
{
    match told {
        Answer::Is(set) => is_set(answer, set),
        Answer::Colour(tint) => is_colour(answer, tint),
        Answer::Count(cells) => is_count(answer, cells),
        Answer::Faces(number) => is_faces(answer, number),
        Answer::Extent(least) => is_extent(answer, least),
        Answer::Hit(found) => is_hit(answer, found),
        _ => false,
    }
}

fn is_set(answer: Answer, set: bool) -> bool
    ensures { IsTrue result ↔ (answer ≡ answers.Is set) }
{
    match answer {
        Answer::Is(other) => other == set,
        _ => false,
    }
}

fn is_colour(answer: Answer, tint: u8) -> bool
    ensures { IsTrue result ↔ (answer ≡ answers.Colour tint) }
{
    match answer {
        Answer::Colour(other) => other == tint,
        _ => false,
    }
}

fn is_count(answer: Answer, cells: u64) -> bool
    ensures { IsTrue result ↔ (answer ≡ answers.Count cells) }
{
    match answer {
        Answer::Count(other) => other == cells,
        _ => false,
    }
}

fn is_faces(answer: Answer, number: u64) -> bool
    ensures { IsTrue result ↔ (answer ≡ answers.Faces number) }
{
    match answer {
        Answer::Faces(other) => other == number,
        _ => false,
    }
}

fn is_extent(answer: Answer, least: Option<Boxed>) -> bool
    ensures { IsTrue result ↔ (answer ≡ answers.Extent least) }
{
    match answer {
        Answer::Extent(other) => is_same_box(other, least),
        _ => false,
    }
}

fn is_hit(answer: Answer, found: Option<Cell>) -> bool
    ensures { IsTrue result ↔ (answer ≡ answers.Hit found) }
{
    match answer {
        Answer::Hit(other) => is_same_place(other, found),
        _ => false,
    }
}

fn is_same_box(a: Option<Boxed>, b: Option<Boxed>) -> bool
    ensures { IsTrue result ↔ (a ≡ b) }
{
    match (a, b) {
        (None, None) => true,
        (Some(a), Some(b)) => is_same_cell(a.at, b.at) && is_same_cell(a.size, b.size),
        _ => false,
    }
}

fn is_same_place(a: Option<Cell>, b: Option<Cell>) -> bool
    ensures { IsTrue result ↔ (a ≡ b) }
{
    match (a, b) {
        (None, None) => true,
        (Some(a), Some(b)) => is_same_cell(a, b),
        _ => false,
    }
}

fn is_same_cell(a: Cell, b: Cell) -> bool
    ensures { IsTrue result ↔ (a ≡ b) }
{
    a.x == b.x && a.y == b.y && a.z == b.z
}
