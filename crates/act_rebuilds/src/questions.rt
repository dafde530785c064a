//! The questions of scripts, asked of the root of one version in any store of nodes that can be
//! read, and answered in a transcript's terms.
//!
//! It reads a store, changes nothing in it and takes no memory; `tints_in` of `colour`, which takes
//! memory for a list, is passed on. Which answer tells what is asked
//! of a root, with tints or without, is said in `specs/questions/AnswersByRoots.antt`, in the terms
//! of `conformance` (`specs/QuestionAnswers.antt` there).

ghost use Rattle.std.specs.Prelude.{◌≡◌, ◌^◌, true, option_copied};
ghost use Rattle.node_words.specs.descent.Roots.{HoldsRoot};
ghost use Rattle.conformance.specs.Fitting.{QuestionFits};
ghost use Rattle.conformance.specs.Kinds.{is_resting};
ghost use Rattle.vw_cell.specs.Sums.{one_if};
ghost use Rattle.act_rebuilds.specs.questions.AnswersByRoots.{AnswersByRoot};

use history_model::Question;
use measure::{bounds, count, faces, get};
use node_words::{Blocks, Share};
use ray_walk::ray;
use transcript::Answer;
use vw_cell::Side;

mod tinted;

pub use colour::tints_in;
pub use tinted::answer_tinted;

/// Answers what is asked of the root's world, the empty one where there is no root.
pub fn tell<B: Blocks>(
    store: &mut B,
    root: Option<&Share>,
    side: Side,
    question: Question,
) -> Answer
    requires root { HoldsRoot (B.seen store.old).held side (option_copied root) }
    requires fits { QuestionFits (2 ^ side) question }
    ensures tells { AnswersByRoot (B.seen store.old).held side (option_copied root.entry) question
        result }
    ensures resting { is_resting result ≡ true }
    ensures seen { B.seen store.new ≡ B.seen store.old }
    ensures rests { B.rests store.old store.new }
{
    match question {
        Question::Get(c) => Answer::Is(get(store, root, side, c)),
        Question::Colour(c) => Answer::Colour(tint_of(get(store, root, side, c))),
        Question::Count(b) => Answer::Count(count(store, root, side, b)),
        Question::Bounds => Answer::Extent(bounds(store, root, side)),
        Question::Faces(b) => Answer::Faces(faces(store, root, side, b)),
        Question::Ray(from, way) => Answer::Hit(ray(store, root, side, from, way)),
    }
}

// The tint of a cell of a world without tints.
fn tint_of(set: bool) -> u8
    ensures { result ≡ one_if set }
{
    u8::from(set)
}
