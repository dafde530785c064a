ghost use Rattle.std.specs.Prelude.{◌≡◌, ◌≤◌, ◌/◌, ◌^◌, true, option_copied};
ghost use Rattle.node_words.specs.descent.Roots.{HoldsRoot};
ghost use Rattle.conformance.specs.Fitting.{QuestionFits};
ghost use Rattle.conformance.specs.Kinds.{is_resting};
ghost use Rattle.act_rebuilds.specs.questions.AnswersByRoots.{AnswersByTints};

use colour::{tint_at, tint_bounds, tint_ray};
use history_model::Question;
use measure::{count, faces, get};
use node_words::{Blocks, Share};
use transcript::Answer;
use vw_cell::Side;

/// Answers what is asked of the world whose tints the root's store keeps, the empty one where there
/// is no root. Its side is a quarter of the store's.
pub fn answer_tinted<B: Blocks>(
    store: &mut B,
    root: Option<&Share>,
    side: Side,
    question: Question,
) -> Answer
    requires root { HoldsRoot (B.seen store.old).held side (option_copied root) }
    requires large { 4 ≤ side }
    requires fits { QuestionFits (2 ^ side / 4) question }
    ensures tells { AnswersByTints (B.seen store.old).held side (option_copied root.entry) question
        result }
    ensures resting { is_resting result ≡ true }
    ensures seen { B.seen store.new ≡ B.seen store.old }
    ensures rests { B.rests store.old store.new }
{
    match question {
        Question::Get(c) => Answer::Is(get(store, root, side, c)),
        Question::Colour(c) => Answer::Colour(tint_at(store, root, side, c)),
        Question::Count(b) => Answer::Count(count(store, root, side, b)),
        Question::Bounds => Answer::Extent(tint_bounds(store, root, side)),
        Question::Faces(b) => Answer::Faces(faces(store, root, side, b)),
        Question::Ray(from, way) => Answer::Hit(tint_ray(store, root, side, from, way)),
    }
}
