ghost use Rattle.std.specs.Prelude.{◌≡◌};
ghost use Rattle.transcript.specs.Moments.{never_fall};

use crate::answers::LineAnswer;

/// Whether each moment is at least the one before it, as in every transcript that a run writes. A
/// text may have others, and is read all the same.
#[tactic(auto, using(crate::proofs::MomentLaws::moment_falls, crate::proofs::MomentLaws::moment_goes_on, crate::proofs::MomentLaws::moments_end))]
pub fn moments_never_fall(answers: &[LineAnswer]) -> bool
    ensures { result ≡ never_fall 0 answers.now }
{
    let mut last: u32 = 0;
    for answer in answers {
        if answer.at < last {
            return false;
        }
        last = answer.at;
    }
    true
}
