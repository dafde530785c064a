ghost use Rattle.std.specs.Prelude.{◌≡◌, ◌+◌, ◌++◌, ◌^◌, ◌≤◌, All, length, vec_len, vec_capacity};
ghost use Rattle.script.specs.Fitting.{CommandFits, RisesFrom};
ghost use Rattle.conformance.specs.sessions.SessionViews.{DidNothing};
ghost use Rattle.conformance.specs.sessions.Runs.{RunsScript};
ghost use Rattle.conformance.specs.sessions.Saves.{saves_asked_in};

use crate::sessions::responders::LineResponder;
use script::ScriptLine;
use transcript::LineAnswer;

/// Runs the lines of a session's script, and puts an answer to each behind the answers.
pub fn run_lines<D: LineResponder>(
    responder: &mut D,
    lines: &[ScriptLine],
    answers: &mut Vec<LineAnswer>,
)
    requires rises { RisesFrom 1 lines.now }
    requires fit { All
        (λ l. CommandFits (D.of responder.old).tint (2 ^ (D.of responder.old).plan.side)
        (D.of responder.old).models l.command) lines.now }
    requires idle { DidNothing (D.seen responder.old) }
    requires room { vec_len answers.old + length lines.now ≤ vec_capacity answers.old }
    requires saves { saves_asked_in lines.now ≤ D.room responder.old }
    requires stands { D.stands responder.old }
    ensures stands { D.stands responder.new }
    ensures of { D.of responder.new ≡ D.of responder.old }
    ensures ran { RunsScript (D.of responder.old) lines.now answers.old.items answers.new.items
        (D.seen responder.old) (D.seen responder.new) (D.saved responder.old)
        (D.saved responder.new) }
    ensures rests { D.rests responder.old responder.new }
{
    for line in lines {
        let answer = responder.answer(*line);
        answers.push_reserved(answer);
    }
}
