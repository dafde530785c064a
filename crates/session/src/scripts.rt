//! A session runs its script.
ghost use Rattle.std.specs.Prelude.{◌≡◌, ◌+◌, ◌≤◌, ◌∷◌, [], ℕ, length, vec_capacity, vec_len};
ghost use Rattle.conformance.specs.sessions.Runs.{RunsScript};
ghost use Rattle.conformance.specs.sessions.Saves.{saves_asked_in};
ghost use Rattle.session.specs.Resting.{ReturnsAtRest, IsAtRest};
ghost use Rattle.session.specs.Saves.{SeatHoldsMore, pinned_versions};
ghost use Rattle.session.specs.Scripts.{IsFresh, IsScriptOf};
ghost use Rattle.session.specs.SessionWorlds.{of_world, session_view};

use crate::responders::ScriptResponder;
use crate::world::{Session, World};
use conformance::run_lines;
use gate_run::Gate;
use script::Script;
use std::sync::Wait;
use transcript::LineAnswer;
use version_log::Pinned;

/// The most shares that a session holds between the lines of its script.
const MOST_HELD: usize = 3_900;

/// Runs the session's script. An answer to each line comes behind the answers, and the pin of each
/// accepted save behind the saves; the roots of these pins are all that the session then holds.
pub fn run_script<R: Wait, G: Gate>(
    rt: &R,
    world: &World,
    s: &mut Session,
    script: &Script,
    answers: &mut Vec<LineAnswer>,
    saves: &mut Vec<Pinned>,
    gate: &G,
)
    requires rest { IsAtRest world.now.table s.old }
    requires fresh { IsFresh s.old.view }
    requires lines { IsScriptOf world.now script.now }
    requires room { vec_len answers.old + length script.now ≤ vec_capacity answers.old }
    requires saves { vec_len saves.old + saves_asked_in script.now ≤ vec_capacity saves.old }
    ensures back { ReturnsAtRest world.now.table s.old s.new }
    ensures ran { (number : ℕ) → s.old.view.numbers ≡ number ∷ [] → RunsScript
        (of_world world.now number) script.now answers.old.items answers.new.items
        (session_view s.old.view) (session_view s.new.view) (pinned_versions saves.old.items)
        (pinned_versions saves.new.items) }
    ensures holds { SeatHoldsMore world.now.table s.new.view saves.old.items saves.new.items }
{
    let number = s.number();
    let first = saves.len();
    let most = first + (saves.capacity() - first).min(MOST_HELD);
    let mut responder = ScriptResponder {
        rt,
        gate,
        world,
        session: s,
        saves,
        number,
        first,
        most,
    };
    run_lines(&mut responder, script.lines.as_slice(), answers);
}
