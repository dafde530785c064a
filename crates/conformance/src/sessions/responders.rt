ghost use Rattle.std.specs.Prelude.{◌≡◌, ◌+◌, ◌++◌, ◌^◌, ◌≤◌, ℕ, List};
ghost use Rattle.script.specs.Fitting.{CommandFits};
ghost use Rattle.conformance.specs.Saves.{saved_by};
ghost use Rattle.conformance.specs.sessions.Saves.{saves_asked, versions_of};
ghost use Rattle.conformance.specs.sessions.SessionViews.{SessionOf, SessionView};
ghost use Rattle.conformance.specs.sessions.Lines.{AreEarlier, AnswersLine};

use script::ScriptLine;
use transcript::LineAnswer;

/// Whatever answers the lines of one session, beside other sessions of its world.
///
/// Contracts see which session it is, what it has seen and done, the versions of the saves that it
/// accepted, in order, and for how many more saves it has room. It takes no memory.
pub trait LineResponder {
    ghost of: { Self → SessionOf };

    ghost seen: { Self → SessionView };

    ghost saved: { Self → List ℕ };

    ghost room: { Self → ℕ };

    /// What holds of the responder between two lines.
    ghost stands: { Self → Type 0 };

    /// Two states of one responder that agree in all that no call of it changes.
    ghost rests: { Self → Self → Type 0 };

    /// Does what the session's line asks for, and answers it.
    fn answer(&mut self, l: ScriptLine) -> LineAnswer
        requires fits { CommandFits (of self.old).tint (2 ^ (of self.old).plan.side)
            (of self.old).models l.command }
        requires earlier { AreEarlier (seen self.old) l.line }
        requires room { saves_asked l.command ≤ room self.old }
        requires stands { stands self.old }
        ensures stands { stands self.new }
        ensures of { of self.new ≡ of self.old }
        ensures takes { AnswersLine (of self.old) l (seen self.old) (seen self.new) result }
        ensures saved { saved self.new
            ≡ saved self.old ++ versions_of (saved_by l.command result.at result.answer) }
        ensures room { room self.old ≤ room self.new + saves_asked l.command }
        ensures rests { rests self.old self.new };

    /// The rest of a state is its own rest.
    ghost rests_itself: { (a : Self) → rests a a };

    /// What rests over one line and over the next rests over both.
    ghost rests_on: { (a b c : Self) → rests a b → rests b c → rests a c };
}
