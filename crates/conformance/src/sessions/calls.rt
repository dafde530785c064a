ghost use Rattle.std.specs.Prelude.{◌≡◌, ◌+◌, ◌++◌, ◌^◌, ◌≤◌, [], true, ℕ, List};
ghost use Rattle.history_model.specs.Logs.{side_of_world};
ghost use Rattle.history_model.specs.Worlds.{is_edit};
ghost use Rattle.script.specs.Fitting.{EditFits, QuestionFits, SaveFits};
ghost use Rattle.conformance.specs.sessions.Calls.{KnowsOwn};
ghost use Rattle.conformance.specs.sessions.Saves.{version_saved};
ghost use Rattle.conformance.specs.sessions.SessionViews.{SessionOf, SessionView};
ghost use Rattle.conformance.specs.sessions.CallSpecs.{ActSpec, OnceSpec, AskSpec, SaveSpec, ForgetSpec, SameSpec, HeadSpec};

use history_model::{Act, Mark, Question};
use node_words::Full;
use retain::{ForgetRefused, PinRefused, SameAt, SameRefused};
use script::SaveName;
use transcript::Answer;
use vw_cell::Boxed;

/// What a change was answered with. `at` is the length of the history that the session has seen.
#[derive(Clone, Copy, Debug, PartialEq, Eq)]
pub enum ActAnswer {
    /// It is record `n`.
    Done { n: u32 },
    /// A bucket that it needs has no room.
    Full { at: u32, full: Full },
    /// The history has all records that it can have.
    LogFull,
    /// There is no version to go back to.
    NothingToUndo { at: u32 },
    /// There is no version to go on to.
    NothingToRedo { at: u32 },
    /// The version to go to was forgotten.
    Forgotten { at: u32, mark: Mark },
}

/// What one attempt of an edit was answered with.
#[derive(Clone, Copy, Debug, PartialEq, Eq)]
pub enum OnceAnswer {
    /// It is record `n`.
    Done { n: u32 },
    /// A bucket that it needs has no room.
    Full { at: u32, full: Full },
    /// The history has all records that it can have.
    LogFull,
    /// It began at length `base`, and the history went on since.
    Stale { at: u32, base: u32 },
}

/// What a question was answered with.
#[derive(Clone, Copy, Debug, PartialEq, Eq)]
pub struct AskedAt {
    pub at: u32,
    pub answer: Answer,
}

/// How many cells of a box are set that was saved.
#[derive(Clone, Copy, Debug, PartialEq, Eq)]
pub struct SavedAt {
    pub at: u32,
    pub cells: u64,
}

/// The calls of a session in a world that other sessions change too.
///
/// Contracts see the session: its plan, its models, whether its world's cells have tints, and its
/// number; what it has seen and done; the versions that it has saved, in order; and for how many
/// more saves it has room.
pub trait SessionCalls {
    ghost of: { Self → SessionOf };

    ghost seen: { Self → SessionView };

    ghost saved: { Self → List ℕ };

    ghost room: { Self → ℕ };

    /// What holds of the session between two calls.
    ghost stands: { Self → Type 0 };

    /// Two states of one session that agree in all that no call of it changes.
    ghost rests: { Self → Self → Type 0 };

    /// Carries out the act of this line, as the newest record.
    fn act(&mut self, line: u32, act: Act) -> ActAnswer
        requires fits { EditFits (of self.old).tint (2 ^ (of self.old).plan.side)
            (of self.old).models act }
        requires stands { stands self.old }
        ensures stands { stands self.new }
        ensures of { of self.new ≡ of self.old }
        ensures told { ActSpec (of self.old) line act (seen self.old) (seen self.new) result }
        ensures knows { KnowsOwn (of self.old).number (seen self.new) }
        ensures saved { saved self.new ≡ saved self.old }
        ensures room { room self.new ≡ room self.old }
        ensures rests { rests self.old self.new };

    /// Carries out the edit of this line in one attempt, where the history doesn't go on meanwhile.
    fn act_once(&mut self, line: u32, act: Act) -> OnceAnswer
        requires fits { EditFits (of self.old).tint (2 ^ (of self.old).plan.side)
            (of self.old).models act }
        requires edit { is_edit act ≡ true }
        requires stands { stands self.old }
        ensures stands { stands self.new }
        ensures of { of self.new ≡ of self.old }
        ensures told { OnceSpec (of self.old) line act (seen self.old) (seen self.new) result }
        ensures knows { KnowsOwn (of self.old).number (seen self.new) }
        ensures saved { saved self.new ≡ saved self.old }
        ensures room { room self.new ≡ room self.old }
        ensures rests { rests self.old self.new };

    /// Answers the question of this version, or of the newest.
    fn ask(&mut self, version: Option<u32>, question: Question) -> Result<AskedAt, PinRefused>
        requires fits { QuestionFits
            (side_of_world (of self.old).tint (2 ^ (of self.old).plan.side)) question }
        requires stands { stands self.old }
        ensures stands { stands self.new }
        ensures of { of self.new ≡ of self.old }
        ensures told { AskSpec (of self.old) version question (seen self.old) (seen self.new)
            result }
        ensures knows { KnowsOwn (of self.old).number (seen self.new) }
        ensures saved { saved self.new ≡ saved self.old }
        ensures room { room self.new ≡ room self.old }
        ensures rests { rests self.old self.new };

    /// Pins this version, or the newest, to save the box under this name, and counts its cells.
    fn save(
        &mut self,
        version: Option<u32>,
        name: SaveName,
        part: Boxed,
    ) -> Result<SavedAt, PinRefused>
        requires fits { SaveFits
            (side_of_world (of self.old).tint (2 ^ (of self.old).plan.side)) name part }
        requires room { 1 ≤ room self.old }
        requires stands { stands self.old }
        ensures stands { stands self.new }
        ensures of { of self.new ≡ of self.old }
        ensures told { SaveSpec (of self.old) version part (seen self.old) (seen self.new) result }
        ensures knows { KnowsOwn (of self.old).number (seen self.new) }
        ensures saved { saved self.new ≡ saved self.old ++ version_saved version result }
        ensures room { room self.old ≤ room self.new + 1 }
        ensures rests { rests self.old self.new };

    /// Forgets the version, by this line.
    fn forget(&mut self, line: u32, version: u32) -> Result<u32, ForgetRefused>
        requires stands { stands self.old }
        ensures stands { stands self.new }
        ensures of { of self.new ≡ of self.old }
        ensures told { ForgetSpec (of self.old) line version (seen self.old) (seen self.new)
            result }
        ensures knows { KnowsOwn (of self.old).number (seen self.new) }
        ensures saved { saved self.new ≡ saved self.old }
        ensures room { room self.new ≡ room self.old }
        ensures rests { rests self.old self.new };

    /// Whether both versions have the same cells, and the same tints where cells have them.
    fn same(&mut self, v: u32, w: u32) -> Result<SameAt, SameRefused>
        requires stands { stands self.old }
        ensures stands { stands self.new }
        ensures of { of self.new ≡ of self.old }
        ensures told { SameSpec (of self.old) v w (seen self.old) (seen self.new) result }
        ensures knows { KnowsOwn (of self.old).number (seen self.new) }
        ensures saved { saved self.new ≡ saved self.old }
        ensures room { room self.new ≡ room self.old }
        ensures rests { rests self.old self.new };

    /// The length of the history.
    fn head(&mut self) -> u32
        requires stands { stands self.old }
        ensures stands { stands self.new }
        ensures of { of self.new ≡ of self.old }
        ensures told { HeadSpec (seen self.old) (seen self.new) result }
        ensures knows { KnowsOwn (of self.old).number (seen self.new) }
        ensures saved { saved self.new ≡ saved self.old }
        ensures room { room self.new ≡ room self.old }
        ensures rests { rests self.old self.new };

    /// The rest of a state is its own rest.
    ghost rests_itself: { (a : Self) → rests a a };

    /// What rests over one call and over the next rests over both.
    ghost rests_on: { (a b c : Self) → rests a b → rests b c → rests a c };
}
