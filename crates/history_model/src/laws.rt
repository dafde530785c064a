ghost use Rattle.std.specs.Prelude.{◌≡◌, ℕ, List};
ghost use Rattle.history_model.specs.Contents.{Content, AreModels};
ghost use Rattle.history_model.specs.Journal.{journal_of};
ghost use Rattle.history_model.specs.Logs.{Log, IsLegal, SuitsTints};
ghost use Rattle.history_model.specs.Entries.{IsSide, HasJournal};
ghost use Rattle.history_model.specs.Refusals.{RefusesJournal};
ghost use Rattle.history_model.specs.Signing.{AreSigned};
ghost use Rattle.history_model.specs.declared.reading.JournalFault.TheVariants.{Line};

/// A law: a legal history can be told by a journal, so that its text is read back as it.
///
/// Whether a history is legal doesn't rest on who did what, so that is asked for besides: a run has
/// sessions below 64, and lines of 32 bits.
///
/// Nor does it rest on whether the history is coloured, which all of its acts have to suit.
pub fn legal_histories_can_be_told()
    ensures { (side : ℕ) (models : List Content) (log : Log) → IsSide log.coloured log.side
        → AreModels models → IsLegal side models log → AreSigned log → SuitsTints log
        → HasJournal log }
{}

/// A law: a text is the journal of one history at most.
pub fn journals_tell_one_history()
    ensures { (a b : Log) → HasJournal a → HasJournal b → journal_of a ≡ journal_of b → a ≡ b }
{}

/// A law: the line that a refused text is told by is one.
pub fn journals_are_refused_at_one_line()
    ensures { (text : List ℕ) (m n : ℕ) → RefusesJournal (Line m) text
        → RefusesJournal (Line n) text → m ≡ n }
{}
