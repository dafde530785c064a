// Journals of histories.
ghost use Rattle.std.specs.Prelude.{IfOk, IfErr};
ghost use Rattle.history_model.specs.Logs.{SuitsTints};
ghost use Rattle.history_model.specs.Refusals.{RefusesJournal};
ghost use Rattle.dag_answers.specs.Kept.{IsLargeStore};
ghost use Rattle.commands.specs.Audits.{IsJournalOf};

use history_model::{History, JournalFault, read_journal};
use std::alloc::Global;

/// The history that a journal tells, or the first line that doesn't fit.
#[tactic(auto, using(dag_answers::proofs::ToldLaws::told_suits, dag_answers::proofs::ToldLaws::told_large))]
pub(crate) fn read_journal_history(alloc: Global, bytes: &[u8]) -> Result<History, JournalFault>
    ensures read { IfOk result (λ h. IsJournalOf bytes.now h) }
    ensures suits { IfOk result (λ h. SuitsTints h) }
    ensures large { IfOk result (λ h. IsLargeStore h.coloured h.side) }
    ensures refused { IfErr result (λ fault. RefusesJournal fault bytes.now) }
{
    match read_journal(alloc, bytes) {
        Ok(history) => Ok(history),
        Err(fault) => Err(fault),
    }
}
