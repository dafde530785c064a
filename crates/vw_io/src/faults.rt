//! A count of faults, up to the last value of a `u64`.
ghost use Rattle.std.specs.Prelude.{◌≡◌, ◌≤◌, Err};
ghost use Rattle.vw_io.specs.Read.{ReadCause};
ghost use Rattle.vw_io.specs.System.{answer_of_read, faults_after_read, faults_after_write, faults_after_put};

use crate::shelves::{ReadRefused, WriteRefused};
use crate::sinks::PutRefused;

/// Counts the refusal of a read, and gives the answer to it.
pub(crate) fn answer_read(faults: &mut u64, refused: ReadRefused) -> ReadRefused
    ensures answer { result ≡ answer_of_read refused faults.old }
    ensures count { faults.new ≡ faults_after_read result faults.old }
    ensures cause { ReadCause (Err result) faults.old faults.new }
    ensures never_falls { faults.old ≤ faults.new }
{
    let answer = match refused {
        ReadRefused::Missing | ReadRefused::TooLong if *faults == u64::MAX => ReadRefused::Failed,
        other => other,
    };
    if let ReadRefused::Failed = answer {
        *faults = faults.saturating_add(1);
    }
    answer
}

/// Counts the refusal of a write.
pub(crate) fn count_write(faults: &mut u64, refused: WriteRefused)
    ensures count { faults.new ≡ faults_after_write refused faults.old }
    ensures never_falls { faults.old ≤ faults.new }
{
    if let WriteRefused::Failed = refused {
        *faults = faults.saturating_add(1);
    }
}

/// Counts the refusal of a put.
pub(crate) fn count_put(faults: &mut u64, refused: PutRefused)
    ensures count { faults.new ≡ faults_after_put refused faults.old }
    ensures never_falls { faults.old ≤ faults.new }
{
    if let PutRefused::Failed = refused {
        *faults = faults.saturating_add(1);
    }
}
