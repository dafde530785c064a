ghost use Rattle.std.specs.Prelude.{◌≡◌, ◌+◌, ◌<◌, ◌≤◌, ◌++◌, ◌∷◌, [], length, IfOk, IfErr, MatchResult, MatchOption};
ghost use Rattle.plain_text.specs.Parts.{lines, words, line_of};
ghost use Rattle.history_model.specs.declared.reading.JournalFault.TheVariants.{Memory};
ghost use Rattle.history_model.specs.Logs.{Log};
ghost use Rattle.history_model.specs.Journal.{journal_of, header};
ghost use Rattle.history_model.specs.Packing.{Reads};
ghost use Rattle.history_model.specs.Entries.{HasJournal, IsSide, IsRecord, IsNextMark, side_list, record_list, mark_list, begun, front_lines, last_lines, next_version};
ghost use Rattle.history_model.specs.Following.{NoRecordIn, RecordIn};
ghost use Rattle.history_model.specs.Refusals.{RefusesJournal, RefusesEntry, RefusesLines};

use crate::entries::{read_mark, read_record, read_side};
use crate::histories::{History, Mark, Record};
use plain_text::split_line;
use std::alloc::{AllocError, AllocFailed, Global};
use thiserror::Error;
use vw_cell::Side;

/// Why bytes are no journal.
#[derive(Clone, Copy, Debug, PartialEq, Eq, Error)]
pub enum JournalFault {
    /// The first line that doesn't fit, counted from 1.
    #[error("line {0} doesn't fit")]
    Line(u32),
    /// Memory ran out. It says nothing of the bytes.
    #[error("out of memory")]
    Memory,
}

impl From<AllocError> for JournalFault {
    ghost from_gives = { λ _ fault. fault ≡ Memory };

    fn from(_e: AllocError) -> JournalFault {
        JournalFault::Memory
    }
}

impl<T: Drop> From<AllocFailed<T>> for JournalFault {
    ghost from_gives = { λ _ fault. fault ≡ Memory };

    fn from(_e: AllocFailed<T>) -> JournalFault {
        JournalFault::Memory
    }
}

const HEADER: &[u8] = b"voxdag journal 1";

const COLOURED: &[u8] = b"voxdag journal 2";

const END: &[u8] = b"end";

/// The most records of a history.
const RECORDS: usize = 65_535;

/// The history that a journal tells, or the first line that doesn't fit. Whether its undos, redos
/// and marks are legal is not asked here.
pub fn read_journal(alloc: Global, bytes: &[u8]) -> Result<History, JournalFault>
    ensures read { IfOk result (λ h. HasJournal h × (bytes.now ≡ journal_of h)) }
    ensures refused { IfErr result (λ fault. RefusesJournal fault bytes.now) }
    ensures comes { (log : Log) → HasJournal log → bytes.now ≡ journal_of log
        → MatchResult result (λ h. h ≡ log) (λ fault. fault ≡ Memory) }
{
    match read_head(bytes) {
        Ok(head) => read_entries(alloc, head.0, head.1, head.2),
        Err(fault) => Err(fault),
    }
}

// The history of this side, coloured or not, with these lines behind the first two.
fn read_entries(
    alloc: Global,
    side: Side,
    coloured: bool,
    entries: &[u8],
) -> Result<History, JournalFault>
    requires { IsSide coloured side }
    ensures read { IfOk result (λ h. HasJournal h
        × (begun coloured side ++ lines entries.now ≡ front_lines h ++ last_lines)) }
    ensures refused { IfErr result
        (λ fault. RefusesLines fault (begun coloured side ++ lines entries.now)) }
{
    let mut history = History {
        side,
        coloured,
        records: Vec::new(alloc),
        marks: Vec::new(alloc),
    };
    let mut rest = entries;
    loop {
        let Some((line, after)) = split_line(rest) else {
            return Err(JournalFault::Line(line_number(&history)));
        };
        if line == END {
            if after.is_empty() {
                return Ok(history);
            }
            return Err(JournalFault::Line(line_number(&history) + 1));
        }
        add_entry(&mut history, line)?;
        rest = after;
    }
}

// The side, whether the history is coloured, and the bytes behind the first two lines.
#[tactic(auto, using(crate::proofs::TakingLaws::head_tail, crate::proofs::TakingLaws::head_line))]
fn read_head(bytes: &[u8]) -> Result<(Side, bool, &[u8]), JournalFault>
    ensures read { IfOk result (λ h. IsSide h.1 h.0
        × (lines bytes.now ≡ begun h.1 h.0 ++ lines h.2.now)) }
    ensures refused { IfErr result (λ fault. RefusesJournal fault bytes.now) }
{
    let Some((first, rest)) = split_line(bytes) else {
        return Err(JournalFault::Line(1));
    };
    if first == HEADER {
        return read_second(rest, false);
    }
    if first == COLOURED {
        return read_second(rest, true);
    }
    Err(JournalFault::Line(1))
}

// The side, from the line behind the header, and the bytes behind it.
#[tactic(auto, using(crate::proofs::TakingLaws::side_tail, crate::proofs::TakingLaws::side_line, crate::proofs::TakingLaws::side_begun))]
fn read_second(bytes: &[u8], coloured: bool) -> Result<(Side, bool, &[u8]), JournalFault>
    ensures read { IfOk result (λ h. IsSide h.1 h.0
        × (header coloured ∷ lines bytes.now ≡ begun h.1 h.0 ++ lines h.2.now)) }
    ensures refused { IfErr result
        (λ fault. RefusesLines fault (header coloured ∷ lines bytes.now)) }
{
    let Some((second, rest)) = split_line(bytes) else {
        return Err(JournalFault::Line(2));
    };
    match read_side(second, coloured) {
        Some(side) => Ok((side, coloured, rest)),
        None => Err(JournalFault::Line(2)),
    }
}

// Adds the record or the mark of the line.
fn add_entry(history: &mut History, line: &[u8]) -> Result<(), JournalFault>
    requires { HasJournal history.old }
    ensures { MatchResult result
        (λ _. HasJournal history.new
        × (front_lines history.new ≡ front_lines history.old ++ line.now ∷ []))
        (λ fault. RefusesEntry fault history.old line.now) }
{
    if let Some(record) = next_record(history, line) {
        history.records.push(record)?;
        return Ok(());
    }
    match next_mark(history, line) {
        Some(mark) => {
            history.marks.push(mark)?;
            Ok(())
        }
        None => Err(JournalFault::Line(line_number(history))),
    }
}

// The record of the line, where one can follow.
fn next_record(history: &History, line: &[u8]) -> Option<Record>
    requires { HasJournal history.now }
    ensures { MatchOption result (NoRecordIn history.now line.now) (RecordIn history.now line.now) }
{
    let count = history.records.len();
    if !history.marks.is_empty() || count >= RECORDS {
        return None;
    }
    read_record(line, count as u32 + 1, history.side, history.coloured)
}

// The mark of the line, where one can follow.
fn next_mark(history: &History, line: &[u8]) -> Option<Mark>
    requires { HasJournal history.now }
    ensures { Reads
        (IsNextMark (length history.now.records) (next_version 0 history.now.marks))
        mark_list
        (words line.now)
        result }
{
    let count = history.records.len();
    let least = least_version(history.marks.as_slice());
    read_mark(line, count as u32, least)
}

// The least version that the next mark can have.
fn least_version(marks: &[Mark]) -> u32
    requires { next_version 0 marks.now ≤ 65535 }
    ensures { result ≡ next_version 0 marks.now }
{
    match marks.last() {
        Some(mark) => mark.version + 1,
        None => 0,
    }
}

// The number of the line that follows.
fn line_number(history: &History) -> u32
    requires { HasJournal history.now }
    ensures number { result ≡ length (front_lines history.now) + 1 }
    ensures small { result ≤ 131073 }
{
    (history.records.len() + history.marks.len()) as u32 + 3
}
