ghost use Rattle.std.specs.Prelude.{◌≡◌, ◌≤◌, List, ℕ, length, map, IfOk};
ghost use Rattle.std.specs.List.{sum};
ghost use Rattle.vox_read.specs.Contents.{Content};
ghost use Rattle.history_model.specs.Journal.{journal_of};
ghost use Rattle.report.specs.Numbers.{AreNumbers};
ghost use Rattle.report.specs.Roots.{TellsReport};
ghost use Rattle.transcript.specs.Lines.{transcript_of};
ghost use Rattle.script_files.specs.Reports.{ReportIs};
ghost use Rattle.script_files.specs.Stages.{JournalIs, AreTexts};

use crate::tallies::Tally;
use conformance::Transcript;
use history_model::{History, journal_text};
use report::report_text;
use requests::Order;
use std::alloc::Global;
use std::marker::Model;
use transcript::transcript_text;
use vw_cell::Memory;
use world_run::{Closed, WorldRan};

/// What a history tells, and its texts. They are empty where they are not asked for.
#[derive(Drop)]
pub(crate) struct Texts {
    pub(crate) tally: Tally,
    pub(crate) journal: Vec<u8>,
    pub(crate) report: Vec<u8>,
}

impl Model for Texts {
    ghost use Rattle.script_files.specs.Stages.{HistoryTexts};

    ghost Value = { HistoryTexts };

    ghost view = { λ texts. record {
      tally = texts.tally;
      journal = texts.journal.items;
      report = texts.report.items;
    } };
}

/// The text of a transcript. Contracts see its bytes.
#[derive(Drop)]
pub(crate) struct Lines {
    pub(crate) bytes: Vec<u8>,
}

impl Model for Lines {
    ghost Value = { List ℕ };

    ghost view = { λ text. text.bytes.items };
}

// What the history of a closed world tells, and its texts.
pub(crate) fn history_texts(
    alloc: Global,
    order: &Order<'_>,
    ran: &WorldRan,
) -> Result<Texts, Memory>
    requires levels { length ran.now.numbers.items ≤ 11 }
    ensures { IfOk result (λ texts. (models : List Content)
        → TellsReport models ran.now.ended
        → AreNumbers models ran.now.ended.history ran.now.numbers.items
        → AreTexts order.now models ran.now.ended.history texts) }
{
    let closed = ran.ended.closed();
    let history = &closed.history;
    let tally = Tally {
        scripts: order.scripts.len() as u64,
        records: history.records.len() as u64,
        marks: history.marks.len() as u64,
        nodes: nodes_of(ran.numbers.as_slice()),
    };
    let journal = asked_journal(alloc, order, history)?;
    let report = asked_report(alloc, order, closed)?;
    Ok(Texts {
        tally,
        journal,
        report,
    })
}

// The number of the nodes of all levels.
fn nodes_of(numbers: &[u32]) -> u64
    requires { length numbers.now ≤ 11 }
    ensures { result ≡ sum numbers.now }
{
    let mut nodes: u64 = 0;
    for number in numbers {
        nodes += u64::from(*number);
    }
    nodes
}

fn asked_journal(alloc: Global, order: &Order<'_>, history: &History) -> Result<Vec<u8>, Memory>
    ensures { IfOk result
        (λ text. JournalIs order.now.journal text.items (journal_of history.now)) }
{
    match order.journal {
        None => Ok(Vec::new(alloc)),
        Some(_) => journal_text(alloc, history),
    }
}

fn asked_report(alloc: Global, order: &Order<'_>, closed: &Closed) -> Result<Vec<u8>, Memory>
    ensures { IfOk result (λ text. (models : List Content) → TellsReport models closed.now
        → ReportIs order.now.report models closed.now.history text.items) }
{
    match order.report {
        None => Ok(Vec::new(alloc)),
        Some(_) => report_text(alloc, closed),
    }
}

// The text of each transcript.
pub(crate) fn transcript_texts(
    alloc: Global,
    transcripts: &[Transcript],
) -> Result<Vec<Lines>, Memory>
    ensures { IfOk result (λ texts. texts.items ≡ map transcript_of transcripts.now) }
{
    let mut texts = Vec::with_capacity(alloc, transcripts.len())?;
    for transcript in transcripts {
        let bytes = transcript_text(alloc, transcript.lines.as_slice())?;
        texts.push(Lines { bytes })?;
    }
    Ok(texts)
}
