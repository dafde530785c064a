//! A world is gone on with: the one that stands behind a journal.
ghost use Rattle.std.specs.Prelude.{◌≡◌, ℕ, List, true, false, IfOk, IfErr};
ghost use Rattle.vox_read.specs.Contents.{AreModels};
ghost use Rattle.history_model.specs.Entries.{HasJournal};
ghost use Rattle.node_words.specs.Plans.{is_cap};
ghost use Rattle.voxdag_c.specs.held.GoingOn.{IsCapAsked, IsGoneOn, IsToldOver, RefusesToGoOn, PutsFault, PutsWhy, IsFewAt};

use crate::held::statuses as status;
use crate::held::worlds::{CWorld, boxed, plan_with, read_file};
use dag_answers::{HistoryRefused, world_of_history};
use history_model::{History, JournalFault, read_journal};
use std::alloc::Global;
use vox_read::Models;

impl CWorld {
    /// The world that stands behind a journal over the models of a VOX file, where no bytes stand
    /// for no models, with this number of slots of a bucket, 0 for the usual one, and from now on
    /// with so many of its last versions kept, 0 for all. Where the journal is refused, its line is
    /// told. The box is made last.
    pub fn from_journal(
        alloc: Global,
        cap: u16,
        keep: u32,
        file: &[u8],
        journal: &[u8],
        line: &mut u32,
    ) -> Result<Box<CWorld, Global>, u32>
        ensures gone_on { IfOk result (λ b. IsGoneOn cap keep file.now journal.now b.value) }
        ensures line { IfOk result (λ _. line.new ≡ line.old) }
        ensures refused { IfErr result (RefusesToGoOn cap file.now journal.now line.old line.new) }
    {
        if !is_cap_asked(cap) {
            return Err(status::BAD_PLAN);
        }
        let models = match read_file(alloc, file) {
            Ok(models) => models,
            Err(status) => return Err(status),
        };
        let history = match read_journal(alloc, journal) {
            Ok(history) => history,
            Err(fault) => return Err(put_fault(fault, line)),
        };
        match behind(alloc, cap, keep, models, &history, line) {
            Ok(world) => boxed(alloc, world),
            Err(status) => Err(status),
        }
    }
}

// Whether buckets can have so many slots, where 0 asks for the usual number.
#[tactic(auto, using(crate::proofs::OfHeld::GoingOn::cap_is_asked, crate::proofs::OfHeld::GoingOn::cap_is_not))]
pub(crate) fn is_cap_asked(cap: u16) -> bool
    ensures yes { result ≡ true → IsCapAsked cap }
    ensures no { result ≡ false → ¬ IsCapAsked cap }
{
    if cap == 0 { true } else { is_cap(cap) }
}

fn is_cap(cap: u16) -> bool
    ensures { result ≡ is_cap cap }
{
    1 <= cap && cap <= 256
}

// The world that stands behind a history.
#[tactic(auto, using(dag_answers::proofs::ToldLaws::told_marks, dag_answers::proofs::ToldLaws::told_suits, dag_answers::proofs::ToldLaws::told_large, crate::proofs::OfHeld::GoingOn::few_at, crate::proofs::OfHeld::GoingOn::few_lines))]
fn behind(
    alloc: Global,
    cap: u16,
    keep: u32,
    models: Models,
    history: &History,
    line: &mut u32,
) -> Result<CWorld, u32>
    requires cap { IsCapAsked cap }
    requires models { AreModels models }
    requires has { HasJournal history.now }
    ensures gone_on { (bytes journal : List ℕ) → IsToldOver bytes journal models history.now
        → IfOk result (λ w. IsGoneOn cap keep bytes journal w) }
    ensures line { IfOk result (λ _. line.new ≡ line.old) }
    ensures refused { (bytes journal : List ℕ) → IsToldOver bytes journal models history.now
        → IfErr result (RefusesToGoOn cap bytes journal line.old line.new) }
{
    let plan = match plan_with(history.side, cap) {
        Some(plan) => plan,
        None => return Err(status::BAD_PLAN),
    };
    let number = history.records.len() + history.marks.len();
    match world_of_history(alloc, history, models, &plan) {
        Ok(open) => Ok(CWorld {
            open,
            keep,
            line: number as u32 + 1,
        }),
        Err(why) => Err(put_why(why, line)),
    }
}

// Why bytes are no journal, and the first line that doesn't fit.
fn put_fault(fault: JournalFault, line: &mut u32) -> u32
    ensures { PutsFault fault line.old line.new result }
{
    match fault {
        JournalFault::Line(number) => {
            *line = number;
            status::BAD_JOURNAL
        }
        JournalFault::Memory => status::NO_MEMORY,
    }
}

// Why no world stands behind a history, and the line of the first record that isn't legal: it comes
// behind the two first ones.
fn put_why(why: HistoryRefused, line: &mut u32) -> u32
    requires few { IsFewAt why }
    ensures { PutsWhy why line.old line.new result }
{
    match why {
        HistoryRefused::Illegal(number) => {
            *line = number + 2;
            status::NOT_LEGAL
        }
        HistoryRefused::Full(_) => status::STORE_FULL,
        HistoryRefused::Memory => status::NO_MEMORY,
    }
}
