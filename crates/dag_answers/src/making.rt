//! The file of the versions of a history.
ghost use Rattle.std.specs.Prelude.{◌≡◌, ◌+◌, ◌^◌, ◌-◌, ◌<◌, ◌≤◌, [], All, IfOk, IfErr, OnOk, drop, length};
ghost use Rattle.std.specs.List.{AllPairs};
ghost use Rattle.vox_read.specs.Contents.{AreModels};
ghost use Rattle.history_model.specs.Logs.{SuitsTints};
ghost use Rattle.store_run.specs.Kept.{IsLargeStore};
ghost use Rattle.store_run.specs.Known.{known_state};
ghost use Rattle.store_run.specs.Marked.{AreLegalMarks, HoldsVersions};
ghost use Rattle.store_run.specs.Replaying.{AreLegalRecords, replay_plan};
ghost use Rattle.dag_answers.specs.Histories.{IsFileOfHistory, RefusesHistory, RefusesHistoryOver, of_replay};
ghost use Rattle.dag_file.specs.Lists.{HoldsList, DoNumbersRise, AreNumbersSmall, IsFileOfList};
ghost use Rattle.dag_answers.specs.Replays.{AreDue, AreDueMarks, GivesWorldOf, HasReplayed};
ghost use Rattle.dag_answers.specs.Replays.{MayReplayStored};

use crate::legality::first_illegal;
use dag_file::write_dag;
use history_model::{History, Mark};
use node_words::{Full, NodeStore, Plan};
use std::alloc::Global;
use std::marker::Brand;
use std::sync::ledger::{Blank, Ledger};
use store_run::{HeldRoots, MarkedReplay, OpenWorld, ReplayRefused};
use vox_read::Models;
use vw_cell::{Memory, Side};

/// Why no file is made of a history.
#[derive(Clone, Copy, Debug, PartialEq, Eq)]
pub enum HistoryRefused {
    /// The record of this number, counted from 1, is the first that breaks the rules of a legal
    /// history.
    Illegal(u32),
    /// A bucket had no room for what a record needs.
    Full(Full),
    /// Want of memory.
    Memory,
}

impl From<ReplayRefused> for HistoryRefused {
    ghost use Rattle.std.specs.Prelude.{◌≡◌};
    ghost use Rattle.dag_answers.specs.Histories.{of_replay};

    ghost from_gives = { λ why refused. refused ≡ of_replay why };

    fn from(why: ReplayRefused) -> Self {
        match why {
            ReplayRefused::Full(full) => HistoryRefused::Full(full),
            ReplayRefused::Memory => HistoryRefused::Memory,
        }
    }
}

impl From<Memory> for HistoryRefused {
    ghost use Rattle.std.specs.Prelude.{◌≡◌};
    ghost use Rattle.dag_answers.specs.declared.making.HistoryRefused.TheVariants as refusals;

    ghost from_gives = { λ _ refused. refused ≡ refusals.Memory };

    fn from(_: Memory) -> Self {
        HistoryRefused::Memory
    }
}

/// The file of the versions of a history that have no mark, in a store of its side. The history is
/// replayed once, and each version is given back at its mark. Where the history is coloured, it is
/// a file of the store that keeps the tints of its world.
pub fn file_of_history(
    alloc: Global,
    history: &History,
    models: Models,
) -> Result<Vec<u8>, HistoryRefused>
    requires models { AreModels models }
    requires suits { SuitsTints history.now }
    requires large { IsLargeStore history.now.coloured history.now.side }
    requires marks { AreLegalMarks (length history.now.records) history.now.marks }
    ensures file { IfOk result (λ file. IsFileOfHistory models history.now file.items) }
    ensures refused { IfErr result (RefusesHistory models history.now) }
    ensures legal { IfOk result
        (λ _. AreLegalRecords (2 ^ history.now.side) models history.now.marks history.now.records) }
{
    if let Some(number) = first_illegal(alloc, history, &models)? {
        return Err(HistoryRefused::Illegal(number));
    }
    let plan = match Plan::even(history.side, 4096, 256) {
        Some(plan) => plan,
        None => unreachable!(),
    };
    file_over::<Brand>(alloc, history, models, &plan, Blank::new(1))
}

/// The world that stands behind a history, over a plan of its side: with its versions, its marks,
/// and what can be undone and redone, as when the last of its commands was done. The history is
/// replayed once, and each version is given back at its mark.
pub fn world_of_history(
    alloc: Global,
    history: &History,
    models: Models,
    plan: &Plan,
) -> Result<OpenWorld, HistoryRefused>
    requires models { AreModels models }
    requires suits { SuitsTints history.now }
    requires large { IsLargeStore history.now.coloured history.now.side }
    requires marks { AreLegalMarks (length history.now.records) history.now.marks }
    requires side { plan.now.side ≡ history.now.side }
    ensures plan { IfOk result (λ w. w.plan ≡ plan.now) }
    ensures models { IfOk result (λ w. w.models ≡ models) }
    ensures log { IfOk result (λ w. w.log ≡ history.now) }
    ensures refused { IfErr result (RefusesHistoryOver plan.now models history.now) }
    ensures legal { IfOk result
        (λ _. AreLegalRecords (2 ^ history.now.side) models history.now.marks history.now.records) }
{
    if let Some(number) = first_illegal(alloc, history, &models)? {
        return Err(HistoryRefused::Illegal(number));
    }
    world_over::<Brand>(alloc, history, models, plan, Blank::new(1))
}

// The same of a history whose records keep the rules.
fn world_over<L: Ledger>(
    alloc: Global,
    history: &History,
    models: Models,
    plan: &Plan,
    blank: Blank,
) -> Result<OpenWorld, HistoryRefused>
    requires replays { MayReplayStored models history.now }
    requires side { plan.now.side ≡ history.now.side }
    requires name { blank.name ≡ L.name }
    requires parts { blank.parts ≡ L.parts }
    requires some { 0 < L.parts }
    ensures world { GivesWorldOf plan.now models history.now result }
    ensures refused { IfErr result (RefusesHistoryOver plan.now models history.now) }
{
    let replay: MarkedReplay<L> = replay_history(alloc, history, models, plan, blank)?;
    Ok(replay.into_world())
}

// The file of a history whose records keep the rules, over a plan of its side.
fn file_over<L: Ledger>(
    alloc: Global,
    history: &History,
    models: Models,
    plan: &Plan,
    blank: Blank,
) -> Result<Vec<u8>, HistoryRefused>
    requires replays { MayReplayStored models history.now }
    requires plan { plan.now ≡ replay_plan history.now.side }
    requires name { blank.name ≡ L.name }
    requires parts { blank.parts ≡ L.parts }
    requires some { 0 < L.parts }
    ensures file { IfOk result (λ file. IsFileOfHistory models history.now file.items) }
    ensures refused { IfErr result (RefusesHistory models history.now) }
{
    let replay: MarkedReplay<L> = replay_history(alloc, history, models, plan, blank)?;
    let held = replay.into_roots(alloc)?;
    let file = file_of_roots(alloc, history.side, held)?;
    Ok(file)
}

// A history whose records keep the rules, replayed over a plan of its side.
#[tactic(auto, using(crate::proofs::ReplayLaws::has_begun))]
fn replay_history<L: Ledger>(
    alloc: Global,
    history: &History,
    models: Models,
    plan: &Plan,
    blank: Blank,
) -> Result<MarkedReplay<L>, HistoryRefused>
    requires replays { MayReplayStored models history.now }
    requires side { plan.now.side ≡ history.now.side }
    requires name { blank.name ≡ L.name }
    requires parts { blank.parts ≡ L.parts }
    requires some { 0 < L.parts }
    ensures world { GivesWorldOf plan.now models history.now result }
    ensures refused { IfErr result (RefusesHistoryOver plan.now models history.now) }
{
    let due = marks_due(alloc, history.marks.as_slice())?;
    let records = history.records.len();
    let tint = history.coloured;
    let mut replay: MarkedReplay<L> = MarkedReplay::begin(
        alloc, plan, models, tint, records, blank,
    )?;
    replay_all(&mut replay, history, due.as_slice())?;
    Ok(replay)
}

// The marks by their moments.
fn marks_due(alloc: Global, marks: &[Mark]) -> Result<Vec<Mark>, Memory>
    requires { AllPairs (λ a b. a.version < b.version) marks.now }
    ensures { IfOk result (λ due. AreDue marks.now due.items) }
{
    let mut due = Vec::with_capacity(alloc, marks.len())?;
    due.extend_from_slice(marks)?;
    due.sort_unstable_by_key(|mark| mark.at);
    Ok(due)
}

// Replays all records, each with the marks that are due behind it.
#[tactic(auto, using(crate::proofs::ReplayLaws::may_come, crate::proofs::ReplayLaws::has_next, crate::proofs::ReplayLaws::refuses_next, crate::proofs::ReplayLaws::begun_later, crate::proofs::ReplayLaws::all_due))]
fn replay_all<L: Ledger>(
    replay: &mut MarkedReplay<L>,
    history: &History,
    due: &[Mark],
) -> Result<(), ReplayRefused>
    requires suits { SuitsTints history.now }
    requires dated { AreDueMarks history.now due.now }
    requires records { AreLegalRecords (2 ^ history.now.side) replay.old.models history.now.marks
        history.now.records }
    requires begun { HasReplayed replay.old.models history.now due.now 0 0 replay.old }
    ensures plan { replay.new.plan ≡ replay.old.plan }
    ensures all { OnOk result (HasReplayed replay.old.models history.now due.now
        (length history.now.records) (length due.now) replay.new) }
    ensures refused { IfErr result
        (λ why. RefusesHistoryOver replay.old.plan replay.old.models history.now
        (of_replay why)) }
{
    let mut next = 0;
    for record in &history.records {
        match replay.take(*record) {
            Ok(()) => {}
            Err(why) => return Err(why),
        }
        next = forget_due(replay, history, due, next);
    }
    Ok(())
}

// Gives back the versions whose marks are due now, and says where the others begin.
#[tactic(auto, using(crate::proofs::ReplayLaws::due_kept, crate::proofs::ReplayLaws::due_comes, crate::proofs::ReplayLaws::none_due, crate::proofs::ReplayLaws::due_later))]
fn forget_due<L: Ledger>(
    replay: &mut MarkedReplay<L>,
    history: &History,
    due: &[Mark],
    from: usize,
) -> usize
    requires dated { AreDueMarks history.now due.now }
    requires from { from ≤ length due.now }
    requires so_far { HasReplayed replay.old.models history.now due.now
        (length replay.old.log.records) from replay.old }
    ensures plan { replay.new.plan ≡ replay.old.plan }
    ensures so_far { HasReplayed replay.old.models history.now due.now
        (length replay.old.log.records) result replay.new }
    ensures next { result ≤ length due.now }
    ensures later { All (λ m. length replay.old.log.records < m.at) (drop result due.now) }
{
    let _ = history;
    let now = replay.number();
    let mut next = from;
    while next < due.len() && due[next].at == now {
        replay.forget(due[next]);
        next += 1;
    }
    next
}

// The file of these versions.
fn file_of_roots(alloc: Global, side: Side, held: HeldRoots) -> Result<Vec<u8>, Memory>
    requires roots { HoldsList (known_state held.store).held (side - 1) held.roots.items }
    requires rise { DoNumbersRise held.roots.items }
    requires small { AreNumbersSmall held.roots.items }
    requires side { held.store.words.plan.side ≡ side }
    ensures file { IfOk result
        (λ file. IsFileOfList (known_state held.store).held (side - 1) held.roots.items
        file.items) }
{
    let mut held = held;
    let file = written(alloc, side, &mut held);
    held.give_up();
    file
}

#[tactic(auto, using(dag_file::proofs::CanonicalLaws::show_canonical))]
fn written(alloc: Global, side: Side, held: &mut HeldRoots) -> Result<Vec<u8>, Memory>
    requires roots { HoldsList (known_state held.old.store).held (side - 1) held.old.roots.items }
    requires rise { DoNumbersRise held.old.roots.items }
    requires small { AreNumbersSmall held.old.roots.items }
    requires side { held.old.store.words.plan.side ≡ side }
    ensures file { IfOk result
        (λ file. IsFileOfList (known_state held.old.store).held (side - 1) held.old.roots.items
        file.items) }
{
    let mut file = Vec::new(alloc);
    let _number = held.store.held();
    write_dag(
        alloc,
        &mut held.store,
        side,
        held.roots.as_slice(),
        &mut file,
    )?;
    Ok(file)
}
