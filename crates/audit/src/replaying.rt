ghost use Rattle.std.specs.Prelude.{◌≡◌, ◌+◌, ◌<◌, ◌^◌, ◌++◌, ◌∷◌, true, false, [], List, length, take, All, IfOk, IfErr, MatchOption, Ok, IsTrue, ◌↔◌};
ghost use Rattle.conformance.specs.Answers.{target_at};
ghost use Rattle.history_model.specs.declared.histories.Mark.{Mark};
ghost use Rattle.history_model.specs.Logs.{suits_tints};
ghost use Rattle.audit.specs.Marks.{TellsMarks};
ghost use Rattle.store_run.specs.Replaying.{MakesOnlyParts};
ghost use Rattle.audit.specs.Audits.{RefusesAlong};
ghost use Rattle.audit.specs.Replaying.{AreUndoTargets, FollowEach, FreeBy, RefusesNext, Steps};
ghost use Rattle.audit.specs.Replaying.{MayTakeAll, MayTakeNext, StaysInWorld, undo_targets_at};

use crate::audits::AuditRefused;
use crate::marks::{is_held, mark_of};
use history_model::{Act, Mark, Record};
use std::alloc::Global;
use std::sync::ledger::Ledger;
use store_run::{Replay, ReplayRefused};

/// The versions that an undo goes back to and a redo goes on to, after some number of records.
#[derive(Clone, Copy, Debug, PartialEq, Eq)]
pub struct UndoTargets {
    pub undo: Option<u32>,
    pub redo: Option<u32>,
}

// Replays all records. `None` where one can't follow those before it.
pub(crate) fn replay_all<L: Ledger>(
    alloc: Global,
    replay: &mut Replay<L>,
    records: &[Record],
    table: &[Option<Mark>],
) -> Result<Option<Vec<UndoTargets>>, AuditRefused>
    requires all { MayTakeAll replay.old records.now }
    requires suits { All (λ r. suits_tints replay.old.tint r.act ≡ true) records.now }
    ensures stays { StaysInWorld replay.old replay.new }
    ensures refused { let s = replay.old in
        (marks : List Mark) → TellsMarks marks table.now
        → IfErr result (RefusesAlong s.plan s.models marks records.now) }
    ensures all { let s = replay.old in
        (marks : List Mark) → TellsMarks marks table.now → IfOk result
        (λ ways. MatchOption ways
        (FollowEach (2 ^ s.plan.side) s.models marks records.now → ⊥)
        (λ w. FollowEach (2 ^ s.plan.side) s.models marks records.now
        × AreUndoTargets records.now w.items × (replay.new.records ≡ records.now))) }
{
    let mut ways = Vec::new(alloc);
    for record in records {
        if ways.push(undo_targets_now(replay)).is_err() {
            return Err(AuditRefused::Memory);
        }
        match step(replay, *record, table) {
            Ok(true) => {}
            Ok(false) => return Ok(None),
            Err(refused) => return Err(refused),
        }
    }
    if ways.push(undo_targets_now(replay)).is_err() {
        return Err(AuditRefused::Memory);
    }
    Ok(Some(ways))
}

fn undo_targets_now<L: Ledger>(replay: &Replay<L>) -> UndoTargets
    ensures { result ≡ undo_targets_at replay.now.records (length replay.now.records) }
{
    UndoTargets {
        undo: replay.target(Act::Undo),
        redo: replay.target(Act::Redo),
    }
}

// Replays one record, where it can follow those before it.
#[tactic(auto, using(crate::proofs::Following::step_forbidden))]
fn step<L: Ledger>(
    replay: &mut Replay<L>,
    next: Record,
    table: &[Option<Mark>],
) -> Result<bool, AuditRefused>
    requires may { MayTakeNext replay.old next }
    ensures stays { StaysInWorld replay.old replay.new }
    ensures more { result ≡ Ok true
        → replay.new.records ≡ replay.old.records ++ next ∷ [] }
    ensures made { result ≡ Ok true → MakesOnlyParts replay.new }
    ensures refused { IfErr result (RefusesNext replay.old next) }
    ensures steps { let s = replay.old in
        (marks : List Mark) → TellsMarks marks table.now
        → Steps (2 ^ s.plan.side) s.models marks s.records next result replay.new.records }
{
    if !is_free(replay, next.act, table) {
        return Ok(false);
    }
    match replay.take(next) {
        Ok(taken) => Ok(taken),
        Err(ReplayRefused::Full(full)) => Err(AuditRefused::Full(full)),
        Err(ReplayRefused::Memory) => Err(AuditRefused::Memory),
    }
}

// Whether no mark forbids the act to come next, by the version that it goes to.
fn is_free<L: Ledger>(replay: &Replay<L>, act: Act, table: &[Option<Mark>]) -> bool
    requires early { length replay.now.records < 65535 }
    ensures { let records = replay.now.records in IsTrue result
        ↔ FreeBy (target_at records (length records) act) table.now (length records + 1) }
{
    match replay.target(act) {
        None => true,
        Some(to) => is_held(mark_of(table, to), replay.number() + 1),
    }
}
