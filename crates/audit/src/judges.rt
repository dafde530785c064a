//! Whether a history, scripts and transcripts are those of one run.
ghost use Rattle.std.specs.Prelude.{◌≡◌, ◌+◌, ◌<◌, ◌≤◌, ◌^◌, ◌↔◌, true, All, IfOk, IfErr, IfSome, IsTrue, MatchOption, length};
ghost use Rattle.vox_read.specs.Contents.{AreModels};
ghost use Rattle.history_model.specs.Logs.{FitsWorld, IsLegal, suits_tints};
ghost use Rattle.node_words.specs.Plans.{is_number_of_buckets};
ghost use Rattle.script.specs.Fitting.{CommandFits, RisesFrom};
ghost use Rattle.store_run.specs.Kept.{IsLargeStore};
ghost use Rattle.store_run.specs.Replaying.{replay_plan};
ghost use Rattle.audit.specs.Audits.{IsAudited, RefusesAlong, RefusesAudit, judged_by};
ghost use Rattle.audit.specs.Reruns.{AreScriptsFor, IsRerun, MayAudit, MayReplay, MayRunAgain};

use crate::audits::AuditRefused;
use crate::marks::{RECORDS, mark_table};
use crate::replaying::replay_all;
use crate::reruns::Rerun;
use conformance::Transcript;
use history_model::{Act, History, Mark, Record};
use node_words::Plan;
use script::Script;
use std::alloc::Global;
use std::marker::Brand;
use std::sync::ledger::{Blank, Ledger};
use store_run::Replay;
use vox_read::Models;
use vw_cell::{Memory, Side};

/// Whether the history is legal, its acts are tinted exactly where it is coloured, and it agrees
/// with the scripts and their transcripts, which show just it: script k and transcript k are those
/// of session k. A full bucket that a transcript tells is judged by the usual buckets of each
/// level, or by so many on each. Where `keep` isn't 0, the history has to hold its last `keep`
/// versions alone: a version that falls out has its mark by then, and is shown by the record that
/// pushes it out, unless a line forgot it.
///
/// The history is replayed once, up to its first record that can't follow those before it, and
/// every version is kept, also one that is forgotten.
#[tactic(auto, using(crate::proofs::Judging::audited_by_plan))]
pub fn audit(
    alloc: Global,
    history: &History,
    models: Models,
    scripts: &[Script],
    transcripts: &[Transcript],
    buckets: Option<u16>,
    keep: u32,
) -> Result<bool, AuditRefused>
    requires models { AreModels models }
    requires large { IsLargeStore history.now.coloured history.now.side }
    requires buckets { IfSome buckets (λ b. IsTrue (is_number_of_buckets b)) }
    requires fits { All (All
        (λ l. CommandFits history.now.coloured (2 ^ history.now.side) models l.command))
        scripts.now }
    requires rise { All (RisesFrom 1) scripts.now }
    requires few { length scripts.now ≤ 64 }
    ensures answer { IfOk result
        (λ answer. IsTrue answer ↔ IsAudited keep (judged_by history.now.side buckets) models
        history.now scripts.now transcripts.now) }
    ensures refused { IfErr result (RefusesAudit models history.now) }
{
    let judged = judging_plan(history.side, buckets);
    let replayed = match Plan::even(history.side, 4096, 256) {
        Some(replayed) => replayed,
        None => unreachable!(),
    };
    let blank = Blank::new(1);
    audit_over::<Brand>(
        alloc,
        history,
        models,
        scripts,
        transcripts,
        &judged,
        &replayed,
        keep,
        blank,
    )
}

// The plan by whose buckets a full one is judged.
fn judging_plan(side: Side, buckets: Option<u16>) -> Plan
    requires { IfSome buckets (λ b. IsTrue (is_number_of_buckets b)) }
    ensures { result ≡ judged_by side buckets }
{
    match buckets {
        None => Plan::usual(side),
        Some(buckets) => match Plan::even(side, buckets, 128) {
            Some(plan) => plan,
            None => unreachable!(),
        },
    }
}

#[tactic(auto, using(crate::proofs::Judging::audited_by, crate::proofs::Judging::never_audited, crate::proofs::Judging::never_suits, crate::proofs::Judging::never_kept))]
fn audit_over<L: Ledger>(
    alloc: Global,
    log: &History,
    models: Models,
    scripts: &[Script],
    transcripts: &[Transcript],
    judged: &Plan,
    replayed: &Plan,
    keep: u32,
    blank: Blank,
) -> Result<bool, AuditRefused>
    requires may { MayAudit judged.now replayed.now models log.now }
    requires scripts { AreScriptsFor models log.now scripts.now }
    requires name { blank.name ≡ L.name }
    requires parts { blank.parts ≡ L.parts }
    requires some { 0 < L.parts }
    ensures answer { IfOk result (λ answer. IsTrue answer
        ↔ IsAudited keep judged.now models log.now scripts.now transcripts.now) }
    ensures refused { IfErr result
        (RefusesAlong replayed.now models log.now.marks log.now.records) }
{
    if !acts_suit(log.records.as_slice(), log.coloured) {
        return Ok(false);
    }
    match run_again::<L>(alloc, log, models, replayed, blank) {
        Ok(Some(rerun)) => {
            let mut rerun = rerun;
            if !rerun.keeps_last(log, keep) {
                return Ok(false);
            }
            Ok(rerun.agrees(log, judged, scripts, transcripts, keep))
        }
        Ok(None) => Ok(false),
        Err(refused) => Err(refused),
    }
}

// The marks of the versions, where the records are few, the marks legal, and each act lies in the
// world.
fn marks_by_version(
    alloc: Global,
    log: &History,
    models: &Models,
) -> Result<Option<Vec<Option<Mark>>>, Memory>
    ensures { IfOk result
        (λ found. MatchOption found (IsLegal (2 ^ log.now.side) models.now log.now → ⊥)
        (λ table. MayRunAgain models.now log.now table.items)) }
{
    let count = log.records.len();
    if count > RECORDS {
        return Ok(None);
    }
    if !acts_fit(log.records.as_slice(), log.side, models) {
        return Ok(None);
    }
    mark_table(alloc, log.marks.as_slice(), count)
}

// The history replayed, where it is legal.
fn run_again<L: Ledger>(
    alloc: Global,
    log: &History,
    models: Models,
    replayed: &Plan,
    blank: Blank,
) -> Result<Option<Rerun<L>>, AuditRefused>
    requires replays { MayReplay replayed.now models log.now }
    requires name { blank.name ≡ L.name }
    requires parts { blank.parts ≡ L.parts }
    requires some { 0 < L.parts }
    ensures legal { IfOk result
        (λ found. MatchOption found (IsLegal (2 ^ log.now.side) models log.now → ⊥)
        (λ r. IsLegal (2 ^ log.now.side) models log.now
        × IsRerun log.now r.replay r.ways.items r.table.items
        × (r.replay.models ≡ models))) }
    ensures refused { IfErr result
        (RefusesAlong replayed.now models log.now.marks log.now.records) }
{
    match marks_by_version(alloc, log, &models) {
        Ok(Some(table)) => run_over(alloc, log, models, replayed, blank, table),
        Ok(None) => Ok(None),
        Err(_) => Err(AuditRefused::Memory),
    }
}

// The history replayed, where its records follow one another, with the marks of its versions.
#[tactic(auto, using(crate::proofs::Judging::legal_rerun, crate::proofs::Judging::no_follow))]
fn run_over<L: Ledger>(
    alloc: Global,
    log: &History,
    models: Models,
    replayed: &Plan,
    blank: Blank,
    table: Vec<Option<Mark>>,
) -> Result<Option<Rerun<L>>, AuditRefused>
    requires replays { MayReplay replayed.now models log.now }
    requires name { blank.name ≡ L.name }
    requires parts { blank.parts ≡ L.parts }
    requires some { 0 < L.parts }
    requires may { MayRunAgain models log.now table.items }
    ensures legal { IfOk result
        (λ found. MatchOption found (IsLegal (2 ^ log.now.side) models log.now → ⊥)
        (λ r. IsLegal (2 ^ log.now.side) models log.now
        × IsRerun log.now r.replay r.ways.items r.table.items
        × (r.replay.models ≡ models))) }
    ensures refused { IfErr result
        (RefusesAlong replayed.now models log.now.marks log.now.records) }
{
    let records = log.records.as_slice();
    let tint = log.coloured;
    let count = records.len();
    let mut replay: Replay<L> = match Replay::begin(alloc, replayed, models, tint, count, blank) {
        Ok(replay) => replay,
        Err(_) => return Err(AuditRefused::Memory),
    };
    match replay_all(alloc, &mut replay, records, table.as_slice()) {
        Ok(Some(ways)) => Ok(Some(Rerun {
            replay,
            ways,
            table,
        })),
        Ok(None) => Ok(None),
        Err(refused) => Err(refused),
    }
}

// Whether each act lies in the world, with a model that is there.
fn acts_fit(records: &[Record], side: Side, models: &Models) -> bool
    ensures { IsTrue result ↔ All (λ r. FitsWorld (2 ^ side) models.now r.act) records.now }
{
    records.iter().all(|r| r.act.fits(side, models))
}

// Whether each act is tinted exactly where the history is coloured.
fn acts_suit(records: &[Record], coloured: bool) -> bool
    ensures { IsTrue result ↔ All (λ r. suits_tints coloured r.act ≡ true) records.now }
{
    records.iter().all(|r| suits(r.act, coloured))
}

// Whether this one is, or is an undo or a redo.
fn suits(act: Act, coloured: bool) -> bool
    ensures { result ≡ suits_tints coloured act }
{
    match act {
        Act::Undo | Act::Redo => true,
        Act::Tint(_) => coloured,
        _ => !coloured,
    }
}
