//! Whether the records of a history keep the rules of a legal one.
ghost use Rattle.std.specs.Prelude.{◌≡◌, ◌↔◌, ◌++◌, ◌∷◌, [], ◌^◌, ◌<◌, ◌≤◌, List, length, replicate, slice_index, IfOk, IfSome, IsTrue, Bool};
ghost use Rattle.history_model.specs.declared.histories.Mark.{Mark};
ghost use Rattle.history_model.specs.Logs.{MayFollow};
ghost use Rattle.history_model.specs.PositionLaws.{NamesBelow};
ghost use Rattle.undo.specs.Trails.{trail_position};
ghost use Rattle.dag_answers.specs.Legality.{FindsIllegal, CanCome, TellsEnds, IsOpen};

use history_model::{Act, History, Mark, Record};
use std::alloc::{AllocError, Global};
use undo::Trail;
use vox_read::Models;
use vw_cell::{Memory, Side};

/// The most records of a history.
const RECORDS: u32 = 65_535;

/// How many versions there can be.
const VERSIONS: usize = 65_536;

/// The least record, counted from 1, that breaks a rule of a legal history: there are at most
/// 65,535, each act lies in the world with a model that exists, and an undo or a redo goes to a
/// version that has no mark at an earlier moment. `None` where no record breaks one.
///
/// Each record is looked at once. The marks may be any; whether they are legal is not asked.
pub fn first_illegal(
    alloc: Global,
    history: &History,
    models: &Models,
) -> Result<Option<u32>, Memory>
    ensures { IfOk result (FindsIllegal (2 ^ history.now.side) models.now history.now) }
{
    let ends = mark_ends(alloc, history.marks.as_slice())?;
    find_illegal(
        alloc,
        history.records.as_slice(),
        ends.as_slice(),
        history.side,
        models,
    )
}

// The same of records, by the table of their marks.
fn find_illegal(
    alloc: Global,
    records: &[Record],
    ends: &[u32],
    side: Side,
    models: &Models,
) -> Result<Option<u32>, Memory>
    requires long { length ends.now ≡ 65536 }
    ensures { (coloured : Bool) (marks : List Mark) → TellsEnds marks ends.now → IfOk result
        (FindsIllegal (2 ^ side) models.now
        (record { side = side; coloured = coloured; records = records.now; marks = marks })) }
{
    let mut trail = Trail::begin(alloc, records.len().min(VERSIONS))?;
    let mut number: u32 = 0;
    for record in records {
        number += 1;
        if !can_come(&trail, ends, number, record.act, side, models) {
            return Ok(Some(number));
        }
        trail.reserve()?;
        trail.take(number, record.act);
    }
    Ok(None)
}

// Whether a record of this number and act keeps the rules behind those that the trail walked.
#[tactic(auto, using(crate::proofs::EndLaws::comes_all))]
fn can_come(trail: &Trail, ends: &[u32], number: u32, act: Act, side: Side, models: &Models) -> bool
    requires below { NamesBelow number (trail_position trail.now) }
    requires long { length ends.now ≡ 65536 }
    ensures few { IsTrue result → number ≤ 65535 }
    ensures exactly { (marks : List Mark) → TellsEnds marks ends.now → IsTrue result
        ↔ CanCome (2 ^ side) models.now marks number act (trail_position trail.now) }
{
    number <= RECORDS && act.fits(side, models) && may_follow(trail, ends, number, act)
}

// Whether the act can become the record of this number.
#[tactic(auto, using(crate::proofs::EndLaws::undo_follows, crate::proofs::EndLaws::redo_follows, crate::proofs::EndLaws::first_there))]
fn may_follow(trail: &Trail, ends: &[u32], number: u32, act: Act) -> bool
    requires below { NamesBelow number (trail_position trail.now) }
    requires few { number ≤ 65535 }
    requires long { length ends.now ≡ 65536 }
    ensures { (marks : List Mark) → TellsEnds marks ends.now
        → IsTrue result ↔ MayFollow marks number act (trail_position trail.now) }
{
    match act {
        Act::Undo => is_open(trail.undo_target(), ends, number),
        Act::Redo => is_open(trail.redo_target(), ends, number),
        _ => true,
    }
}

// Whether there is a version to go to, which isn't forgotten before this record.
fn is_open(to: Option<u32>, ends: &[u32], number: u32) -> bool
    requires there { IfSome to (λ v. v < length ends.now) }
    ensures { IsTrue result ↔ IsOpen ends.now number to }
{
    match to {
        None => false,
        Some(to) => number <= ends[to as usize],
    }
}

// The least moment of a mark of each version, and the greatest number where it has none.
#[tactic(auto, using(crate::proofs::EndLaws::no_ends))]
fn mark_ends(alloc: Global, marks: &[Mark]) -> Result<Vec<u32>, Memory>
    ensures { IfOk result (λ ends. TellsEnds marks.now ends.items) }
{
    let mut ends = free_ends(alloc)?;
    for mark in marks {
        note_end(&mut ends, *mark);
    }
    Ok(ends)
}

// The mark comes to the table, where it is the earliest of its version.
#[tactic(auto, using(crate::proofs::EndLaws::far_mark, crate::proofs::EndLaws::later_mark, crate::proofs::EndLaws::earlier_end))]
fn note_end(ends: &mut Vec<u32>, mark: Mark)
    requires long { length ends.old.items ≡ 65536 }
    ensures { (front : List Mark) → TellsEnds front ends.old.items
        → TellsEnds (front ++ mark ∷ []) ends.new.items }
{
    let version = mark.version as usize;
    if version >= VERSIONS {
        return;
    }
    if mark.at < end_of(ends.as_slice(), version) {
        ends[version] = mark.at;
    }
}

fn end_of(ends: &[u32], version: usize) -> u32
    requires { version < length ends.now }
    ensures { result ≡ slice_index ends.now version }
{
    ends[version]
}

// No version has a mark.
fn free_ends(alloc: Global) -> Result<Vec<u32>, AllocError>
    ensures { IfOk result (λ ends. ends.items ≡ replicate 65536 4294967295) }
{
    vec![in alloc; u32::MAX; VERSIONS]
}
