ghost use Rattle.std.specs.Prelude.{◌≡◌, ◌≢◌, ◌<◌, ◌≤◌, ◌+◌, ℕ, [], ◌∷◌, ◌++◌, None, Some, IfOk, OnErr, OnOk, MatchOption};
ghost use Rattle.std.specs.Prelude.{length, slice_index_or};
ghost use Rattle.std.specs.List.{Contains, insert};
ghost use Rattle.history_model.specs.declared.histories.Mark.{Mark as mark_of};
ghost use Rattle.history_model.specs.Positions.{position_after, first_of};
ghost use Rattle.world_core.specs.Shown.{target_of};
ghost use Rattle.core_laws.specs.contents.Versions.{IsUnmarked};

use history_model::{Act, History, Mark, Record, position};
use std::alloc::Global;
use vw_cell::Memory;

// How many records there are.
pub(crate) fn count(history: &History) -> usize
    ensures { result ≡ length history.now.records }
{
    history.records.len()
}

// The version that an undo or a redo goes to, where there is one.
pub(crate) fn target(alloc: Global, history: &History, act: &Act) -> Result<Option<u32>, Memory>
    requires { length history.now.records ≤ 65535 }
    ensures { IfOk result (λ v.
        v ≡ target_of act.now (position_after history.now.records)) }
{
    let at = position(alloc, &history.records)?;
    match act {
        Act::Undo => Ok(first(&at.past)),
        Act::Redo => Ok(first(&at.future)),
        _ => Ok(None),
    }
}

fn first(versions: &[u32]) -> Option<u32>
    ensures { result ≡ first_of versions.now }
{
    match versions {
        [] => None,
        [version, ..] => Some(*version),
    }
}

// The record comes behind the others.
pub(crate) fn append(history: &mut History, next: Record) -> Result<(), Memory>
    ensures appended { OnOk result (history.new ≡ record {
      side = history.old.side;
      coloured = history.old.coloured;
      records = history.old.records ++ next ∷ [];
      marks = history.old.marks;
    }) }
    ensures unchanged { OnErr result (history.new ≡ history.old) }
{
    history.records.push(next)?;
    Ok(())
}

// The mark comes to this place among the others.
pub(crate) fn insert(history: &mut History, place: usize, mark: Mark) -> Result<(), Memory>
    requires { place ≤ length history.old.marks }
    ensures inserted { OnOk result (history.new ≡ record {
      side = history.old.side;
      coloured = history.old.coloured;
      records = history.old.records;
      marks = insert history.old.marks place mark;
    }) }
    ensures unchanged { OnErr result (history.new ≡ history.old) }
{
    history.marks.insert(place, mark)?;
    Ok(())
}

// How many of the marks, from the first on, are of no later version.
pub(crate) fn place_for(history: &History, version: u32) -> usize
    ensures within { result ≤ length history.now.marks }
    ensures lower { (k : ℕ) (m : mark_of) → k < result
        → (slice_index_or history.now.marks k m).version ≤ version }
    ensures higher { (m : mark_of) → result < length history.now.marks
        → version < (slice_index_or history.now.marks result m).version }
{
    place_in(&history.marks, version)
}

fn place_in(marks: &[Mark], version: u32) -> usize
    ensures within { result ≤ length marks.now }
    ensures lower { (k : ℕ) (m : mark_of) → k < result
        → (slice_index_or marks.now k m).version ≤ version }
    ensures higher { (m : mark_of) → result < length marks.now
        → version < (slice_index_or marks.now result m).version }
{
    for (at, mark) in marks.iter().enumerate() {
        if version < mark.version {
            return at;
        }
    }
    marks.len()
}

// The mark of a version.
pub(crate) fn mark_of(history: &History, version: u32) -> Option<Mark>
    ensures { MatchOption result (IsUnmarked history.now.marks version) (λ m.
        Contains history.now.marks m × (m.version ≡ version)) }
{
    find_mark(&history.marks, version)
}

fn find_mark(marks: &[Mark], version: u32) -> Option<Mark>
    ensures { MatchOption result (IsUnmarked marks.now version) (λ m.
        Contains marks.now m × (m.version ≡ version)) }
{
    for mark in marks {
        if mark.version == version {
            return Some(*mark);
        }
    }
    None
}
