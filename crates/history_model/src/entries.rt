ghost use Rattle.std.specs.Prelude.{◌≡◌, ◌<◌, ◌≤◌, ◌^◌, MatchOption, ℕ, true};
ghost use Rattle.plain_text.specs.Parts.{words};
ghost use Rattle.plain_text.specs.Steps.{Gives};
ghost use Rattle.history_model.specs.Packing.{Reads};
ghost use Rattle.vw_cell.specs.Counts.{cell_at};
ghost use Rattle.history_model.specs.Reach.{ActLiesIn};
ghost use Rattle.history_model.specs.Journal.{journal_side};
ghost use Rattle.history_model.specs.Spelled.{spelled_act};
ghost use Rattle.history_model.specs.Entries.{IsRecord, IsNextMark, IsSide, record_list, mark_list, side_list, entry_spelled, mark_spelled, side_spelled};

use crate::histories::{Mark, Record};
use crate::placing::place_spelled;
use crate::spelling::{SpelledTint, Three, read_spelled, three_numbers};
use plain_text::{ExactWords, WordFault, must_be, number_by, take_end, take_three, take_word};
use vw_cell::Side;

// The record of this number, where the line is that of one in a history of this side, coloured or
// not.
#[tactic(auto, using(crate::proofs::EntryLaws::no_entry, crate::proofs::EntryLaws::other_entry, crate::proofs::EntryLaws::this_entry))]
pub(crate) fn read_record(line: &[u8], number: u32, side: Side, coloured: bool) -> Option<Record>
    requires { coloured ≡ true → 4 ≤ side }
    ensures { Reads (IsRecord coloured side) (record_list number) (words line.now) result }
{
    let _cells = side.cells();
    match read_entry(line, coloured) {
        Ok((head, spelled)) => record_of(head, &spelled, number, side, coloured),
        Err(_) => None,
    }
}

// The record with these numbers and this act.
#[tactic(auto, using(crate::proofs::EntryLaws::told_suits))]
fn record_of(
    head: Three,
    spelled: &SpelledTint,
    number: u32,
    side: Side,
    coloured: bool,
) -> Option<Record>
    requires { coloured ≡ true → 4 ≤ side }
    ensures { MatchOption result
        (head.x ≡ number → head.y < 64
        → ActLiesIn (2 ^ side) (spelled_act coloured spelled.now) → ⊥)
        (λ r. IsRecord coloured side r
        × (head ≡ cell_at number r.session r.line)
        × (r.act ≡ spelled_act coloured spelled.now)) }
{
    if head.x != number || head.y > 63 {
        return None;
    }
    let act = place_spelled(spelled, side, coloured)?;
    Some(Record {
        session: head.y as u16,
        line: head.z,
        act,
    })
}

// The three numbers of a record's line, and its act.
#[tactic(auto, unfolding(crate::specs::Entries::entry_spelled))]
fn read_entry(line: &[u8], coloured: bool) -> Result<(Three, SpelledTint), WordFault>
    ensures { Gives
        (λ e. (e.0, spelled_act coloured e.1))
        result
        (entry_spelled coloured (words line.now)) }
{
    let mut words = ExactWords::new(line);
    let head = take_three(&mut words)?;
    let name = take_word(&mut words)?;
    let act = read_spelled(coloured, name, &mut words)?;
    let head = three_numbers::<ExactWords>(&head)?;
    Ok((head, act))
}

// The mark of a line, behind so many records and where its version is at least this one.
pub(crate) fn read_mark(line: &[u8], count: u32, least: u32) -> Option<Mark>
    requires { count ≤ 65535 }
    ensures { Reads (IsNextMark count least) mark_list (words line.now) result }
{
    match read_numbers(line) {
        Ok((head, line)) => mark_of(head, line, count, least),
        Err(_) => None,
    }
}

// The mark with these numbers.
fn mark_of(head: Three, line: u32, count: u32, least: u32) -> Option<Mark>
    ensures { MatchOption result
        (least ≤ head.x → head.x < head.y → head.y ≤ count → head.z < 64 → ⊥)
        (λ m. IsNextMark count least m
        × (head ≡ cell_at m.version m.at m.session)
        × (m.line ≡ line)) }
{
    if head.x < least || head.x >= head.y || head.y > count || head.z > 63 {
        return None;
    }
    Some(Mark {
        version: head.x,
        at: head.y,
        session: head.z as u16,
        line,
    })
}

// The numbers of a mark's line.
#[tactic(auto, unfolding(crate::specs::Entries::mark_spelled))]
fn read_numbers(line: &[u8]) -> Result<(Three, u32), WordFault>
    ensures { Gives (λ e. (e.0, e.1)) result (mark_spelled (words line.now)) }
{
    let mut words = ExactWords::new(line);
    let name = take_word(&mut words)?;
    let head = take_three(&mut words)?;
    let last = take_word(&mut words)?;
    take_end(&mut words)?;
    must_be(name, b"mark")?;
    let head = three_numbers::<ExactWords>(&head)?;
    let line = number_by::<ExactWords>(last)?;
    Ok((head, line))
}

// The store's side, where the line gives the world's.
#[tactic(auto, using(crate::proofs::MarkLaws::no_side, crate::proofs::MarkLaws::other_side, crate::proofs::MarkLaws::this_side))]
pub(crate) fn read_side(line: &[u8], coloured: bool) -> Option<Side>
    ensures { Reads (IsSide coloured) (side_list coloured) (words line.now) result }
{
    match read_cells(line) {
        Ok(cells) => side_of(cells, coloured),
        Err(_) => None,
    }
}

// The side of the store that keeps a world with so many cells along its side.
#[tactic(auto, using(crate::proofs::MarkLaws::no_world_side))]
fn side_of(cells: u32, coloured: bool) -> Option<Side>
    ensures { MatchOption result
        ((exponent : ℕ) → IsSide coloured exponent → journal_side coloured exponent ≡ cells → ⊥)
        (λ s. IsSide coloured s × (journal_side coloured s ≡ cells)) }
{
    let side = Side::new(cells)?;
    if coloured {
        return store_side(side);
    }
    Some(side)
}

// Four times the side.
#[tactic(auto, using(crate::proofs::MarkLaws::no_store_side, crate::proofs::MarkLaws::store_side_is))]
fn store_side(world: Side) -> Option<Side>
    ensures { MatchOption result
        ((exponent : ℕ) → IsSide true exponent → journal_side true exponent ≡ 2 ^ world → ⊥)
        (λ s. IsSide true s × (journal_side true s ≡ 2 ^ world)) }
{
    let _world = world.exponent();
    match Side::new(4 * world.cells()) {
        Some(side) => {
            let _exponent = side.exponent();
            Some(side)
        }
        None => None,
    }
}

#[tactic(auto, unfolding(crate::specs::Entries::side_spelled))]
fn read_cells(line: &[u8]) -> Result<u32, WordFault>
    ensures { Gives (λ n. n) result (side_spelled (words line.now)) }
{
    let mut words = ExactWords::new(line);
    let name = take_word(&mut words)?;
    let number = take_word(&mut words)?;
    take_end(&mut words)?;
    must_be(name, b"side")?;
    number_by::<ExactWords>(number)
}
