// The history and the roots of a table that is no more, read from its words.
ghost use Rattle.std.specs.Prelude.{◌≡◌, ◌<◌, ◌≤◌, ◌+◌, ◌-◌, ◌^◌, [], length};
ghost use Rattle.std.specs.Slots.{slots_items, slots_len, IsFull};
ghost use Rattle.core_laws.specs.places.KeyWords.{child_of_word};
ghost use Rattle.core_laws.specs.places.WordIds.{LogLength, Version, width};
ghost use Rattle.core_laws.specs.contents.Aligned.{top};
ghost use Rattle.table_rule.specs.Reading.{word_at};
ghost use Rattle.table_rule.specs.LogWords.{act_of_words, ball_of_words, box_of_words, cell_of_word, mark_of_words, marks_in, tint_of_words};
ghost use Rattle.table_rule.specs.LogWords.{record_of_words, records_in, word_in};
ghost use Rattle.node_table.specs.Roots.{IsLogSmall, roots_in};

use atomic_table::Closed;
use core_laws::{Places, child_in};
use history_model::{Act, Mark, Record, TintAct};
use node_words::{Name, Plan};
use std::alloc::Global;
use vw_cell::{Ball, Boxed, Cell};
use world_core::Root;

// The cell, the box and the ball of words.
fn cell_in(word: u64) -> Cell
    ensures { result ≡ cell_of_word word }
{
    Cell {
        x: (word % (1 << 16)) as u16,
        y: ((word >> 16) % (1 << 16)) as u16,
        z: ((word >> 32) % (1 << 16)) as u16,
    }
}

fn box_in(place: u64, size: u64) -> Boxed
    ensures { result ≡ box_of_words place size }
{
    Boxed {
        at: cell_in(place),
        size: cell_in(size),
    }
}

fn ball_in(place: u64, radius: u64) -> Ball
    ensures { result ≡ ball_of_words place radius }
{
    Ball {
        centre: cell_in(place),
        radius: (radius % (1 << 16)) as u16,
    }
}

// The act of a kind with these words.
#[tactic(auto, using(crate::proofs::LogEnds::tint_kinds))]
fn act_in(kind: u64, place: u64, size: u64, to: u64) -> Act
    ensures { result ≡ act_of_words kind place size to }
{
    match kind {
        0 => Act::Fill(box_in(place, size)),
        1 => Act::Erase(box_in(place, size)),
        2 => Act::Ball(ball_in(place, size)),
        3 => Act::Carve(ball_in(place, size)),
        4 => Act::Copy(box_in(place, size), cell_in(to)),
        5 => Act::Stamp((size % (1 << 16)) as u16, cell_in(place)),
        6 => Act::Undo,
        7 => Act::Redo,
        _ => Act::Tint(tint_in(kind - 8, place, size, to)),
    }
}

// The tinted act of these words, whose kind is this more than the first one's.
fn tint_in(kind: u64, place: u64, size: u64, to: u64) -> TintAct
    ensures { result ≡ tint_of_words kind place size to }
{
    match kind {
        0 => TintAct::Fill(box_in(place, size), (to % (1 << 8)) as u8),
        1 => TintAct::Erase(box_in(place, size)),
        2 => TintAct::Ball(ball_in(place, size), (to % (1 << 8)) as u8),
        3 => TintAct::Carve(ball_in(place, size)),
        4 => TintAct::Copy(box_in(place, size), cell_in(to)),
        _ => TintAct::Stamp((size % (1 << 16)) as u16, cell_in(place)),
    }
}

// A word of a version.
fn word_of(ended: &Closed<u8, Global>, plan: &Plan, places: &Places, version: u32, word: u8) -> u64
    requires full { IsFull ended.now.words }
    requires wide { slots_len ended.now.words ≡ width plan.now }
    requires places { places.now ≡ plan.now }
    requires there { (version < 65536) × (word < 8) }
    ensures { result ≡ word_at plan.now (slots_items ended.now.words) (Version version word) }
{
    let place = places.version(version, word);
    ended.word(place)
}

// The length of the log.
pub(crate) fn length(ended: &Closed<u8, Global>, plan: &Plan, places: &Places) -> u64
    requires full { IsFull ended.now.words }
    requires wide { slots_len ended.now.words ≡ width plan.now }
    requires places { places.now ≡ plan.now }
    ensures { result ≡ word_at plan.now (slots_items ended.now.words) LogLength }
{
    let _side = plan.side();
    let place = places.log_length();
    ended.word(place)
}

// The record of a version.
fn record_in(ended: &Closed<u8, Global>, plan: &Plan, places: &Places, n: u32) -> Record
    requires full { IsFull ended.now.words }
    requires wide { slots_len ended.now.words ≡ width plan.now }
    requires places { places.now ≡ plan.now }
    requires there { n < 65536 }
    ensures { result ≡ record_of_words
        (word_in (word_at plan.now (slots_items ended.now.words)) n) }
{
    let first = word_of(ended, plan, places, n, 0);
    let place = word_of(ended, plan, places, n, 1);
    let size = word_of(ended, plan, places, n, 2);
    let to = word_of(ended, plan, places, n, 3);
    let who = word_of(ended, plan, places, n, 4);
    Record {
        session: (who % (1 << 16)) as u16,
        line: ((who >> 16) % (1 << 32)) as u32,
        act: act_in(first % (1 << 8), place, size, to),
    }
}

// All records of a log of this length.
pub(crate) fn read_records(
    ended: &Closed<u8, Global>,
    plan: &Plan,
    places: &Places,
    long: u32,
    records: &mut Vec<Record>,
)
    requires full { IsFull ended.now.words }
    requires wide { slots_len ended.now.words ≡ width plan.now }
    requires places { places.now ≡ plan.now }
    requires long { long < 65536 }
    requires room { (records.old.items ≡ []) × (65536 ≤ records.old.cap) }
    ensures { records.new.items ≡ records_in (word_at plan.now (slots_items ended.now.words)) long }
{
    for n in 0..long {
        records.push_reserved(record_in(ended, plan, places, n + 1));
    }
}

// The mark of a version that has one.
fn mark_in(ended: &Closed<u8, Global>, plan: &Plan, places: &Places, v: u32, word: u64) -> Mark
    requires full { IsFull ended.now.words }
    requires wide { slots_len ended.now.words ≡ width plan.now }
    requires places { places.now ≡ plan.now }
    requires there { v < 65536 }
    requires some { (1 ≤ word) × (word ≤ 65536) }
    ensures { result ≡ mark_of_words v (word - 1)
        (word_at plan.now (slots_items ended.now.words) (Version v 7)) }
{
    let who = word_of(ended, plan, places, v, 7);
    Mark {
        version: v,
        at: (word - 1) as u32,
        session: (who % (1 << 16)) as u16,
        line: ((who >> 16) % (1 << 32)) as u32,
    }
}

// The mark of a version, if it has one, comes to the others.
fn push_mark(
    ended: &Closed<u8, Global>,
    plan: &Plan,
    places: &Places,
    v: u32,
    marks: &mut Vec<Mark>,
)
    requires full { IsFull ended.now.words }
    requires wide { slots_len ended.now.words ≡ width plan.now }
    requires places { places.now ≡ plan.now }
    requires there { v < 65536 }
    requires small { word_at plan.now (slots_items ended.now.words) (Version v 6) ≤ 65536 }
    requires read { marks.old.items ≡ marks_in (word_at plan.now (slots_items ended.now.words)) v }
    requires room { (length marks.old.items ≤ v) × (65536 ≤ marks.old.cap) }
    ensures read { marks.new.items
        ≡ marks_in (word_at plan.now (slots_items ended.now.words)) (v + 1) }
    ensures room { (length marks.new.items ≤ v + 1) × (65536 ≤ marks.new.cap) }
{
    let word = word_of(ended, plan, places, v, 6);
    if word == 0 {
        return;
    }
    marks.push_reserved(mark_in(ended, plan, places, v, word));
}

// All marks of a log of this length.
pub(crate) fn read_marks(
    ended: &Closed<u8, Global>,
    plan: &Plan,
    places: &Places,
    long: u32,
    marks: &mut Vec<Mark>,
)
    requires full { IsFull ended.now.words }
    requires wide { slots_len ended.now.words ≡ width plan.now }
    requires places { places.now ≡ plan.now }
    requires small { IsLogSmall (word_at plan.now (slots_items ended.now.words)) long }
    requires room { (marks.old.items ≡ []) × (65536 ≤ marks.old.cap) }
    ensures { marks.new.items
        ≡ marks_in (word_at plan.now (slots_items ended.now.words)) (long + 1) }
{
    for v in 0..long + 1 {
        push_mark(ended, plan, places, v, marks);
    }
}

// The root of a version, where it has no mark, comes to the others.
fn push_root(
    ended: &Closed<u8, Global>,
    plan: &Plan,
    places: &Places,
    v: u32,
    roots: &mut Vec<Root>,
)
    requires full { IsFull ended.now.words }
    requires wide { slots_len ended.now.words ≡ width plan.now }
    requires places { places.now ≡ plan.now }
    requires there { v < 65536 }
    requires small { word_at plan.now (slots_items ended.now.words) (Version v 6) ≡ 0
        → word_at plan.now (slots_items ended.now.words) (Version v 5) ≤ 2 ^ 24 }
    requires read { roots.old.items
        ≡ roots_in plan.now (word_at plan.now (slots_items ended.now.words)) v }
    requires room { (length roots.old.items ≤ v) × (65536 ≤ roots.old.cap) }
    ensures read { roots.new.items
        ≡ roots_in plan.now (word_at plan.now (slots_items ended.now.words)) (v + 1) }
    ensures room { (length roots.new.items ≤ v + 1) × (65536 ≤ roots.new.cap) }
{
    let word = word_of(ended, plan, places, v, 6);
    if word != 0 {
        return;
    }
    let root = word_of(ended, plan, places, v, 5);
    let name = child_in(root as u32, plan.side().root_level());
    roots.push_reserved(Root { version: v, name });
}

// The roots of all versions without a mark.
pub(crate) fn read_roots(
    ended: &Closed<u8, Global>,
    plan: &Plan,
    places: &Places,
    long: u32,
    roots: &mut Vec<Root>,
)
    requires full { IsFull ended.now.words }
    requires wide { slots_len ended.now.words ≡ width plan.now }
    requires places { places.now ≡ plan.now }
    requires small { IsLogSmall (word_at plan.now (slots_items ended.now.words)) long }
    requires room { (roots.old.items ≡ []) × (65536 ≤ roots.old.cap) }
    ensures { roots.new.items
        ≡ roots_in plan.now (word_at plan.now (slots_items ended.now.words)) (long + 1) }
{
    for v in 0..long + 1 {
        push_root(ended, plan, places, v, roots);
    }
}
