//! What two passes read of each other's records and marks by the log's turn, word by word.
ghost use Rattle.std.specs.Prelude.{◌≡◌, ◌≤◌, ◌<◌, All};
ghost use Rattle.node_table.specs.Closing.{IsSpare};

use crate::calls::{edit_uniform, forget_at};
use crate::uniform::{begun, ended};
use history_model::Mark;
use node_table::{NodeTable, Pass};
use node_words::{Name, Plan, Steps};
use std::marker::Brand;
use std::sync::Wait;
use std::sync::ledger::{Blank, Ledger};
use std::test::Fail;
use vw_cell::Side;

// The first five words of record n by the log's turn of the pass, all at once, where the first and
// the last are those that are read alone.
fn words_of<R: Wait>(rt: &R, table: &NodeTable, pass: &mut Pass, n: u32) -> Option<[u64; 5]>
    requires { IsSpare table.now pass.old }
    ensures { IsSpare table.now pass.new }
{
    let mut turn = table.log_turn(rt, pass);
    if n == 0 || n > turn.len() {
        turn.leave();
        return None;
    }
    let words = turn.words(n);
    let first = turn.word(n, 0);
    let last = turn.word(n, 4);
    turn.leave();
    if words[0] == first && words[4] == last {
        Some(words)
    } else {
        None
    }
}

// What the log's turn shows of a version.
#[derive(Clone, Copy, PartialEq, Eq)]
enum Shown {
    Missing,
    Marked(Mark),
    Kept(Option<Name>),
}

// How long the log is, and what is shown of version v.
fn look_at<R: Wait>(rt: &R, table: &NodeTable, pass: &mut Pass, v: u32) -> (u32, Shown)
    requires { IsSpare table.now pass.old }
    ensures { IsSpare table.now pass.new }
{
    let mut turn = table.log_turn(rt, pass);
    let at = turn.len();
    if v > at {
        turn.leave();
        return (at, Shown::Missing);
    }
    if let Some(mark) = turn.mark(v) {
        turn.leave();
        return (at, Shown::Marked(mark));
    }
    let root = turn.root(v);
    turn.leave();
    (at, Shown::Kept(root))
}

// Whether the pass gets the log's turn by one try, and gives it back.
fn tries(table: &NodeTable, pass: &mut Pass) -> bool
    requires { IsSpare table.now pass.old }
    ensures { IsSpare table.now pass.new }
{
    match pass.try_log_turn(table) {
        Some(turn) => {
            turn.leave();
            true
        }
        None => false,
    }
}

// Whether the second pass doesn't get the log's turn while the first has it, and gets it then.
fn is_busy<R: Wait>(rt: &R, table: &NodeTable, a: &mut Pass, b: &mut Pass) -> bool
    requires first { IsSpare table.now a.old }
    requires second { IsSpare table.now b.old }
    ensures first { IsSpare table.now a.new }
    ensures second { IsSpare table.now b.new }
{
    let turn = table.log_turn(rt, a);
    let during = tries(table, b);
    turn.leave();
    let after = tries(table, b);
    !during && after
}

// The leaf that is the root of the full world.
const FULL: Name = Name {
    level: 0,
    bucket: 0,
    slot: 0,
};

// The second pass's mark on version 0, by its line 5, when there was one record.
const MARK: Mark = Mark {
    version: 0,
    at: 1,
    session: 1,
    line: 5,
};

// The words of a place and of a size on each axis.
const PLACE: u64 = 0;

const SIZE: u64 = 4 + (4 << 16) + (4 << 32);

// Whether the second pass sees the first one's record, a full world by line 3, and marks version 0
// behind it, which the first pass sees.
fn is_seen<R: Wait, L: Ledger>(
    rt: &R,
    table: &NodeTable,
    a: &mut Pass,
    b: &mut Pass,
    steps: &mut Steps<L>,
) -> bool
    requires first { IsSpare table.now a.old }
    requires second { IsSpare table.now b.old }
    requires side { table.now.plan.side ≡ 2 }
    ensures first { IsSpare table.now a.new }
    ensures second { IsSpare table.now b.new }
{
    let n = edit_uniform(rt, table, a, 3, true, steps);
    let words = words_of(rt, table, b, 1);
    let told = words == Some([(1 << 8) + (1 << 32), PLACE, SIZE, 0, 3 << 16]);
    let first = look_at(rt, table, b, 1);
    let came = forget_at(rt, table, b, 0, 5, steps);
    let marked = look_at(rt, table, a, 0);
    n == 1
        && told
        && first == (1, Shown::Kept(Some(FULL)))
        && came == Ok(1)
        && marked == (1, Shown::Marked(MARK))
}

// Whether the first pass then sees the second one's record, an empty world by line 6.
fn is_answered<R: Wait, L: Ledger>(
    rt: &R,
    table: &NodeTable,
    a: &mut Pass,
    b: &mut Pass,
    steps: &mut Steps<L>,
) -> bool
    requires first { IsSpare table.now a.old }
    requires second { IsSpare table.now b.old }
    requires side { table.now.plan.side ≡ 2 }
    ensures first { IsSpare table.now a.new }
    ensures second { IsSpare table.now b.new }
{
    let n = edit_uniform(rt, table, b, 6, false, steps);
    let words = words_of(rt, table, a, 2);
    let told = words == Some([1 + (2 << 8) + (2 << 32), PLACE, SIZE, 0, 1 + (6 << 16)]);
    let second = look_at(rt, table, a, 2);
    let missing = look_at(rt, table, a, 3);
    n == 2 && told && second == (2, Shown::Kept(None)) && missing == (2, Shown::Missing)
}

// How long the log is before and behind a record that is appended without giving the turn back.
#[derive(Clone, Copy, Debug, PartialEq, Eq)]
struct Appended {
    before: u32,
    n: u32,
    behind: u32,
}

// The first pass appends an empty world by line 7, and keeps the turn while the second one tries.
// Told are the lengths, the words under the turn, and whether the second one got it.
fn append_on<R: Wait>(
    rt: &R,
    table: &NodeTable,
    a: &mut Pass,
    b: &mut Pass,
) -> Option<(Appended, [u64; 5], bool)>
    requires first { IsSpare table.now a.old }
    requires second { IsSpare table.now b.old }
    requires side { table.now.plan.side ≡ 2 }
    ensures first { IsSpare table.now a.new }
    ensures second { IsSpare table.now b.new }
{
    let session = a.number();
    let mut turn = table.log_turn(rt, a);
    let before = turn.len();
    if before >= 65_535 {
        turn.leave();
        return None;
    }
    let next = u64::from(before) + 1;
    let by = u64::from(session) + (7 << 16);
    let words = [1 + (next << 8) + (next << 32), PLACE, SIZE, 0, by];
    let n = turn.append_on(words, None);
    let behind = turn.len();
    let told = turn.words(n);
    let got = tries(table, b);
    turn.leave();
    Some((Appended { before, n, behind }, told, got))
}

const THIRD: [u64; 5] = [1 + (3 << 8) + (3 << 32), PLACE, SIZE, 0, 7 << 16];

// Whether the third record comes so, and the second pass sees it once the turn is given back.
fn is_appended<R: Wait>(rt: &R, table: &NodeTable, a: &mut Pass, b: &mut Pass) -> bool
    requires first { IsSpare table.now a.old }
    requires second { IsSpare table.now b.old }
    requires side { table.now.plan.side ≡ 2 }
    ensures first { IsSpare table.now a.new }
    ensures second { IsSpare table.now b.new }
{
    let told = append_on(rt, table, a, b);
    let lengths = Appended {
        before: 2,
        n: 3,
        behind: 3,
    };
    let words = words_of(rt, table, b, 3);
    let third = look_at(rt, table, b, 3);
    told == Some((lengths, THIRD, false)) && words == Some(THIRD) && third == (3, Shown::Kept(None))
}

/// Which of the four came as they should.
#[derive(Clone, Copy, Debug, PartialEq, Eq)]
struct Came {
    seen: bool,
    answered: bool,
    appended: bool,
    busy: bool,
}

const ALL: Came = Came {
    seen: true,
    answered: true,
    appended: true,
    busy: true,
};

// All four, by two passes that come back.
fn two_write<R: Wait, L: Ledger>(
    rt: &R,
    table: &NodeTable,
    a: &mut Pass,
    b: &mut Pass,
    blank: Blank,
) -> Came
    requires name { blank.name ≡ L.name }
    requires parts { blank.parts ≡ L.parts }
    requires some { 0 < L.parts }
    requires first { IsSpare table.now a.old }
    requires second { IsSpare table.now b.old }
    requires side { table.now.plan.side ≡ 2 }
    ensures first { IsSpare table.now a.new }
    ensures second { IsSpare table.now b.new }
{
    let mut steps: Steps<L> = Steps::start(blank);
    let seen = is_seen(rt, table, a, b, &mut steps);
    let answered = is_answered(rt, table, a, b, &mut steps);
    let appended = is_appended(rt, table, a, b);
    let busy = is_busy(rt, table, a, b);
    Came {
        seen,
        answered,
        appended,
        busy,
    }
}

// The same by two passes of a table of side 4, which are ended, and how many more there were.
fn both_write<R: Wait>(rt: &R, table: &NodeTable, mut passes: Vec<Pass>) -> Option<(u32, Came)>
    requires passes { All (IsSpare table.now) passes.items }
    requires side { table.now.plan.side ≡ 2 }
{
    let Some(mut b) = passes.pop() else {
        passes.destroy_empty();
        return None;
    };
    let Some(mut a) = passes.pop() else {
        b.end();
        passes.destroy_empty();
        return None;
    };
    let came = two_write::<R, Brand>(rt, table, &mut a, &mut b, Blank::new(1));
    a.end();
    b.end();
    Some((ended(table, passes), came))
}

// The same of a table of any side.
fn all_write<R: Wait>(rt: &R, table: &NodeTable, passes: Vec<Pass>) -> Option<(u32, Came)>
    requires { All (IsSpare table.now) passes.items }
{
    if table.plan().side().root_level() != 0 {
        let _number = ended(table, passes);
        return None;
    }
    both_write(rt, table, passes)
}

#[test]
fn two_passes_see_one_history(rt: HostRuntime) -> Result<(), Fail> {
    let side = Side::new(4).ok_or("a side")?;
    let plan = Plan::even(side, 1, 2).ok_or("a plan")?;
    let (table, passes) = begun(rt.alloc(), &plan, 2)?;
    let came = all_write(&rt, &table, passes);
    assert_eq!(rt; came, Some((0, ALL)));
    Ok(())
}
