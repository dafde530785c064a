// The log's turn: a pass takes it, reads and writes under it, and gives it back. That the pass has
// it is told by its view.
ghost use Rattle.std.specs.Prelude.{◌≡◌, ◌≢◌, ◌<◌, ◌≤◌, ◌+◌, ◌-◌, ◌^◌, ℕ, Some, None, true, false, [], ◌∷◌, suc, MatchBool};
ghost use Rattle.node_words.specs.shapes.Tree.{Tree};
ghost use Rattle.node_words.specs.shapes.Tree.{root_of as tree_root};
ghost use Rattle.node_words.specs.shapes.Weights.{number_of_trees, weight_of};
ghost use Rattle.core_laws.specs.places.KeyWords.{child_of_word};
ghost use Rattle.core_laws.specs.places.WordIds.{LogLength, Version};
ghost use Rattle.table_rule.specs.LogFacts.{IsShownRoot, IsShownUnmarked, number_seen};
ghost use Rattle.table_rule.specs.Views.{known_at};
ghost use Rattle.table_rule.specs.LogChanges.{log_knowing, under_log_turn};
ghost use Rattle.node_table.specs.LogTurns.{AreWordsOf, HasLogTurn, HasNoTurn, IsBusy, IsReading};
ghost use Rattle.node_table.specs.LogTurns.{FoundOpen, IsMarkKnown, IsWordOf, LearnsLog};
ghost use Rattle.node_table.specs.LogTurns.{LooksForMark, SeesMark, SeesMore};
ghost use Rattle.node_table.specs.Guards.{LeavesBusy, TakesAtOnce};
ghost use Rattle.node_table.specs.LogTurns.{AppendsInTurn, AppendsUnderTurn, ForAppended};
ghost use Rattle.node_table.specs.LogTurns.{ForgetsUnderTurn, MayAppendWords, StoresNext, log_left, next_mark};
ghost use Rattle.node_table.specs.LogTurns.{TakesLog, TurnsLog};
ghost use Rattle.node_table.specs.TableStates.{BelongsTo, SamePass};

use crate::log_steps::{
    exchange_log, give_log_back, look_length, look_version, put_length, put_mark, put_mark_word,
    put_next, see_mark, see_next, seek_mark,
};
use crate::passes::{NumberedSeat, Pass, tell};
use crate::steps::{MOST_YIELDS, yield_often};
use crate::tables::NodeTable;
use core_laws::{child_in, child_word};
use history_model::Mark;
use node_words::{Name, Share};
use std::sync::Wait;

// The next record is seen.
fn see_one(table: &NodeTable, pass: &mut Pass, long: u32)
    requires reading { IsReading table.now pass.old long }
    requires more { number_seen pass.old.view < long }
    ensures reading { IsReading table.now pass.new long }
    ensures saw { SeesMore pass.old.view pass.new.view }
    ensures same { pass.new.table ≡ pass.old.table }
    ensures number { number_seen pass.new.view ≡ number_seen pass.old.view + 1 }
{
    let next = pass.seen + 1;
    look_version(table, &mut pass.seat, next, 0);
    look_version(table, &mut pass.seat, next, 1);
    look_version(table, &mut pass.seat, next, 2);
    look_version(table, &mut pass.seat, next, 3);
    see_next(table, &mut pass.seat, next, long);
    pass.seen = next;
}

// The length of the log, and all records that weren't seen.
fn read_log(table: &NodeTable, pass: &mut Pass)
    requires of { BelongsTo table.now pass.old }
    requires idle { pass.old.view.turn ≡ None }
    requires turn { pass.old.view.log.turn ≡ true }
    ensures turn { HasLogTurn table.now pass.new }
    ensures saw { SeesMore pass.old.view pass.new.view }
    ensures same { pass.new.table ≡ pass.old.table }
{
    let long = begin_reading(table, pass);
    while pass.seen() < long {
        see_one(table, pass, long);
    }
}

// The length of the log.
fn begin_reading(table: &NodeTable, pass: &mut Pass) -> u32
    requires of { BelongsTo table.now pass.old }
    requires idle { pass.old.view.turn ≡ None }
    requires turn { pass.old.view.log.turn ≡ true }
    ensures reading { IsReading table.now pass.new result }
    ensures saw { SeesMore pass.old.view pass.new.view }
    ensures same { pass.new.table ≡ pass.old.table }
{
    let long = look_length(table, &mut pass.seat);
    tell(&pass.seat);
    long as u32
}

// Whether the log's turn came, by one exchange.
fn try_take(table: &NodeTable, seat: &mut NumberedSeat) -> bool
    requires of { BelongsTo table.now seat.old }
    requires idle { seat.old.view.log.turn ≡ false }
    ensures same { SamePass seat.old seat.new }
    ensures taken { result ≡ true → seat.new.view ≡ under_log_turn seat.old.view true }
    ensures busy { result ≡ false → IsBusy table.now.made seat.old.view seat.new.view }
{
    let found = exchange_log(table, seat);
    found == 0
}

// Waits for the log's turn, the longer the more tries have failed.
fn wait_turn<R: Wait>(rt: &R, table: &NodeTable, seat: &mut NumberedSeat)
    requires of { BelongsTo table.now seat.old }
    requires idle { seat.old.view.log.turn ≡ false }
    ensures same { SamePass seat.old seat.new }
    ensures view { TurnsLog table.now.made seat.old.view seat.new.view }
{
    let mut times = 2;
    for _ in rt.forever() {
        if try_take(table, seat) {
            break;
        }
        yield_often(times);
        times = MOST_YIELDS.min(times * 2);
    }
}

/// Waits for the log's turn, which the pass has then. All records of the log are seen.
pub fn take_log<R: Wait>(rt: &R, table: &NodeTable, pass: &mut Pass)
    requires of { BelongsTo table.now pass.old }
    requires idle { HasNoTurn pass.old.view }
    ensures turn { HasLogTurn table.now pass.new }
    ensures takes { TakesLog table.now.made pass.old.view pass.new.view }
    ensures same { pass.new.table ≡ pass.old.table }
{
    wait_turn(rt, table, &mut pass.seat);
    read_log(table, pass);
}

/// Whether the log's turn came, by one exchange. All records of the log are seen then. Where
/// another session has it, its number is noted.
pub fn try_take_log(table: &NodeTable, pass: &mut Pass) -> bool
    requires of { BelongsTo table.now pass.old }
    requires idle { HasNoTurn pass.old.view }
    ensures { MatchBool result (TakesAtOnce table.now pass.old.view pass.new)
        (LeavesBusy table.now pass.old pass.new) }
{
    if !try_take(table, &mut pass.seat) {
        return false;
    }
    read_log(table, pass);
    true
}

/// How many records the log has.
pub fn log_length(table: &NodeTable, pass: &mut Pass) -> u32
    requires { HasLogTurn table.now pass.old }
    ensures turn { HasLogTurn table.now pass.new }
    ensures same { pass.new ≡ pass.old }
    ensures number { result ≡ number_seen pass.old.view }
    ensures few { result ≤ 65535 }
{
    let at = pass.seen();
    at
}

// A word of a version, which is known then.
fn look_word(table: &NodeTable, seat: &mut NumberedSeat, version: u32, word: u8) -> u64
    requires turn { HasLogTurn table.now seat.old }
    requires there { (version < 65536) × (word < 8) }
    ensures turn { HasLogTurn table.now seat.new }
    ensures learns { LearnsLog seat.old.view seat.new.view }
    ensures known { known_at (Version version word) seat.new.view.log.words ≡ Some result }
{
    look_version(table, seat, version, word)
}

/// One of the first five words of record n, counted from 1.
pub fn log_word(table: &NodeTable, pass: &mut Pass, n: u32, i: u8) -> u64
    requires turn { HasLogTurn table.now pass.old }
    requires there { (1 ≤ n) × (n ≤ number_seen pass.old.view) }
    requires few { i < 5 }
    ensures turn { HasLogTurn table.now pass.new }
    ensures learns { LearnsLog pass.old.view pass.new.view }
    ensures word { IsWordOf pass.old.view (n - 1) i result }
    ensures few { number_seen pass.old.view ≤ 65535 }
{
    let _few = pass.seen();
    let word = look_word(table, &mut pass.seat, n, i);
    tell(&pass.seat);
    word
}

/// The first five words of record n, counted from 1.
pub fn log_words(table: &NodeTable, pass: &mut Pass, n: u32) -> [u64; 5]
    requires turn { HasLogTurn table.now pass.old }
    requires there { (1 ≤ n) × (n ≤ number_seen pass.old.view) }
    ensures turn { HasLogTurn table.now pass.new }
    ensures learns { LearnsLog pass.old.view pass.new.view }
    ensures words { AreWordsOf pass.old.view (n - 1) result }
    ensures few { number_seen pass.old.view ≤ 65535 }
{
    let _few = pass.seen();
    let first = look_word(table, &mut pass.seat, n, 0);
    let place = look_word(table, &mut pass.seat, n, 1);
    let size = look_word(table, &mut pass.seat, n, 2);
    let to = look_word(table, &mut pass.seat, n, 3);
    let who = look_word(table, &mut pass.seat, n, 4);
    tell(&pass.seat);
    [first, place, size, to, who]
}

// 1 plus the length at a version's mark, or 0 where it has none.
fn seek_open(table: &NodeTable, pass: &mut Pass, v: u32) -> u32
    requires turn { HasLogTurn table.now pass.old }
    requires there { v ≤ number_seen pass.old.view }
    ensures turn { HasLogTurn table.now pass.new }
    ensures none { result ≡ 0 → FoundOpen pass.old.view v pass.new.view }
    ensures some { (at : ℕ) → result ≡ suc at → IsMarkKnown pass.old.view v at pass.new.view }
{
    let _few = pass.seen();
    let word = seek_mark(table, &mut pass.seat, v);
    word as u32
}

// The mark of a version that is known to have been made at this length.
fn mark_at(table: &NodeTable, pass: &mut Pass, v: u32, at: u32) -> Mark
    requires turn { HasLogTurn table.now pass.old }
    requires there { v ≤ number_seen pass.old.view }
    requires known { known_at (Version v 6) pass.old.view.log.words ≡ Some (suc at) }
    ensures turn { HasLogTurn table.now pass.new }
    ensures is { (result.version ≡ v) × (result.at ≡ at) }
    ensures seen { SeesMark pass.old.view result pass.new.view }
{
    let _few = pass.seen();
    let who = see_mark(table, &mut pass.seat, v, at);
    Mark {
        version: v,
        at,
        session: (who % (1 << 16)) as u16,
        line: ((who >> 16) % (1 << 32)) as u32,
    }
}

/// The mark of version v, if it has one. It is seen then; a version without one is noted.
pub fn log_mark(table: &NodeTable, pass: &mut Pass, v: u32) -> Option<Mark>
    requires turn { HasLogTurn table.now pass.old }
    requires there { v ≤ number_seen pass.old.view }
    ensures turn { HasLogTurn table.now pass.new }
    ensures looks { LooksForMark pass.old.view v result pass.new.view }
{
    let found = seek_open(table, pass, v);
    if found == 0 {
        return None;
    }
    Some(mark_at(table, pass, v, found - 1))
}

/// The root of a version that this turn has shown to have no mark.
pub fn log_root(table: &NodeTable, pass: &mut Pass, v: u32) -> Option<Name>
    requires turn { HasLogTurn table.now pass.old }
    requires unmarked { IsShownUnmarked pass.old.view v }
    ensures turn { HasLogTurn table.now pass.new }
    ensures learns { LearnsLog pass.old.view pass.new.view }
    ensures root { IsShownRoot pass.new.view v result }
{
    let _few = pass.seen();
    let word = look_word(table, &mut pass.seat, v, 5);
    tell(&pass.seat);
    let plan = table.plan();
    child_of(word, plan.side().root_level())
}

// The child of this level that a word of 64 bits stands for.
fn child_of(word: u64, level: u8) -> Option<Name>
    requires { word ≤ 2 ^ 24 }
    ensures { result ≡ child_of_word level word }
{
    child_in(word as u32, level)
}

// A word of the version behind the last; words of marks that were known are known still.
fn put_word(table: &NodeTable, seat: &mut NumberedSeat, next: u32, word: u8, new: u64)
    requires turn { HasLogTurn table.now seat.old }
    requires next { (next ≡ number_seen seat.old.view + 1) × (next < 65536) }
    requires word { word < 6 }
    ensures turn { HasLogTurn table.now seat.new }
    ensures view { seat.new.view ≡ log_knowing seat.old.view (Version next word) new }
{
    put_next(table, seat, next, word, new);
}

// The words of a record and of its root, behind the log's length.
fn put_words(
    table: &NodeTable,
    seat: &mut NumberedSeat,
    next: u32,
    words: &[u64; 5],
    root: Option<Name>,
)
    requires turn { HasLogTurn table.now seat.old }
    requires next { (next ≡ number_seen seat.old.view + 1) × (next < 65536) }
    ensures turn { HasLogTurn table.now seat.new }
    ensures stores { StoresNext seat.old.view words.now root seat.new.view }
{
    let [first, place, size, to, who] = *words;
    let last = u64::from(child_word(root));
    put_word(table, seat, next, 0, first);
    put_word(table, seat, next, 1, place);
    put_word(table, seat, next, 2, size);
    put_word(table, seat, next, 3, to);
    put_word(table, seat, next, 4, who);
    put_word(table, seat, next, 5, last);
}

// How many shares stand for a root: one, or none.
fn shares_of_root(root: Option<Name>) -> u32
    ensures weighs { (t : Tree) → tree_root t ≡ root → result ≡ weight_of (λ _. 1) t }
    ensures few { result ≤ 1 }
{
    match root {
        None => 0,
        Some(_) => 1,
    }
}

// A record is appended, and the turn is kept.
fn append_on(table: &NodeTable, pass: &mut Pass, words: &[u64; 5], root: Option<Name>) -> u32
    requires turn { HasLogTurn table.now pass.old }
    requires may { MayAppendWords table.now.plan pass.old.view words.now root }
    ensures turn { HasLogTurn table.now pass.new }
    ensures number { result ≡ number_seen pass.old.view + 1 }
    ensures appended { ForAppended table.now.plan pass.old.view words.now root
        (λ r t. AppendsInTurn pass.old.view r t pass.new.view) }
{
    let next = pass.seen() + 1;
    let given = shares_of_root(root);
    put_words(table, &mut pass.seat, next, words, root);
    put_length(table, &mut pass.seat, next, words, root);
    pass.seen = next;
    pass.held -= given;
    next
}

// The name of a share that is given.
fn spent(root: Option<Share>) -> Option<Name>
    ensures { result ≡ root }
{
    match root {
        None => None,
        Some(share) => Some(share.spend()),
    }
}

/// Appends the record of these words, whose root this is. The answer is its number. The turn is
/// kept: a `log_forget` or `leave_log` follows.
pub fn log_append_on(
    table: &NodeTable,
    pass: &mut Pass,
    words: [u64; 5],
    root: Option<Share>,
) -> u32
    requires turn { HasLogTurn table.now pass.old }
    requires may { MayAppendWords table.now.plan pass.old.view words root }
    ensures turn { HasLogTurn table.now pass.new }
    ensures number { result ≡ number_seen pass.old.view + 1 }
    ensures appended { ForAppended table.now.plan pass.old.view words root
        (λ r t. AppendsInTurn pass.old.view r t pass.new.view) }
{
    append_on(table, pass, &words, spent(root))
}

/// The same, and the turn is given back.
pub fn log_append(table: &NodeTable, pass: &mut Pass, words: [u64; 5], root: Option<Share>) -> u32
    requires turn { HasLogTurn table.now pass.old }
    requires may { MayAppendWords table.now.plan pass.old.view words root }
    ensures of { BelongsTo table.now pass.new }
    ensures number { result ≡ number_seen pass.old.view + 1 }
    ensures appended { ForAppended table.now.plan pass.old.view words root
        (λ r t. AppendsUnderTurn pass.old.view r t pass.new.view) }
{
    let next = log_append_on(table, pass, words, root);
    leave_log(table, pass);
    next
}

// A version is forgotten, and the turn is given back; the root's share comes.
fn forget(table: &NodeTable, pass: &mut Pass, v: u32, line: u32, root: Option<Name>)
    requires turn { HasLogTurn table.now pass.old }
    requires earlier { v < number_seen pass.old.view }
    requires shown { IsShownRoot pass.old.view v root }
    requires room { number_of_trees pass.old.view.held ≤ 4095 }
    ensures of { BelongsTo table.now pass.new }
    ensures forgot { (number : ℕ) → pass.old.view.numbers ≡ number ∷ []
        → ForgetsUnderTurn pass.old.view (next_mark pass.old.view v number line) root
        pass.new.view }
{
    let at = pass.seen();
    let number = pass.number();
    let came = shares_of_root(root);
    put_who(
        table,
        &mut pass.seat,
        v,
        u64::from(number) + (u64::from(line) << 16),
        root,
    );
    put_mark(table, &mut pass.seat, v, at, line, root);
    pass.held += came;
    give_log_back(table, &mut pass.seat);
}

// A version that has no mark is forgotten, and the turn is given back; the answer is its root, of
// which a share comes.
fn forget_open(table: &NodeTable, pass: &mut Pass, v: u32, line: u32) -> Option<Name>
    requires turn { HasLogTurn table.now pass.old }
    requires earlier { v < number_seen pass.old.view }
    requires unmarked { IsShownUnmarked pass.old.view v }
    requires room { number_of_trees pass.old.view.held ≤ 4095 }
    ensures of { BelongsTo table.now pass.new }
    ensures forgot { (number : ℕ) → pass.old.view.numbers ≡ number ∷ []
        → ForgetsUnderTurn pass.old.view (next_mark pass.old.view v number line) result
        pass.new.view }
{
    let root = log_root(table, pass, v);
    forget(table, pass, v, line, root);
    root
}

// The share of a name that came.
fn come(root: Option<Name>) -> Option<Share>
    ensures { result ≡ root }
{
    match root {
        None => None,
        Some(name) => Some(Share::of_store(name)),
    }
}

/// Forgets version v at this length, for this line; the share of its root comes. The turn is given
/// back.
pub fn log_forget(table: &NodeTable, pass: &mut Pass, v: u32, line: u32) -> Option<Share>
    requires turn { HasLogTurn table.now pass.old }
    requires earlier { v < number_seen pass.old.view }
    requires unmarked { IsShownUnmarked pass.old.view v }
    requires room { number_of_trees pass.old.view.held ≤ 4095 }
    ensures of { BelongsTo table.now pass.new }
    ensures forgot { (number : ℕ) → pass.old.view.numbers ≡ number ∷ []
        → ForgetsUnderTurn pass.old.view (next_mark pass.old.view v number line) result
        pass.new.view }
{
    let root = forget_open(table, pass, v, line);
    come(root)
}

// Who forgets a version, of which the root stays shown.
fn put_who(table: &NodeTable, seat: &mut NumberedSeat, v: u32, new: u64, root: Option<Name>)
    requires turn { HasLogTurn table.now seat.old }
    requires there { v < 65536 }
    requires shown { IsShownRoot seat.old.view v root }
    ensures turn { HasLogTurn table.now seat.new }
    ensures shown { IsShownRoot seat.new.view v root }
    ensures known { known_at (Version v 7) seat.new.view.log.words ≡ Some new }
    ensures view { seat.new.view ≡ log_knowing seat.old.view (Version v 7) new }
{
    put_mark_word(table, seat, v, new);
}

/// Nothing but the turn changes: it is given back.
pub fn leave_log(table: &NodeTable, pass: &mut Pass)
    requires { HasLogTurn table.now pass.old }
    ensures of { BelongsTo table.now pass.new }
    ensures view { pass.new.view ≡ log_left pass.old.view }
{
    give_log_back(table, &mut pass.seat);
}
