// Single steps of a seat on the log.
ghost use Rattle.std.specs.Prelude.{◌≡◌, ◌≢◌, ◌+◌, ◌<◌, ◌≤◌, ◌^◌, ◌*◌, ℕ, Option, Some, None, true, false, suc, [], ◌∷◌};
ghost use Rattle.std.specs.List.{Contains};
ghost use Rattle.node_words.specs.shapes.Tree.{root_of};
ghost use Rattle.node_words.specs.shapes.Weights.{number_of_trees};
ghost use Rattle.core_laws.specs.places.WordIds.{LogLength, Version};
ghost use Rattle.core_laws.specs.contents.Versions.{IsUnmarked};
ghost use Rattle.table_rule.specs.LogFacts.{IsShownRoot, SeesAll, number_seen};
ghost use Rattle.table_rule.specs.LogWords.{mark_of_words};
ghost use Rattle.table_rule.specs.Views.{known_at};
ghost use Rattle.table_rule.specs.LogChanges.{Appended, Forgot, SawNext, log_knowing, under_log_turn};
ghost use Rattle.table_rule.specs.LogChanges.{met_busy};
ghost use Rattle.table_rule.specs.LogChanges.{with_found, with_seen_mark};
ghost use Rattle.node_table.specs.LogTurns.{AreStored, ForAppended, HasLogTurn, MayAppendWords};
ghost use Rattle.node_table.specs.LogTurns.{next_mark};
ghost use Rattle.node_table.specs.TableStates.{BelongsTo, SamePass};

use crate::passes::NumberedSeat;
use crate::steps::{exchange_as, load_as, store_as};
use crate::tables::NodeTable;
use node_words::Name;
use std::marker::Brand;

// The number of whoever has the log's turn, plus 1, or 0: then the seat has it now.
pub(crate) fn exchange_log(table: &NodeTable, seat: &mut NumberedSeat) -> u64
    requires of { BelongsTo table.now seat.old }
    requires idle { seat.old.view.log.turn ≡ false }
    ensures same { SamePass seat.old seat.new }
    ensures taken { result ≡ 0 → seat.new.view ≡ under_log_turn seat.old.view true }
    ensures busy { (other : ℕ) → result ≡ suc other
        → (seat.new.view ≡ met_busy seat.old.view other) × (other < table.now.made)
        × ¬ Contains seat.old.view.numbers other }
{
    let mine = 1 + u64::from(seat.number);
    let place = table.places.log_turn();
    exchange_as::<Brand, ()>(table, seat, place, 0, mine, &())
}

// The log's turn is given back.
pub(crate) fn give_log_back(table: &NodeTable, seat: &mut NumberedSeat)
    requires of { BelongsTo table.now seat.old }
    requires turn { seat.old.view.log.turn ≡ true }
    ensures same { SamePass seat.old seat.new }
    ensures view { seat.new.view ≡ under_log_turn seat.old.view false }
{
    let place = table.places.log_turn();
    store_as::<Brand, ()>(table, seat, place, 0, &());
}

// The length of the log.
pub(crate) fn look_length(table: &NodeTable, seat: &mut NumberedSeat) -> u64
    requires of { BelongsTo table.now seat.old }
    requires turn { seat.old.view.log.turn ≡ true }
    ensures same { SamePass seat.old seat.new }
    ensures view { seat.new.view ≡ log_knowing seat.old.view LogLength result }
{
    let place = table.places.log_length();
    load_as::<Brand, ()>(table, seat, place, &())
}

// A word of a version.
pub(crate) fn look_version(
    table: &NodeTable,
    seat: &mut NumberedSeat,
    version: u32,
    word: u8,
) -> u64
    requires of { BelongsTo table.now seat.old }
    requires turn { seat.old.view.log.turn ≡ true }
    requires there { (version < 65536) × (word < 8) }
    ensures same { SamePass seat.old seat.new }
    ensures view { seat.new.view ≡ log_knowing seat.old.view (Version version word) result }
    ensures again { (n : ℕ) → known_at (Version version word) seat.old.view.log.words ≡ Some n
        → result ≡ n }
{
    let place = table.places.version(version, word);
    load_as::<Brand, (u32, u8)>(table, seat, place, &(version, word))
}

// The last word of the next record, whose other words are known: the record is seen.
pub(crate) fn see_next(table: &NodeTable, seat: &mut NumberedSeat, next: u32, long: u32)
    requires of { BelongsTo table.now seat.old }
    requires turn { seat.old.view.log.turn ≡ true }
    requires next { next ≡ number_seen seat.old.view + 1 }
    requires long { known_at LogLength seat.old.view.log.words ≡ Some long }
    requires there { (next ≤ long) × (long ≤ 65535) }
    requires known { (i : ℕ) → i < 4 → known_at (Version next i) seat.old.view.log.words ≢ None }
    ensures same { SamePass seat.old seat.new }
    ensures saw { (word : ℕ) × SawNext seat.old.view word seat.new.view }
{
    let place = table.places.version(next, 4);
    load_as::<Brand, (u32, u32)>(table, seat, place, &(next, long));
}

// Whether a version has a mark, and at which length: 1 plus it, or 0.
pub(crate) fn seek_mark(table: &NodeTable, seat: &mut NumberedSeat, version: u32) -> u64
    requires turn { HasLogTurn table.now seat.old }
    requires there { (version ≤ number_seen seat.old.view) × (version < 65536) }
    ensures same { SamePass seat.old seat.new }
    ensures none { result ≡ 0
        → (seat.new.view
        ≡ with_found (log_knowing seat.old.view (Version version 6) result) version)
        × IsUnmarked seat.old.view.log.seen.marks version }
    ensures some { (at : ℕ) → result ≡ suc at
        → (seat.new.view ≡ log_knowing seat.old.view (Version version 6) result)
        × (version < at) × (at ≤ number_seen seat.old.view) }
    ensures again { (n : ℕ) → known_at (Version version 6) seat.old.view.log.words ≡ Some n
        → result ≡ n }
{
    let place = table.places.version(version, 6);
    load_as::<Brand, u32>(table, seat, place, &version)
}

// The session and the line of a version's mark: the mark is seen.
pub(crate) fn see_mark(table: &NodeTable, seat: &mut NumberedSeat, version: u32, at: u32) -> u64
    requires turn { HasLogTurn table.now seat.old }
    requires there { (version ≤ number_seen seat.old.view) × (version < 65536) }
    requires marked { known_at (Version version 6) seat.old.view.log.words ≡ Some (suc at) }
    ensures same { SamePass seat.old seat.new }
    ensures view { seat.new.view
        ≡ with_seen_mark (log_knowing seat.old.view (Version version 7) result)
        (mark_of_words version at result) }
    ensures comes { Contains seat.new.view.log.seen.marks (mark_of_words version at result) }
    ensures again { (n : ℕ) → known_at (Version version 7) seat.old.view.log.words ≡ Some n
        → result ≡ n }
{
    let place = table.places.version(version, 7);
    load_as::<Brand, (u32, u32)>(table, seat, place, &(version, at))
}

// A word of the version behind the last.
pub(crate) fn put_next(table: &NodeTable, seat: &mut NumberedSeat, next: u32, word: u8, new: u64)
    requires turn { HasLogTurn table.now seat.old }
    requires next { (next ≡ number_seen seat.old.view + 1) × (next < 65536) }
    requires word { word < 6 }
    ensures same { SamePass seat.old seat.new }
    ensures view { seat.new.view ≡ log_knowing seat.old.view (Version next word) new }
{
    let place = table.places.version(next, word);
    store_as::<Brand, (u32, u8)>(table, seat, place, new, &(next, word));
}

// The session and the line of a mark of a version that has none.
pub(crate) fn put_mark_word(table: &NodeTable, seat: &mut NumberedSeat, version: u32, new: u64)
    requires turn { HasLogTurn table.now seat.old }
    requires there { version < 65536 }
    requires unmarked { known_at (Version version 6) seat.old.view.log.words ≡ Some 0 }
    ensures same { SamePass seat.old seat.new }
    ensures view { seat.new.view ≡ log_knowing seat.old.view (Version version 7) new }
{
    let place = table.places.version(version, 7);
    store_as::<Brand, u32>(table, seat, place, new, &version);
}

// The length becomes one more: the record of these words is appended, which stand behind it.
pub(crate) fn put_length(
    table: &NodeTable,
    seat: &mut NumberedSeat,
    next: u32,
    words: &[u64; 5],
    root: Option<Name>,
)
    requires turn { HasLogTurn table.now seat.old }
    requires next { next ≡ number_seen seat.old.view + 1 }
    requires may { MayAppendWords table.now.plan seat.old.view words.now root }
    requires stored { AreStored seat.old.view words.now root }
    ensures same { SamePass seat.old seat.new }
    ensures appended { ForAppended table.now.plan seat.old.view words.now root
        (λ r t. Appended seat.old.view r t seat.new.view) }
{
    let _number = seat.number;
    let _plan = table.plan();
    let place = table.places.log_length();
    store_as::<Brand, (u32, &[u64; 5], Option<Name>, &NodeTable)>(
        table,
        seat,
        place,
        u64::from(next),
        &(next, words, root, table),
    );
}

// The word of the mark of a version, at this length: the version, whose root this is, is forgotten.
pub(crate) fn put_mark(
    table: &NodeTable,
    seat: &mut NumberedSeat,
    version: u32,
    at: u32,
    line: u32,
    root: Option<Name>,
)
    requires turn { HasLogTurn table.now seat.old }
    requires at { (at ≡ number_seen seat.old.view) × (version < at) × (at < 65536) }
    requires shown { IsShownRoot seat.old.view version root }
    requires room { number_of_trees seat.old.view.held ≤ 4095 }
    requires stored { (number : ℕ) → seat.old.view.numbers ≡ number ∷ []
        → known_at (Version version 7) seat.old.view.log.words ≡ Some (number + 2 ^ 16 * line) }
    ensures same { SamePass seat.old seat.new }
    ensures forgot { (number : ℕ) → seat.old.view.numbers ≡ number ∷ []
        → Forgot seat.old.view (next_mark seat.old.view version number line) root seat.new.view }
{
    let _number = seat.number;
    let place = table.places.version(version, 6);
    store_as::<Brand, (u32, u32, Option<Name>)>(
        table,
        seat,
        place,
        1 + u64::from(at),
        &(version, line, root),
    );
}
