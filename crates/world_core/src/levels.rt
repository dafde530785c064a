ghost use Rattle.std.specs.Prelude.{◌≡◌, ◌<◌, ◌≤◌, ◌+◌, ◌^◌, [], None, Some, IfOk, OnErr, MatchOption, length, replicate};
ghost use Rattle.std.specs.Prelude.{slice_index_or, slice_set};
ghost use Rattle.bucket_core.specs.Buckets.{AreInUse, HasNone, IsFirstFree, IsFirstWith, IsTaken};
ghost use Rattle.bucket_core.specs.Buckets.{LowersHere, book_of_slot, entry_in, key_of_slot, with_book, with_entry};

use bucket_core::{Bucket, Lowered};
use node_words::Key;
use std::alloc::Global;
use std::marker::Model;
use vw_cell::Memory;

/// The buckets of one level. Contracts see the list of their lists of slots.
#[derive(Drop)]
pub struct Level {
    buckets: Vec<Bucket<Key>>,
}

impl Model for Level {
    ghost use Rattle.std.specs.Prelude.{Option, List};
    ghost use Rattle.node_words.specs.declared.keys.Key.{Key as key};
    ghost use Rattle.bucket_core.specs.declared.counted.Entry.{Entry as entry};

    ghost Value = { List (List (Option (entry key))) };

    ghost view = { λ l. l.buckets.items };
}

impl Level {
    /// So many buckets of so many empty slots.
    pub fn new(alloc: Global, buckets: u16, cap: u16) -> Result<Level, Memory>
        requires cap { (1 ≤ cap) × (cap ≤ 256) }
        ensures { IfOk result (λ l. l ≡ replicate buckets (replicate cap None)) }
    {
        let mut list = Vec::with_capacity(alloc, usize::from(buckets))?;
        for _ in 0..buckets {
            list.push(Bucket::new(alloc, cap)?)?;
        }
        Ok(Level { buckets: list })
    }

    /// The key in a slot, where the slot is there and has an entry.
    pub fn key(&self, bucket: u16, slot: u8) -> Option<Key>
        ensures { result ≡ key_of_slot
            (slice_index_or (slice_index_or self.now bucket []) slot None) }
    {
        match self.buckets.get(usize::from(bucket)) {
            None => None,
            Some(slots) => key_of(slots, u16::from(slot)),
        }
    }

    /// How many references there are to a slot's entry, 0 where there is none.
    pub fn book(&self, bucket: u16, slot: u8) -> u64
        ensures { result ≡ book_of_slot
            (slice_index_or (slice_index_or self.now bucket []) slot None) }
    {
        match self.buckets.get(usize::from(bucket)) {
            None => 0,
            Some(slots) => book_of(slots, u16::from(slot)),
        }
    }

    /// The slot of a bucket that has the key.
    pub fn find(&self, bucket: u16, key: &Key) -> Option<u16>
        requires { bucket < length self.now }
        ensures slot { MatchOption result
            (HasNone (slice_index_or self.now bucket []) key.now
            (length (slice_index_or self.now bucket [])))
            (IsFirstWith (slice_index_or self.now bucket []) key.now) }
        ensures live { IfSome result (λ slot.
            0 < book_of_slot (entry_in (slice_index_or self.now bucket []) slot)) }
    {
        find_in(&self.buckets[usize::from(bucket)], key)
    }

    /// Puts the key with one reference into the first empty slot of the bucket.
    pub fn add(&mut self, bucket: u16, key: Key) -> Option<u16>
        requires bucket { bucket < length self.old }
        requires absent { HasNone (slice_index_or self.old bucket []) key
            (length (slice_index_or self.old bucket [])) }
        ensures slot { MatchOption result
            (AreInUse (slice_index_or self.old bucket [])
            (length (slice_index_or self.old bucket [])))
            (IsFirstFree (slice_index_or self.old bucket [])) }
        ensures all { MatchOption result (self.new ≡ self.old) (λ slot.
            self.new ≡ slice_set self.old bucket
            (slice_set (slice_index_or self.old bucket []) slot
            (Some (record { key = key; book = 1 })))) }
        ensures live { MatchOption result
            (AreLive (slice_index_or self.old bucket [])
            (length (slice_index_or self.old bucket [])))
            (AreLive (slice_index_or self.old bucket [])) }
    {
        add_to(&mut self.buckets[usize::from(bucket)], key)
    }

    /// One reference more to a slot's entry.
    pub fn raise(&mut self, bucket: u16, slot: u8)
        requires bucket { bucket < length self.old }
        requires slot { slot < length (slice_index_or self.old bucket []) }
        requires taken { IsTaken (slice_index_or self.old bucket []) slot }
        requires small { book_of_slot (entry_in (slice_index_or self.old bucket []) slot) < 2 ^ 40 }
        ensures { self.new ≡ slice_set self.old bucket
            (slice_set (slice_index_or self.old bucket []) slot
            (with_book (entry_in (slice_index_or self.old bucket []) slot)
            (book_of_slot (entry_in (slice_index_or self.old bucket []) slot) + 1))) }
    {
        self.buckets[usize::from(bucket)].raise(u16::from(slot));
    }

    /// One reference less to a slot's entry, which leaves after the last one.
    pub fn lower(&mut self, bucket: u16, slot: u8) -> Lowered<Key>
        requires bucket { bucket < length self.old }
        requires slot { slot < length (slice_index_or self.old bucket []) }
        requires taken { IsTaken (slice_index_or self.old bucket []) slot }
        ensures { LowersSlot self.old bucket slot result self.new }
    {
        self.buckets[usize::from(bucket)].lower(u16::from(slot))
    }
}

ghost use Rattle.std.specs.Prelude.{IfSome};
ghost use Rattle.world_core.specs.Changes.{AreLive, LowersSlot};

fn key_of(slots: &Bucket<Key>, slot: u16) -> Option<Key>
    ensures { result ≡ key_of_slot (slice_index_or slots.now slot None) }
{
    if slot < slots.cap() {
        slots.entry(slot).copied()
    } else {
        None
    }
}

fn book_of(slots: &Bucket<Key>, slot: u16) -> u64
    ensures { result ≡ book_of_slot (slice_index_or slots.now slot None) }
{
    if slot < slots.cap() {
        slots.book(slot)
    } else {
        0
    }
}

// The slot that has the key.
fn find_in(slots: &Bucket<Key>, key: &Key) -> Option<u16>
    ensures slot { MatchOption result (HasNone slots.now key.now (length slots.now))
        (IsFirstWith slots.now key.now) }
    ensures live { IfSome result (λ slot. 0 < book_of_slot (entry_in slots.now slot)) }
{
    let _cap = slots.cap();
    match slots.find(key) {
        None => None,
        Some(slot) => Some(slot),
    }
}

// The slot into which the key went, where one was empty.
fn add_to(slots: &mut Bucket<Key>, key: Key) -> Option<u16>
    requires { HasNone slots.old key (length slots.old) }
    ensures slot { MatchOption result (AreInUse slots.old (length slots.old))
        (IsFirstFree slots.old) }
    ensures all { MatchOption result (slots.new ≡ slots.old) (λ slot.
        slots.new ≡ slice_set slots.old slot (Some (record { key = key; book = 1 }))) }
    ensures live { MatchOption result (AreLive slots.old (length slots.old))
        (AreLive slots.old) }
{
    let _cap = slots.cap();
    match slots.add(key) {
        Ok(slot) => Some(slot),
        Err(_) => None,
    }
}
