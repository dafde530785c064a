ghost use Rattle.std.specs.Prelude.{
  ◌≡◌,
  ◌≢◌,
  ◌+◌,
  ◌^◌,
  ◌<◌,
  ◌≤◌,
  ◌↔◌,
  Some,
  None,
  length,
  IfOk,
  IfErr,
  OnErr,
  IsTrue,
  MatchOption,
  replicate,
};
ghost use Rattle.std.specs.Option.{option_copied};
ghost use Rattle.bucket_core.specs.Buckets.{
  book_of_slot,
  entry_in,
  key_of_slot,
  with_book,
  with_entry,
  AreInUse,
  HasKey,
  HasNone,
  IsCountedBucket,
  IsCounted,
  IsFirstFree,
  IsFirstWith,
  IsTaken,
  LowersHere,
  LowersBook,
};

use crate::counted::{BucketFull, Entry, Lowered};
use crate::keys::ExactKey;
use std::alloc::Global;
use std::marker::Model;
use vw_cell::Memory;

/// The slots of one bucket. Contracts see the list of what stands in them.
#[derive(Drop)]
pub struct Bucket<K: ExactKey> {
    slots: Vec<Option<Entry<K>>>,
}

impl<K: ExactKey> Model for Bucket<K> {
    ghost use Rattle.std.specs.Prelude.{Option, List};
    ghost use Rattle.bucket_core.specs.declared.counted.Entry.{Entry};
    ghost use Rattle.bucket_core.specs.Buckets.{IsCountedBucket};

    ghost Value = { List (Option (Entry K)) };

    ghost view = { λ b. b.slots.items };

    ghost invariant = { λ b. IsCountedBucket b.slots.items };
}

impl<K: ExactKey> Bucket<K> {
    /// A bucket of so many empty slots, from 1 to 256. It takes all its memory now.
    pub fn new(alloc: Global, cap: u16) -> Result<Bucket<K>, Memory>
        requires cap { (1 ≤ cap) × (cap ≤ 256) }
        ensures { IfOk result (λ b. b ≡ replicate cap None) }
    {
        let mut slots = Vec::with_capacity(alloc, usize::from(cap))?;
        for _ in 0..cap {
            slots.push(None)?;
        }
        Ok(Bucket { slots })
    }

    /// How many slots there are, from 1 to 256.
    pub fn cap(&self) -> u16
        ensures value { result ≡ length self.now }
        ensures bucket { IsCountedBucket self.now }
    {
        self.slots.len() as u16
    }

    /// The slot with the key, the first one where several had it.
    pub fn find(&self, key: &K) -> Option<u16>
        ensures { MatchOption result
            (HasNone self.now key.now (length self.now))
            (IsFirstWith self.now key.now) }
    {
        for slot in 0..self.cap() {
            if has_key(&self.slots[usize::from(slot)], key) {
                return Some(slot);
            }
        }
        None
    }

    // The first slot that is empty.
    fn free(&self) -> Option<u16>
        ensures { MatchOption result
            (AreInUse self.now (length self.now))
            (IsFirstFree self.now) }
    {
        for slot in 0..self.cap() {
            if is_empty(&self.slots[usize::from(slot)]) {
                return Some(slot);
            }
        }
        None
    }

    /// Puts the key with one reference in the first slot that is empty. It takes no memory.
    ///
    /// The bucket must not have the key yet. Where no slot is empty it comes back.
    pub fn add(&mut self, key: K) -> Result<u16, BucketFull<K>>
        requires absent { HasNone self.old key (length self.old) }
        ensures free { IfOk result (IsFirstFree self.old) }
        ensures added { IfOk result (λ slot.
            self.new ≡ with_entry self.old slot (Some (record { key = key; book = 1 }))) }
        ensures full { OnErr result (AreInUse self.old (length self.old)) }
        ensures back { IfErr result (λ full. full.key ≡ key) }
        ensures unchanged { OnErr result (self.new ≡ self.old) }
    {
        match self.free() {
            None => Err(BucketFull { key }),
            Some(slot) => {
                self.slots[usize::from(slot)] = Some(Entry { key, book: 1 });
                Ok(slot)
            }
        }
    }

    /// One reference more to the slot's entry.
    pub fn raise(&mut self, slot: u16)
        requires slot { slot < length self.old }
        requires taken { IsTaken self.old slot }
        requires small { book_of_slot (entry_in self.old slot) < 2 ^ 40 }
        ensures { self.new ≡ with_entry self.old slot
            (with_book (entry_in self.old slot) (book_of_slot (entry_in self.old slot) + 1)) }
    {
        if let Some(entry) = &mut self.slots[usize::from(slot)] {
            entry.book += 1;
        }
    }

    /// One reference less to the slot's entry: what book is left, or the key of an entry that had
    /// one and leaves its slot empty.
    pub fn lower(&mut self, slot: u16) -> Lowered<K>
        requires slot { slot < length self.old }
        requires taken { IsTaken self.old slot }
        ensures { LowersHere self.old slot result self.new }
    {
        lower_entry(&mut self.slots[usize::from(slot)])
    }

    /// The key of the slot's entry.
    pub fn entry(&self, slot: u16) -> Option<&K>
        requires slot { slot < length self.now }
        ensures { option_copied result ≡ key_of_slot (entry_in self.now slot) }
    {
        match &self.slots[usize::from(slot)] {
            None => None,
            Some(entry) => Some(&entry.key),
        }
    }

    /// How many references there are to the slot's entry, 0 where it is empty.
    pub fn book(&self, slot: u16) -> u64
        requires slot { slot < length self.now }
        ensures { result ≡ book_of_slot (entry_in self.now slot) }
    {
        match &self.slots[usize::from(slot)] {
            None => 0,
            Some(entry) => entry.book,
        }
    }
}

fn has_key<K: ExactKey>(entry: &Option<Entry<K>>, key: &K) -> bool
    ensures { IsTrue result ↔ HasKey key.now entry.now }
{
    match entry {
        None => false,
        Some(entry) => entry.key.is_same(key),
    }
}

fn is_empty<K: ExactKey>(entry: &Option<Entry<K>>) -> bool
    ensures { IsTrue result ↔ (entry.now ≡ None) }
{
    entry.is_none()
}

// One reference less to the entry of one slot.
fn lower_entry<K: ExactKey>(slot: &mut Option<Entry<K>>) -> Lowered<K>
    requires taken { slot.old ≢ None }
    requires counted { IsCounted slot.old }
    ensures { LowersBook slot.old result slot.new }
{
    if let Some(entry) = slot {
        if entry.book > 1 {
            entry.book -= 1;
            return Lowered::Left(entry.book);
        }
    }
    last_of(slot)
}

// The key of an entry with one reference, which leaves its slot.
fn last_of<K: ExactKey>(slot: &mut Option<Entry<K>>) -> Lowered<K>
    requires { book_of_slot slot.old ≡ 1 }
    ensures { LowersBook slot.old result slot.new }
{
    match slot.take() {
        None => Lowered::Left(0),
        Some(entry) => Lowered::Last(entry.key),
    }
}
