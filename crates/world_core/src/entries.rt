ghost use Rattle.std.specs.Prelude.{◌≡◌, ◌<◌, ◌≤◌, ◌+◌, ◌^◌, ℕ, None, Some, IfOk, IfSome, MatchOption, length};
ghost use Rattle.std.specs.Prelude.{slice_index_or};
ghost use Rattle.node_words.specs.declared.shapes.names.Name.{Name as name};
ghost use Rattle.core_laws.specs.places.Names.{named};
ghost use Rattle.core_laws.specs.places.WordIds.{buckets_at, levels};
ghost use Rattle.bucket_core.specs.Buckets.{AreInUse, HasNone, IsFirstFree, IsFirstWith};
ghost use Rattle.bucket_core.specs.Buckets.{book_of_slot, key_of_slot, with_book};
ghost use Rattle.world_core.specs.Slots.{IsLaidOut, bucket_at, entry_at, put_at};
ghost use Rattle.world_core.specs.Changes.{AreLive, HasSlot, LowersEntryAt};

use crate::levels::Level;
use bucket_core::Lowered;
use node_words::{Key, Name, Plan};
use std::alloc::Global;
use std::marker::Model;
use vw_cell::Memory;

/// The entries of a world. Contracts see the list of its levels.
#[derive(Drop)]
pub struct Entries {
    levels: Vec<Level>,
}

impl Model for Entries {
    ghost use Rattle.std.specs.Prelude.{Option, List};
    ghost use Rattle.node_words.specs.declared.keys.Key.{Key as key};
    ghost use Rattle.bucket_core.specs.declared.counted.Entry.{Entry as entry};

    ghost Value = { List (List (List (Option (entry key)))) };

    ghost view = { λ e. e.levels.items };
}

impl Entries {
    /// No entries yet, in the levels, buckets and slots of the plan.
    pub fn begin(alloc: Global, plan: &Plan) -> Result<Entries, Memory>
        ensures laid { IfOk result (IsLaidOut plan.now) }
        ensures free { IfOk result (λ all. (n : name) → entry_at all n ≡ None) }
    {
        let levels = plan.side().exponent() - 1;
        let cap = plan.cap();
        let buckets = plan.buckets();
        let mut list = Vec::with_capacity(alloc, usize::from(levels))?;
        for level in 0..levels {
            list.push(Level::new(alloc, buckets[usize::from(level)], cap)?)?;
        }
        Ok(Entries { levels: list })
    }

    /// The key of the name's entry, where there is one.
    pub fn key(&self, n: Name) -> Option<Key>
        ensures { result ≡ key_of_slot (entry_at self.now n) }
    {
        match self.levels.get(usize::from(n.level)) {
            None => None,
            Some(level) => level.key(n.bucket, n.slot),
        }
    }

    /// How many references there are to the name's entry, 0 where there is none.
    pub fn book(&self, n: Name) -> u64
        ensures { result ≡ book_of_slot (entry_at self.now n) }
    {
        match self.levels.get(usize::from(n.level)) {
            None => 0,
            Some(level) => level.book(n.bucket, n.slot),
        }
    }

    /// The slot of a level's bucket that has the key.
    pub fn find(&self, level: u8, bucket: u16, key: &Key) -> Option<u16>
        requires level { level < length self.now }
        requires bucket { bucket < length (slice_index_or self.now level []) }
        ensures slot { MatchOption result
            (HasNone (bucket_at self.now level bucket) key.now
            (length (bucket_at self.now level bucket)))
            (IsFirstWith (bucket_at self.now level bucket) key.now) }
        ensures live { IfSome result (λ slot.
            0 < book_of_slot (entry_at self.now (named level bucket slot))) }
    {
        self.levels[usize::from(level)].find(bucket, key)
    }

    /// Puts the key with one reference into the first empty slot of the bucket.
    pub fn add(&mut self, level: u8, bucket: u16, key: Key) -> Option<u16>
        requires level { level < length self.old }
        requires bucket { bucket < length (slice_index_or self.old level []) }
        requires absent { HasNone (bucket_at self.old level bucket) key
            (length (bucket_at self.old level bucket)) }
        ensures slot { MatchOption result
            (AreInUse (bucket_at self.old level bucket)
            (length (bucket_at self.old level bucket)))
            (IsFirstFree (bucket_at self.old level bucket)) }
        ensures all { MatchOption result (self.new ≡ self.old) (λ slot.
            self.new ≡ put_at self.old (named level bucket slot)
            (Some (record { key = key; book = 1 }))) }
        ensures live { MatchOption result
            (AreLive (bucket_at self.old level bucket)
            (length (bucket_at self.old level bucket)))
            (AreLive (bucket_at self.old level bucket)) }
    {
        self.levels[usize::from(level)].add(bucket, key)
    }

    /// One reference more to the name's entry.
    pub fn raise(&mut self, n: Name)
        requires slot { HasSlot self.old n }
        requires taken { entry_at self.old n ≢ None }
        requires small { book_of_slot (entry_at self.old n) < 2 ^ 40 }
        ensures { self.new ≡ put_at self.old n
            (with_book (entry_at self.old n) (book_of_slot (entry_at self.old n) + 1)) }
    {
        self.levels[usize::from(n.level)].raise(n.bucket, n.slot);
    }

    /// One reference less to the name's entry, which leaves after the last one.
    pub fn lower(&mut self, n: Name) -> Lowered<Key>
        requires slot { HasSlot self.old n }
        requires taken { entry_at self.old n ≢ None }
        ensures { LowersEntryAt self.old n result self.new }
    {
        self.levels[usize::from(n.level)].lower(n.bucket, n.slot)
    }
}

ghost use Rattle.std.specs.Prelude.{◌≢◌, []};
