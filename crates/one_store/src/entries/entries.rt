ghost use Rattle.std.specs.Prelude.{◌≡◌, ◌≢◌, ◌↔◌, ℕ, ◌+◌, ◌-◌, ◌*◌, ◌<◌, ◌≤◌, ◌^◌, None, IfOk, IfSome, IsTrue};
ghost use Rattle.node_words.specs.declared.shapes.names.Name.{Name};
ghost use Rattle.node_words.specs.declared.keys.Key.TheVariants.{Node};
ghost use Rattle.node_words.specs.Plans.{IsPlan};
ghost use Rattle.node_words.specs.Held.{bits_of_leaf};
ghost use Rattle.node_words.specs.Keys.{bucket_of_key};
ghost use Rattle.core_laws.specs.places.WordIds.{levels, buckets_at};
ghost use Rattle.core_laws.specs.places.Names.{IsName, HasNames, named, key_bits, key_child};
ghost use Rattle.one_store.specs.entries.Slots.{bucket_place, slot_place, block_place, number_of_buckets, number_of_blocks, slots_at, IsBucket};
ghost use Rattle.one_store.specs.entries.Coding.{key_of, pair_number};
ghost use Rattle.one_store.specs.entries.Words.{book_in, key_in, pairs_in, child_bits, HasEntry, LacksKey, LacksKeyIn, IsLowestFree, AreLiveBelow};
ghost use Rattle.one_store.specs.entries.Tags.{tag_of};
ghost use Rattle.one_store.specs.entries.Used.{IsUnusedFrom};
ghost use Rattle.one_store.specs.entries.Changes.{SetsBook, PutsKey, PutsEntry};

use crate::entries::ends::ends_of;
use crate::entries::key_words::{KeyWords, NO_PAIRS, Pairs, half_of};
use crate::entries::rows::{empty_rows, item, put, put_in, row};
use crate::entries::tags::{BLOCK, NO_TAGS, position, put_tag, tag_of};
use core_laws::child_in;
use node_words::{Key, Name, Plan, bucket_of};
use std::alloc::{AllocError, Global};
use std::marker::Model;
use vw_cell::Side;

/// The books and keys of all slots of a plan. It takes all its memory when it is made, and touches
/// the words of a slot only when that or a later one is used.
///
/// Each level has rows of its own. In them the first slots of all buckets stand side by side, then
/// the second ones, and so on. Since a node takes the lowest free slot, few nodes lie close
/// together, and rows stay short. A slot behind their ends is free.
///
/// For each slot there is a byte, its tag, by which searches pass over most slots of a bucket. They
/// stand in blocks of sixteen, and the first blocks of all buckets side by side, then the second
/// ones. Of each bucket is known how far its slots were ever used, and no search goes on behind
/// that; and up to where all its slots are live, so that a free one is sought from there. No
/// contract shows these but that of `used_of`.
#[derive(Drop)]
pub struct EntryWords {
    plan: Plan,
    buckets: [u16; 11],
    ends: [usize; 12],
    width: usize,
    books: Vec<Vec<u32>>,
    bits: Vec<u64>,
    pairs: Vec<Vec<Pairs>>,
    tags: Vec<[u8; 16]>,
    used: Vec<u16>,
    filled: Vec<u16>,
}

impl Model for EntryWords {
    ghost use Rattle.std.specs.Prelude.{vec_capacity};
    ghost use Rattle.one_store.specs.entries.Rows.{items_of, rooms_of};
    ghost use Rattle.one_store.specs.entries.Words.{Written};
    ghost use Rattle.one_store.specs.entries.Tags.{AreEntries};

    ghost Value = { Written };

    ghost view = { λ w. record {
      plan = w.plan;
      books = items_of w.books.items;
      bits = w.bits.items;
      pairs = items_of w.pairs.items;
    } };

    ghost invariant = { λ w. AreEntries
        (record {
          plan = w.plan;
          books = items_of w.books.items;
          bits = w.bits.items;
          pairs = items_of w.pairs.items;
        })
        (record {
          buckets = w.buckets;
          ends = w.ends;
          width = w.width;
          tags = w.tags.items;
          used = w.used.items;
          filled = w.filled.items;
          rooms_for_books = rooms_of w.books.items;
          room_for_bits = vec_capacity w.bits;
          rooms_for_pairs = rooms_of w.pairs.items;
          room_for_tags = vec_capacity w.tags;
        }) };
}

impl EntryWords {
    /// Free slots, as many as the plan has.
    pub fn begin(alloc: Global, plan: &Plan) -> Result<EntryWords, AllocError>
        ensures plan { IfOk result (λ w. w.plan ≡ plan.now) }
        ensures is_plan { IfOk result (λ w. IsPlan w.plan) }
        ensures free { IfOk result (λ w. (n : Name) → book_in w n ≡ 0) }
    {
        let buckets = plan.buckets();
        let ends = ends_of(&buckets);
        let levels = usize::from(plan.side().root_level()) + 1;
        let width = ends[levels];
        let cap = usize::from(plan.cap());
        Ok(EntryWords {
            plan: *plan,
            buckets,
            ends,
            width,
            books: empty_rows(alloc, &buckets, 0, levels, cap)?,
            bits: Vec::with_capacity(alloc, usize::from(buckets[0]) * cap)?,
            pairs: empty_rows(alloc, &buckets, 1, levels, cap)?,
            tags: Vec::with_capacity(alloc, width * ((cap + (BLOCK - 1)) / BLOCK))?,
            used: vec![in alloc; 0; width]?,
            filled: vec![in alloc; 0; width]?,
        })
    }

    /// The plan.
    pub fn plan(&self) -> Plan
        ensures plan { result ≡ self.now.plan }
        ensures is_plan { IsPlan self.now.plan }
    {
        self.plan
    }

    /// The bucket of a key on this level. By the usual numbers of buckets it divides without a
    /// division.
    #[inline(always)]
    pub fn bucket(&self, level: u8, key: &Key) -> u16
        requires { level < levels self.now.plan }
        ensures bucket { result ≡ bucket_of_key key.now (buckets_at self.now.plan level) }
        ensures below { IsBucket self.now.plan level result }
    {
        match self.buckets[usize::from(level)] {
            4096 => bucket_of(key, 4096),
            1024 => bucket_of(key, 1024),
            256 => bucket_of(key, 256),
            buckets => bucket_of(key, buckets),
        }
    }

    /// How many references the name has; 0 where no node is there.
    pub fn book(&self, n: Name) -> u32
        requires { IsName self.now.plan n }
        ensures { result ≡ book_in self.now n }
    {
        item(row(&self.books, usize::from(n.level)), self.place(n), 0)
    }

    /// A live node has so many references now.
    pub fn set_book(&mut self, n: Name, book: u32)
        requires name { IsName self.old.plan n }
        requires live { 1 ≤ book_in self.old n }
        requires some { 1 ≤ book }
        ensures { SetsBook self.old n book self.new }
    {
        let i = self.place(n);
        put_in(&mut self.books, usize::from(n.level), i, book, 0);
    }

    /// A node of this key comes into the name's slot, which is free, with one reference.
    #[inline(always)]
    pub fn open(&mut self, n: Name, words: KeyWords)
        requires name { IsName self.old.plan n }
        requires free { book_in self.old n ≡ 0 }
        ensures { PutsEntry self.old n (key_of n.level words) self.new }
    {
        self.put_key(n, &words);
        let i = self.place(n);
        let slot = usize::from(n.slot);
        let block = self.block_place(n.level, n.bucket, slot / BLOCK);
        let bucket = self.bucket_place(n.level, n.bucket);
        put_tag(&mut self.tags, block, slot % BLOCK, tag_of(n.level, &words));
        self.used[bucket] = self.used[bucket].max(u16::from(n.slot) + 1);
        self.filled[bucket] = filled_with(self.filled[bucket], n.slot);
        put_in(&mut self.books, usize::from(n.level), i, 1, 0);
    }

    /// The name's slot is free.
    pub fn clear(&mut self, n: Name)
        requires { IsName self.old.plan n }
        ensures { SetsBook self.old n 0 self.new }
    {
        let i = self.place(n);
        let slot = usize::from(n.slot);
        let block = self.block_place(n.level, n.bucket, slot / BLOCK);
        let bucket = self.bucket_place(n.level, n.bucket);
        put_tag(&mut self.tags, block, slot % BLOCK, 0);
        self.filled[bucket] = self.filled[bucket].min(u16::from(n.slot));
        put_in(&mut self.books, usize::from(n.level), i, 0, 0);
    }

    /// The bits of a leaf.
    pub fn bits(&self, n: Name) -> u64
        requires name { IsName self.now.plan n }
        requires level { n.level ≡ 0 }
        ensures { result ≡ key_bits (key_in self.now n) }
    {
        item(&self.bits, self.place(n), 0)
    }

    /// The child in an octant of a node.
    pub fn child(&self, n: Name, octant: u8) -> Option<Name>
        requires name { IsName self.now.plan n }
        requires level { 1 ≤ n.level }
        requires octant { octant < 8 }
        requires names { HasNames self.now.plan (key_in self.now n) }
        ensures { result ≡ key_child (key_in self.now n) octant }
    {
        let _plan = self.plan;
        let word = self.word(n, octant / 2);
        child_in(half_of(word, octant % 2), n.level - 1)
    }

    /// The children of a node, by one look at its words.
    #[tactic(auto, using(crate::proofs::OfEntries::ReadLaws::eight_children))]
    pub fn children(&self, n: Name) -> [Option<Name>; 8]
        requires name { IsName self.now.plan n }
        requires level { 1 ≤ n.level }
        requires names { HasNames self.now.plan (key_in self.now n) }
        ensures { Node result ≡ key_in self.now n }
    {
        let pairs = self.pairs(n);
        [
            self.child_of(n, &pairs, 0),
            self.child_of(n, &pairs, 1),
            self.child_of(n, &pairs, 2),
            self.child_of(n, &pairs, 3),
            self.child_of(n, &pairs, 4),
            self.child_of(n, &pairs, 5),
            self.child_of(n, &pairs, 6),
            self.child_of(n, &pairs, 7),
        ]
    }

    /// The bits of the leaves below a node, 0 where an octant is clear, by one look at its words.
    pub fn leaves(&self, n: Name) -> [u64; 8]
        requires name { IsName self.now.plan n }
        requires level { n.level ≡ 1 }
        requires names { HasNames self.now.plan (key_in self.now n) }
        ensures { (k : ℕ) → k < 8
            → bits_of_leaf result k ≡ child_bits self.now (key_child (key_in self.now n) k) }
    {
        let pairs = self.pairs(n);
        [
            self.leaf_of(n, &pairs, 0),
            self.leaf_of(n, &pairs, 1),
            self.leaf_of(n, &pairs, 2),
            self.leaf_of(n, &pairs, 3),
            self.leaf_of(n, &pairs, 4),
            self.leaf_of(n, &pairs, 5),
            self.leaf_of(n, &pairs, 6),
            self.leaf_of(n, &pairs, 7),
        ]
    }

    /// The slot of a bucket whose live node has this key.
    #[inline(always)]
    pub fn find(&self, level: u8, bucket: u16, words: KeyWords) -> Option<u8>
        requires { IsBucket self.now.plan level bucket }
        ensures found { IfSome result
            (λ slot. HasEntry self.now (named level bucket slot) (key_of level words)) }
        ensures none { result ≡ None → LacksKey self.now level bucket (key_of level words) }
    {
        let tag = tag_of(level, &words);
        let blocks = (self.used_of(level, bucket) + (BLOCK - 1)) / BLOCK;
        for block in 0..blocks {
            if let Some(slot) = self.find_in(level, bucket, block, tag, &words) {
                return Some(slot);
            }
        }
        None
    }

    // The slot of a block of a bucket whose live node has this key, by its tag.
    #[inline(always)]
    fn find_in(&self, level: u8, bucket: u16, block: usize, tag: u8, words: &KeyWords) -> Option<u8>
        requires bucket { IsBucket self.now.plan level bucket }
        requires block { block * 16 < self.now.plan.cap }
        requires tag { tag ≡ tag_of level words.now }
        ensures found { IfSome result
            (λ slot. HasEntry self.now (named level bucket slot) (key_of level words.now)) }
        ensures none { result ≡ None → LacksKeyIn self.now level bucket (block * 16)
            (block * 16 + 16) (key_of level words.now) }
    {
        let tags = item(&self.tags, self.block_place(level, bucket, block), NO_TAGS);
        let mut from = 0;
        while let Some(k) = position(&tags, from, tag) {
            let slot = (block * BLOCK + k) as u8;
            let n = Name {
                level,
                bucket,
                slot,
            };
            if self.has_words(n, words) {
                return Some(slot);
            }
            from = k + 1;
        }
        None
    }

    /// The lowest free slot of a bucket. Where all its used slots are live no tag is read.
    #[inline(always)]
    pub fn free(&self, level: u8, bucket: u16) -> Option<u8>
        requires { IsBucket self.now.plan level bucket }
        ensures lowest { IfSome result (IsLowestFree self.now level bucket) }
        ensures full { result ≡ None → AreLiveBelow self.now level bucket self.now.plan.cap }
    {
        let cap = usize::from(self.plan.cap());
        let filled = self.filled_of(level, bucket);
        if self.used_of(level, bucket) <= filled {
            return if filled < cap {
                Some(filled as u8)
            } else {
                None
            };
        }
        for block in filled / BLOCK..(cap + (BLOCK - 1)) / BLOCK {
            let tags = item(&self.tags, self.block_place(level, bucket, block), NO_TAGS);
            if let Some(k) = position(&tags, 0, 0) {
                let slot = block * BLOCK + k;
                return if slot < cap { Some(slot as u8) } else { None };
            }
        }
        None
    }

    /// How many slots of a bucket, from the first on, may have been used; all others are free.
    pub fn used_of(&self, level: u8, bucket: u16) -> usize
        requires { IsBucket self.now.plan level bucket }
        ensures within { result ≤ self.now.plan.cap }
        ensures small { result < 2 ^ 16 }
        ensures free { IsUnusedFrom self.now level bucket result }
    {
        let used = usize::from(self.used[self.bucket_place(level, bucket)]);
        used.min(usize::from(self.plan.cap()))
    }

    // How many slots of a bucket, from the first on, are known to be live.
    fn filled_of(&self, level: u8, bucket: u16) -> usize
        requires { IsBucket self.now.plan level bucket }
        ensures within { result ≤ self.now.plan.cap }
        ensures live { AreLiveBelow self.now level bucket result }
    {
        let filled = usize::from(self.filled[self.bucket_place(level, bucket)]);
        filled.min(usize::from(self.plan.cap()))
    }

    // The words of the key of a free slot.
    #[inline(always)]
    fn put_key(&mut self, n: Name, words: &KeyWords)
        requires name { IsName self.old.plan n }
        requires free { book_in self.old n ≡ 0 }
        ensures { PutsKey self.old n (key_of n.level words.now) self.new }
    {
        let i = self.place(n);
        if n.level == 0 {
            put(&mut self.bits, i, words.bits, 0);
        } else {
            put_in(
                &mut self.pairs,
                usize::from(n.level) - 1,
                i,
                words.pairs,
                NO_PAIRS,
            );
        }
    }

    // The place of the name's slot in the rows of its level.
    fn place(&self, n: Name) -> usize
        requires { IsName self.now.plan n }
        ensures value { result ≡ slot_place self.now.plan n }
        ensures inside { result < slots_at self.now.plan n.level }
    {
        usize::from(n.slot) * usize::from(self.buckets[usize::from(n.level)])
            + usize::from(n.bucket)
    }

    // The place of a block of a bucket's tags.
    fn block_place(&self, level: u8, bucket: u16, block: usize) -> usize
        requires bucket { IsBucket self.now.plan level bucket }
        requires block { block * 16 < self.now.plan.cap }
        ensures value { result ≡ block_place self.now.plan level bucket block }
        ensures inside { result < number_of_blocks self.now.plan }
    {
        block * self.width + self.bucket_place(level, bucket)
    }

    // The place of a bucket among those of all levels.
    fn bucket_place(&self, level: u8, bucket: u16) -> usize
        requires { IsBucket self.now.plan level bucket }
        ensures value { result ≡ bucket_place self.now.plan level bucket }
        ensures inside { result < number_of_buckets self.now.plan }
        ensures small { result < 2 ^ 20 }
    {
        self.ends[usize::from(level)] + usize::from(bucket)
    }

    // A word of the key of a node.
    fn word(&self, n: Name, number: u8) -> u64
        requires name { IsName self.now.plan n }
        requires level { 1 ≤ n.level }
        requires number { number < 4 }
        ensures { result ≡ pair_number (pairs_in self.now n) number }
    {
        match row(&self.pairs, usize::from(n.level) - 1).get(self.place(n)) {
            Some(pairs) => pairs.word(number),
            None => 0,
        }
    }

    // The words of the key of a node.
    #[inline(always)]
    fn pairs(&self, n: Name) -> Pairs
        requires name { IsName self.now.plan n }
        requires level { 1 ≤ n.level }
        ensures { result ≡ pairs_in self.now n }
    {
        item(
            row(&self.pairs, usize::from(n.level) - 1),
            self.place(n),
            NO_PAIRS,
        )
    }

    // The child in an octant of a node that has these words.
    #[inline(always)]
    fn child_of(&self, n: Name, pairs: &Pairs, octant: u8) -> Option<Name>
        requires level { 1 ≤ n.level }
        requires octant { octant < 8 }
        requires pairs { pairs.now ≡ pairs_in self.now n }
        requires names { HasNames self.now.plan (key_in self.now n) }
        ensures { result ≡ key_child (key_in self.now n) octant }
    {
        let _plan = self.plan;
        let word = pairs.word(octant / 2);
        child_in(half_of(word, octant % 2), n.level - 1)
    }

    // The bits of the leaf in an octant of a node that has these words.
    #[inline(always)]
    fn leaf_of(&self, n: Name, pairs: &Pairs, octant: u8) -> u64
        requires level { n.level ≡ 1 }
        requires octant { octant < 8 }
        requires pairs { pairs.now ≡ pairs_in self.now n }
        requires names { HasNames self.now.plan (key_in self.now n) }
        ensures { result ≡ child_bits self.now (key_child (key_in self.now n) octant) }
    {
        match self.child_of(n, pairs, octant) {
            Some(leaf) => self.bits(leaf),
            None => 0,
        }
    }

    // Whether the name's words are those of this key.
    #[inline(always)]
    fn has_words(&self, n: Name, words: &KeyWords) -> bool
        requires { IsName self.now.plan n }
        ensures { IsTrue result ↔ (key_in self.now n ≡ key_of n.level words.now) }
    {
        if n.level == 0 {
            return item(&self.bits, self.place(n), 0) == words.bits;
        }
        let pairs = row(&self.pairs, usize::from(n.level) - 1);
        item(pairs, self.place(n), NO_PAIRS).is(&words.pairs)
    }
}

// How many slots from the first on are live once this one is, where so many were.
fn filled_with(filled: u16, slot: u8) -> u16
    ensures { (k : ℕ) → k < result → k ≢ slot → k < filled }
{
    if filled == u16::from(slot) {
        filled + 1
    } else {
        filled
    }
}
