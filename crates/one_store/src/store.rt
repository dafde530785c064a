ghost use Rattle.std.specs.Prelude.{◌≡◌, ◌+◌, ◌*◌, ◌-◌, ◌<◌, ◌≤◌, ◌^◌, ℕ, [], None, Some, Option, IfOk, IfErr, IfSome, All, replicate};
ghost use Rattle.std.specs.Option.{ForSome};
ghost use Rattle.node_words.specs.declared.shapes.names.Name.{Name};
ghost use Rattle.node_words.specs.shapes.Weights.{number_of_trees};
ghost use Rattle.node_words.specs.declared.keys.Key.TheVariants.{Node};
ghost use Rattle.node_words.specs.Held.{HoldsName, AreBelow};
ghost use Rattle.core_laws.specs.places.WordIds.{levels, versions};
ghost use Rattle.core_laws.specs.places.Names.{IsName, HasNames};
ghost use Rattle.core_laws.specs.States.{IsLive, tree_at};
ghost use Rattle.core_laws.specs.Counting.{weight, children_weight, if_live};
ghost use Rattle.node_words.specs.Enough.{HasEnough};
ghost use Rattle.core_laws.specs.Soundness.{FitsLevel};
ghost use Rattle.core_laws.specs.Blocks.{RootsShow, HasBlocks, live_in, live_number};
ghost use Rattle.core_laws.specs.Events.{IsMissing, PutsRoot, TakesRoot};
ghost use Rattle.core_laws.specs.Worlds.{World};
ghost use Rattle.core_laws.specs.contents.Aligned.{top};
ghost use Rattle.one_store.specs.entries.Slots.{IsBucket};
ghost use Rattle.one_store.specs.entries.Words.{book_in, key_in, HasEntry};
ghost use Rattle.one_store.specs.notes.StoreNotes.{no_notes};
ghost use Rattle.one_store.specs.notes.Changes.{HoldsRow};
ghost use Rattle.one_store.specs.Known.{Known, IsStore, core_of, known_state, tree_in, trees_below, stored_root};
ghost use Rattle.one_store.specs.Steps.{
  RaisesShare,
  LowersShare,
  FreesNode,
  Releases,
  ReleasesRow,
  HoldsChild,
  KeepsRoot,
  GivesRoot,
  GainsRoot,
  IsSoughtKey,
  AddsNode,
  MeetsFull,
  sought_key,
};
ghost use Rattle.one_store.specs.Calls.{GivesBack};

use crate::entries::{EntryWords, words_of};
use crate::notes::Notes;
use crate::noting::{note_entry, note_freeing, note_full, note_gain, note_loss};
use crate::sought::SoughtKey;
use node_words::{Full, Key, Name, Plan, Share, Steps};
use std::alloc::{AllocError, Global};
use std::marker::{Brand, Model};
use std::sync::ledger::Ledger;

/// How many places for roots there are.
const PLACES: usize = 65_536;

/// A store of nodes for one thread. It takes all its memory when it is made.
#[derive(Drop)]
pub struct OneStore {
    pub(crate) words: EntryWords,
    roots: Vec<Option<Name>>,
    number: u32,
    notes: Notes,
}

impl Model for OneStore {
    ghost use Rattle.std.specs.Coded.{codes};
    ghost use Rattle.one_store.specs.notes.StoreNotes.{coded_notes};
    ghost use Rattle.one_store.specs.Known.{Known, IsStore};

    ghost Value = { Known };

    ghost coded = { Prim.hlevel (codes, coded_notes) };

    ghost view = { λ s. record { words = s.words; roots = s.roots.items; told = s.notes } };

    ghost invariant = { λ s. IsStore
        (record { words = s.words; roots = s.roots.items; told = s.notes }) s.number };
}

impl OneStore {
    /// An empty store.
    pub fn begin(alloc: Global, plan: &Plan) -> Result<OneStore, AllocError>
        ensures plan { IfOk result (λ s. s.words.plan ≡ plan.now) }
        ensures free { IfOk result (λ s. (n : Name) → book_in s.words n ≡ 0) }
        ensures roots { IfOk result (λ s. (place : ℕ) → stored_root s.roots place ≡ None) }
        ensures told { IfOk result (λ s. s.told ≡ no_notes) }
    {
        Ok(OneStore {
            words: EntryWords::begin(alloc, plan)?,
            roots: no_roots(alloc)?,
            number: 0,
            notes: Notes::new(alloc)?,
        })
    }

    /// The share moves from the held ones into the place.
    pub fn keep_root(&mut self, place: u32, root: Option<Share>)
        requires place { place < versions }
        requires empty { stored_root self.old.roots place ≡ None }
        requires held { ForSome root (λ n. HoldsName self.old.told.held n) }
        requires top { ForSome root (λ n. n.level ≡ top self.old.words.plan.side) }
        ensures keeps { KeepsRoot self.old place root self.new }
        ensures event { PutsRoot self.old.words.plan 0 place root (core_of self.old)
            (core_of self.new) }
    {
        match root {
            Some(share) => self.place_root(place as usize, share.spend()),
            None => {}
        }
    }

    fn place_root(&mut self, place: usize, n: Name)
        requires place { place < versions }
        requires empty { stored_root self.old.roots place ≡ None }
        requires held { HoldsName self.old.told.held n }
        requires top { n.level ≡ top self.old.words.plan.side }
        ensures keeps { KeepsRoot self.old place (Some n) self.new }
        ensures event { PutsRoot self.old.words.plan 0 place (Some n) (core_of self.old)
            (core_of self.new) }
    {
        note_loss::<Brand>(&mut self.notes, &self.words, n);
        self.roots[place] = Some(n);
        self.number -= 1;
    }

    /// The root of the place, whose share is held again; the place is empty. Shares of the roots of
    /// all places may be held at once.
    pub fn take_root(&mut self, place: u32) -> Option<Share>
        requires place { place < versions }
        requires room { number_of_trees self.old.told.held ≤ 69631 }
        ensures root { result ≡ stored_root self.old.roots place }
        ensures top { IfSome result (λ n. n.level ≡ top self.old.words.plan.side) }
        ensures gives { GivesRoot self.old place self.new }
        ensures event { TakesRoot self.old.words.plan 0 place (core_of self.old)
            (core_of self.new) }
    {
        let _number = self.number;
        match self.roots[place as usize] {
            Some(n) => {
                self.empty_place(place as usize, n);
                Some(Share::of_store(n))
            }
            None => None,
        }
    }

    fn empty_place(&mut self, place: usize, n: Name)
        requires place { place < versions }
        requires root { stored_root self.old.roots place ≡ Some n }
        requires room { number_of_trees self.old.told.held ≤ 69631 }
        ensures top { n.level ≡ top self.old.words.plan.side }
        ensures gives { GivesRoot self.old place self.new }
        ensures event { TakesRoot self.old.words.plan 0 place (core_of self.old)
            (core_of self.new) }
    {
        note_gain::<Brand>(&mut self.notes, &self.words, n);
        self.roots[place] = None;
        self.number += 1;
    }

    /// One more share of the root in the place, which stays there.
    pub fn root_share(&mut self, place: u32) -> Option<Share>
        requires place { place < versions }
        requires room { number_of_trees self.old.told.held ≤ 4095 }
        ensures root { result ≡ stored_root self.old.roots place }
        ensures top { IfSome result (λ n. n.level ≡ top self.old.words.plan.side) }
        ensures gains { GainsRoot self.old place self.new }
    {
        let _number = self.number();
        match self.roots[place as usize] {
            Some(n) => Some(self.raise(n)),
            None => None,
        }
    }

    /// The root in each place.
    pub fn roots(&self) -> &[Option<Name>]
        ensures { result.now ≡ self.now.roots }
    {
        self.roots.as_slice()
    }

    /// How many nodes of this level are live. Where no share is held, these are as many as the
    /// different blocks with a set cell that the roots in places have.
    pub fn live(&self, level: u8) -> u32
        requires { level < levels self.now.words.plan }
        ensures number { result ≡ live_number self.now.words.plan (core_of self.now) level }
        ensures blocks { (cells : ℕ → World)
            → RootsShow self.now.words.plan cells (core_of self.now)
            → number_of_trees self.now.told.held ≡ 0
            → HasBlocks self.now.words.plan cells (core_of self.now) level result }
    {
        let _number = self.number;
        let buckets = self.words.plan().buckets()[usize::from(level)];
        let mut number = 0;
        for bucket in 0..buckets {
            number += self.live_in(level, bucket);
        }
        number
    }

    // How many nodes of a bucket are live.
    fn live_in(&self, level: u8, bucket: u16) -> u32
        requires { IsBucket self.now.words.plan level bucket }
        ensures number { result ≡ live_in self.now.words.plan (core_of self.now) level bucket }
        ensures few { result ≤ 256 }
    {
        let mut number = 0;
        for slot in 0..self.words.used_of(level, bucket) {
            let n = Name {
                level,
                bucket,
                slot: slot as u8,
            };
            number += one_where_live(self.words.book(n));
        }
        number
    }

    /// Whatever met a full bucket, as many different shapes of that level and bucket were made as
    /// it has slots.
    pub fn full_buckets_had_enough(&self)
        ensures { let s = self.now in
            All (λ w. HasEnough s.words.plan s.told.made w.level w.bucket) s.told.met }
    {
        let _number = self.number;
    }

    /// The plan.
    pub fn plan(&self) -> Plan
        ensures { result ≡ self.now.words.plan }
    {
        self.words.plan()
    }

    /// How many shares are held.
    pub fn number(&self) -> u32
        ensures number { result ≡ number_of_trees (known_state self.now).held }
        ensures store { IsStore self.now result }
    {
        self.number
    }

    // One more share of a live node.
    pub(crate) fn raise(&mut self, n: Name) -> Share
        requires live { IsLive self.old.words.plan (core_of self.old) n }
        requires room { number_of_trees self.old.told.held ≤ 4095 }
        ensures raises { RaisesShare self.old n self.new }
        ensures share { result ≡ n }
    {
        let book = self.words.book(n);
        note_gain::<Brand>(&mut self.notes, &self.words, n);
        self.words.set_book(n, book + 1);
        self.number += 1;
        Share::of_store(n)
    }

    // One share less of a node that has another reference.
    fn lower(&mut self, n: Name)
        requires held { HoldsName self.old.told.held n }
        requires more { 2 ≤ book_in self.old.words n }
        ensures { LowersShare self.old n self.new }
    {
        let book = self.words.book(n);
        note_loss::<Brand>(&mut self.notes, &self.words, n);
        self.words.set_book(n, book - 1);
        self.number -= 1;
    }

    // The last share of a node goes, and those of its children come, so many.
    fn free(&mut self, n: Name, children: u32)
        requires held { HoldsName self.old.told.held n }
        requires last { book_in self.old.words n ≡ 1 }
        requires children { children ≡ children_weight (λ _. 1) (key_in self.old.words n) }
        requires room { number_of_trees self.old.told.held ≤ 8192 }
        ensures { FreesNode self.old n self.new }
    {
        note_freeing::<Brand>(&mut self.notes, &self.words, n);
        self.words.clear(n);
        self.number = self.number - 1 + children;
    }

    // A key of this level with its bucket and words.
    #[inline(always)]
    pub(crate) fn seek(&self, level: u8, key: &Key) -> SoughtKey
        requires level { level < levels self.now.words.plan }
        requires fits { FitsLevel level key.now }
        requires names { HasNames self.now.words.plan key.now }
        ensures sought { IsSoughtKey self.now.words.plan result }
        ensures level { result.level ≡ level }
        ensures key { sought_key result ≡ key.now }
    {
        SoughtKey {
            level,
            bucket: self.words.bucket(level, key),
            words: words_of(level, key),
        }
    }

    // The live node that has the key.
    #[inline(always)]
    pub(crate) fn find(&self, sought: &SoughtKey) -> Option<Name>
        requires { IsSoughtKey self.now.words.plan sought.now }
        ensures found { IfSome result
            (λ n. HasEntry self.now.words n (sought_key sought.now)
            × (n.level ≡ sought.now.level)) }
        ensures none { result ≡ None
            → IsMissing self.now.words.plan (core_of self.now) sought.now.level
            (sought_key sought.now) }
    {
        let _number = self.number;
        let SoughtKey {
            level,
            bucket,
            words,
        } = *sought;
        match self.words.find(level, bucket, words) {
            Some(slot) => Some(Name {
                level,
                bucket,
                slot,
            }),
            None => None,
        }
    }

    // A new node of the key, whose children, so many, move into it; or the full bucket.
    pub(crate) fn add(&mut self, sought: &SoughtKey, children: u32) -> Result<Share, Full>
        requires sought { IsSoughtKey self.old.words.plan sought.now }
        requires missing { IsMissing self.old.words.plan (core_of self.old) sought.now.level
            (sought_key sought.now) }
        requires held { HoldsRow self.old.told.held
            (trees_below (key_in self.old.words) (sought.now.level - 1) (sought_key sought.now)) }
        requires children { children ≡ children_weight (λ _. 1) (sought_key sought.now) }
        requires room { number_of_trees self.old.told.held ≤ 4095 }
        ensures adds { IfOk result (λ n. AddsNode self.old sought.now n self.new) }
        ensures meets { IfErr result (λ e. MeetsFull self.old sought.now self.new) }
        ensures full { IfErr result
            (λ e. (e.level ≡ sought.now.level) × (e.bucket ≡ sought.now.bucket)) }
    {
        let level = sought.level;
        let bucket = sought.bucket;
        match self.words.free(level, bucket) {
            Some(slot) => {
                let n = Name {
                    level,
                    bucket,
                    slot,
                };
                note_entry::<Brand>(&mut self.notes, &self.words, n, sought);
                self.words.open(n, sought.words);
                self.number = self.number + 1 - children;
                Ok(Share::of_store(n))
            }
            None => {
                note_full::<Brand>(&mut self.notes, &self.words, sought);
                Err(Full { level, bucket })
            }
        }
    }

    // Gives back a share of the name, and of all that only it kept.
    #[cycle(back)]
    pub(crate) fn release<L: Ledger>(&mut self, n: Name, steps: &mut Steps<L>)
        requires held { HoldsName self.old.told.held n }
        requires room { number_of_trees self.old.told.held + 8 * n.level ≤ 8192 }
        ensures releases { Releases self.old (tree_in self.old n) self.new steps.old steps.new }
        ensures book { GivesBack self.old n self.new }
    {
        steps.tick();
        let book = self.words.book(n);
        if book > 1 {
            self.lower(n);
            return;
        }
        if n.level == 0 {
            self.free(n, 0);
            return;
        }
        let children = self.words.children(n);
        self.free(n, number_in(&children));
        self.release_row(n.level, &children, steps);
    }

    // Gives back the children of a node of this level.
    #[cycle(back)]
    pub(crate) fn release_row<L: Ledger>(
        &mut self,
        level: u8,
        children: &[Option<Name>; 8],
        steps: &mut Steps<L>,
    )
        requires level { 1 ≤ level }
        requires below { AreBelow level children.now }
        requires held { HoldsRow self.old.told.held
            (trees_below (key_in self.old.words) (level - 1) (Node children.now)) }
        requires room { number_of_trees self.old.told.held + 8 * (level - 1) ≤ 8192 }
        ensures { ReleasesRow self.old
            (trees_below (key_in self.old.words) (level - 1)
            (Node children.now)) 8 self.new steps.old steps.new }
    {
        let _number = self.number;
        for k in 0..8usize {
            self.release_some(level, children[k], steps);
        }
    }

    // Gives back a child of a node of this level, where there is one.
    #[cycle(back)]
    fn release_some<L: Ledger>(&mut self, level: u8, child: Option<Name>, steps: &mut Steps<L>)
        requires level { 1 ≤ level }
        requires held { HoldsChild self.old.told.held level child }
        requires room { number_of_trees self.old.told.held + 8 * (level - 1) ≤ 8192 }
        ensures { Releases self.old
            (tree_at (key_in self.old.words) (level - 1) child) self.new steps.old steps.new }
    {
        match child {
            Some(n) => self.release(n, steps),
            None => {}
        }
    }
}

// Places with no roots.
fn no_roots(alloc: Global) -> Result<Vec<Option<Name>>, AllocError>
    ensures { IfOk result (λ roots. roots.items ≡ replicate 65536 None) }
{
    vec![in alloc; None; PLACES]
}

// How many names there are.
#[tactic(auto, unfolding(core_laws::specs::Counting::children_weight, vw_cell::specs::Sums::sum_below))]
pub(crate) fn number_in(children: &[Option<Name>; 8]) -> u32
    ensures value { result ≡ children_weight (λ _. 1) (Node children.now) }
    ensures few { result ≤ 8 }
{
    let low = one_in(children[0]) + one_in(children[1]) + one_in(children[2]) + one_in(children[3]);
    let high = one_in(children[4])
        + one_in(children[5])
        + one_in(children[6])
        + one_in(children[7]);
    low + high
}

fn one_where_live(book: u32) -> u32
    ensures value { result ≡ if_live book 1 }
    ensures one { result ≤ 1 }
{
    if book > 0 { 1 } else { 0 }
}

fn one_in(child: Option<Name>) -> u32
    ensures value { result ≡ weight (λ _. 1) child }
    ensures one { result ≤ 1 }
{
    match child {
        Some(_) => 1,
        None => 0,
    }
}
