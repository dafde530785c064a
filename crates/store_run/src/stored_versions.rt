ghost use Rattle.std.specs.Prelude.{◌≡◌, ◌+◌, ◌<◌, ◌≤◌, ◌^◌, ◌↔◌, true, None, IfOk, IfErr, OnOk, IsTrue, [], length, replicate, option_copied, false};

use act_rebuilds::{OwnModels, answer_tinted, own_models, rebuild_act, tell};
use history_model::{Act, History, Mark, Question, Record};
use node_words::{Full, Name, NodeStore, Plan, Share, Steps};
use one_store::OneStore;
use std::alloc::{AllocError, Global};
use std::sync::ledger::Ledger;
use transcript::Answer;
use undo::Trail;
use vox_read::Models;
use vw_cell::{Memory, Side};

/// The most records of a history.
pub(crate) const RECORDS: u32 = 65_535;

/// How many versions there can be.
const VERSIONS: usize = 65_536;

/// The versions of a world: records and marks, and a store that has the root of each version which
/// is kept in the place of its number.
#[derive(Drop)]
pub(crate) struct Versions {
    pub(crate) side: Side,
    pub(crate) models: OwnModels,
    pub(crate) store: OneStore,
    pub(crate) records: Vec<Record>,
    // by version
    pub(crate) marks: Vec<Option<Mark>>,
    pub(crate) trail: Trail,
}

/// Whether a version can be read.
#[derive(Clone, Copy)]
pub(crate) enum VersionFound {
    Kept,
    NotThere,
    Marked,
}

ghost use Rattle.vox_read.specs.Contents.{AreModels};
ghost use Rattle.node_words.specs.shapes.Weights.{number_of_trees};
ghost use Rattle.node_words.specs.Held.{most_before_release};
ghost use Rattle.history_model.specs.Worlds.{is_edit};
ghost use Rattle.history_model.specs.Logs.{FitsWorld, suits_tints};
ghost use Rattle.core_laws.specs.contents.Versions.{HoldsVersion, IsUnmarked};
ghost use Rattle.core_laws.specs.LogEvents.{MayAppend};
ghost use Rattle.act_rebuilds.specs.Made.{FailsBy};
ghost use Rattle.one_store.specs.Known.{known_state, stored_root};
ghost use Rattle.script.specs.Fitting.{QuestionFits};
ghost use Rattle.store_run.specs.Kept.{plan_of, log_of, moment_of, core_with, noted_of, AreStoredVersions, AreVersions, IsLargeStore, HoldsNothing, HoldsTree, GainsTree, LosesTree, HoldsSame, HasRecordRoom};
ghost use Rattle.store_run.specs.Steps.{IsVersionFound, AnswersHeldVersion, StaysSeen, IsOverStore, MakesBeside, WantsFor, side_of, PutsDown, LeavesAll, SharesRootOfVersion, MakesRoot, MeetsBucket, GainsRecord, GainsMark};

impl Versions {
    /// Version 0 alone, with room for so many records, of a world whose cells have tints, or have
    /// none.
    #[tactic(auto, using(crate::proofs::Beginning::begun_are, crate::proofs::Beginning::begun_log, crate::proofs::Beginning::begun_nothing, crate::proofs::Beginning::begun_noted))]
    pub(crate) fn begin(
        alloc: Global,
        plan: &Plan,
        models: Models,
        most: usize,
        tint: bool,
    ) -> Result<Versions, Memory>
        requires models { AreModels models }
        requires large { IsLargeStore tint plan.now.side }
        ensures are { IfOk result AreStoredVersions }
        ensures plan { IfOk result (λ v. plan_of v ≡ plan.now) }
        ensures tint { IfOk result (λ v. v.models.tint ≡ tint) }
        ensures models { IfOk result (λ v. v.models.models ≡ models) }
        ensures empty { IfOk result (λ v. log_of v
            ≡ record { side = plan.now.side; coloured = tint; records = []; marks = [] }) }
        ensures noted { IfOk result (λ v. noted_of v ≡ record { made = []; met = [] }) }
        ensures free { IfOk result (λ v. HoldsNothing v.store) }
    {
        Ok(Versions {
            side: plan.side(),
            models: own_models(alloc, models, tint)?,
            store: OneStore::begin(alloc, plan)?,
            records: Vec::with_capacity(alloc, most)?,
            marks: no_marks(alloc)?,
            trail: Trail::begin(alloc, most)?,
        })
    }

    /// How many records there are.
    pub(crate) fn moment(&self) -> u32
        requires { AreStoredVersions self.now }
        ensures value { result ≡ moment_of self.now }
        ensures few { result ≤ 65535 }
    {
        self.records.len() as u32
    }

    /// Whether the version can be read.
    #[tactic(auto, using(crate::proofs::Finding::in_places, crate::proofs::Finding::kept_at, crate::proofs::Finding::marked_at))]
    pub(crate) fn find(&self, version: u32) -> VersionFound
        requires { AreStoredVersions self.now }
        ensures { IsVersionFound self.now version result }
    {
        if version > self.moment() {
            return VersionFound::NotThere;
        }
        match self.marks[version as usize] {
            None => VersionFound::Kept,
            Some(_) => VersionFound::Marked,
        }
    }

    /// Whether two versions have one root.
    #[tactic(auto, using(crate::proofs::Ending::has_place))]
    pub(crate) fn has_same_roots(&self, v: u32, w: u32) -> bool
        requires are { AreStoredVersions self.now }
        requires there { (v ≤ moment_of self.now) × (w ≤ moment_of self.now) }
        ensures { IsTrue result
            ↔ (stored_root self.now.store.roots v ≡ stored_root self.now.store.roots w) }
    {
        let _number = self.store.number();
        let roots = self.store.roots();
        is_same(roots[v as usize], roots[w as usize])
    }

    /// One more share of the version's root.
    #[tactic(auto, using(crate::proofs::Sparing::shares_root, crate::proofs::Sparing::are_spared, crate::proofs::Sparing::plain_spared, crate::proofs::Sparing::room_stays))]
    pub(crate) fn share(&mut self, version: u32) -> Option<Share>
        requires are { AreStoredVersions self.old }
        requires kept { HoldsVersion (log_of self.old) version }
        requires few { number_of_trees self.old.store.told.held ≤ 2048 }
        ensures are { AreStoredVersions self.new }
        ensures plain { AreVersions self.old → AreVersions self.new }
        ensures shares { SharesRootOfVersion self.old version result self.new }
        ensures room { HasRecordRoom self.old → HasRecordRoom self.new }
    {
        self.store.root_share(version)
    }

    /// Gives a share of a root back, where there is one.
    #[tactic(auto, using(crate::proofs::Sparing::puts_some, crate::proofs::Sparing::puts_none, crate::proofs::Sparing::are_spared, crate::proofs::Sparing::plain_spared, crate::proofs::Holding::tree_name, crate::proofs::Sparing::room_stays))]
    pub(crate) fn give_back<L: Ledger>(&mut self, root: Option<Share>, steps: &mut Steps<L>)
        requires are { AreStoredVersions self.old }
        requires holds { HoldsTree self.old.store root }
        requires few { number_of_trees self.old.store.told.held ≤ most_before_release }
        ensures are { AreStoredVersions self.new }
        ensures plain { AreVersions self.old → AreVersions self.new }
        ensures puts { PutsDown self.old root self.new }
        ensures room { HasRecordRoom self.old → HasRecordRoom self.new }
    {
        match root {
            Some(share) => self.store.back(share, steps),
            None => {}
        }
    }

    /// What the question asks of a version.
    #[tactic(auto, using(crate::proofs::Rebuilding::asked_all, crate::proofs::Rebuilding::asked_same, crate::proofs::Rebuilding::shared_tree, crate::proofs::Rebuilding::shared_few))]
    pub(crate) fn ask<L: Ledger>(
        &mut self,
        version: u32,
        question: Question,
        steps: &mut Steps<L>,
    ) -> Answer
        requires are { AreStoredVersions self.old }
        requires kept { HoldsVersion (log_of self.old) version }
        requires few { number_of_trees self.old.store.told.held ≤ 2048 }
        requires fits { QuestionFits (side_of self.old) question }
        ensures are { AreStoredVersions self.new }
        ensures plain { AreVersions self.old → AreVersions self.new }
        ensures leaves { LeavesAll self.old self.new }
        ensures same { HoldsSame self.old.store self.new.store }
        ensures tells { AnswersHeldVersion self.old version question result }
    {
        let root = self.share(version);
        let answer = self.answer_root(version, root.as_ref(), question);
        self.give_back(root, steps);
        answer
    }

    /// What the question asks of the version whose root is held.
    #[tactic(auto, using(crate::proofs::Rebuilding::share_level, crate::proofs::Rebuilding::share_shows, crate::proofs::Holding::holds_root, crate::proofs::Sparing::are_spared, crate::proofs::Rebuilding::seen_tree, crate::proofs::Rebuilding::stays_seen, crate::proofs::Rebuilding::root_told, crate::proofs::Rebuilding::tints_told, crate::proofs::Rebuilding::large_tints, crate::proofs::Rebuilding::question_plain, crate::proofs::Rebuilding::question_tinted, crate::proofs::Sparing::plain_spared))]
    pub(crate) fn answer_root(
        &mut self,
        version: u32,
        root: Option<&Share>,
        question: Question,
    ) -> Answer
        requires are { AreStoredVersions self.old }
        requires kept { HoldsVersion (log_of self.old) version }
        requires holds { HoldsTree self.old.store (option_copied root) }
        requires is { option_copied root ≡ stored_root self.old.store.roots version }
        requires fits { QuestionFits (side_of self.old) question }
        ensures are { AreStoredVersions self.new }
        ensures plain { AreVersions self.old → AreVersions self.new }
        ensures stays { StaysSeen self.old self.new }
        ensures holds { HoldsTree self.new.store (option_copied root.entry) }
        ensures tells { AnswersHeldVersion self.old version question result }
    {
        let side = self.side;
        if self.models.tint() {
            return answer_tinted(&mut self.store, root, side, question);
        }
        tell(&mut self.store, root, side, question)
    }

    /// A share of the root of what the edit makes of the newest version.
    #[tactic(auto, using(crate::proofs::Rebuilding::suits_still, crate::proofs::Rebuilding::newest_is_kept, crate::proofs::Rebuilding::made_all, crate::proofs::Rebuilding::gained_all, crate::proofs::Rebuilding::met_all, crate::proofs::Rebuilding::shared_tree, crate::proofs::Rebuilding::shared_few))]
    pub(crate) fn rebuild<L: Ledger>(
        &mut self,
        act: Act,
        steps: &mut Steps<L>,
    ) -> Result<Option<Share>, Full>
        requires are { AreStoredVersions self.old }
        requires few { number_of_trees self.old.store.told.held ≤ 2048 }
        requires edit { is_edit act ≡ true }
        requires suits { suits_tints self.old.models.tint act ≡ true }
        requires fits { FitsWorld (2 ^ self.old.side) self.old.models.models act }
        ensures are { AreStoredVersions self.new }
        ensures plain { AreVersions self.old → AreVersions self.new }
        ensures makes { IfOk result (λ root. MakesRoot self.old act root self.new) }
        ensures gains { IfOk result (λ root. GainsTree self.old.store root self.new.store) }
        ensures meets { IfErr result (λ full. MeetsBucket self.old act full self.new) }
        ensures room { HasRecordRoom self.old → HasRecordRoom self.new }
    {
        let base = self.share(self.moment());
        let made = self.rebuild_from(base.as_ref(), act, steps);
        self.give_back(base, steps);
        let _number = self.store.number();
        made
    }

    // The same from the newest version's root, which is held.
    #[tactic(auto, using(crate::proofs::Rebuilding::makes_beside, crate::proofs::Rebuilding::fails_beside, crate::proofs::Rebuilding::still_held, crate::proofs::Rebuilding::few_held, crate::proofs::Rebuilding::base_root, crate::proofs::Rebuilding::enough_large, crate::proofs::Rebuilding::enough_room, crate::proofs::Sparing::are_spared, crate::proofs::Sparing::plain_spared, crate::proofs::Rebuilding::over_store))]
    fn rebuild_from<L: Ledger>(
        &mut self,
        base: Option<&Share>,
        act: Act,
        steps: &mut Steps<L>,
    ) -> Result<Option<Share>, Full>
        requires are { AreStoredVersions self.old }
        requires holds { HoldsTree self.old.store (option_copied base) }
        requires few { number_of_trees self.old.store.told.held ≤ 2049 }
        requires is { option_copied base ≡ stored_root self.old.store.roots (moment_of self.old) }
        requires edit { is_edit act ≡ true }
        requires suits { suits_tints self.old.models.tint act ≡ true }
        requires fits { FitsWorld (2 ^ self.old.side) self.old.models.models act }
        ensures are { AreStoredVersions self.new }
        ensures plain { AreVersions self.old → AreVersions self.new }
        ensures only { IsOverStore self.old self.new }
        ensures held { HoldsTree self.new.store (option_copied base.entry) }
        ensures few { number_of_trees self.new.store.told.held ≤ 2050 }
        ensures makes { IfOk result (λ root. MakesBeside self.old act root self.new) }
        ensures meets { IfErr result
            (λ full. FailsBy (WantsFor self.old act) full.level full.bucket
            (known_state self.old.store) (known_state self.new.store)) }
    {
        let side = self.side;
        rebuild_act(&mut self.store, base, side, &self.models, act, steps)
    }

    /// The record comes behind the others, and the share of its root goes to its version.
    #[tactic(auto, using(crate::proofs::Logging::no_root, crate::proofs::Holding::holds_some, crate::proofs::Logging::appended_are, crate::proofs::Logging::appends_record, crate::proofs::Logging::keeps_loses))]
    pub(crate) fn append(&mut self, next: Record, root: Option<Share>)
        requires are { AreStoredVersions self.old }
        requires room { HasRecordRoom self.old }
        requires suits { suits_tints self.old.models.tint next.act ≡ true }
        requires holds { HoldsTree self.old.store root }
        requires may { MayAppend (plan_of self.old) self.old.models.models next root
            (core_with (log_of self.old) self.old.store) }
        ensures are { AreStoredVersions self.new }
        ensures plain { AreVersions self.old → AreVersions self.new }
        ensures appends { GainsRecord self.old next self.new }
        ensures loses { LosesTree self.old.store root self.new.store }
    {
        let version = self.moment() + 1;
        let _number = self.store.number();
        self.store.keep_root(version, root);
        let _left = self.store.number();
        self.records.push_reserved(next);
        self.trail.take(version, next.act);
    }

    /// The mark comes to its version, whose root goes at once.
    #[tactic(auto, using(crate::proofs::Logging::marked_are, crate::proofs::Logging::taken_tree, crate::proofs::Logging::taken_few, crate::proofs::Logging::taken_same, crate::proofs::Logging::marks_version, crate::proofs::Logging::no_root, crate::proofs::Ending::has_place))]
    pub(crate) fn forget<L: Ledger>(&mut self, mark: Mark, steps: &mut Steps<L>)
        requires are { AreStoredVersions self.old }
        requires few { number_of_trees self.old.store.told.held ≤ 2048 }
        requires kept { HoldsVersion (log_of self.old) mark.version }
        requires earlier { mark.version < moment_of self.old }
        requires now { mark.at ≡ moment_of self.old }
        ensures are { AreStoredVersions self.new }
        ensures plain { AreVersions self.old → AreVersions self.new }
        ensures marks { GainsMark self.old mark self.new }
        ensures same { HoldsSame self.old.store self.new.store }
    {
        let _number = self.store.number();
        self.marks[mark.version as usize] = Some(mark);
        let root = self.store.take_root(mark.version);
        let _taken = self.store.number();
        self.give_back(root, steps);
    }

    /// Sees to it that one more record has room.
    #[tactic(auto, using(crate::proofs::Rebuilding::plain_as))]
    pub(crate) fn reserve(&mut self) -> Result<(), Memory>
        requires { AreStoredVersions self.old }
        ensures are { AreStoredVersions self.new }
        ensures plain { AreVersions self.old → AreVersions self.new }
        ensures room { OnOk result (HasRecordRoom self.new) }
        ensures same { self.new.models.models ≡ self.old.models.models }
        ensures log { log_of self.new ≡ log_of self.old }
        ensures store { self.new.store ≡ self.old.store }
    {
        self.trail.reserve()?;
        self.records.reserve(1)?;
        Ok(())
    }
}

// No version has a mark.
fn no_marks(alloc: Global) -> Result<Vec<Option<Mark>>, AllocError>
    ensures { IfOk result (λ marks. marks.items ≡ replicate 65536 None) }
{
    vec![in alloc; None; VERSIONS]
}

fn is_same(a: Option<Name>, b: Option<Name>) -> bool
    ensures { IsTrue result ↔ (a ≡ b) }
{
    match (a, b) {
        (None, None) => true,
        (Some(a), Some(b)) => a.level == b.level && a.bucket == b.bucket && a.slot == b.slot,
        _ => false,
    }
}
