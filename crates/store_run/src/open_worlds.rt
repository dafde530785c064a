//! A world that stands open, and is changed and asked one call at a time.
ghost use Rattle.std.specs.Prelude.{◌≡◌, ◌↔◌, ◌/◌, ◌<◌, ◌≤◌, ◌^◌, ℕ, Bool, [], All, Some, IfOk, IfSome, IsTrue, OnErr, length, map, option_copied, true, false};
ghost use Rattle.std.specs.List.{slice_get};
ghost use Rattle.vw_cell.specs.Places.{FitsAt, IsInBox};
ghost use Rattle.vw_cell.specs.Extents.{IsExtent};
ghost use Rattle.vox_read.specs.Contents.{AreModels, IsInsideModel};
ghost use Rattle.history_model.specs.Journal.{journal_of};
ghost use Rattle.history_model.specs.Logs.{FitsWorld, side_of_world, suits_tints};
ghost use Rattle.history_model.specs.Moments.{world_has, world_tint};
ghost use Rattle.history_model.specs.Tints.{SameTints};
ghost use Rattle.measure.specs.Changes.{differs};
ghost use Rattle.core_laws.specs.contents.Versions.{HoldsVersion, SameWorld};
ghost use Rattle.extract.specs.Saved.{file_of_box};
ghost use Rattle.extract.specs.Surface.{surface_of_box};
ghost use Rattle.flood.specs.Regions.{FilesRegion};
ghost use Rattle.script.specs.Fitting.{QuestionFits};
ghost use Rattle.script.specs.declared.commands.Command.TheVariants.{Edit, Forget};
ghost use Rattle.transcript.specs.declared.answers.Answer.TheVariants.{Done};
ghost use Rattle.conformance.specs.Answers.{mark_of};
ghost use Rattle.conformance.specs.Kinds.{answer_at};
ghost use Rattle.conformance.specs.QuestionAnswers.{AnswersTo};
ghost use Rattle.conformance.specs.scripts.Sessions.{ExtendsBefore, ExtendsWith};
ghost use Rattle.one_store.specs.Known.{stored_root};
ghost use Rattle.store_run.specs.Answering.{ExtendsBy};
ghost use Rattle.store_run.specs.Changing.{Changes, ChangesKeeping, ForgetsFallen, AnswersForget, MakesVersion};
ghost use Rattle.store_run.specs.Kept.{log_of, moment_of, world_of, HasRecordRoom, AreVersions, HoldsTree, IsLargeStore};
ghost use Rattle.store_run.specs.Steps.{LeavesAll, StaysSeen, AnswersHeldVersion, side_of};
ghost use Rattle.store_run.specs.TintChanges.{tints_differ};
ghost use Rattle.store_run.specs.TintFiles.{file_of_tints, its_tint};
ghost use Rattle.store_run.specs.Worlds.{AreVersionsAtRest, AreStoredAtRest, size_of, world_state};

use crate::compared::changes_over;
use crate::floods::region_over;
use crate::lines::is_edit;
use crate::seen::{surface_over, tints_over};
use crate::stored_versions::{VersionFound, Versions};
use crate::tint_files::tint_file_over;
use extract::box_file;
use flood::RegionFile;
use history_model::{Act, Question, journal_text};
use node_words::{Plan, Share, Steps};
use std::alloc::Global;
use std::marker::{Brand, Model};
use std::sync::ledger::{Blank, Ledger};
use transcript::Answer;
use vox_read::{Models, Voxel};
use vw_cell::{Boxed, Cell, Memory, Side};

/// The most records for which room is taken at the start.
const FIRST_ROOM: usize = 1_024;

/// A world that stands open: its models, and its versions, which are changed and asked one call at
/// a time. Nothing is held between two calls.
///
/// Contracts see its plan, its models, its history, and which contents its store made or had no
/// room for.
#[derive(Drop)]
pub struct OpenWorld {
    pub(crate) versions: Versions,
}

impl Model for OpenWorld {
    ghost use Rattle.std.specs.Coded.{codes};
    ghost use Rattle.node_words.specs.shapes.ShapeCode.{coded_shape};
    ghost use Rattle.one_store.specs.notes.StoreNotes.{coded_wanted};
    ghost use Rattle.store_run.specs.Worlds.{WorldState, world_state, AreStoredAtRest};

    ghost Value = { WorldState };

    ghost coded = { Prim.hlevel (codes, coded_shape, coded_wanted) };

    ghost view = { λ w. world_state w.versions };

    ghost invariant = { λ w. AreStoredAtRest w.versions };
}

impl OpenWorld {
    /// An empty world with these models, whose cells have tints, or have none.
    pub fn begin(
        alloc: Global,
        plan: &Plan,
        models: Models,
        tint: bool,
    ) -> Result<OpenWorld, Memory>
        requires models { AreModels models }
        requires large { IsLargeStore tint plan.now.side }
        ensures { IfOk result (λ w. w ≡ record {
          plan = plan.now;
          models = models;
          log = record { side = plan.now.side; coloured = tint; records = []; marks = [] };
          noted = record { made = []; met = [] };
        }) }
    {
        let versions = Versions::begin(alloc, plan, models, FIRST_ROOM, tint)?;
        Ok(OpenWorld { versions })
    }

    // Versions, of which nothing is held.
    pub(crate) fn of(versions: Versions) -> OpenWorld
        requires { AreStoredAtRest versions }
        ensures { result ≡ world_state versions }
    {
        OpenWorld { versions }
    }

    /// Whether cells have tints.
    pub fn tint(&self) -> bool
        ensures { result ≡ self.now.log.coloured }
    {
        self.versions.models.tint()
    }

    /// The world's side: its store's, or a quarter of that where cells have tints.
    #[tactic(auto, using(crate::proofs::Rebuilding::large_tints, crate::proofs::Opening::side_tinted, crate::proofs::Opening::side_plain))]
    pub fn side(&self) -> Side
        ensures { 2 ^ result
            ≡ side_of_world self.now.log.coloured (2 ^ self.now.plan.side) }
    {
        let side = self.versions.side;
        if self.versions.models.tint() {
            return quarter(side);
        }
        side
    }

    /// The size of the model of this number, counted from 0.
    pub fn model_size(&self, number: usize) -> Option<Cell>
        ensures { result ≡ size_of (slice_get self.now.models number) }
    {
        self.versions.models.size(number)
    }

    /// How many records there are, which is the number of the newest version.
    pub fn moment(&self) -> u32
        ensures { result ≡ length self.now.log.records }
    {
        self.versions.moment()
    }

    /// Whether the version is there, and isn't forgotten.
    #[tactic(auto, using(crate::proofs::Changing::marked_gone))]
    pub fn holds_version(&self, version: u32) -> bool
        ensures { IsTrue result ↔ HoldsVersion self.now.log version }
    {
        match self.versions.find(version) {
            VersionFound::Kept => true,
            VersionFound::NotThere | VersionFound::Marked => false,
        }
    }

    /// Does what the act asks for, as this line of this session. All versions are held.
    pub fn change(&mut self, session: u16, line: u32, act: Act) -> Result<Answer, Memory>
        requires suits { suits_tints self.old.log.coloured act ≡ true }
        requires fits { FitsWorld (2 ^ self.old.plan.side) self.old.models act }
        ensures plan { self.new.plan ≡ self.old.plan }
        ensures models { self.new.models ≡ self.old.models }
        ensures logs { IfOk result (λ answer. Changes self.old.log
            (record { session = session; line = line; act = act }) answer self.new.log) }
        ensures makes { IfOk result (λ answer. answer ≡ Done
            → MakesVersion self.old.models self.old.log act self.new.log) }
        ensures goes_on { IfOk result (λ answer. (once : Bool)
            → ExtendsBefore self.old.plan self.old.models session
            (record { line = line; command = Edit act once }) self.old.log self.new.log
            self.old.noted self.new.noted
            (answer_at (record { line = line; command = Edit act once })
            (length self.new.log.records) answer)) }
        ensures same { OnErr result (self.new ≡ self.old) }
    {
        self.versions.reserve()?;
        let answer = change_over::<Brand>(&mut self.versions, session, line, act, Blank::new(1));
        Ok(answer)
    }

    /// The same where the last `keep` versions alone are held, with 0 all: what the act's record
    /// pushes out is forgotten by its line.
    #[tactic(auto, using(crate::proofs::Keeping::other_makes, crate::proofs::Keeping::kept_logs, crate::proofs::Keeping::other_logs))]
    pub fn change_keeping(
        &mut self,
        session: u16,
        line: u32,
        act: Act,
        keep: u32,
    ) -> Result<Answer, Memory>
        requires suits { suits_tints self.old.log.coloured act ≡ true }
        requires fits { FitsWorld (2 ^ self.old.plan.side) self.old.models act }
        ensures plan { self.new.plan ≡ self.old.plan }
        ensures models { self.new.models ≡ self.old.models }
        ensures logs { IfOk result (λ answer. ChangesKeeping keep self.old.plan self.old.models
            self.old.log (record { session = session; line = line; act = act }) answer
            self.new.log) }
        ensures makes { IfOk result (λ answer. answer ≡ Done
            → MakesVersion self.old.models self.old.log act self.new.log) }
        ensures goes_on { IfOk result (λ answer. (once : Bool)
            → ExtendsWith keep self.old.plan self.old.models session
            (record { line = line; command = Edit act once }) self.old.log self.new.log
            self.old.noted self.new.noted
            (answer_at (record { line = line; command = Edit act once })
            (length self.new.log.records) answer)) }
        ensures same { OnErr result (self.new ≡ self.old) }
    {
        let answer = self.change(session, line, act)?;
        if !is_done(answer) {
            return Ok(answer);
        }
        self.forget_fallen(session, line, keep);
        Ok(answer)
    }

    // Forgets the version that the newest record pushed out of the last `keep`.
    #[tactic(auto, using(crate::proofs::Keeping::fallen_seen))]
    fn forget_fallen(&mut self, session: u16, line: u32, keep: u32)
        ensures { ForgetsFallen keep self.old session line self.new }
    {
        fallen_over::<Brand>(&mut self.versions, session, line, keep, Blank::new(1));
    }

    /// Forgets a version, as this line of this session, however many of the last ones are held.
    pub fn forget(&mut self, session: u16, line: u32, version: u32) -> Answer
        ensures plan { self.new.plan ≡ self.old.plan }
        ensures models { self.new.models ≡ self.old.models }
        ensures logs { AnswersForget self.old.log
            (mark_of version (length self.old.log.records) session line) result self.new.log }
        ensures goes_on { (keep : ℕ) → ExtendsWith keep self.old.plan self.old.models session
            (record { line = line; command = Forget version }) self.old.log self.new.log
            self.old.noted self.new.noted
            (answer_at (record { line = line; command = Forget version })
            (length self.new.log.records) result) }
    {
        forget_over::<Brand>(&mut self.versions, session, line, version, Blank::new(1))
    }

    /// What the question asks of a version.
    #[tactic(auto, using(crate::proofs::Opening::asked_told, crate::proofs::Opening::asks_here))]
    pub fn ask(&mut self, version: u32, question: Question) -> Answer
        requires kept { HoldsVersion self.old.log version }
        requires fits { QuestionFits
            (side_of_world self.old.log.coloured (2 ^ self.old.plan.side)) question }
        ensures tells { AnswersTo (side_of_world self.old.log.coloured (2 ^ self.old.plan.side))
            (world_has self.old.models self.old.log.records version)
            (world_tint self.old.models self.old.log.records version) question result }
        ensures same { self.new ≡ self.old }
    {
        ask_over::<Brand>(&mut self.versions, version, question, Blank::new(1))
    }

    /// Whether two versions have the same tints: the same cells, where cells have none.
    pub fn same(&self, v: u32, w: u32) -> bool
        requires first { HoldsVersion self.now.log v }
        requires second { HoldsVersion self.now.log w }
        ensures tints { IsTrue result
            ↔ SameTints (side_of_world self.now.log.coloured (2 ^ self.now.plan.side))
            (world_tint self.now.models self.now.log.records v)
            (world_tint self.now.models self.now.log.records w) }
        ensures cells { self.now.log.coloured ≡ false
            → IsTrue result ↔ SameWorld (2 ^ self.now.plan.side)
            (world_has self.now.models self.now.log.records v)
            (world_has self.now.models self.now.log.records w) }
    {
        let _number = self.versions.store.number();
        self.versions.has_same_roots(v, w)
    }

    /// The VOX file of a box of a version of a world without tints.
    #[tactic(auto, using(crate::proofs::Opening::rests_plain, crate::proofs::Opening::rests_stored))]
    pub fn file(&mut self, alloc: Global, version: u32, part: Boxed) -> Result<Vec<u8>, Memory>
        requires plain { self.old.log.coloured ≡ false }
        requires kept { HoldsVersion self.old.log version }
        requires inside { FitsAt part.at part.size (2 ^ self.old.plan.side) }
        requires small { (part.size.x ≤ 256) × (part.size.y ≤ 256) × (part.size.z ≤ 256) }
        ensures file { IfOk result (λ file. file.items ≡ file_of_box part
            (world_has self.old.models self.old.log.records version)) }
        ensures same { self.new ≡ self.old }
    {
        file_over::<Brand>(&mut self.versions, alloc, version, part, Blank::new(1))
    }

    /// The VOX file of a box of a version of a world with tints, in which each set cell has its
    /// tint as its colour.
    #[tactic(auto, using(crate::proofs::TintFiles::rests_tinted, crate::proofs::TintFiles::part_here))]
    pub fn tint_file(&mut self, alloc: Global, version: u32, part: Boxed) -> Result<Vec<u8>, Memory>
        requires tinted { self.old.log.coloured ≡ true }
        requires kept { HoldsVersion self.old.log version }
        requires inside { FitsAt part.at part.size (2 ^ self.old.plan.side / 4) }
        requires small { (part.size.x ≤ 256) × (part.size.y ≤ 256) × (part.size.z ≤ 256) }
        ensures file { IfOk result (λ file. file.items ≡ file_of_tints part
            (world_has self.old.models self.old.log.records version)
            (world_tint self.old.models self.old.log.records version)) }
        ensures same { self.new ≡ self.old }
    {
        tint_file_over::<Brand>(&mut self.versions, alloc, version, part, Blank::new(1))
    }

    /// The least box of all cells whose tints differ in two versions, and none exactly where none
    /// do: of all cells that differ, where cells have no tints.
    #[tactic(auto, using(crate::proofs::TintComparing::changes_told, crate::proofs::TintComparing::changes_plain))]
    pub fn changes(&mut self, v: u32, w: u32) -> Option<Boxed>
        requires first { HoldsVersion self.old.log v }
        requires second { HoldsVersion self.old.log w }
        ensures tints { IsExtent (side_of_world self.old.log.coloured (2 ^ self.old.plan.side))
            (tints_differ (world_tint self.old.models self.old.log.records v)
            (world_tint self.old.models self.old.log.records w)) result }
        ensures cells { self.old.log.coloured ≡ false → IsExtent (2 ^ self.old.plan.side)
            (differs (world_has self.old.models self.old.log.records v)
            (world_has self.old.models self.old.log.records w)) result }
        ensures same { self.new ≡ self.old }
    {
        changes_over::<Brand>(&mut self.versions, v, w, Blank::new(1))
    }

    /// The set cells of a box of a version that have a bare side, told from the box's corner, by
    /// rising z, then y, then x, each with its bare sides in the place of its colour.
    #[tactic(auto, using(crate::proofs::SeenCells::surface_told, crate::proofs::Flooding::box_here))]
    pub fn surface(
        &mut self,
        alloc: Global,
        version: u32,
        part: Boxed,
    ) -> Result<Vec<Voxel>, Memory>
        requires kept { HoldsVersion self.old.log version }
        requires inside { FitsAt part.at part.size
            (side_of_world self.old.log.coloured (2 ^ self.old.plan.side)) }
        requires small { (part.size.x ≤ 256) × (part.size.y ≤ 256) × (part.size.z ≤ 256) }
        ensures voxels { IfOk result (λ voxels. voxels.items
            ≡ surface_of_box (side_of_world self.old.log.coloured (2 ^ self.old.plan.side))
            (world_has self.old.models self.old.log.records version) part) }
        ensures same { self.new ≡ self.old }
    {
        surface_over::<Brand>(&mut self.versions, alloc, version, part, Blank::new(1))
    }

    /// The tints of some cells of a box of a version of a world with tints, each told as a voxel
    /// from the box's corner.
    #[tactic(auto, using(crate::proofs::SeenCells::tints_told, crate::proofs::TintFiles::rests_tinted, crate::proofs::TintFiles::part_here))]
    pub fn tints_of(
        &mut self,
        alloc: Global,
        version: u32,
        part: Boxed,
        voxels: &[Voxel],
    ) -> Result<Vec<u8>, Memory>
        requires tinted { self.old.log.coloured ≡ true }
        requires kept { HoldsVersion self.old.log version }
        requires inside { FitsAt part.at part.size (2 ^ self.old.plan.side / 4) }
        requires small { (part.size.x ≤ 256) × (part.size.y ≤ 256) × (part.size.z ≤ 256) }
        requires voxels { All (IsInsideModel part.size) voxels.now }
        ensures tints { IfOk result (λ tints. tints.items
            ≡ map (its_tint (world_tint self.old.models self.old.log.records version) part.at)
            voxels.now) }
        ensures same { self.new ≡ self.old }
    {
        tints_over::<Brand>(
            &mut self.versions,
            alloc,
            version,
            part,
            voxels,
            Blank::new(1),
        )
    }

    /// The cells of a box of a version that ways through its clear cells
    /// join with one of its cells: how many they are, and their VOX file.
    #[tactic(auto, using(crate::proofs::Flooding::box_here))]
    pub fn flood(
        &mut self,
        alloc: Global,
        version: u32,
        part: Boxed,
        from: Cell,
    ) -> Result<RegionFile, Memory>
        requires kept { HoldsVersion self.old.log version }
        requires inside { FitsAt part.at part.size
            (side_of_world self.old.log.coloured (2 ^ self.old.plan.side)) }
        requires small { (part.size.x ≤ 256) × (part.size.y ≤ 256) × (part.size.z ≤ 256) }
        requires from { IsInBox part from }
        ensures file { IfOk result (λ r. FilesRegion part from r.cells r.file.items
            (world_has self.old.models self.old.log.records version)) }
        ensures same { self.new ≡ self.old }
    {
        region_over::<Brand>(
            &mut self.versions,
            alloc,
            version,
            part,
            from,
            Blank::new(1),
        )
    }

    /// The text of the history's journal.
    pub fn journal(&self, alloc: Global) -> Result<Vec<u8>, Memory>
        ensures { IfOk result (λ text. text.items ≡ journal_of self.now.log) }
    {
        let history = self.versions.told(alloc)?;
        journal_text(alloc, &history)
    }
}

// A quarter of a side.
fn quarter(side: Side) -> Side
    requires { 4 ≤ side }
    ensures { 2 ^ result ≡ 2 ^ side / 4 }
{
    let _exponent = side.exponent();
    match Side::new(side.cells() / 4) {
        Some(world) => world,
        None => unreachable!(),
    }
}

// Each call has a ledger of its own.
fn change_over<L: Ledger>(
    versions: &mut Versions,
    session: u16,
    line: u32,
    act: Act,
    blank: Blank,
) -> Answer
    requires rest { AreStoredAtRest versions.old }
    requires room { HasRecordRoom versions.old }
    requires suits { suits_tints versions.old.models.tint act ≡ true }
    requires fits { FitsWorld (2 ^ versions.old.side) versions.old.models.models act }
    requires name { blank.name ≡ L.name }
    requires parts { blank.parts ≡ L.parts }
    requires some { 0 < L.parts }
    ensures rest { AreStoredAtRest versions.new }
    ensures logs { Changes (log_of versions.old)
        (record { session = session; line = line; act = act }) result (log_of versions.new) }
    ensures goes_on { (once : Bool) → ExtendsBy versions.old session
        (record { line = line; command = Edit act once }) result versions.new }
{
    let mut steps: Steps<L> = Steps::start(blank);
    if is_edit(act) {
        versions.edit(session, line, act, &mut steps)
    } else {
        versions.go(session, line, act)
    }
}

fn forget_over<L: Ledger>(
    versions: &mut Versions,
    session: u16,
    line: u32,
    version: u32,
    blank: Blank,
) -> Answer
    requires rest { AreStoredAtRest versions.old }
    requires name { blank.name ≡ L.name }
    requires parts { blank.parts ≡ L.parts }
    requires some { 0 < L.parts }
    ensures rest { AreStoredAtRest versions.new }
    ensures logs { AnswersForget (log_of versions.old)
        (mark_of version (moment_of versions.old) session line) result (log_of versions.new) }
    ensures goes_on { ExtendsBy versions.old session
        (record { line = line; command = Forget version }) result versions.new }
{
    let mut steps: Steps<L> = Steps::start(blank);
    versions.forget_version(session, line, version, &mut steps)
}

fn fallen_over<L: Ledger>(versions: &mut Versions, session: u16, line: u32, keep: u32, blank: Blank)
    requires rest { AreStoredAtRest versions.old }
    requires name { blank.name ≡ L.name }
    requires parts { blank.parts ≡ L.parts }
    requires some { 0 < L.parts }
    ensures rest { AreStoredAtRest versions.new }
    ensures falls { ForgetsFallen keep (world_state versions.old) session line
        (world_state versions.new) }
{
    let mut steps: Steps<L> = Steps::start(blank);
    versions.forget_fallen(session, line, keep, &mut steps);
}

fn is_done(answer: Answer) -> bool
    ensures { IsTrue result ↔ (answer ≡ Done) }
{
    matches!(answer, Answer::Done)
}

fn ask_over<L: Ledger>(
    versions: &mut Versions,
    version: u32,
    question: Question,
    blank: Blank,
) -> Answer
    requires rest { AreStoredAtRest versions.old }
    requires kept { HoldsVersion (log_of versions.old) version }
    requires fits { QuestionFits (side_of versions.old) question }
    requires name { blank.name ≡ L.name }
    requires parts { blank.parts ≡ L.parts }
    requires some { 0 < L.parts }
    ensures rest { AreStoredAtRest versions.new }
    ensures leaves { LeavesAll versions.old versions.new }
    ensures tells { AnswersHeldVersion versions.old version question result }
{
    let mut steps: Steps<L> = Steps::start(blank);
    versions.ask(version, question, &mut steps)
}

#[tactic(auto, using(crate::proofs::Rebuilding::asked_all, crate::proofs::Rebuilding::asked_same, crate::proofs::Rebuilding::shared_tree, crate::proofs::Rebuilding::shared_few, crate::proofs::Opening::file_still))]
fn file_over<L: Ledger>(
    versions: &mut Versions,
    alloc: Global,
    version: u32,
    part: Boxed,
    blank: Blank,
) -> Result<Vec<u8>, Memory>
    requires rest { AreVersionsAtRest versions.old }
    requires kept { HoldsVersion (log_of versions.old) version }
    requires inside { FitsAt part.at part.size (2 ^ versions.old.side) }
    requires small { (part.size.x ≤ 256) × (part.size.y ≤ 256) × (part.size.z ≤ 256) }
    requires name { blank.name ≡ L.name }
    requires parts { blank.parts ≡ L.parts }
    requires some { 0 < L.parts }
    ensures rest { AreVersionsAtRest versions.new }
    ensures leaves { LeavesAll versions.old versions.new }
    ensures file { IfOk result
        (λ file. file.items ≡ file_of_box part (world_of versions.old version)) }
{
    let mut steps: Steps<L> = Steps::start(blank);
    let root = versions.share(version);
    let file = file_root(versions, alloc, version, root.as_ref(), part);
    versions.give_back(root, &mut steps);
    file
}

#[tactic(auto, using(crate::proofs::Rebuilding::share_level, crate::proofs::Holding::holds_root, crate::proofs::Sparing::plain_spared, crate::proofs::Rebuilding::seen_tree, crate::proofs::Rebuilding::stays_seen, crate::proofs::Opening::root_file))]
fn file_root(
    versions: &mut Versions,
    alloc: Global,
    version: u32,
    root: Option<&Share>,
    part: Boxed,
) -> Result<Vec<u8>, Memory>
    requires are { AreVersions versions.old }
    requires kept { HoldsVersion (log_of versions.old) version }
    requires holds { HoldsTree versions.old.store (option_copied root) }
    requires is { option_copied root ≡ stored_root versions.old.store.roots version }
    requires inside { FitsAt part.at part.size (2 ^ versions.old.side) }
    requires small { (part.size.x ≤ 256) × (part.size.y ≤ 256) × (part.size.z ≤ 256) }
    ensures are { AreVersions versions.new }
    ensures stays { StaysSeen versions.old versions.new }
    ensures holds { HoldsTree versions.new.store (option_copied root.entry) }
    ensures file { IfOk result
        (λ file. file.items ≡ file_of_box part (world_of versions.old version)) }
{
    let side = versions.side;
    box_file(alloc, &mut versions.store, root, side, part)
}
