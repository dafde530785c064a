ghost use Rattle.std.specs.Prelude.{◌≡◌, ◌↔◌, ◌^◌, ◌/◌, ◌≤◌, [], None, IfOk, IfErr, IfSome, IsSome, IsTrue, true, false};
ghost use Rattle.node_words.specs.Plans.{usual_buckets};
ghost use Rattle.vox_read.specs.Contents.{AreModels};
ghost use Rattle.history_model.specs.Logs.{FitsWorld, side_of_world, suits_tints};
ghost use Rattle.history_model.specs.Spelling.{tinted_act};
ghost use Rattle.history_model.specs.declared.acts.Act.TheVariants.{Fill, Erase, Carve, Copy, Stamp, Undo, Redo};
ghost use Rattle.history_model.specs.declared.acts.Act.TheVariants as acts;
ghost use Rattle.transcript.specs.declared.answers.Answer.TheVariants as answers;
ghost use Rattle.core_laws.specs.contents.Versions.{HoldsVersion};
ghost use Rattle.store_run.specs.Kept.{IsLargeStore};
ghost use Rattle.voxdag_c.specs.held.Places.{cell_of_c_place, box_of, ball_of};
ghost use Rattle.voxdag_c.specs.held.Calls.{act_here, act_of_kind, held_side, store_side};
ghost use Rattle.voxdag_c.specs.held.Calls.{WorldChanges, WorldForgets, IsGone, PutsNewest, PutsSize, IsBegun, Refuses, RefusesModels, AreSideAndCap, AreSlots, AsksForModels, CountsLine, call_status, status_of_file};
ghost use Rattle.voxdag_c.specs.held.GoingOn.{IsCapAsked, IsPlanAsked};

use crate::held::places::{CBox, CPlace};
use crate::held::statuses as status;
use history_model::{Act, TintAct};
use node_words::Plan;
use std::alloc::Global;
use store_run::OpenWorld;
use transcript::Answer;
use vox_read::{Models, VoxFault, read_models};
use vw_cell::{Memory, Side};

/// The most bytes of a file whose models are read.
pub(crate) const MOST_BYTES: usize = 1 << 28;

/// A world that C holds, how many of its last versions are kept, 0 for all, and the number of the
/// change that comes next. All that C does counts as done by session 0, each accepted change, and
/// each version forgotten by hand, as its next line.
#[derive(Drop)]
pub struct CWorld {
    pub open: OpenWorld,
    pub keep: u32,
    pub line: u32,
}

impl CWorld {
    /// An empty world with these models, whose cells have tints, or have none.
    pub fn begin(
        alloc: Global,
        plan: &Plan,
        tint: bool,
        keep: u32,
        models: Models,
    ) -> Result<CWorld, Memory>
        requires models { AreModels models }
        requires large { IsLargeStore tint plan.now.side }
        ensures empty { IfOk result (λ w. w.open ≡ record {
          plan = plan.now;
          models = models;
          log = record { side = plan.now.side; coloured = tint; records = []; marks = [] };
          noted = record { made = []; met = [] };
        }) }
        ensures keep { IfOk result (λ w. w.keep ≡ keep) }
        ensures first { IfOk result (λ w. w.line ≡ 1) }
    {
        let open = OpenWorld::begin(alloc, plan, models, tint)?;
        Ok(CWorld {
            open,
            keep,
            line: 1,
        })
    }

    /// An empty world of this side, with tints or without, and this number of slots of a bucket, 0
    /// for the usual one, that keeps so many of its last versions, 0 for all, with the models of a
    /// VOX file, where no bytes stand for no models. The box is made last.
    #[tactic(auto, using(crate::proofs::OfHeld::Opening::models_refused))]
    pub fn from_bytes(
        alloc: Global,
        side: u32,
        cap: u16,
        keep: u32,
        tint: bool,
        file: &[u8],
    ) -> Result<Box<CWorld, Global>, u32>
        ensures begun { IfOk result (λ b. IsBegun tint side cap keep file.now b.value) }
        ensures refused { IfErr result (λ status. Refuses tint side cap file.now status) }
    {
        let plan = match plan_of(side, cap, tint) {
            Some(plan) => plan,
            None => return Err(status::BAD_PLAN),
        };
        let models = read_file(alloc, file)?;
        match CWorld::begin(alloc, &plan, tint, keep, models) {
            Ok(world) => boxed(alloc, world),
            Err(_) => Err(status::NO_MEMORY),
        }
    }

    /// Sets the cells of a box.
    pub fn fill(&mut self, part: CBox) -> u32
        ensures { WorldChanges self.old (act_here self.old (Fill (box_of part)))
            result self.new }
    {
        match part.box_in(self.open.side()) {
            Some(b) => self.change_here(Act::Fill(b)),
            None => status::OUTSIDE,
        }
    }

    /// Clears the cells of a box.
    pub fn erase(&mut self, part: CBox) -> u32
        ensures { WorldChanges self.old (act_here self.old (Erase (box_of part)))
            result self.new }
    {
        match part.box_in(self.open.side()) {
            Some(b) => self.change_here(Act::Erase(b)),
            None => status::OUTSIDE,
        }
    }

    /// Sets the cells of a ball.
    pub fn ball(&mut self, centre: CPlace, radius: u32) -> u32
        ensures { WorldChanges self.old (act_here self.old (acts.Ball (ball_of centre radius)))
            result self.new }
    {
        match centre.ball_in(radius, self.open.side()) {
            Some(ball) => self.change_here(Act::Ball(ball)),
            None => status::OUTSIDE,
        }
    }

    /// Clears the cells of a ball.
    pub fn carve(&mut self, centre: CPlace, radius: u32) -> u32
        ensures { WorldChanges self.old (act_here self.old (Carve (ball_of centre radius)))
            result self.new }
    {
        match centre.ball_in(radius, self.open.side()) {
            Some(ball) => self.change_here(Act::Carve(ball)),
            None => status::OUTSIDE,
        }
    }

    /// Puts what the box has where its least corner goes to the place.
    pub fn copy(&mut self, part: CBox, to: CPlace) -> u32
        ensures { WorldChanges self.old
            (act_here self.old (Copy (box_of part) (cell_of_c_place to))) result self.new }
    {
        let side = self.open.side();
        let there = CBox {
            at: to,
            size: part.size,
        };
        match part.box_in(side) {
            Some(from) => match there.box_in(side) {
                Some(to) => self.change_here(Act::Copy(from, to.at)),
                None => status::OUTSIDE,
            },
            None => status::OUTSIDE,
        }
    }

    /// Sets the cells of a model, whose number counts from 0, with its least corner at the place.
    pub fn stamp(&mut self, number: u16, at: CPlace) -> u32
        ensures { WorldChanges self.old (act_here self.old (Stamp number (cell_of_c_place at)))
            result self.new }
    {
        let size = match self.open.model_size(usize::from(number)) {
            Some(size) => size,
            None => return status::NO_MODEL,
        };
        let there = CBox {
            at,
            size: CPlace::of(size),
        };
        match there.box_in(self.open.side()) {
            Some(b) => self.change_here(Act::Stamp(number, b.at)),
            None => status::OUTSIDE,
        }
    }

    /// Goes back to the version before the last change.
    pub fn undo(&mut self) -> u32
        ensures { WorldChanges self.old Undo result self.new }
    {
        self.change(Act::Undo)
    }

    /// Takes an undo back.
    pub fn redo(&mut self) -> u32
        ensures { WorldChanges self.old Redo result self.new }
    {
        self.change(Act::Redo)
    }

    /// Forgets a version.
    pub fn forget(&mut self, version: u32) -> u32
        ensures { WorldForgets self.old version result self.new }
    {
        let answer = self.open.forget(0, self.line, version);
        self.line = next_line(self.line, answer);
        status_of(answer)
    }

    /// The number of the newest version.
    pub fn put_newest(&self, version: &mut u32) -> u32
        ensures { PutsNewest self.now result version.new }
    {
        *version = self.open.moment();
        status::DONE
    }

    /// The size of the model of this number, counted from 0.
    pub fn put_model_size(&self, number: u16, size: &mut CPlace) -> u32
        ensures { PutsSize self.now number size.old size.new result }
    {
        match self.open.model_size(usize::from(number)) {
            Some(cells) => {
                *size = CPlace::of(cells);
                status::DONE
            }
            None => status::NO_MODEL,
        }
    }

    // Makes a plain act that lies in the world, with tint 1 where cells have tints.
    fn change_here(&mut self, act: Act) -> u32
        requires fits { FitsWorld (held_side self.old) self.old.open.models act }
        requires plain { suits_tints false act ≡ true }
        ensures { WorldChanges self.old (act_here self.old act) result self.new }
    {
        let act = act_of_kind(self.open.tint(), act);
        self.change(act)
    }

    // Makes the change where it lies in the world, and keeps the last versions that it is to keep.
    pub(crate) fn change(&mut self, act: Act) -> u32
        requires fits { FitsWorld (store_side self.old) self.old.open.models act }
        requires suits { suits_tints self.old.open.log.coloured act ≡ true }
        ensures { WorldChanges self.old act result self.new }
    {
        match self.open.change_keeping(0, self.line, act, self.keep) {
            Ok(answer) => {
                self.line = next_line(self.line, answer);
                status_of(answer)
            }
            Err(_) => status::NO_MEMORY,
        }
    }

    // Why a version can't be read.
    pub(crate) fn why_gone(&self, version: u32) -> u32
        requires { ¬ HoldsVersion self.now.open.log version }
        ensures { IsGone self.now.open.log version result }
    {
        if version > self.open.moment() {
            status::NO_VERSION
        } else {
            status::FORGOTTEN
        }
    }
}

// A plain act as a world takes it whose cells have tints, or have none.
pub(crate) fn act_of_kind(tint: bool, act: Act) -> Act
    ensures { result ≡ act_of_kind tint act }
{
    if tint { tinted(act) } else { act }
}

// The act with tint 1.
fn tinted(act: Act) -> Act
    ensures { result ≡ tinted_act 1 act }
{
    match act {
        Act::Fill(b) => Act::Tint(TintAct::Fill(b, 1)),
        Act::Erase(b) => Act::Tint(TintAct::Erase(b)),
        Act::Ball(b) => Act::Tint(TintAct::Ball(b, 1)),
        Act::Carve(b) => Act::Tint(TintAct::Carve(b)),
        Act::Copy(b, to) => Act::Tint(TintAct::Copy(b, to)),
        Act::Stamp(number, at) => Act::Tint(TintAct::Stamp(number, at)),
        other => other,
    }
}

// The plan of the store of a world of this side, where there is one.
pub(crate) fn plan_of(side: u32, cap: u16, tint: bool) -> Option<Plan>
    ensures exactly { IsSome result ↔ AreSideAndCap tint side cap }
    ensures side { IfSome result (λ p. side_of_world tint (2 ^ p.side) ≡ side) }
    ensures large { IfSome result (λ p. IsLargeStore tint p.side) }
    ensures buckets { IfSome result (λ p. p.buckets ≡ usual_buckets) }
    ensures cap { IfSome result (λ p. AreSlots cap p.cap) }
{
    let world = match Side::new(side) {
        Some(world) => world,
        None => return None,
    };
    match store_of(world, tint) {
        Some(store) => plan_with(store, cap),
        None => None,
    }
}

// The side of the store that keeps a world of this side: four times that where cells have tints.
fn store_of(world: Side, tint: bool) -> Option<Side>
    ensures exactly { IsSome result ↔ (tint ≡ true → 2 ^ world ≤ 1024) }
    ensures side { IfSome result (λ s. side_of_world tint (2 ^ s) ≡ 2 ^ world) }
    ensures large { IfSome result (λ s. IsLargeStore tint s) }
{
    if tint {
        return fourfold(world);
    }
    Some(world)
}

// Four times the side, where that is one.
fn fourfold(world: Side) -> Option<Side>
    ensures exactly { IsSome result ↔ (2 ^ world ≤ 1024) }
    ensures four { IfSome result (λ s. (2 ^ s / 4 ≡ 2 ^ world) × (4 ≤ s)) }
{
    let _world = world.exponent();
    match Side::new(world.cells() * 4) {
        Some(store) => {
            let _exponent = store.exponent();
            Some(store)
        }
        None => None,
    }
}

// The plan of a store of this side, where buckets can have so many slots.
pub(crate) fn plan_with(side: Side, cap: u16) -> Option<Plan>
    ensures exactly { IsSome result ↔ IsCapAsked cap }
    ensures plan { IfSome result (IsPlanAsked side cap) }
{
    if cap == 0 {
        Some(Plan::usual(side))
    } else {
        Plan::with_cap(side, cap)
    }
}

// The models of the file, none where it has no bytes.
pub(crate) fn read_file(alloc: Global, file: &[u8]) -> Result<Models, u32>
    ensures models { IfOk result AreModels }
    ensures are { IfOk result (λ models. AsksForModels file.now models) }
    ensures refused { IfErr result (λ status. RefusesModels file.now status) }
{
    if file.is_empty() {
        return Ok(Models {
            list: Vec::new(alloc),
        });
    }
    if file.len() > MOST_BYTES {
        return Err(status::BAD_FILE);
    }
    match read_models(alloc, file) {
        Ok(models) => Ok(models),
        Err(fault) => Err(status_of_file(fault)),
    }
}

pub(crate) fn status_of_file(fault: VoxFault) -> u32
    ensures { result ≡ status_of_file fault }
{
    match fault {
        VoxFault::Memory => status::NO_MEMORY,
        _ => status::BAD_FILE,
    }
}

pub(crate) fn boxed(alloc: Global, world: CWorld) -> Result<Box<CWorld, Global>, u32>
    ensures value { IfOk result (λ b. b.value ≡ world) }
    ensures refused { IfErr result (λ status. status ≡ 2) }
{
    match Box::new(alloc, world) {
        Ok(world) => Ok(world),
        Err(_) => Err(status::NO_MEMORY),
    }
}

// The number of the change that comes next.
fn next_line(line: u32, answer: Answer) -> u32
    ensures { CountsLine answer line result }
{
    match answer {
        Answer::Done | Answer::Forgot(_) => line.saturating_add(1),
        _ => line,
    }
}

fn status_of(answer: Answer) -> u32
    ensures { result ≡ call_status answer }
{
    match answer {
        Answer::NoVersion(_) => status::NO_VERSION,
        Answer::Forgotten(_) => status::FORGOTTEN,
        Answer::NothingToUndo => status::NOTHING_TO_UNDO,
        Answer::NothingToRedo => status::NOTHING_TO_REDO,
        Answer::LogFull => status::HISTORY_FULL,
        Answer::Full { .. } => status::STORE_FULL,
        Answer::IsHead => status::IS_NEWEST,
        _ => status::DONE,
    }
}
