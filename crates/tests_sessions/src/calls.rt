//! Calls of a world by a session, and what the session is told.
ghost use Rattle.std.specs.Prelude.{◌≡◌};
ghost use Rattle.vw_cell.specs.Places.{FitsAt};
ghost use Rattle.version_log.specs.Pins.{IsPinned};
ghost use Rattle.session.specs.Resting.{IsAtRest};
ghost use Rattle.session.specs.SessionWorlds.{side_seen};
ghost use Rattle.tests_sessions.specs.Free.{IsFree};

use crate::worlds::{cell_within, within};
use conformance::{ActAnswer, AskedAt, OnceAnswer};
use gate_run::Gate;
use history_model::{Act, Question};
use session::{Session, World};
use std::sync::Wait;
use transcript::Answer;
use version_log::{ForgetRefused, PinRefused, Pinned, SameAt, SameRefused};
use vw_cell::{Boxed, Cell};

/// A call, and with what.
#[derive(Clone, Copy)]
pub enum Call {
    Act(Act),
    /// One attempt to fill a box.
    FillOnce(Boxed),
    /// Pins a version, or the newest, counts the cells of a box of it so many times, and gives it
    /// back.
    Count(Option<u32>, Boxed, u32),
    /// Asks the colour of a cell of a version, or of the newest.
    Colour(Option<u32>, Cell),
    Forget(u32),
    Same(u32, u32),
    Head,
}

/// What the session is told.
#[derive(Clone, Copy, Debug, PartialEq, Eq)]
pub enum Told {
    /// The act isn't one of the world, or the box or the cell leaves it.
    Outside,
    Act(ActAnswer),
    Once(OnceAnswer),
    /// The version was pinned at this length, and these are the least and the greatest count.
    Count(u32, u64, u64),
    NotPinned(PinRefused),
    /// The version was found at this length, and this is the colour.
    Colour(u32, u8),
    Forget(Result<u32, ForgetRefused>),
    Same(Result<SameAt, SameRefused>),
    Head(u32),
}

// How many cells the answer to a count tells.
fn cells_of(answer: Answer) -> u64 {
    match answer {
        Answer::Count(cells) => cells,
        _ => 0,
    }
}

fn carries_out<R: Wait, G: Gate>(
    rt: &R,
    world: &World,
    s: &mut Session,
    line: u32,
    act: &Act,
    gate: &G,
) -> Told
    requires { IsFree world.now s.old }
    ensures { IsFree world.now s.new }
{
    if world.fits(act) {
        Told::Act(world.act(rt, s, line, act, gate))
    } else {
        Told::Outside
    }
}

fn fills_once<R: Wait, G: Gate>(
    rt: &R,
    world: &World,
    s: &mut Session,
    line: u32,
    part: Boxed,
    gate: &G,
) -> Told
    requires { IsFree world.now s.old }
    ensures { IsFree world.now s.new }
{
    let act = Act::Fill(part);
    if world.fits(&act) {
        Told::Once(world.act_once(rt, s, line, &act, gate))
    } else {
        Told::Outside
    }
}

// The least and the greatest count. Before each it passes the gate, as between a pin and a commit,
// by the number of a line of its own.
fn counts_pinned<G: Gate>(
    world: &World,
    s: &mut Session,
    p: &Pinned,
    line: u32,
    part: Boxed,
    times: u32,
    gate: &G,
) -> (u64, u64)
    requires rest { IsAtRest world.now.table s.old }
    requires pinned { IsPinned s.old.view p.now }
    requires fits { FitsAt part.at part.size (side_seen world.now) }
    ensures rest { IsAtRest world.now.table s.new }
    ensures pinned { IsPinned s.new.view p.now }
    ensures held { s.new.view.held ≡ s.old.view.held }
{
    let number = s.number();
    let mut least = u64::MAX;
    let mut greatest = 0;
    for k in 0..times {
        gate.between(number, line.saturating_add(k));
        let cells = cells_of(world.ask(s, p, &Question::Count(part)));
        least = least.min(cells);
        greatest = greatest.max(cells);
    }
    (least, greatest)
}

fn counts<R: Wait, G: Gate>(
    rt: &R,
    world: &World,
    s: &mut Session,
    line: u32,
    version: Option<u32>,
    part: Boxed,
    times: u32,
    gate: &G,
) -> Told
    requires free { IsFree world.now s.old }
    requires fits { FitsAt part.at part.size (side_seen world.now) }
    ensures free { IsFree world.now s.new }
{
    match world.pin(rt, s, version) {
        Ok(pinned) => {
            let (least, greatest) = counts_pinned(world, s, &pinned, line, part, times, gate);
            let moment = pinned.moment;
            world.unpin(rt, s, pinned);
            Told::Count(moment, least, greatest)
        }
        Err(refused) => Told::NotPinned(refused),
    }
}

// The colour that a question was answered with.
fn colour_told(asked: AskedAt) -> Told {
    match asked.answer {
        Answer::Colour(colour) => Told::Colour(asked.at, colour),
        _ => Told::Outside,
    }
}

fn asks_colour<R: Wait>(
    rt: &R,
    world: &World,
    s: &mut Session,
    version: Option<u32>,
    cell: Cell,
) -> Told
    requires { IsFree world.now s.old }
    ensures { IsFree world.now s.new }
{
    match cell_within(world, cell) {
        Some(cell) => {
            let question = Question::Colour(cell);
            match world.ask_version(rt, s, version, question) {
                Ok(asked) => colour_told(asked),
                Err(refused) => Told::NotPinned(refused),
            }
        }
        None => Told::Outside,
    }
}

fn forgets<R: Wait>(rt: &R, world: &World, s: &mut Session, line: u32, version: u32) -> Told
    requires { IsFree world.now s.old }
    ensures { IsFree world.now s.new }
{
    Told::Forget(world.forget(rt, s, line, version))
}

/// What the session is told by this call, as that of this line.
pub fn tell<R: Wait, G: Gate>(
    rt: &R,
    world: &World,
    s: &mut Session,
    line: u32,
    call: Call,
    gate: &G,
) -> Told
    requires { IsFree world.now s.old }
    ensures { IsFree world.now s.new }
{
    match call {
        Call::Act(act) => carries_out(rt, world, s, line, &act, gate),
        Call::FillOnce(part) => fills_once(rt, world, s, line, part, gate),
        Call::Count(version, part, times) => match within(world, part) {
            Some(part) => counts(rt, world, s, line, version, part, times, gate),
            None => Told::Outside,
        },
        Call::Colour(version, cell) => asks_colour(rt, world, s, version, cell),
        Call::Forget(version) => forgets(rt, world, s, line, version),
        Call::Same(v, w) => Told::Same(world.same(rt, s, v, w)),
        Call::Head => Told::Head(world.head(rt, s)),
    }
}

/// A call, and what the session is to be told.
pub type Row = (Call, Told);

/// A call that was told something else than stands beside it.
#[derive(Clone, Copy, Debug, PartialEq, Eq)]
pub struct Wrong {
    pub session: u16,
    pub line: u32,
    pub wanted: Told,
    pub came: Told,
}

/// How many calls were told what stands beside them, and the first one that was not.
#[derive(Clone, Copy, Debug, PartialEq, Eq)]
pub struct Heard {
    pub right: u32,
    pub wrong: Option<Wrong>,
}

impl Heard {
    /// So many calls, all of which were told what stands beside them.
    pub fn all(right: u32) -> Heard {
        Heard { right, wrong: None }
    }

    /// These calls and more.
    pub fn and(self, more: Heard) -> Heard {
        let right = self.right.saturating_add(more.right);
        let wrong = match self.wrong {
            Some(wrong) => Some(wrong),
            None => more.wrong,
        };
        Heard { right, wrong }
    }
}

// What one call was told.
fn heard_once(session: u16, line: u32, wanted: Told, came: Told) -> Heard {
    if came == wanted {
        return Heard::all(1);
    }
    let wrong = Wrong {
        session,
        line,
        wanted,
        came,
    };
    Heard {
        right: 0,
        wrong: Some(wrong),
    }
}

/// What the calls are told, line by line from line 1 on.
pub fn answered<R: Wait, G: Gate>(
    rt: &R,
    world: &World,
    s: &mut Session,
    rows: &[Row],
    gate: &G,
) -> Heard
    requires { IsFree world.now s.old }
    ensures { IsFree world.now s.new }
{
    let number = s.number();
    let mut all = Heard::all(0);
    let mut line = 0u32;
    for row in rows {
        line = line.saturating_add(1);
        gate.before(number, line);
        let came = tell(rt, world, s, line, row.0, gate);
        all = all.and(heard_once(number, line, row.1, came));
        gate.after(number, line);
    }
    all
}
