//! What answers the lines of a session's script.
ghost use Rattle.std.specs.Prelude.{◌-◌, length, vec_capacity};
ghost use Rattle.session.specs.Responders.{IsReadyResponder, KeepsResponder, desk_itself, responder_on};
ghost use Rattle.session.specs.Saves.{pinned_versions};
ghost use Rattle.session.specs.SessionWorlds.{of_world, session_view};

use crate::saves::PinnedSave;
use crate::world::{Session, World};
use conformance::{
    ActAnswer, AskedAt, LineResponder, OnceAnswer, SavedAt, SessionCalls, answer_line,
};
use gate_run::Gate;
use history_model::{Act, Question};
use retain::{ForgetRefused, PinRefused, SameAt, SameRefused};
use script::{SaveName, ScriptLine};
use std::sync::Wait;
use transcript::LineAnswer;
use version_log::Pinned;
use vw_cell::Boxed;

/// A borrowed session with its world, the list that its pins go into, and the gate that it passes.
#[derive(Drop)]
pub(crate) struct ScriptResponder<'a, R, G> {
    pub(crate) rt: &'a R,
    pub(crate) gate: &'a G,
    pub(crate) world: &'a World,
    pub(crate) session: &'a mut Session,
    pub(crate) saves: &'a mut Vec<Pinned>,
    /// The session's number.
    pub(crate) number: u16,
    /// How many pins were there before its own.
    pub(crate) first: usize,
    /// How many pins there may be.
    pub(crate) most: usize,
}

impl<'a, R: Wait, G: Gate> SessionCalls for ScriptResponder<'a, R, G> {
    ghost of = { λ d. of_world d.world.now d.number };

    ghost seen = { λ d. session_view d.session.now.view };

    ghost saved = { λ d. pinned_versions d.saves.now.items };

    ghost room = { λ d. d.most - length d.saves.now.items };

    ghost stands = { λ d. IsReadyResponder d.world.now.table d.number d.first d.most
        d.session.now d.saves.now.items (vec_capacity d.saves.now) };

    ghost rests = { λ c d. KeepsResponder c.world.now d.world.now c.session d.session
        c.first d.first c.saves d.saves };

    fn act(&mut self, line: u32, act: Act) -> ActAnswer {
        self.world.act(self.rt, self.session, line, &act, self.gate)
    }

    fn act_once(&mut self, line: u32, act: Act) -> OnceAnswer {
        self.world
            .act_once(self.rt, self.session, line, &act, self.gate)
    }

    fn ask(&mut self, version: Option<u32>, question: Question) -> Result<AskedAt, PinRefused> {
        self.world
            .ask_version(self.rt, self.session, version, question)
    }

    fn save(
        &mut self,
        version: Option<u32>,
        _name: SaveName,
        part: Boxed,
    ) -> Result<SavedAt, PinRefused> {
        match self.world.pin_box(self.rt, self.session, version, part) {
            Ok(PinnedSave { saved, pin }) => {
                self.saves.push_reserved(pin);
                Ok(saved)
            }
            Err(refused) => Err(refused),
        }
    }

    fn forget(&mut self, line: u32, version: u32) -> Result<u32, ForgetRefused> {
        self.world.forget(self.rt, self.session, line, version)
    }

    fn same(&mut self, v: u32, w: u32) -> Result<SameAt, SameRefused> {
        self.world.same(self.rt, self.session, v, w)
    }

    fn head(&mut self) -> u32 {
        self.world.head(self.rt, self.session)
    }

    ghost rests_itself = { λ c. desk_itself c.world.now c.session c.first c.saves };

    ghost rests_on = { λ c d e. responder_on c.world.now d.world.now e.world.now c.session d.session
        e.session c.first d.first e.first c.saves d.saves e.saves };
}

impl<'a, R: Wait, G: Gate> LineResponder for ScriptResponder<'a, R, G> {
    ghost of = { λ d. of_world d.world.now d.number };

    ghost seen = { λ d. session_view d.session.now.view };

    ghost saved = { λ d. pinned_versions d.saves.now.items };

    ghost room = { λ d. d.most - length d.saves.now.items };

    ghost stands = { λ d. IsReadyResponder d.world.now.table d.number d.first d.most
        d.session.now d.saves.now.items (vec_capacity d.saves.now) };

    ghost rests = { λ c d. KeepsResponder c.world.now d.world.now c.session d.session
        c.first d.first c.saves d.saves };

    fn answer(&mut self, l: ScriptLine) -> LineAnswer {
        let gate = self.gate;
        let number = self.number;
        let line = l.line;
        gate.before(number, line);
        let answer = answer_line(self, l);
        gate.after(number, line);
        answer
    }

    ghost rests_itself = { λ c. desk_itself c.world.now c.session c.first c.saves };

    ghost rests_on = { λ c d e. responder_on c.world.now d.world.now e.world.now c.session d.session
        e.session c.first d.first e.first c.saves d.saves e.saves };
}
