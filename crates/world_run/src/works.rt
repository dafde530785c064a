//! A session that runs its script, as a worker.
use crate::rooms::ScriptRoom;
use gate_run::{Gate, Worker};
use script::Script;
use session::{Session, World, run_script};
use std::sync::Wait;

/// A session of a world, the script that it runs, and room for what comes of it.
pub(crate) struct SessionWork<'a> {
    pub(crate) world: &'a World,
    pub(crate) session: Session,
    pub(crate) script: &'a Script,
    pub(crate) room: ScriptRoom,
}

impl<'a, G: Gate> Worker<G> for SessionWork<'a> {
    ghost use Rattle.world_run.specs.Works.{MayWork, Worked};

    ghost may_run = { MayWork };

    ghost ran = { Worked };

    fn run<R: Wait>(&mut self, rt: &R, gate: &G) {
        let answers = &mut self.room.answers;
        let pins = &mut self.room.pins;
        run_script(
            rt,
            self.world,
            &mut self.session,
            self.script,
            answers,
            pins,
            gate,
        );
    }
}
