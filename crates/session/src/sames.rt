//! Two versions are compared.
ghost use Rattle.std.specs.Prelude.{ℕ};
ghost use Rattle.conformance.specs.sessions.CallSpecs.{SameSpec};
ghost use Rattle.session.specs.Resting.{IsAtRest, KeepsTrees};
ghost use Rattle.session.specs.SessionWorlds.{KnowsItself, of_world, session_view};

use crate::world::{Session, World};
use std::sync::Wait;
use version_log::{SameAt, SameRefused};

impl World {
    /// Whether both versions have the same cells, and the same tints where cells have them.
    /// Nothing is walked.
    pub fn same<R: Wait>(
        &self,
        rt: &R,
        s: &mut Session,
        v: u32,
        w: u32,
    ) -> Result<SameAt, SameRefused>
        requires rest { IsAtRest self.now.table s.old }
        ensures keeps { KeepsTrees self.now.table s.old s.new }
        ensures told { (number : ℕ) → SameSpec (of_world self.now number) v w
            (session_view s.old.view) (session_view s.new.view) result }
        ensures knows { KnowsItself s.new.view }
    {
        let told = version_log::same(rt, &self.table, s, v, w);
        s.tell();
        told
    }
}
