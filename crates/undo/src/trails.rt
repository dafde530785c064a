ghost use Rattle.std.specs.Prelude.{◌≡◌, IfOk, OnOk};
ghost use Rattle.history_model.specs.Positions.{beginning, edited_at, first_of, next_position, redone, undone};
ghost use Rattle.undo.specs.Trails.{trail_position, HasSlack};

use history_model::Act;
use std::alloc::Global;
use vw_cell::Memory;

/// The versions that undos go back to, the one whose cells stand now, and those that redos go on
/// to; of both lists the next ones last.
#[derive(Drop)]
pub struct Trail {
    pub past: Vec<u32>,
    pub here: u32,
    pub future: Vec<u32>,
}

impl Trail {
    /// The trail of version 0, with room for so many changes.
    pub fn begin(alloc: Global, most: usize) -> Result<Trail, Memory>
        ensures { IfOk result (λ t. trail_position t ≡ beginning) }
    {
        Ok(Trail {
            past: Vec::with_capacity(alloc, most)?,
            here: 0,
            future: Vec::with_capacity(alloc, most)?,
        })
    }

    /// Sees to it that one more change has room.
    pub fn reserve(&mut self) -> Result<(), Memory>
        ensures slack { OnOk result (HasSlack self.new) }
        ensures same { trail_position self.new ≡ trail_position self.old }
    {
        self.past.reserve(1)?;
        self.future.reserve(1)?;
        Ok(())
    }

    /// The act becomes the record of this number.
    pub fn take(&mut self, number: u32, act: Act)
        requires { HasSlack self.old }
        ensures { trail_position self.new ≡ next_position number act (trail_position self.old) }
    {
        match act {
            Act::Undo => self.undo(),
            Act::Redo => self.redo(),
            _ => self.edit(number),
        }
    }

    fn edit(&mut self, number: u32)
        requires { HasSlack self.old }
        ensures { trail_position self.new ≡ edited_at number (trail_position self.old) }
    {
        self.past.push_reserved(self.here);
        self.here = number;
        self.future.clear();
    }

    fn undo(&mut self)
        requires { HasSlack self.old }
        ensures { let old = trail_position self.old in
            trail_position self.new ≡ undone old.past old.now old.future }
    {
        if let Some(to) = self.past.pop() {
            self.future.push_reserved(self.here);
            self.here = to;
        }
    }

    fn redo(&mut self)
        requires { HasSlack self.old }
        ensures { let old = trail_position self.old in
            trail_position self.new ≡ redone old.past old.now old.future }
    {
        if let Some(to) = self.future.pop() {
            self.past.push_reserved(self.here);
            self.here = to;
        }
    }

    /// The version that an undo goes back to.
    pub fn undo_target(&self) -> Option<u32>
        ensures { result ≡ first_of (trail_position self.now).past }
    {
        self.past.last().copied()
    }

    /// The version that a redo goes on to.
    pub fn redo_target(&self) -> Option<u32>
        ensures { result ≡ first_of (trail_position self.now).future }
    {
        self.future.last().copied()
    }
}
