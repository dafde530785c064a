//! Boxes of versions are saved: the version is pinned until its file is made.
ghost use Rattle.std.specs.Prelude.{◌≡◌, ◌<◌, ◌≤◌, ℕ, Some, [], IfOk, length};
ghost use Rattle.std.specs.List.{slice_get};
ghost use Rattle.vw_cell.specs.Counts.{number_in};
ghost use Rattle.vw_cell.specs.Places.{FitsAt};
ghost use Rattle.history_model.specs.Stores.{store_has};
ghost use Rattle.table_rule.specs.LogFacts.{seen_has};
ghost use Rattle.node_words.specs.Held.{most_before_call};
ghost use Rattle.session.specs.Lendable.{IsLendable};
ghost use Rattle.version_log.specs.declared.answers.Pinned.{Pinned};
ghost use Rattle.version_log.specs.Pins.{IsPinned};
ghost use Rattle.conformance.specs.sessions.CallSpecs.{SaveSpec};
ghost use Rattle.session.specs.Resting.{ReturnsAtRest, IsAtRest, IsBlankOf, IsLentToRead};
ghost use Rattle.session.specs.Resting.{IsOnlyRead, IsReady};
ghost use Rattle.session.specs.Roots.{stored_file};
ghost use Rattle.session.specs.Saves.{SaveCame, SeatHoldsPins, cells_counted, saved_told};
ghost use Rattle.session.specs.SessionWorlds.{KnowsItself, MayBeListed, of_world, session_view, side_seen};

use crate::contexts::CallStart;
use crate::world::{Session, World};
use conformance::SavedAt;
use history_model::Question;
use retain::PinRefused;
use std::alloc::Global;
use std::marker::Brand;
use std::sync::Wait;
use std::sync::ledger::Ledger;
use transcript::Answer;
use version_log::Pinned;
use vw_cell::{Boxed, Memory};

/// What was told of a save, and the pin of its version. It must be spent.
pub struct PinnedSave {
    pub saved: SavedAt,
    pub pin: Pinned,
}

// How many cells the answer to a count tells.
fn cells_counted(answer: Answer) -> u64
    ensures { result ≡ cells_counted answer }
{
    match answer {
        Answer::Count(cells) => cells,
        _ => 0,
    }
}

impl World {
    // How many cells of a box the store has set at a version that is pinned.
    fn count_pinned(&self, s: &mut Session, p: &Pinned, part: Boxed) -> u64
        requires rest { IsAtRest self.now.table s.old }
        requires pinned { IsPinned s.old.view p.now }
        requires fits { FitsAt part.at part.size (side_seen self.now) }
        ensures read { IsOnlyRead self.now.table s.old s.new }
        ensures cells { result ≡ number_in part (seen_has s.old.view p.now.version) }
        ensures knows { KnowsItself s.new.view }
    {
        let answer = self.answer_cells(s, p.root.as_ref(), Question::Count(part));
        s.tell();
        cells_counted(answer)
    }

    /// Pins this version, or the newest, and counts the set cells of the box.
    pub fn pin_box<R: Wait>(
        &self,
        rt: &R,
        s: &mut Session,
        version: Option<u32>,
        part: Boxed,
    ) -> Result<PinnedSave, PinRefused>
        requires ready { IsReady self.now.table most_before_call s.old }
        requires fits { FitsAt part.at part.size (side_seen self.now) }
        ensures back { ReturnsAtRest self.now.table s.old s.new }
        ensures told { (number : ℕ) → SaveSpec (of_world self.now number) version part
            (session_view s.old.view) (session_view s.new.view) (saved_told result) }
        ensures came { SaveCame self.now.table version result s.old.view s.new.view }
        ensures knows { KnowsItself s.new.view }
    {
        match self.pin(rt, s, version) {
            Ok(pin) => {
                s.tell();
                let cells = self.count_pinned(s, &pin, part);
                let saved = SavedAt {
                    at: pin.moment,
                    cells,
                };
                Ok(PinnedSave { saved, pin })
            }
            Err(refused) => Err(refused),
        }
    }

    /// The file of a box at the version of the save of this number, in which each set cell has its
    /// tint as its colour. It takes no turn and waits for nobody.
    pub fn saved_file(
        &self,
        alloc: Global,
        s: &mut Session,
        saves: &[Pinned],
        k: usize,
        part: Boxed,
    ) -> Result<Vec<u8>, Memory>
        requires ready { IsLendable self.now.table s.old }
        requires holds { SeatHoldsPins self.now.table s.old.view saves.now }
        requires there { k < length saves.now }
        requires part { MayBeListed self.now part }
        ensures read { IsLentToRead self.now.table s.old s.new }
        ensures file { IfOk result (λ file. (p : Pinned) → slice_get saves.now k ≡ Some p
            → file.items ≡ stored_file self.now.tint self.now.table.plan.side part
            (store_has self.now.table.models s.old.view.log.seen p.version)) }
    {
        let root = saves[k].root.as_ref();
        self.file_of_root(alloc, s, root, part)
    }

    /// Gives back what is held for saves, which is all that the session holds.
    pub fn unpin_saves<R: Wait>(&self, rt: &R, s: &mut Session, saves: Vec<Pinned>)
        requires rest { IsAtRest self.now.table s.old }
        requires holds { SeatHoldsPins self.now.table s.old.view saves.items }
        requires few { length saves.items ≤ most_before_call }
        ensures back { ReturnsAtRest self.now.table s.old s.new }
        ensures seen { session_view s.new.view ≡ session_view s.old.view }
        ensures none { s.new.view.held ≡ [] }
    {
        let start = CallStart::new(rt, &());
        unpin_over::<R, Brand>(self, s, start, saves);
    }
}

fn unpin_over<R: Wait, L: Ledger>(
    world: &World,
    s: &mut Session,
    start: CallStart<'_, R, ()>,
    mut saves: Vec<Pinned>,
)
    requires rest { IsAtRest world.now.table s.old }
    requires holds { SeatHoldsPins world.now.table s.old.view saves.items }
    requires few { length saves.items ≤ most_before_call }
    requires blank { IsBlankOf start.blank.name start.blank.parts L.name L.parts }
    ensures back { ReturnsAtRest world.now.table s.old s.new }
    ensures seen { session_view s.new.view ≡ session_view s.old.view }
    ensures none { s.new.view.held ≡ [] }
{
    let mut call = start.open::<L>();
    while let Some(pin) = saves.pop() {
        let Pinned {
            version: _,
            moment: _,
            root,
        } = pin;
        world.give_root(s, &mut call, root);
    }
    saves.destroy_empty();
}
