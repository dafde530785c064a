//! The questions of a version, and what a world writes out.
ghost use Rattle.std.specs.Prelude.{◌≡◌, ◌↔◌, ◌≤◌, ◌^◌, false, IfOk, IfErr, IsTrue, length};
ghost use Rattle.vw_cell.specs.Places.{FitsAt};
ghost use Rattle.history_model.specs.Ways.{heading_of};
ghost use Rattle.history_model.specs.declared.questions.Question.TheVariants as questions;
ghost use Rattle.core_laws.specs.contents.Versions.{HoldsVersion};
ghost use Rattle.script.specs.Fitting.{QuestionFits};
ghost use Rattle.transcript.specs.declared.answers.Answer.TheVariants as answers;
ghost use Rattle.voxdag_c.specs.held.Places.{cell_of_c_place, box_of, extent_of, hit_of};
ghost use Rattle.voxdag_c.specs.held.Calls.{file_of_version, held_side};
ghost use Rattle.voxdag_c.specs.held.Calls.{WorldAsks, WorldCompares, WorldSaves, WorldJournals, Answered, CantBeAsked, is_in, cells_in, faces_answered, extent_in, hit_in};

use crate::held::outputs::put_bytes;
use crate::held::places::{CBox, CPlace};
use crate::held::statuses as status;
use crate::held::worlds::CWorld;
use history_model::{Question, Way};
use std::alloc::Global;
use transcript::Answer;
use vw_cell::{Boxed, Cell, Memory};

impl CWorld {
    /// Whether a cell of a version is set.
    pub fn get(&mut self, version: u32, place: CPlace, set: &mut bool) -> u32
        ensures asks { WorldAsks self.old version (questions.Get (cell_of_c_place place))
            (λ a. a ≡ answers.Is set.new) (set.new ≡ set.old) result }
        ensures same { self.new ≡ self.old }
    {
        match place.cell_in(self.open.side()) {
            Some(c) => match self.ask(version, Question::Get(c)) {
                Ok(answer) => {
                    *set = is_in(answer);
                    status::DONE
                }
                Err(status) => status,
            },
            None => status::OUTSIDE,
        }
    }

    /// How many cells of a box of a version are set.
    pub fn count(&mut self, version: u32, part: CBox, cells: &mut u64) -> u32
        ensures asks { WorldAsks self.old version (questions.Count (box_of part))
            (λ a. a ≡ answers.Count cells.new) (cells.new ≡ cells.old) result }
        ensures same { self.new ≡ self.old }
    {
        match part.box_in(self.open.side()) {
            Some(b) => match self.ask(version, Question::Count(b)) {
                Ok(answer) => {
                    *cells = cells_in(answer);
                    status::DONE
                }
                Err(status) => status,
            },
            None => status::OUTSIDE,
        }
    }

    /// How many pairs there are of a set cell of the box and a neighbour that isn't set.
    pub fn faces(&mut self, version: u32, part: CBox, faces: &mut u64) -> u32
        ensures asks { WorldAsks self.old version (questions.Faces (box_of part))
            (λ a. a ≡ answers.Faces faces.new) (faces.new ≡ faces.old) result }
        ensures same { self.new ≡ self.old }
    {
        match part.box_in(self.open.side()) {
            Some(b) => match self.ask(version, Question::Faces(b)) {
                Ok(answer) => {
                    *faces = faces_in(answer);
                    status::DONE
                }
                Err(status) => status,
            },
            None => status::OUTSIDE,
        }
    }

    /// The least box that has all set cells of a version, where some are set.
    pub fn bounds(&mut self, version: u32, some: &mut bool, least: &mut CBox) -> u32
        ensures asks { WorldAsks self.old version questions.Bounds
            (λ a. (a ≡ answers.Extent (extent_of some.new least.new))
            × (some.new ≡ false → least.new ≡ least.old))
            ((some.new ≡ some.old) × (least.new ≡ least.old)) result }
        ensures same { self.new ≡ self.old }
    {
        match self.ask(version, Question::Bounds) {
            Ok(answer) => {
                put_extent(extent_in(answer), some, least);
                status::DONE
            }
            Err(status) => status,
        }
    }

    /// The first set cell of a version on a ray from the centre of a cell, where one is hit. Its
    /// steps are each from -1,024 to 1,024, and not all 0.
    pub fn ray(
        &mut self,
        version: u32,
        from: CPlace,
        dx: i16,
        dy: i16,
        dz: i16,
        some: &mut bool,
        hit: &mut CPlace,
    ) -> u32
        ensures asks { WorldAsks self.old version
            (questions.Ray (cell_of_c_place from) (heading_of dx dy dz))
            (λ a. (a ≡ answers.Hit (hit_of some.new hit.new))
            × (some.new ≡ false → hit.new ≡ hit.old))
            ((some.new ≡ some.old) × (hit.new ≡ hit.old)) result }
        ensures same { self.new ≡ self.old }
    {
        let from = match from.cell_in(self.open.side()) {
            Some(from) => from,
            None => return status::OUTSIDE,
        };
        let way = match Way::new(dx, dy, dz) {
            Some(way) => way,
            None => return status::BAD_WAY,
        };
        match self.ask(version, Question::Ray(from, way)) {
            Ok(answer) => {
                put_hit(hit_in(answer), some, hit);
                status::DONE
            }
            Err(status) => status,
        }
    }

    /// Whether two versions have the same tints: the same cells, where cells have none.
    pub fn same(&self, a: u32, b: u32, same: &mut bool) -> u32
        ensures { WorldCompares self.now a b same.old same.new result }
    {
        if !self.open.holds_version(a) {
            return self.why_gone(a);
        }
        if !self.open.holds_version(b) {
            return self.why_gone(b);
        }
        *same = self.open.same(a, b);
        status::DONE
    }

    /// Writes the VOX file of a box of a version, which has 256 cells a side at most, where there
    /// is room for it, and says how many bytes it has.
    pub fn save(
        &mut self,
        alloc: Global,
        version: u32,
        part: CBox,
        out: &mut [u8],
        needed: &mut usize,
    ) -> u32
        ensures saves { WorldSaves self.old version (box_of part) out.old out.new needed.old
            needed.new result }
        ensures room { length out.new ≡ length out.old }
        ensures same { self.new ≡ self.old }
    {
        let b = match part.box_in(self.open.side()) {
            Some(b) => b,
            None => return status::OUTSIDE,
        };
        if !is_small(b) {
            return status::OUTSIDE;
        }
        if !self.open.holds_version(version) {
            return self.why_gone(version);
        }
        match self.file(alloc, version, b) {
            Ok(file) => put_bytes(out, needed, file.as_slice()),
            Err(_) => status::NO_MEMORY,
        }
    }

    // The VOX file of a box of a version.
    fn file(&mut self, alloc: Global, version: u32, part: Boxed) -> Result<Vec<u8>, Memory>
        requires kept { HoldsVersion self.old.open.log version }
        requires inside { FitsAt part.at part.size (held_side self.old) }
        requires small { (part.size.x ≤ 256) × (part.size.y ≤ 256) × (part.size.z ≤ 256) }
        ensures file { IfOk result
            (λ file. file.items ≡ file_of_version self.old version part) }
        ensures same { self.new ≡ self.old }
    {
        if self.open.tint() {
            return self.open.tint_file(alloc, version, part);
        }
        self.open.file(alloc, version, part)
    }

    /// Writes the text of the journal, where there is room for it, and says how many bytes it has.
    pub fn journal(&self, alloc: Global, out: &mut [u8], needed: &mut usize) -> u32
        ensures writes { WorldJournals self.now out.old out.new needed.old needed.new result }
        ensures room { length out.new ≡ length out.old }
    {
        match self.open.journal(alloc) {
            Ok(text) => put_bytes(out, needed, text.as_slice()),
            Err(_) => status::NO_MEMORY,
        }
    }

    // The answer to the question, or why the version can't be read.
    pub(crate) fn ask(&mut self, version: u32, question: Question) -> Result<Answer, u32>
        requires { QuestionFits (held_side self.old) question }
        ensures told { IfOk result (λ a. Answered self.old version question a) }
        ensures gone { IfErr result (λ status. CantBeAsked self.old version question status) }
        ensures same { self.new ≡ self.old }
    {
        if !self.open.holds_version(version) {
            return Err(self.why_gone(version));
        }
        Ok(self.open.ask(version, question))
    }
}

// Whether a file can have a box of this size.
pub(crate) fn is_small(b: Boxed) -> bool
    ensures { IsTrue result ↔ (b.size.x ≤ 256) × (b.size.y ≤ 256) × (b.size.z ≤ 256) }
{
    b.size.x <= 256 && b.size.y <= 256 && b.size.z <= 256
}

pub(crate) fn put_extent(found: Option<Boxed>, some: &mut bool, least: &mut CBox)
    ensures found { extent_of some.new least.new ≡ found }
    ensures none { some.new ≡ false → least.new ≡ least.old }
{
    match found {
        Some(b) => {
            *some = true;
            *least = CBox::of(b);
        }
        None => *some = false,
    }
}

pub(crate) fn put_hit(found: Option<Cell>, some: &mut bool, hit: &mut CPlace)
    ensures found { hit_of some.new hit.new ≡ found }
    ensures none { some.new ≡ false → hit.new ≡ hit.old }
{
    match found {
        Some(c) => {
            *some = true;
            *hit = CPlace::of(c);
        }
        None => *some = false,
    }
}

pub(crate) fn is_in(answer: Answer) -> bool
    ensures { result ≡ is_in answer }
{
    match answer {
        Answer::Is(set) => set,
        _ => false,
    }
}

pub(crate) fn cells_in(answer: Answer) -> u64
    ensures { result ≡ cells_in answer }
{
    match answer {
        Answer::Count(cells) => cells,
        _ => 0,
    }
}

pub(crate) fn faces_in(answer: Answer) -> u64
    ensures { result ≡ faces_answered answer }
{
    match answer {
        Answer::Faces(faces) => faces,
        _ => 0,
    }
}

pub(crate) fn extent_in(answer: Answer) -> Option<Boxed>
    ensures { result ≡ extent_in answer }
{
    match answer {
        Answer::Extent(least) => least,
        _ => None,
    }
}

pub(crate) fn hit_in(answer: Answer) -> Option<Cell>
    ensures { result ≡ hit_in answer }
{
    match answer {
        Answer::Hit(hit) => hit,
        _ => None,
    }
}
