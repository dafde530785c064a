//! A file of versions that C holds, and that is only asked.
ghost use Rattle.std.specs.Prelude.{◌≡◌, ◌-◌, ◌^◌, false, IfOk, IfErr, MatchOption};
ghost use Rattle.history_model.specs.Ways.{heading_of};
ghost use Rattle.history_model.specs.declared.questions.Question.TheVariants as questions;
ghost use Rattle.script.specs.Fitting.{QuestionFits};
ghost use Rattle.transcript.specs.declared.answers.Answer.TheVariants as answers;
ghost use Rattle.dag_file.specs.Trees.{HasVersion};
ghost use Rattle.dag_answers.specs.Looks.{AnswersFileVersion};
ghost use Rattle.voxdag_c.specs.held.Places.{cell_of_c_place, box_of, extent_of, hit_of};
ghost use Rattle.voxdag_c.specs.held.Files.{TellsSide, TellsNewest, FileAsks, IsFileOf, RefusesDag, PutsDagFault};

use crate::held::asks::{cells_in, extent_in, faces_in, hit_in, is_in, put_extent, put_hit};
use crate::held::places::{CBox, CPlace};
use crate::held::statuses as status;
use dag_answers::ask_version;
use dag_file::{DagFault, DagFile};
use history_model::{Question, Way};
use std::alloc::Global;
use transcript::Answer;

/// A file of versions that C holds.
#[derive(Drop)]
pub struct CFile {
    pub file: DagFile,
}

impl CFile {
    /// The file of these bytes, of which a copy is kept; or the place of its first fault is told.
    pub(crate) fn from_bytes(
        alloc: Global,
        bytes: &[u8],
        at: &mut u64,
    ) -> Result<Box<CFile, Global>, u32>
        ensures opened { IfOk result (λ b. IsFileOf bytes.now b.value) }
        ensures same { IfOk result (λ _. at.new ≡ at.old) }
        ensures refused { IfErr result (RefusesDag bytes.now at.old at.new) }
    {
        let copy = match Vec::from_slice(alloc, bytes) {
            Ok(copy) => copy,
            Err(_) => return Err(status::NO_MEMORY),
        };
        match DagFile::read(alloc, copy) {
            Ok(file) => boxed_file(alloc, CFile { file }),
            Err(fault) => Err(put_fault(fault, at)),
        }
    }

    /// The side of the file's worlds.
    pub(crate) fn put_side(&self, side: &mut u32) -> u32
        ensures { TellsSide self.now side.new result }
    {
        *side = self.file.view().side().cells();
        status::DONE
    }

    /// The greatest number of a version, where the file has one.
    pub(crate) fn put_newest(&self, version: &mut u32) -> u32
        ensures { TellsNewest self.now version.old version.new result }
    {
        match self.file.view().newest() {
            Some(newest) => {
                *version = newest;
                status::DONE
            }
            None => status::NO_VERSION,
        }
    }

    /// Whether a cell of a version is set.
    pub(crate) fn get(&self, version: u32, place: CPlace, set: &mut bool) -> u32
        ensures { FileAsks self.now version (questions.Get (cell_of_c_place place))
            (λ a. a ≡ answers.Is set.new) (set.new ≡ set.old) result }
    {
        match place.cell_in(self.file.view().side()) {
            Some(c) => match self.ask(version, Question::Get(c)) {
                Some(answer) => {
                    *set = is_in(answer);
                    status::DONE
                }
                None => status::NO_VERSION,
            },
            None => status::OUTSIDE,
        }
    }

    /// How many cells of a box of a version are set.
    pub(crate) fn count(&self, version: u32, part: CBox, cells: &mut u64) -> u32
        ensures { FileAsks self.now version (questions.Count (box_of part))
            (λ a. a ≡ answers.Count cells.new) (cells.new ≡ cells.old) result }
    {
        match part.box_in(self.file.view().side()) {
            Some(b) => match self.ask(version, Question::Count(b)) {
                Some(answer) => {
                    *cells = cells_in(answer);
                    status::DONE
                }
                None => status::NO_VERSION,
            },
            None => status::OUTSIDE,
        }
    }

    /// How many pairs there are of a set cell of the box and a neighbour that isn't set.
    pub(crate) fn faces(&self, version: u32, part: CBox, faces: &mut u64) -> u32
        ensures { FileAsks self.now version (questions.Faces (box_of part))
            (λ a. a ≡ answers.Faces faces.new) (faces.new ≡ faces.old) result }
    {
        match part.box_in(self.file.view().side()) {
            Some(b) => match self.ask(version, Question::Faces(b)) {
                Some(answer) => {
                    *faces = faces_in(answer);
                    status::DONE
                }
                None => status::NO_VERSION,
            },
            None => status::OUTSIDE,
        }
    }

    /// The least box that has all set cells of a version, where some are set.
    pub(crate) fn bounds(&self, version: u32, some: &mut bool, least: &mut CBox) -> u32
        ensures { FileAsks self.now version questions.Bounds
            (λ a. (a ≡ answers.Extent (extent_of some.new least.new))
            × (some.new ≡ false → least.new ≡ least.old))
            ((some.new ≡ some.old) × (least.new ≡ least.old)) result }
    {
        match self.ask(version, Question::Bounds) {
            Some(answer) => {
                put_extent(extent_in(answer), some, least);
                status::DONE
            }
            None => status::NO_VERSION,
        }
    }

    /// The first set cell of a version on a ray from the centre of a cell, where one is hit. Its
    /// steps are each from -1,024 to 1,024, and not all 0.
    pub(crate) fn ray(
        &self,
        version: u32,
        from: CPlace,
        dx: i16,
        dy: i16,
        dz: i16,
        some: &mut bool,
        hit: &mut CPlace,
    ) -> u32
        ensures { FileAsks self.now version
            (questions.Ray (cell_of_c_place from) (heading_of dx dy dz))
            (λ a. (a ≡ answers.Hit (hit_of some.new hit.new))
            × (some.new ≡ false → hit.new ≡ hit.old))
            ((some.new ≡ some.old) × (hit.new ≡ hit.old)) result }
    {
        let from = match from.cell_in(self.file.view().side()) {
            Some(from) => from,
            None => return status::OUTSIDE,
        };
        let way = match Way::new(dx, dy, dz) {
            Some(way) => way,
            None => return status::BAD_WAY,
        };
        match self.ask(version, Question::Ray(from, way)) {
            Some(answer) => {
                put_hit(hit_in(answer), some, hit);
                status::DONE
            }
            None => status::NO_VERSION,
        }
    }

    // What the question asks of a version, where the file has it.
    fn ask(&self, version: u32, question: Question) -> Option<Answer>
        requires fits { QuestionFits (2 ^ self.now.file.side) question }
        ensures { MatchOption result
            (HasVersion self.now.file.bytes (self.now.file.side - 1) version → ⊥)
            (AnswersFileVersion self.now.file.bytes self.now.file.side version question) }
    {
        let mut view = self.file.view();
        ask_version(&mut view, version, question)
    }
}

// Why bytes are no file of versions, and the place of their first fault.
fn put_fault(fault: DagFault, at: &mut u64) -> u32
    ensures { PutsDagFault fault at.old at.new result }
{
    match fault {
        DagFault::Bad(place) => {
            *at = place;
            status::BAD_DAG
        }
        DagFault::Memory => status::NO_MEMORY,
    }
}

fn boxed_file(alloc: Global, file: CFile) -> Result<Box<CFile, Global>, u32>
    ensures value { IfOk result (λ b. b.value ≡ file) }
    ensures refused { IfErr result (λ status. status ≡ 2) }
{
    match Box::new(alloc, file) {
        Ok(file) => Ok(file),
        Err(_) => Err(status::NO_MEMORY),
    }
}
