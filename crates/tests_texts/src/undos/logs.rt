ghost use Rattle.std.specs.Prelude.{◌≡◌, ◌∷◌, ◌+◌, ◌*◌, ◌^◌, ◌≤◌, [], List, length, slice_index, take, IfOk, if◌then◌else◌};
ghost use Rattle.history_model.specs.Packing.{packed};
ghost use Rattle.history_model.specs.Worlds.{is_edit};
ghost use Rattle.tests_texts.specs.undos.Kept.{AreWords};

use history_model::{Act, Record, pack, position};
use std::alloc::Global;
use std::marker::Model;
use undo::LogWords;
use vw_cell::Memory;

/// The words of a log's first records. It counts how often they are read.
#[derive(Drop)]
pub struct PackedLog<'r> {
    records: &'r [Record],
    words: Vec<[u64; 5]>,
    shown: u32,
    reads: u32,
}

impl<'r> Model for PackedLog<'r> {
    ghost use Rattle.std.specs.Prelude.{List, take};
    ghost use Rattle.history_model.specs.declared.histories.Record.{Record};
    ghost use Rattle.tests_texts.specs.undos.Kept.{IsPackedLog};

    ghost Value = { List Record };

    ghost view = { λ log. take log.shown log.records.now };

    ghost invariant = { λ log. IsPackedLog log.records.now log.words.items log.shown };
}

impl<'r> PackedLog<'r> {
    /// The log of all these records.
    pub fn new(alloc: Global, records: &'r [Record]) -> Result<PackedLog<'r>, Memory>
        requires { length records.now ≤ 65535 }
    {
        let words = words_of(alloc, records)?;
        Ok(PackedLog {
            records,
            words,
            shown: records.len() as u32,
            reads: 0,
        })
    }

    /// From now on the log has so many records, where it is made of so many.
    pub fn show(&mut self, records: u32) {
        if records as usize <= self.records.len() {
            self.shown = records;
        }
    }

    /// How many records' words were read since this was last asked.
    pub fn take_reads(&mut self) -> u32 {
        let reads = self.reads;
        self.reads = 0;
        reads
    }
}

impl<'r> LogWords for PackedLog<'r> {
    ghost use Rattle.std.specs.Prelude.{◌≡◌};
    ghost use Rattle.std.proofs.Common.{refl, ◌∙◌};

    ghost records = { λ log. log };

    ghost readable = { λ _. Unit {0} };

    ghost rests = { λ a b. b ≡ a };

    fn len(&mut self) -> u32 {
        self.shown
    }

    fn words(&mut self, n: u32) -> [u64; 5] {
        self.reads = self.reads.saturating_add(1);
        self.words[n as usize - 1]
    }

    fn first_word(&mut self, n: u32) -> u64 {
        let words = self.words(n);
        words[0]
    }

    ghost rests_itself = { λ a. refl };

    ghost rests_on = { λ a b c f g. g ∙ f };
}

// The words of each record, as a log keeps them.
fn words_of(alloc: Global, records: &[Record]) -> Result<Vec<[u64; 5]>, Memory>
    requires { length records.now ≤ 65535 }
    ensures { IfOk result (λ words. AreWords records.now words.items) }
{
    let mut words = Vec::new(alloc);
    let mut last: u32 = 0;
    for k in 0..records.len() {
        let kept = records[k];
        let here = position(alloc, &records[..k + 1])?;
        let now = here.now;
        last = edit_by(kept.act, k as u32 + 1, last);
        words.push(words_at(&kept, now, last))?;
    }
    Ok(words)
}

// The last edit with the act of the record of this number, where an earlier one was the last.
fn edit_by(act: Act, number: u32, earlier: u32) -> u32
    ensures { result ≡ if is_edit act then number else earlier }
{
    match act {
        Act::Undo | Act::Redo => earlier,
        _ => number,
    }
}

// The words of a record, behind which this version stands and this is the last edit.
fn words_at(kept: &Record, now: u32, last: u32) -> [u64; 5]
    requires now { now ≤ 65535 }
    requires last { last ≤ 65535 }
    ensures { result ≡ (slice_index (packed kept.now.act) 0 + 2 ^ 8 * now + 2 ^ 32 * last)
        ∷ slice_index (packed kept.now.act) 1
        ∷ slice_index (packed kept.now.act) 2
        ∷ slice_index (packed kept.now.act) 3
        ∷ (kept.now.session + 2 ^ 16 * kept.now.line)
        ∷ [] }
{
    let [kind, place, size, target] = pack(&kept.act);
    let standing = (u64::from(last) << 32) + (u64::from(now) << 8);
    let by = u64::from(kept.session) + (u64::from(kept.line) << 16);
    [kind + standing, place, size, target, by]
}
