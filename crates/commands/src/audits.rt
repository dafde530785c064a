//! The audit of what a run left.
ghost use Rattle.std.specs.Prelude.{◌≡◌, ◌≤◌, ◌+◌, ◌^◌, ◌<◌, ◌++◌, ◌↔◌, Ok, length, map, take, drop, string_bytes, IfOk, IfErr, IfSome, IsTrue, OnOk};
ghost use Rattle.node_words.specs.Plans.{is_number_of_buckets};
ghost use Rattle.audit.specs.Audits.{IsAudited, RefusesAudit, judged_by};
ghost use Rattle.vox_read.specs.Contents.{AreModels};
ghost use Rattle.dag_answers.specs.Kept.{IsLargeStore};
ghost use Rattle.commands.specs.Audits.{AnswersAudit, RefusesAuditing, audit_means, texts_audited, AreTranscriptsOf};
ghost use Rattle.commands.specs.Meanings.{file_in};
ghost use Rattle.commands.specs.Outcomes.{Outcome};
ghost use Rattle.commands.specs.Refusals.{RefusesScripts};
ghost use Rattle.commands.specs.Inputs.{audit_inputs, script_input, transcript_name};
ghost use Rattle.commands.specs.Scripts.{AreFitScripts, lines_in_history};
ghost use Rattle.commands.specs.Auditing.{IsLeft, AddsTranscript, RefusesNextTranscript, RefusesTranscripts};

use crate::inputs::{SCRIPT_LIMIT, VOX_LIMIT};
use crate::journals::read_journal_history;
use crate::refusals::{CommandRefused, TextRefused, TranscriptLine};
use crate::scripts::read_scripts;
use crate::sides::world_kept;
use audit::{AuditRefused, audit};
use conformance::Transcript;
use history_model::History;
use requests::{AuditOrder, Buckets};
use script::Script;
use std::alloc::Global;
use transcript::{TranscriptFault, read_transcript};
use vox_read::{Models, read_models};
use vw_cell::Memory;
use vw_io::{Input, Shelf, Text, read_all};

/// What a run of scripts left: its models, the history of its journal, its scripts, and their
/// transcripts.
#[derive(Drop)]
pub(crate) struct RunLeft {
    pub(crate) models: Models,
    pub(crate) history: History,
    pub(crate) scripts: Vec<Script>,
    pub(crate) transcripts: Vec<Transcript>,
}

/// Whether a journal and the transcripts under these names are those of one run of the scripts. It
/// reads the VOX file, of at most 256 MiB, and the journal, the scripts and the transcripts, each
/// of at most 8 MiB, and writes nothing.
#[tactic(auto, using(crate::proofs::Accepting::file_within, crate::proofs::Auditing::audited, crate::proofs::Auditing::not_audited))]
pub fn audit_files<'w, S: Shelf>(
    alloc: Global,
    order: &AuditOrder<'w>,
    transcripts: &'w [String],
    shelf: &mut S,
) -> Result<bool, CommandRefused<'w>>
    requires few { length order.now.scripts ≤ 64 }
    requires named { map string_bytes transcripts.now ≡ map transcript_name order.now.scripts }
    ensures outcome { Outcome (audit_means order.now) result (S.state shelf.old)
        (S.state shelf.new) }
{
    let Ok(inputs) = audit_inputs(alloc, order, transcripts) else {
        return Err(CommandRefused::Text(TextRefused::Memory));
    };
    let texts = match read_all(alloc, inputs.as_slice(), shelf) {
        Ok(texts) => texts,
        Err(refused) => return Err(CommandRefused::Input(refused)),
    };
    match answer_of_texts(alloc, order, texts) {
        Ok(answer) => Ok(answer),
        Err(refused) => Err(CommandRefused::Text(refused)),
    }
}

/// The names of the transcripts: each is its script's with `.out` behind it.
pub fn names_read(alloc: Global, scripts: &[String]) -> Result<Vec<String>, Memory>
    ensures { IfOk result (λ names. map string_bytes names.items
        ≡ map transcript_name (map string_bytes scripts.now)) }
{
    let mut names = Vec::with_capacity(alloc, scripts.len())?;
    for script in scripts {
        let script = script.as_str();
        names.push(format!(in alloc; "{script}.out")?)?;
    }
    Ok(names)
}

// What an audit reads, in order.
fn audit_inputs<'w>(
    alloc: Global,
    order: &AuditOrder<'w>,
    transcripts: &'w [String],
) -> Result<Vec<Input<'w>>, Memory>
    requires named { map string_bytes transcripts.now ≡ map transcript_name order.now.scripts }
    ensures { IfOk result (λ inputs. inputs.items ≡ audit_inputs order.now) }
{
    let mut inputs = Vec::new(alloc);
    inputs.push(Input {
        name: order.file,
        limit: VOX_LIMIT,
    })?;
    inputs.push(Input {
        name: order.journal,
        limit: SCRIPT_LIMIT,
    })?;
    add_inputs(order.scripts, &mut inputs)?;
    add_inputs(transcripts, &mut inputs)?;
    Ok(inputs)
}

// Adds the inputs of these names.
fn add_inputs<'w>(names: &'w [String], inputs: &mut Vec<Input<'w>>) -> Result<(), Memory>
    ensures { OnOk result (inputs.new.items
        ≡ inputs.old.items ++ map script_input (map string_bytes names.now)) }
{
    for name in names {
        inputs.push(Input {
            name: name.as_str(),
            limit: SCRIPT_LIMIT,
        })?;
    }
    Ok(())
}

// The answer by all texts.
#[tactic(auto, using(crate::proofs::Auditing::parted_answer, crate::proofs::Auditing::parted_refusal))]
fn answer_of_texts(
    alloc: Global,
    order: &AuditOrder<'_>,
    texts: Vec<Text>,
) -> Result<bool, TextRefused>
    requires some { length texts.items
        ≡ 2 + (length order.now.scripts + length order.now.scripts) }
    requires few { length order.now.scripts ≤ 64 }
    requires within { length (file_in texts.items) ≤ 2 ^ 28 }
    ensures answers { IfOk result (AnswersAudit order.now.buckets order.now.keep
        (file_in texts.items) (texts_audited order.now texts.items)) }
    ensures refused { IfErr result
        (RefusesAuditing (file_in texts.items) (texts_audited order.now texts.items)) }
{
    let number = number_of_scripts(order);
    let buckets = order.buckets;
    let keep = order.keep;
    let mut texts = texts;
    let file = texts.remove(0);
    let journal = texts.remove(0);
    answer_of(alloc, buckets, keep, number, file, journal, texts)
}

// How many scripts there are.
fn number_of_scripts(order: &AuditOrder<'_>) -> usize
    ensures { result ≡ length order.now.scripts }
{
    order.scripts.len()
}

// The answer by a VOX file, a journal, and the texts of so many scripts and of their transcripts.
fn answer_of(
    alloc: Global,
    buckets: Option<Buckets>,
    keep: u32,
    number: usize,
    file: Text,
    journal: Text,
    texts: Vec<Text>,
) -> Result<bool, TextRefused>
    requires some { length texts.items ≡ number + number }
    requires few { number ≤ 64 }
    requires within { length file ≤ 2 ^ 28 }
    ensures answers { IfOk result (AnswersAudit buckets keep file (record {
      journal = journal;
      scripts = take number texts.items;
      transcripts = drop number texts.items;
    })) }
    ensures refused { IfErr result (RefusesAuditing file (record {
      journal = journal;
      scripts = take number texts.items;
      transcripts = drop number texts.items;
    })) }
{
    let left = match read_left(alloc, number, file, journal, texts) {
        Ok(left) => left,
        Err(refused) => return Err(refused),
    };
    match answer_by(alloc, buckets, keep, left) {
        Ok(answer) => Ok(answer),
        Err(refused) => Err(TextRefused::from(refused)),
    }
}

// The answer by what a run left.
fn answer_by(
    alloc: Global,
    buckets: Option<Buckets>,
    keep: u32,
    left: RunLeft,
) -> Result<bool, AuditRefused>
    requires models { AreModels left.models }
    requires large { IsLargeStore left.history.coloured left.history.side }
    requires fit { AreFitScripts left.history.coloured left.history.side left.models
        left.scripts.items }
    requires number { length left.scripts.items ≤ 64 }
    ensures answer { IfOk result (λ answer. IsTrue answer
        ↔ IsAudited keep (judged_by left.history.side buckets) left.models left.history
        left.scripts.items left.transcripts.items) }
    ensures refused { IfErr result (RefusesAudit left.models left.history) }
{
    let RunLeft {
        models,
        history,
        scripts,
        transcripts,
    } = left;
    let buckets = number_of(buckets);
    audit(
        alloc,
        &history,
        models,
        scripts.as_slice(),
        transcripts.as_slice(),
        buckets,
        keep,
    )
}

fn number_of(buckets: Option<Buckets>) -> Option<u16>
    ensures is { result ≡ buckets }
    ensures known { IfSome result (λ b. IsTrue (is_number_of_buckets b)) }
{
    match buckets {
        None => None,
        Some(buckets) => Some(buckets.number()),
    }
}

// What a run left, by its texts, where none of them is refused. Each text is given back once it is
// read.
#[tactic(auto, using(crate::proofs::Auditing::vox_refused_at, crate::proofs::Auditing::journal_refused, crate::proofs::Auditing::scripts_refused_at, crate::proofs::Auditing::transcripts_refused))]
fn read_left(
    alloc: Global,
    number: usize,
    file: Text,
    journal: Text,
    texts: Vec<Text>,
) -> Result<RunLeft, TextRefused>
    requires some { length texts.items ≡ number + number }
    requires few { number ≤ 64 }
    requires within { length file ≤ 2 ^ 28 }
    ensures left { IfOk result (IsLeft file (record {
      journal = journal;
      scripts = take number texts.items;
      transcripts = drop number texts.items;
    })) }
    ensures models { IfOk result (λ left. AreModels left.models) }
    ensures large { IfOk result
        (λ left. IsLargeStore left.history.coloured left.history.side) }
    ensures fit { IfOk result
        (λ left. AreFitScripts left.history.coloured left.history.side left.models
        left.scripts.items) }
    ensures number { IfOk result (λ left. length left.scripts.items ≤ 64) }
    ensures refused { IfErr result (RefusesAuditing file (record {
      journal = journal;
      scripts = take number texts.items;
      transcripts = drop number texts.items;
    })) }
{
    let models = match read_models(alloc, file.as_slice()) {
        Ok(models) => models,
        Err(fault) => return Err(TextRefused::from(fault)),
    };
    drop(file);
    let history = match read_journal_history(alloc, journal.as_slice()) {
        Ok(history) => history,
        Err(fault) => return Err(TextRefused::from(fault)),
    };
    drop(journal);
    let (scripts, transcripts) = texts.as_slice().split_at(number);
    let scripts = match scripts_in_history(alloc, scripts, &history, &models) {
        Ok(scripts) => scripts,
        Err(refused) => return Err(refused),
    };
    let transcripts = match read_transcripts(alloc, transcripts) {
        Ok(transcripts) => transcripts,
        Err(refused) => return Err(refused),
    };
    Ok(RunLeft {
        models,
        history,
        scripts,
        transcripts,
    })
}

// The commands of all scripts in the history's world, or the first fault of the first that has one.
#[tactic(auto, using(crate::proofs::WorldSides::told_by, crate::proofs::WorldSides::told_refused, crate::proofs::WorldSides::fit_by))]
fn scripts_in_history(
    alloc: Global,
    texts: &[Text],
    history: &History,
    models: &Models,
) -> Result<Vec<Script>, TextRefused>
    requires models { AreModels models.now }
    requires few { length texts.now ≤ 64 }
    ensures read { IfOk result
        (λ scripts. lines_in_history history.now models.now texts.now ≡ Ok scripts.items) }
    ensures fit { IfOk result (λ scripts.
        AreFitScripts history.now.coloured history.now.side models.now scripts.items) }
    ensures number { IfOk result (λ scripts. length scripts.items ≡ length texts.now) }
    ensures refused { IfErr result
        (λ refused. RefusesScripts refused (lines_in_history history.now models.now texts.now)) }
{
    let tint = history.coloured;
    let Some(side) = world_kept(history.side, tint) else {
        return Err(TextRefused::Memory);
    };
    match read_scripts(alloc, texts, side, models, tint) {
        Ok(scripts) => Ok(scripts),
        Err(refused) => Err(refused),
    }
}

// The answers of all transcripts, or the first line of the first that has one that doesn't fit.
fn read_transcripts(alloc: Global, texts: &[Text]) -> Result<Vec<Transcript>, TextRefused>
    requires few { length texts.now ≤ 64 }
    ensures read { IfOk result (λ said. AreTranscriptsOf texts.now said.items) }
    ensures refused { IfErr result (RefusesTranscripts texts.now) }
{
    let mut said = Vec::new(alloc);
    for text in texts {
        if let Err(refused) = read_next(alloc, text, &mut said) {
            return Err(refused);
        }
    }
    Ok(said)
}

// Reads one more transcript, whose number is that of the transcripts before it.
fn read_next(alloc: Global, text: &Text, said: &mut Vec<Transcript>) -> Result<(), TextRefused>
    requires few { length said.old.items < 64 }
    ensures read { OnOk result (AddsTranscript text.now said.old.items said.new.items) }
    ensures refused { IfErr result (RefusesNextTranscript (length said.old.items) text.now) }
{
    let script = said.len() as u16;
    let lines = match read_transcript(alloc, text.as_slice()) {
        Ok(lines) => lines,
        Err(TranscriptFault::Line(line)) => {
            return Err(TextRefused::Transcript(TranscriptLine { script, line }));
        }
        Err(TranscriptFault::Memory) => return Err(TextRefused::Memory),
    };
    match said.push(Transcript { lines }) {
        Ok(()) => Ok(()),
        Err(_) => Err(TextRefused::Memory),
    }
}
