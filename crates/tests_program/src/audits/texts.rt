//! Texts that are read and audited.
ghost use Rattle.std.specs.Prelude.{◌≡◌, ◌^◌, [], All, IfOk, IfSome, IsTrue};
ghost use Rattle.history_model.specs.Logs.{store_exponent};
ghost use Rattle.node_words.specs.Plans.{is_number_of_buckets};
ghost use Rattle.script.specs.Fitting.{CommandFits, RisesFrom};
ghost use Rattle.audit.specs.Kept.{IsLargeStore};

use audit::{AuditRefused, audit};
use conformance::Transcript;
use history_model::{History, read_journal};
use script::{Script, read_script};
use std::alloc::Global;
use std::test::Fail;
use transcript::read_transcript;
use vox_read::Models;
use vw_cell::Side;

fn no_models(alloc: Global) -> Models
    ensures { result ≡ [] }
{
    Models {
        list: Vec::new(alloc),
    }
}

// The script of a text, in a world of this side, whose cells have tints or have none, and without
// models.
fn script_in(
    alloc: Global,
    text: &str,
    side: Side,
    models: &Models,
    tint: bool,
) -> Result<Script, Fail>
    requires { models.now ≡ [] }
    ensures fits { IfOk result
        (All (λ l. CommandFits tint (2 ^ store_exponent tint side) models.now l.command)) }
    ensures rises { IfOk result (RisesFrom 1) }
{
    match read_script(alloc, text.as_bytes(), side, models, tint) {
        Ok(script) => Ok(script),
        Err(_) => Err(Fail::from("a script")),
    }
}

// The script of a text, in the world of a history.
#[tactic(auto, using(crate::proofs::OfAudits::Worlds::fits_store))]
fn script_of(alloc: Global, text: &str, history: &History, models: &Models) -> Result<Script, Fail>
    requires { models.now ≡ [] }
    ensures fits { IfOk result (All
        (λ l. CommandFits history.now.coloured (2 ^ history.now.side) models.now l.command)) }
    ensures rises { IfOk result (RisesFrom 1) }
{
    match world_of(history) {
        Some(side) => script_in(alloc, text, side, models, history.coloured),
        None => Err(Fail::from("a world")),
    }
}

// The side of a history's world: its store's, or a quarter of it where cells have tints.
fn world_of(history: &History) -> Option<Side>
    ensures { IfSome result
        (λ side. store_exponent history.now.coloured side ≡ history.now.side) }
{
    if !history.coloured {
        return Some(history.side);
    }
    let Some(side) = Side::new(history.side.cells() / 4) else {
        return None;
    };
    if side.exponent() + 2 != history.side.exponent() {
        return None;
    }
    Some(side)
}

fn answer_of(answer: Result<bool, AuditRefused>) -> Result<bool, Fail> {
    match answer {
        Ok(answer) => Ok(answer),
        Err(_) => Err(Fail::from("an answer")),
    }
}

// Whether a history's store has room for its tints.
fn is_large(history: &History) -> bool
    ensures { IsTrue result → IsLargeStore history.now.coloured history.now.side }
{
    if history.coloured {
        return history.side.exponent() >= 4;
    }
    true
}

/// The history of a journal.
pub(crate) fn journal_of(alloc: Global, text: &str) -> Result<History, Fail> {
    match read_journal(alloc, text.as_bytes()) {
        Ok(history) => Ok(history),
        Err(_) => Err(Fail::from("a journal")),
    }
}

fn transcript_of(alloc: Global, text: &str) -> Result<Transcript, Fail> {
    match read_transcript(alloc, text.as_bytes()) {
        Ok(lines) => Ok(Transcript { lines }),
        Err(_) => Err(Fail::from("a transcript")),
    }
}

/// The texts of a run of one script.
#[derive(Clone, Copy)]
pub(crate) struct Texts<'t> {
    pub(crate) journal: &'t str,
    pub(crate) script: &'t str,
    pub(crate) transcript: &'t str,
}

/// What an audit says of them. A full bucket is one of so many on each level, or of the usual
/// number.
pub(crate) fn is_audited(
    alloc: Global,
    texts: Texts<'_>,
    buckets: Option<u16>,
) -> Result<bool, Fail>
    requires { IfSome buckets (λ b. IsTrue (is_number_of_buckets b)) }
{
    is_audited_keeping(alloc, texts, buckets, 0)
}

/// The same of a run that held its last versions alone, or all with 0.
pub(crate) fn is_audited_keeping(
    alloc: Global,
    texts: Texts<'_>,
    buckets: Option<u16>,
    keep: u32,
) -> Result<bool, Fail>
    requires { IfSome buckets (λ b. IsTrue (is_number_of_buckets b)) }
{
    let history = journal_of(alloc, texts.journal)?;
    is_run_of(
        alloc,
        &history,
        texts.script,
        texts.transcript,
        buckets,
        keep,
    )
}

/// The same of a history and the texts of its script and transcript.
pub(crate) fn is_run_of(
    alloc: Global,
    history: &History,
    script: &str,
    transcript: &str,
    buckets: Option<u16>,
    keep: u32,
) -> Result<bool, Fail>
    requires { IfSome buckets (λ b. IsTrue (is_number_of_buckets b)) }
{
    if !is_large(history) {
        return Err(Fail::from("a large store"));
    }
    let models = no_models(alloc);
    let script = script_of(alloc, script, history, &models)?;
    let transcript = transcript_of(alloc, transcript)?;
    answer_of(audit(
        alloc,
        history,
        models,
        &[script],
        &[transcript],
        buckets,
        keep,
    ))
}

/// The same of two sessions, each with its script and transcript.
pub(crate) fn are_audited(
    alloc: Global,
    journal: &str,
    first: (&str, &str),
    second: (&str, &str),
    keep: u32,
) -> Result<bool, Fail> {
    let models = no_models(alloc);
    let history = journal_of(alloc, journal)?;
    if !is_large(&history) {
        return Err(Fail::from("a large store"));
    }
    let scripts = [
        script_of(alloc, first.0, &history, &models)?,
        script_of(alloc, second.0, &history, &models)?,
    ];
    let transcripts = [
        transcript_of(alloc, first.1)?,
        transcript_of(alloc, second.1)?,
    ];
    answer_of(audit(alloc, &history, models, &scripts, &transcripts, None, keep))
}

/// A text whose first such piece is another one.
pub(crate) fn changed(alloc: Global, text: &str, old: &str, new: &str) -> Result<String, Fail> {
    match text.split_once(old) {
        Some((before, after)) => Ok(format!(in alloc; "{before}{new}{after}")?),
        None => Err(Fail::from("a piece")),
    }
}
