//! How a session's calls answer the lines of its script.
ghost use Rattle.std.specs.Prelude.{◌≡◌, ◌+◌, ◌++◌, ◌^◌, ◌≤◌};
ghost use Rattle.history_model.specs.Worlds.{is_edit};
ghost use Rattle.script.specs.Fitting.{CommandFits};
ghost use Rattle.conformance.specs.Saves.{saved_by};
ghost use Rattle.conformance.specs.sessions.Lines.{AreEarlier, AnswersLine};
ghost use Rattle.conformance.specs.sessions.Saves.{saves_asked, versions_of};
ghost use Rattle.conformance.specs.sessions.CallSpecs.{act_line, once_line, ask_line, save_line, forget_line, same_line, pin_line, named_version};

use crate::sessions::calls::{ActAnswer, AskedAt, OnceAnswer, SavedAt, SessionCalls};
use history_model::Act;
use retain::{ForgetRefused, PinRefused, SameAt, SameRefused};
use script::{Command, ScriptLine};
use transcript::{Answer, LineAnswer};

/// Does what the session's line asks for, and answers it.
#[tactic(auto, using(crate::proofs::OfSessions::Answering::save_saved, crate::proofs::OfSessions::Answering::none_saved))]
pub fn answer_line<C: SessionCalls>(calls: &mut C, l: ScriptLine) -> LineAnswer
    requires fits { CommandFits (C.of calls.old).tint (2 ^ (C.of calls.old).plan.side)
        (C.of calls.old).models l.command }
    requires earlier { AreEarlier (C.seen calls.old) l.line }
    requires room { saves_asked l.command ≤ C.room calls.old }
    requires stands { C.stands calls.old }
    ensures stands { C.stands calls.new }
    ensures of { C.of calls.new ≡ C.of calls.old }
    ensures takes { AnswersLine (C.of calls.old) l (C.seen calls.old) (C.seen calls.new) result }
    ensures saved { C.saved calls.new
        ≡ C.saved calls.old ++ versions_of (saved_by l.command result.at result.answer) }
    ensures room { C.room calls.old ≤ C.room calls.new + saves_asked l.command }
    ensures rests { C.rests calls.old calls.new }
{
    let line = l.line;
    match l.command {
        Command::Edit { act, once } => {
            if once && is_edit(act) {
                let answer = calls.act_once(line, act);
                once_line(line, answer)
            } else {
                let answer = calls.act(line, act);
                act_line(line, answer)
            }
        }
        Command::Forget(version) => {
            let answer = calls.forget(line, version);
            forget_line(line, version, answer)
        }
        Command::Ask { version, question } => {
            let answer = calls.ask(version, question);
            ask_line(line, version, answer)
        }
        Command::Save {
            version,
            name,
            part,
        } => {
            let answer = calls.save(version, name, part);
            save_line(line, version, answer)
        }
        Command::Same(v, w) => {
            let answer = calls.same(v, w);
            same_line(line, answer)
        }
        Command::Head => {
            let at = calls.head();
            answered(line, at, Answer::Head)
        }
    }
}

fn answered(line: u32, at: u32, answer: Answer) -> LineAnswer
    ensures { result ≡ record { line = line; at = at; answer = answer } }
{
    LineAnswer { line, at, answer }
}

fn act_line(line: u32, answer: ActAnswer) -> LineAnswer
    ensures { result ≡ act_line line answer }
{
    match answer {
        ActAnswer::Done { n } => answered(line, n, Answer::Done),
        ActAnswer::Full { at, full } => answered(
            line,
            at,
            Answer::Full {
                level: full.level,
                bucket: full.bucket,
            },
        ),
        ActAnswer::LogFull => answered(line, 65_535, Answer::LogFull),
        ActAnswer::NothingToUndo { at } => answered(line, at, Answer::NothingToUndo),
        ActAnswer::NothingToRedo { at } => answered(line, at, Answer::NothingToRedo),
        ActAnswer::Forgotten { at, mark } => answered(line, at, Answer::Forgotten(mark.version)),
    }
}

fn once_line(line: u32, answer: OnceAnswer) -> LineAnswer
    ensures { result ≡ once_line line answer }
{
    match answer {
        OnceAnswer::Done { n } => answered(line, n, Answer::Done),
        OnceAnswer::Full { at, full } => answered(
            line,
            at,
            Answer::Full {
                level: full.level,
                bucket: full.bucket,
            },
        ),
        OnceAnswer::LogFull => answered(line, 65_535, Answer::LogFull),
        OnceAnswer::Stale { at, base } => answered(line, at, Answer::Stale(base)),
    }
}

fn is_edit(act: Act) -> bool
    ensures { result ≡ is_edit act }
{
    !matches!(act, Act::Undo | Act::Redo)
}

fn named_version(version: Option<u32>) -> u32
    ensures { result ≡ named_version version }
{
    match version {
        None => 0,
        Some(version) => version,
    }
}

fn pin_line(line: u32, version: Option<u32>, refused: PinRefused) -> LineAnswer
    ensures { result ≡ pin_line line version refused }
{
    match refused {
        PinRefused::NoVersion { at } => {
            answered(line, at, Answer::NoVersion(named_version(version)))
        }
        PinRefused::Forgotten { at, mark } => answered(line, at, Answer::Forgotten(mark.version)),
    }
}

fn ask_line(line: u32, version: Option<u32>, answer: Result<AskedAt, PinRefused>) -> LineAnswer
    ensures { result ≡ ask_line line version answer }
{
    match answer {
        Ok(asked) => answered(line, asked.at, asked.answer),
        Err(refused) => pin_line(line, version, refused),
    }
}

fn save_line(line: u32, version: Option<u32>, answer: Result<SavedAt, PinRefused>) -> LineAnswer
    ensures { result ≡ save_line line version answer }
{
    match answer {
        Ok(saved) => answered(line, saved.at, Answer::Saved(saved.cells)),
        Err(refused) => pin_line(line, version, refused),
    }
}

fn forget_line(line: u32, version: u32, answer: Result<u32, ForgetRefused>) -> LineAnswer
    ensures { result ≡ forget_line line version answer }
{
    match answer {
        Ok(at) => answered(line, at, Answer::Forgot(version)),
        Err(ForgetRefused::NoVersion { at }) => answered(line, at, Answer::NoVersion(version)),
        Err(ForgetRefused::IsHead { at }) => answered(line, at, Answer::IsHead),
        Err(ForgetRefused::Forgotten { at, .. }) => answered(line, at, Answer::Forgotten(version)),
    }
}

fn same_line(line: u32, answer: Result<SameAt, SameRefused>) -> LineAnswer
    ensures { result ≡ same_line line answer }
{
    match answer {
        Ok(same) => answered(line, same.at, Answer::Same(same.equal)),
        Err(SameRefused::NoVersion { at, version }) => {
            answered(line, at, Answer::NoVersion(version))
        }
        Err(SameRefused::Forgotten { at, mark }) => {
            answered(line, at, Answer::Forgotten(mark.version))
        }
    }
}
