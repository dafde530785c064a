//! The saves of a script that were accepted.
ghost use Rattle.std.specs.Prelude.{◌≡◌, ◌+◌, ◌++◌, ◌<◌, ◌≤◌, length, slice_index_or, vec_capacity, vec_len};
ghost use Rattle.std.specs.Option.{option_to_list};
ghost use Rattle.conformance.specs.Answers.{asked_version};
ghost use Rattle.conformance.specs.Saves.{saved_by, saved_in};
ghost use Rattle.conformance.specs.sessions.Saves.{saves_asked, saves_asked_in};

use conformance::SavedBox;
use script::{Command, ScriptLine};
use transcript::{Answer, LineAnswer};

/// How many saves the lines ask for.
pub(crate) fn number_of_saves(lines: &[ScriptLine]) -> usize
    ensures { result ≡ saves_asked_in lines.now }
{
    let mut number: usize = 0;
    for line in lines {
        number += saves_asked(line.command);
    }
    number
}

/// Puts the accepted saves of these lines behind those that the list has. It has room for them.
pub(crate) fn push_accepted(lines: &[ScriptLine], answers: &[LineAnswer], saves: &mut Vec<SavedBox>)
    requires many { length answers.now ≡ length lines.now }
    requires room { vec_len saves.old + saves_asked_in lines.now ≤ vec_capacity saves.old }
    ensures { saves.new.items ≡ saves.old.items ++ saved_in lines.now answers.now }
{
    for k in 0..lines.len() {
        let line = lines[k];
        let answer = answer_at(answers, k);
        push_save(line.command, answer.at, answer.answer, saves);
    }
}

fn answer_at(answers: &[LineAnswer], k: usize) -> LineAnswer
    requires { k < length answers.now }
    ensures { result ≡ slice_index_or answers.now k result }
{
    answers[k]
}

// How many saves a command asks for.
fn saves_asked(command: Command) -> usize
    ensures value { result ≡ saves_asked command }
    ensures few { result ≤ 1 }
{
    match command {
        Command::Save { .. } => 1,
        _ => 0,
    }
}

// Puts the save that a line shows behind the others, where it was accepted.
fn push_save(command: Command, at: u32, answer: Answer, saves: &mut Vec<SavedBox>)
    requires room { vec_len saves.old + saves_asked command ≤ vec_capacity saves.old }
    ensures saved { saves.new.items ≡ saves.old.items ++ saved_by command at answer }
    ensures len { vec_len saves.new ≤ vec_len saves.old + saves_asked command }
    ensures capacity { vec_capacity saves.new ≡ vec_capacity saves.old }
{
    match accepted_save(command, at, answer) {
        Some(save) => saves.push_reserved(save),
        None => {}
    }
}

// The save that a line shows, where it was accepted.
fn accepted_save(command: Command, at: u32, answer: Answer) -> Option<SavedBox>
    ensures { option_to_list result ≡ saved_by command at answer }
{
    match command {
        Command::Save {
            version,
            name,
            part,
        } => match answer {
            Answer::Saved(_) => Some(SavedBox {
                name,
                version: asked_version(version, at),
                part,
            }),
            _ => None,
        },
        _ => None,
    }
}

// The version that is asked for at this moment: the newest, where none is named.
fn asked_version(version: Option<u32>, at: u32) -> u32
    ensures { result ≡ asked_version version at }
{
    match version {
        Some(version) => version,
        None => at,
    }
}
