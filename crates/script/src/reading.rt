ghost use Rattle.std.specs.Prelude.{◌≡◌, ◌≤◌, ◌^◌, All, IfOk, IfErr};
ghost use Rattle.history_model.specs.Contents.{AreModels};
ghost use Rattle.history_model.specs.Logs.{store_exponent};
ghost use Rattle.script.specs.Fitting.{CommandFits, RisesFrom};
ghost use Rattle.script.specs.Placing.{command_read};
ghost use Rattle.script.specs.Scripts.{command_in, line_command, within_saves, saves_after, commands_of, RefusesWords};

use crate::commands::{Command, Script, add_line};
use crate::faults::{ScriptFault, ScriptKind};
use crate::lines::{is_plain_text, split_line, trim_return};
use crate::placing::place_command;
use crate::spelling::spell_command;
use crate::words::{Words, begins_comment};
use history_model::Models;
use std::alloc::Global;
use vw_cell::Side;

/// The most lines that a script may have.
const LINES: u32 = 100_000;

/// The most saves that a script may have.
const SAVES: u32 = 16;

/// Reads the commands of a script for a world of this side, whose cells have tints where `tint` is
/// set, and for these models, or its first fault: that of the first line which has one, and there
/// the one that comes first in the order of the faults.
///
/// Where memory runs out the answer is [`ScriptKind::Memory`] at line 0, whatever the text says.
#[tactic(auto, using(crate::proofs::Steps::begins))]
pub fn read_script(
    alloc: Global,
    bytes: &[u8],
    side: Side,
    models: &Models,
    tint: bool,
) -> Result<Script, ScriptFault>
    requires { AreModels models.now }
    ensures read { IfOk result
        (λ script. commands_of tint side models.now bytes.now ≡ Ok script) }
    ensures refused { IfErr result
        (λ fault. RefusesWords fault (commands_of tint side models.now bytes.now)) }

    // what follows from the language for every script
    ensures fits { IfOk result
        (λ script. All (λ l. CommandFits tint (2 ^ store_exponent tint side) models.now l.command)
        script) }
    ensures rises { IfOk result (λ script. RisesFrom 1 script) }
{
    let mut lines = Vec::new(alloc);
    let mut rest = bytes;
    let mut number: u32 = 1;
    let mut saves: u32 = 0;
    while !rest.is_empty() {
        let (line, after) = split_line(rest);
        let command = match read_within(saves, number, line, side, models, tint) {
            Ok(command) => command,
            Err(kind) => return Err(ScriptFault { line: number, kind }),
        };
        saves = saves_after(saves, &command);
        add_line(&mut lines, number, command)?;
        rest = after;
        number += 1;
    }
    Ok(Script { lines })
}

// The command of a line after so many saves, where it has one.
fn read_within(
    saves: u32,
    number: u32,
    line: &[u8],
    side: Side,
    models: &Models,
    tint: bool,
) -> Result<Option<Command>, ScriptKind>
    requires { AreModels models.now }
    ensures says { result ≡ within_saves saves
        (line_command (command_read tint (2 ^ side) models.now) number line.now) }
    ensures few { IfOk result (λ _. number ≤ 100000) }
    ensures within { saves ≤ 16 → IfOk result (λ here. saves_after saves here ≤ 16) }
{
    match read_line(number, line, side, models, tint)? {
        Some(Command::Save { .. }) if saves >= SAVES => Err(ScriptKind::TooManySaves),
        command => Ok(command),
    }
}

fn saves_after(saves: u32, command: &Option<Command>) -> u32
    requires { saves ≤ 16 }
    ensures { result ≡ saves_after saves command.now }
{
    match command {
        Some(Command::Save { .. }) => saves + 1,
        _ => saves,
    }
}

// The command of a line, where it has one.
#[tactic(auto, unfolding(crate::specs::Scripts::line_command))]
fn read_line(
    number: u32,
    line: &[u8],
    side: Side,
    models: &Models,
    tint: bool,
) -> Result<Option<Command>, ScriptKind>
    requires { AreModels models.now }
    ensures says { result ≡ line_command
        (command_read tint (2 ^ side) models.now) number line.now }
    ensures few { IfOk result (λ _. number ≤ 100000) }
{
    if number > LINES {
        return Err(ScriptKind::TooManyLines);
    }
    let text = trim_return(line);
    if !is_plain_text(text) {
        return Err(ScriptKind::NotAscii);
    }
    read_words(&mut Words::new(text), side, models, tint)
}

#[tactic(auto, unfolding(crate::specs::Scripts::command_in))]
fn read_words(
    words: &mut Words,
    side: Side,
    models: &Models,
    tint: bool,
) -> Result<Option<Command>, ScriptKind>
    requires { AreModels models.now }
    ensures { result ≡ command_in (command_read tint (2 ^ side) models.now) words.old }
{
    let Some(first) = words.next_word() else {
        return Ok(None);
    };
    if begins_comment(first) {
        return Ok(None);
    }
    Ok(Some(read_command(first, words, side, models, tint)?))
}

// The command of this name with the words that follow it.
#[tactic(auto, unfolding(crate::specs::Placing::command_read))]
fn read_command(
    name: &[u8],
    words: &mut Words,
    side: Side,
    models: &Models,
    tint: bool,
) -> Result<Command, ScriptKind>
    requires { AreModels models.now }
    ensures { result ≡ command_read tint (2 ^ side) models.now name.now words.old }
{
    match spell_command(tint, name, words) {
        Ok(said) => place_command(tint, &said, side, models),
        Err(fault) => Err(ScriptKind::from(fault)),
    }
}
