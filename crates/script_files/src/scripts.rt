ghost use Rattle.std.specs.Prelude.{◌≡◌, ◌≤◌, ◌^◌, ◌+◌, ◌<◌, ◌++◌, true, Ok, All, length, map, string_bytes, IfOk, IfErr, IfSome, OnOk};
ghost use Rattle.std.specs.Option.{option_map};
ghost use Rattle.vw_io.specs.Names.{collide};
ghost use Rattle.vox_read.specs.Contents.{AreModels};
ghost use Rattle.history_model.specs.Logs.{store_exponent};
ghost use Rattle.requests.specs.Orders.{asked_side};
ghost use Rattle.script_files.specs.Runs.{RefusesRun};
ghost use Rattle.script_files.specs.Requests.{run_inputs, output_names, wanted_name, name_saved, names_saved_in, names_saved};
ghost use Rattle.commands.specs.Inputs.{transcript_name};
ghost use Rattle.commands.specs.Meanings.{file_in};
ghost use Rattle.commands.specs.Scripts.{HasFileName, AreFitScripts};
ghost use Rattle.script_files.specs.Stages.{ReadsInputs};

use commands::{TextRefused, read_scripts, world_kept};
use requests::Order;
use script::{Command, Script, ScriptLine};
use std::alloc::Global;
use std::convert::AsSlice;
use vox_read::{Models, read_models};
use vw_cell::{Memory, Side};
use vw_io::{Input, Text, collide};

/// The models of a VOX file and the commands of scripts.
#[derive(Drop)]
pub(crate) struct Read {
    pub(crate) models: Models,
    pub(crate) scripts: Vec<Script>,
}

// The models and the commands, where the VOX file gives models, no script has a fault, and no name
// of an output is taken. The texts are given back once they are read.
#[tactic(auto, using(crate::proofs::RunTexts::scripts_refused_by, crate::proofs::RunTexts::read_by, commands::proofs::WorldSides::fit_by))]
pub(crate) fn read_texts(
    alloc: Global,
    order: &Order<'_>,
    transcripts: &[String],
    inputs: &[Input<'_>],
    texts: Vec<Text>,
) -> Result<Read, TextRefused>
    requires some { length texts.items ≡ 1 + length order.now.scripts }
    requires few { length order.now.scripts ≤ 64 }
    requires within { length (file_in texts.items) ≤ 2 ^ 28 }
    requires inputs { inputs.now ≡ run_inputs order.now }
    requires named { map string_bytes transcripts.now ≡ map transcript_name order.now.scripts }
    ensures read { IfOk result (ReadsInputs order.now texts.items) }
    ensures models { IfOk result (λ read. AreModels read.models) }
    ensures fit { IfOk result
        (λ read. AreFitScripts order.now.tint order.now.plan.side read.models
        read.scripts.items) }
    ensures large { IfOk result (λ _. order.now.tint ≡ true → 4 ≤ order.now.plan.side) }
    ensures number { IfOk result (λ read. length read.scripts.items ≤ 64) }
    ensures refused { IfErr result (RefusesRun order.now texts.items) }
{
    let mut texts = texts;
    let file = texts.remove(0);
    let models = read_models(alloc, file.as_slice())?;
    drop(file);
    let Some(side) = world_side(order) else {
        return Err(TextRefused::Memory);
    };
    let scripts = read_scripts(alloc, texts.as_slice(), side, &models, order.tint)?;
    drop(texts);
    if names_collide(alloc, order, transcripts, scripts.as_slice(), inputs)? {
        return Err(TextRefused::Collides);
    }
    Ok(Read { models, scripts })
}

// The side of the run's world.
fn world_side(order: &Order<'_>) -> Option<Side>
    ensures side { IfSome result (λ s. s ≡ asked_side order.now) }
    ensures kept { IfSome result (λ s. store_exponent order.now.tint s ≡ order.now.plan.side) }
    ensures large { IfSome result (λ s. order.now.tint ≡ true → 4 ≤ order.now.plan.side) }
{
    world_kept(order.plan.side(), order.tint)
}

// Whether a name of what a run of these scripts may write is an input's, or another one of them.
fn names_collide(
    alloc: Global,
    order: &Order<'_>,
    transcripts: &[String],
    scripts: &[Script],
    inputs: &[Input<'_>],
) -> Result<bool, Memory>
    requires named { map string_bytes transcripts.now ≡ map transcript_name order.now.scripts }
    requires fit { All (All HasFileName) scripts.now }
    ensures { IfOk result (λ is. is ≡ collide (output_names order.now scripts.now) inputs.now) }
{
    let names = names_of(alloc, order, transcripts, scripts)?;
    Ok(collide(names.as_slice(), inputs))
}

// The names of what a run of these scripts may write, in order.
fn names_of<'a>(
    alloc: Global,
    order: &Order<'a>,
    transcripts: &'a [String],
    scripts: &'a [Script],
) -> Result<Vec<&'a str>, Memory>
    requires named { map string_bytes transcripts.now ≡ map transcript_name order.now.scripts }
    requires fit { All (All HasFileName) scripts.now }
    ensures { IfOk result (λ names. map (λ name. name.now) names.items
        ≡ output_names order.now scripts.now) }
{
    let mut names = Vec::new(alloc);
    for transcript in transcripts {
        names.push(transcript.as_str())?;
    }
    add_saves(scripts, &mut names)?;
    add_name(order.journal, &mut names)?;
    add_name(order.report, &mut names)?;
    Ok(names)
}

// Adds the name of what is wanted.
fn add_name<'a>(name: Option<&'a str>, names: &mut Vec<&'a str>) -> Result<(), Memory>
    ensures { OnOk result (map (λ n. n.now) names.new.items ≡ map (λ n. n.now) names.old.items
        ++ wanted_name (option_map (λ n. n.now) name.entry)) }
{
    if let Some(name) = name {
        names.push(name)?;
    }
    Ok(())
}

// Adds the names under which these scripts save.
fn add_saves<'a>(scripts: &'a [Script], names: &mut Vec<&'a str>) -> Result<(), Memory>
    requires fit { All (All HasFileName) scripts.now }
    ensures { OnOk result (map (λ n. n.now) names.new.items
        ≡ map (λ n. n.now) names.old.items ++ names_saved scripts.now) }
{
    match scripts {
        [] => Ok(()),
        [script, others @ ..] => {
            add_saves_in(script.lines.as_slice(), names)?;
            add_saves(others, names)
        }
    }
}

// Adds the names under which these lines save.
fn add_saves_in<'a>(lines: &'a [ScriptLine], names: &mut Vec<&'a str>) -> Result<(), Memory>
    requires fit { All HasFileName lines.now }
    ensures { OnOk result (map (λ n. n.now) names.new.items
        ≡ map (λ n. n.now) names.old.items ++ names_saved_in lines.now) }
{
    for line in lines {
        add_save(line, names)?;
    }
    Ok(())
}

// Adds the name under which this line saves, where it does.
fn add_save<'a>(line: &'a ScriptLine, names: &mut Vec<&'a str>) -> Result<(), Memory>
    requires fit { HasFileName line.now }
    ensures { OnOk result (map (λ n. n.now) names.new.items
        ≡ map (λ n. n.now) names.old.items ++ name_saved line.now.command) }
{
    if let Command::Save { name, .. } = &line.command {
        names.push(name.as_str())?;
    }
    Ok(())
}
