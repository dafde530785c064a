ghost use Rattle.std.specs.Prelude.{◌≡◌, ◌≤◌, ◌++◌, Bool, false, true, Err, None, codes, length, option_copied, take, drop};
ghost use Rattle.std.specs.Str.{bytes_eq};
ghost use Rattle.script.specs.declared.commands.Command.TheVariants.{Ask, Head};
ghost use Rattle.history_model.specs.declared.questions.Question.TheVariants.{Bounds};
ghost use Rattle.plain_text.specs.declared.faults.WordFault.TheVariants.{Word};
ghost use Rattle.plain_text.specs.Steps.{Gives};
ghost use Rattle.script.specs.Commands.{last_word, tint_of_word, fill_scripted, ball_scripted, tint_scripted, scripted, change_row, tried_rows, question_rows, other_rows, command_read_by, at_words, try_words, tint_rows, get_spelled, colour_spelled, count_spelled, faces_spelled, command_alone, way_spelled, sized, step_by, ray_spelled, save_name, save_spelled, of_version, forget_spelled, same_spelled, command_spelled};
ghost use Rattle.history_model.specs.Spelled.{spelled_act};
ghost use Rattle.script.specs.Said.{step_said, way_said, asked_command, name_said, query_command, command_said};

use crate::names::{is_change, is_edit, is_question};
use crate::numbers::number;
use crate::said::{Asked, NameWord, SignedSize, SpelledAsk, SpelledCommand, SpelledSteps};
use crate::words::Words;
use history_model::{Spelled, SpelledTint, read_act, read_box, three_numbers};
use plain_text::{ThreeWords, WordFault, number_by, take_end, take_three, take_word};

const FILL: &[u8] = b"fill";

const BALL: &[u8] = b"ball";

const GET: &[u8] = b"get";

const COLOUR: &[u8] = b"colour";

const COUNT: &[u8] = b"count";

const FACES: &[u8] = b"faces";

const BOUNDS: &[u8] = b"bounds";

const RAY: &[u8] = b"ray";

const FORGET: &[u8] = b"forget";

const SAME: &[u8] = b"same";

const HEAD: &[u8] = b"head";

const AT: &[u8] = b"at";

const TRY: &[u8] = b"try";

const SAVE: &[u8] = b"save";

/// The command of this name with the words that follow it, wherever it may lie, in a world with
/// tints or without.
#[tactic(auto, using(crate::proofs::RowLaws::change_found))]
pub(crate) fn spell_command(
    tint: bool,
    name: &[u8],
    words: &mut Words,
) -> Result<SpelledCommand, WordFault>
    ensures { Gives (command_said tint) result (command_spelled tint name.now words.old) }
{
    if is_change(name) {
        return spell_change(tint, false, name, words);
    }
    if is_question(tint, name) {
        return spell_ask(tint, name, words);
    }
    spell_other(tint, name, words)
}

// The change of this name, in one attempt where `once` is set.
fn spell_change(
    tint: bool,
    once: bool,
    name: &[u8],
    words: &mut Words,
) -> Result<SpelledCommand, WordFault>
    ensures { Gives (command_said tint) result ((change_row tint once name.now).read words.old) }
{
    let act = read_change(tint, name, words)?;
    Ok(SpelledCommand::Edit(act, once))
}

fn read_change(tint: bool, name: &[u8], words: &mut Words) -> Result<SpelledTint, WordFault>
    ensures { Gives (spelled_act tint) result (scripted tint name.now words.old) }
{
    if tint {
        return read_tinted(name, words);
    }
    let act = read_act(name, words)?;
    Ok(SpelledTint { act, tint: 1 })
}

#[tactic(auto, unfolding(crate::specs::Commands::tint_scripted))]
fn read_tinted(name: &[u8], words: &mut Words) -> Result<SpelledTint, WordFault>
    ensures { Gives (spelled_act true) result (tint_scripted name.now words.old) }
{
    if name == FILL {
        return read_fill(words);
    }
    if name == BALL {
        return read_ball(words);
    }
    let act = read_act(name, words)?;
    Ok(SpelledTint { act, tint: 1 })
}

#[tactic(auto, unfolding(crate::specs::Commands::fill_scripted))]
fn read_fill(words: &mut Words) -> Result<SpelledTint, WordFault>
    ensures { Gives (spelled_act true) result (fill_scripted words.old) }
{
    let at = take_three(words)?;
    let size = take_three(words)?;
    let tint = take_last(words)?;
    let at = three_numbers::<Words>(&at)?;
    let size = three_numbers::<Words>(&size)?;
    let tint = read_tint(tint)?;
    let act = Spelled::Fill(at, size);
    Ok(SpelledTint { act, tint })
}

#[tactic(auto, unfolding(crate::specs::Commands::ball_scripted))]
fn read_ball(words: &mut Words) -> Result<SpelledTint, WordFault>
    ensures { Gives (spelled_act true) result (ball_scripted words.old) }
{
    let centre = take_three(words)?;
    let radius = take_word(words)?;
    let tint = take_last(words)?;
    let centre = three_numbers::<Words>(&centre)?;
    let radius = number_by::<Words>(radius)?;
    let tint = read_tint(tint)?;
    let act = Spelled::Ball(centre, radius);
    Ok(SpelledTint { act, tint })
}

// The last word, where there is one.
fn take_last<'l>(words: &mut Words<'l>) -> Result<Option<&'l [u8]>, WordFault>
    ensures { Gives (λ word. option_copied word) result (last_word words.old) }
{
    let Some(word) = words.next_word() else {
        return Ok(None);
    };
    take_end(words)?;
    Ok(Some(word))
}

// The tint of a word, and 1 where there is none.
fn read_tint(word: Option<&[u8]>) -> Result<u32, WordFault>
    ensures { result ≡ tint_of_word (option_copied word.entry) }
{
    match word {
        Some(word) => number_by::<Words>(word),
        None => Ok(1),
    }
}

fn spell_ask(tint: bool, name: &[u8], words: &mut Words) -> Result<SpelledCommand, WordFault>
    ensures { Gives (command_said tint) result
        (command_read_by (question_rows tint) (Err Word) name.now words.old) }
{
    let query = spell_query(tint, name, words)?;
    Ok(of_newest(query))
}

fn of_newest(query: SpelledAsk) -> SpelledCommand
    ensures { (tint : Bool) → command_said tint result ≡ query_command query }
{
    match query {
        SpelledAsk::Question(asked) => SpelledCommand::Ask(None, asked),
        SpelledAsk::Save(name, at, size) => SpelledCommand::Save(None, name, at, size),
    }
}

fn of_version(version: u32, query: SpelledAsk) -> SpelledCommand
    ensures { (tint : Bool) → command_said tint result ≡ of_version version (query_command query) }
{
    match query {
        SpelledAsk::Question(asked) => SpelledCommand::Ask(Some(version), asked),
        SpelledAsk::Save(name, at, size) => SpelledCommand::Save(Some(version), name, at, size),
    }
}

// What is asked by this name with the words that follow it.
#[tactic(auto, using(crate::proofs::RowLaws::save_found))]
fn spell_query(tint: bool, name: &[u8], words: &mut Words) -> Result<SpelledAsk, WordFault>
    ensures { Gives query_command result
        (command_read_by (question_rows tint) (Err Word) name.now words.old) }
{
    if name == SAVE {
        return spell_save(words);
    }
    let asked = spell_question(tint, name, words)?;
    Ok(SpelledAsk::Question(asked))
}

// The question of this name with the words that follow it.
#[tactic(auto, unfolding(crate::specs::Commands::question_rows))]
fn spell_question(tint: bool, name: &[u8], words: &mut Words) -> Result<Asked, WordFault>
    requires { bytes_eq name.now (codes "save") ≡ false }
    ensures { Gives asked_command result
        (command_read_by (question_rows tint) (Err Word) name.now words.old) }
{
    if name == GET {
        return spell_get(words);
    }
    if name == COUNT {
        return spell_count(words);
    }
    if name == FACES {
        return spell_faces(words);
    }
    if name == BOUNDS {
        return spell_bounds(words);
    }
    if name == RAY {
        return spell_ray(words);
    }
    if tint {
        return spell_tint_question(name, words);
    }
    Err(WordFault::Word)
}

fn spell_tint_question(name: &[u8], words: &mut Words) -> Result<Asked, WordFault>
    ensures { Gives asked_command result
        (command_read_by (tint_rows true) (Err Word) name.now words.old) }
{
    if name == COLOUR {
        return spell_colour(words);
    }
    Err(WordFault::Word)
}

#[tactic(auto, unfolding(crate::specs::Commands::get_spelled))]
fn spell_get(words: &mut Words) -> Result<Asked, WordFault>
    ensures { Gives asked_command result (get_spelled words.old) }
{
    let at = take_three(words)?;
    take_end(words)?;
    let at = three_numbers::<Words>(&at)?;
    Ok(Asked::Get(at))
}

#[tactic(auto, unfolding(crate::specs::Commands::colour_spelled))]
fn spell_colour(words: &mut Words) -> Result<Asked, WordFault>
    ensures { Gives asked_command result (colour_spelled words.old) }
{
    let at = take_three(words)?;
    take_end(words)?;
    let at = three_numbers::<Words>(&at)?;
    Ok(Asked::Colour(at))
}

fn spell_count(words: &mut Words) -> Result<Asked, WordFault>
    ensures { Gives asked_command result (count_spelled words.old) }
{
    let (at, size) = read_box(words)?;
    Ok(Asked::Count(at, size))
}

fn spell_faces(words: &mut Words) -> Result<Asked, WordFault>
    ensures { Gives asked_command result (faces_spelled words.old) }
{
    let (at, size) = read_box(words)?;
    Ok(Asked::Faces(at, size))
}

fn spell_bounds(words: &mut Words) -> Result<Asked, WordFault>
    ensures { Gives asked_command result (command_alone (Ask None Bounds) words.old) }
{
    take_end(words)?;
    Ok(Asked::Bounds)
}

#[tactic(auto, unfolding(crate::specs::Commands::save_spelled))]
fn spell_save(words: &mut Words) -> Result<SpelledAsk, WordFault>
    ensures { Gives query_command result (save_spelled words.old) }
{
    let name = take_word(words)?;
    let at = take_three(words)?;
    let size = take_three(words)?;
    take_end(words)?;
    let corner = three_numbers::<Words>(&at)?;
    let extent = three_numbers::<Words>(&size)?;
    Ok(SpelledAsk::Save(name_word(name), corner, extent))
}

fn name_word(word: &[u8]) -> NameWord
    ensures { name_said result ≡ save_name word.now }
{
    let mut bytes = [0; 64];
    begin_with(&mut bytes, first_bytes(word));
    NameWord {
        bytes,
        len: word.len(),
    }
}

#[tactic(auto, using(crate::proofs::SaveNames::short_word))]
fn first_bytes(word: &[u8]) -> &[u8]
    ensures first { result.now ≡ take 64 word.now }
    ensures few { length result.now ≤ 64 }
{
    if word.len() > 64 {
        let (first, _) = word.split_at(64);
        return first;
    }
    word
}

// The first bytes become those of the word.
fn begin_with(bytes: &mut [u8; 64], word: &[u8])
    requires { length word.now ≤ 64 }
    ensures { bytes.new ≡ word.now ++ drop (length word.now) bytes.old }
{
    bytes[..word.len()].copy_from_slice(word);
}

#[tactic(auto, unfolding(crate::specs::Commands::ray_spelled))]
fn spell_ray(words: &mut Words) -> Result<Asked, WordFault>
    ensures { Gives asked_command result (ray_spelled words.old) }
{
    let at = take_three(words)?;
    let steps = take_three(words)?;
    take_end(words)?;
    let from = three_numbers::<Words>(&at)?;
    let steps = read_steps(&steps)?;
    Ok(Asked::Ray(from, steps))
}

#[tactic(auto, unfolding(crate::specs::Commands::way_spelled))]
fn read_steps(words: &ThreeWords) -> Result<SpelledSteps, WordFault>
    ensures { Gives way_said result (way_spelled words.now) }
{
    let x = read_step(words.x)?;
    let y = read_step(words.y)?;
    let z = read_step(words.z)?;
    Ok(SpelledSteps { x, y, z })
}

// A step of a ray, which may have one `-` before its digits.
fn read_step(word: &[u8]) -> Result<SignedSize, WordFault>
    ensures { Gives step_said result (step_by word.now) }
{
    match word.strip_prefix(b"-") {
        Some(digits) => read_size(digits, true),
        None => read_size(word, false),
    }
}

fn read_size(digits: &[u8], low: bool) -> Result<SignedSize, WordFault>
    ensures { Gives step_said result (sized low digits.now) }
{
    match number(digits) {
        Ok(size) => Ok(SignedSize { low, size }),
        Err(_) => Err(WordFault::Number),
    }
}

// A command that is no change and no question.
#[tactic(auto, unfolding(crate::specs::Commands::other_rows))]
fn spell_other(tint: bool, name: &[u8], words: &mut Words) -> Result<SpelledCommand, WordFault>
    ensures { Gives (command_said tint) result
        (command_read_by (other_rows tint) (Err Word) name.now words.old) }
{
    if name == FORGET {
        return spell_forget(tint, words);
    }
    if name == SAME {
        return spell_same(tint, words);
    }
    if name == HEAD {
        return spell_head(tint, words);
    }
    if name == AT {
        return spell_at(tint, words);
    }
    if name == TRY {
        return spell_try(tint, words);
    }
    Err(WordFault::Word)
}

#[tactic(auto, unfolding(crate::specs::Commands::forget_spelled))]
fn spell_forget(tint: bool, words: &mut Words) -> Result<SpelledCommand, WordFault>
    ensures { Gives (command_said tint) result (forget_spelled words.old) }
{
    let version = take_word(words)?;
    take_end(words)?;
    let v = number_by::<Words>(version)?;
    Ok(SpelledCommand::Forget(v))
}

#[tactic(auto, unfolding(crate::specs::Commands::same_spelled))]
fn spell_same(tint: bool, words: &mut Words) -> Result<SpelledCommand, WordFault>
    ensures { Gives (command_said tint) result (same_spelled words.old) }
{
    let first = take_word(words)?;
    let second = take_word(words)?;
    take_end(words)?;
    let v = number_by::<Words>(first)?;
    let w = number_by::<Words>(second)?;
    Ok(SpelledCommand::Same(v, w))
}

fn spell_head(tint: bool, words: &mut Words) -> Result<SpelledCommand, WordFault>
    ensures { Gives (command_said tint) result (command_alone Head words.old) }
{
    take_end(words)?;
    Ok(SpelledCommand::Head)
}

// A question of the version that stands before it.
#[tactic(auto, unfolding(crate::specs::Commands::at_words))]
fn spell_at(tint: bool, words: &mut Words) -> Result<SpelledCommand, WordFault>
    ensures { Gives (command_said tint) result (at_words tint words.old) }
{
    let version = take_word(words)?;
    let name = take_word(words)?;
    let query = spell_query(tint, name, words)?;
    let v = number_by::<Words>(version)?;
    Ok(of_version(v, query))
}

// One of the edits, in one attempt.
#[tactic(auto, unfolding(crate::specs::Commands::try_words))]
fn spell_try(tint: bool, words: &mut Words) -> Result<SpelledCommand, WordFault>
    ensures { Gives (command_said tint) result (try_words tint words.old) }
{
    let name = take_word(words)?;
    spell_tried(tint, name, words)
}

#[tactic(auto, using(crate::proofs::RowLaws::tried_unknown))]
fn spell_tried(tint: bool, name: &[u8], words: &mut Words) -> Result<SpelledCommand, WordFault>
    ensures { Gives (command_said tint) result
        (command_read_by (tried_rows tint) (Err Word) name.now words.old) }
{
    if !is_edit(name) {
        return Err(WordFault::Word);
    }
    spell_change(tint, true, name, words)
}
