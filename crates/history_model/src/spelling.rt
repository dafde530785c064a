ghost use Rattle.plain_text.specs.Steps.{Gives};
ghost use Rattle.history_model.specs.Worlds.{box_at};
ghost use Rattle.history_model.specs.Spelling.{three_numbers, box_spelled, ball_spelled, fill_spelled, erase_spelled, full_ball_spelled, carve_spelled, alone_spelled, copy_spelled, places_spelled, stamp_spelled, act_spelled, spelled_by, tint_spelled, tint_fill_spelled, tint_ball_spelled};
ghost use Rattle.std.specs.Prelude.{true};
ghost use Rattle.history_model.specs.Spelled.{act_of, spelled_act};

use plain_text::{
    ThreeWords, WordFault, WordSource, must_be, number_by, take_end, take_three, take_word,
};
use std::marker::Model;

/// Three numbers as they are spelled. Contracts see them as a cell, which may lie outside of every
/// world.
#[derive(Clone, Copy)]
pub struct Three {
    pub x: u32,
    pub y: u32,
    pub z: u32,
}

impl Model for Three {
    ghost use Rattle.vw_cell.specs.declared.cells.Cell.{Cell};

    ghost Value = { Cell };

    ghost view = { λ t. record { x = t.x; y = t.y; z = t.z } };

    ghost inverse = { λ c. record { x = c.x; y = c.y; z = c.z } };
}

/// An act as its words spell it, with numbers that no world may have.
#[derive(Clone, Copy)]
pub enum Spelled {
    Fill(Three, Three),
    Erase(Three, Three),
    Ball(Three, u32),
    Carve(Three, u32),
    Copy(Three, Three, Three),
    Stamp(u32, Three),
    Undo,
    Redo,
}

/// A spelled act and its tint, which is 1 where the words have none.
#[derive(Clone, Copy)]
pub struct SpelledTint {
    pub act: Spelled,
    pub tint: u32,
}

const FILL: &[u8] = b"fill";

const ERASE: &[u8] = b"erase";

const BALL: &[u8] = b"ball";

const CARVE: &[u8] = b"carve";

const COPY: &[u8] = b"copy";

const STAMP: &[u8] = b"stamp";

const UNDO: &[u8] = b"undo";

const REDO: &[u8] = b"redo";

/// The act of this name with the words that follow it, or the first fault: too few or too many
/// words, then a word that isn't `to` in its place, then a word that is no number.
#[tactic(auto, unfolding(crate::specs::Spelling::act_spelled))]
pub fn read_act<'l, W: WordSource<'l>>(name: &[u8], words: &mut W) -> Result<Spelled, WordFault>
    ensures { Gives act_of result (act_spelled W.spells name.now (W.words words.old)) }
{
    if name == FILL {
        return read_fill(words);
    }
    if name == ERASE {
        return read_erase(words);
    }
    if name == BALL {
        return read_ball(words);
    }
    if name == CARVE {
        return read_carve(words);
    }
    if name == COPY {
        return read_copy(words);
    }
    if name == STAMP {
        return read_stamp(words);
    }
    if name == UNDO {
        return read_alone(Spelled::Undo, words);
    }
    if name == REDO {
        return read_alone(Spelled::Redo, words);
    }
    Err(WordFault::Word)
}

/// The same in a history that is coloured or not. In a coloured one a fill and a ball have their
/// tint as a last number.
pub fn read_spelled<'l, W: WordSource<'l>>(
    coloured: bool,
    name: &[u8],
    words: &mut W,
) -> Result<SpelledTint, WordFault>
    ensures { Gives
        (spelled_act coloured)
        result
        (spelled_by coloured W.spells name.now (W.words words.old)) }
{
    if coloured {
        return read_tinted(name, words);
    }
    let act = read_act(name, words)?;
    Ok(SpelledTint { act, tint: 1 })
}

#[tactic(auto, unfolding(crate::specs::Spelling::tint_spelled))]
fn read_tinted<'l, W: WordSource<'l>>(name: &[u8], words: &mut W) -> Result<SpelledTint, WordFault>
    ensures { Gives (spelled_act true) result (tint_spelled W.spells name.now (W.words words.old)) }
{
    if name == FILL {
        return read_tint_fill(words);
    }
    if name == BALL {
        return read_tint_ball(words);
    }
    let act = read_act(name, words)?;
    Ok(SpelledTint { act, tint: 1 })
}

#[tactic(auto, unfolding(crate::specs::Spelling::tint_fill_spelled))]
fn read_tint_fill<'l, W: WordSource<'l>>(words: &mut W) -> Result<SpelledTint, WordFault>
    ensures { Gives (spelled_act true) result (tint_fill_spelled W.spells (W.words words.old)) }
{
    let at = take_three(words)?;
    let size = take_three(words)?;
    let tint = take_word(words)?;
    take_end(words)?;
    let at = three_numbers::<W>(&at)?;
    let size = three_numbers::<W>(&size)?;
    let tint = number_by::<W>(tint)?;
    let act = Spelled::Fill(at, size);
    Ok(SpelledTint { act, tint })
}

#[tactic(auto, unfolding(crate::specs::Spelling::tint_ball_spelled))]
fn read_tint_ball<'l, W: WordSource<'l>>(words: &mut W) -> Result<SpelledTint, WordFault>
    ensures { Gives (spelled_act true) result (tint_ball_spelled W.spells (W.words words.old)) }
{
    let centre = take_three(words)?;
    let radius = take_word(words)?;
    let tint = take_word(words)?;
    take_end(words)?;
    let centre = three_numbers::<W>(&centre)?;
    let radius = number_by::<W>(radius)?;
    let tint = number_by::<W>(tint)?;
    let act = Spelled::Ball(centre, radius);
    Ok(SpelledTint { act, tint })
}

fn read_fill<'l, W: WordSource<'l>>(words: &mut W) -> Result<Spelled, WordFault>
    ensures { Gives act_of result (fill_spelled W.spells (W.words words.old)) }
{
    let (at, size) = read_box(words)?;
    Ok(Spelled::Fill(at, size))
}

fn read_erase<'l, W: WordSource<'l>>(words: &mut W) -> Result<Spelled, WordFault>
    ensures { Gives act_of result (erase_spelled W.spells (W.words words.old)) }
{
    let (at, size) = read_box(words)?;
    Ok(Spelled::Erase(at, size))
}

fn read_ball<'l, W: WordSource<'l>>(words: &mut W) -> Result<Spelled, WordFault>
    ensures { Gives act_of result (full_ball_spelled W.spells (W.words words.old)) }
{
    let (centre, radius) = read_round(words)?;
    Ok(Spelled::Ball(centre, radius))
}

fn read_carve<'l, W: WordSource<'l>>(words: &mut W) -> Result<Spelled, WordFault>
    ensures { Gives act_of result (carve_spelled W.spells (W.words words.old)) }
{
    let (centre, radius) = read_round(words)?;
    Ok(Spelled::Carve(centre, radius))
}

#[tactic(auto, unfolding(crate::specs::Spelling::copy_spelled))]
fn read_copy<'l, W: WordSource<'l>>(words: &mut W) -> Result<Spelled, WordFault>
    ensures { Gives act_of result (copy_spelled W.spells (W.words words.old)) }
{
    let at = take_three(words)?;
    let size = take_three(words)?;
    let between = take_word(words)?;
    let to = take_three(words)?;
    take_end(words)?;
    must_be(between, b"to")?;
    read_places::<W>(&at, &size, &to)
}

#[tactic(auto, unfolding(crate::specs::Spelling::stamp_spelled))]
fn read_stamp<'l, W: WordSource<'l>>(words: &mut W) -> Result<Spelled, WordFault>
    ensures { Gives act_of result (stamp_spelled W.spells (W.words words.old)) }
{
    let model = take_word(words)?;
    let at = take_three(words)?;
    take_end(words)?;
    let model = number_by::<W>(model)?;
    let at = three_numbers::<W>(&at)?;
    Ok(Spelled::Stamp(model, at))
}

// An act with no words behind its name.
fn read_alone<'l, W: WordSource<'l>>(act: Spelled, words: &mut W) -> Result<Spelled, WordFault>
    ensures { Gives act_of result (alone_spelled (act_of act) (W.words words.old)) }
{
    take_end(words)?;
    Ok(act)
}

#[tactic(auto, unfolding(crate::specs::Spelling::box_spelled))]
pub fn read_box<'l, W: WordSource<'l>>(words: &mut W) -> Result<(Three, Three), WordFault>
    ensures { Gives (λ b. box_at b.0 b.1) result (box_spelled W.spells (W.words words.old)) }
{
    let at = take_three(words)?;
    let size = take_three(words)?;
    take_end(words)?;
    let at = three_numbers::<W>(&at)?;
    let size = three_numbers::<W>(&size)?;
    Ok((at, size))
}

#[tactic(auto, unfolding(crate::specs::Spelling::ball_spelled))]
fn read_round<'l, W: WordSource<'l>>(words: &mut W) -> Result<(Three, u32), WordFault>
    ensures { Gives
        (λ b. record { centre = b.0; radius = b.1 })
        result
        (ball_spelled W.spells (W.words words.old)) }
{
    let centre = take_three(words)?;
    let radius = take_word(words)?;
    take_end(words)?;
    let centre = three_numbers::<W>(&centre)?;
    let radius = number_by::<W>(radius)?;
    Ok((centre, radius))
}

// The numbers of a copy.
fn read_places<'l, W: WordSource<'l>>(
    at: &ThreeWords,
    size: &ThreeWords,
    to: &ThreeWords,
) -> Result<Spelled, WordFault>
    ensures { Gives act_of result (places_spelled W.spells at.now size.now to.now) }
{
    let at = three_numbers::<W>(at)?;
    let size = three_numbers::<W>(size)?;
    let to = three_numbers::<W>(to)?;
    Ok(Spelled::Copy(at, size, to))
}

#[tactic(auto, unfolding(crate::specs::Spelling::three_numbers))]
pub fn three_numbers<'l, W: WordSource<'l>>(words: &ThreeWords) -> Result<Three, WordFault>
    ensures { Gives (λ t. t) result (three_numbers W.spells words.now) }
{
    let x = number_by::<W>(words.x)?;
    let y = number_by::<W>(words.y)?;
    let z = number_by::<W>(words.z)?;
    Ok(Three { x, y, z })
}
