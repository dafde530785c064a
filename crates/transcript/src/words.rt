ghost use Rattle.std.specs.Prelude.{◌≡◌, ◌+◌, ◌≤◌, ◌^◌, IfOk};
ghost use Rattle.plain_text.specs.Parts.{words};
ghost use Rattle.transcript.specs.declared.answers.Answer.TheVariants.{Colour, Count, Faces, Saved, Forgot, Forgotten, Stale};
ghost use Rattle.transcript.specs.Rows.{limited_number, nothing_said, number_said, version_said, tint_said, sum_said, word_said, full_said, no_said, way_told, way_to, cell_said, hit_said, box_said, bounds_said, short_spelled, answer_spelled, moment_spelled, line_spelled};

use crate::answers::{Answer, LineAnswer};
use plain_text::{
    ExactWords, ThreeWords, WordFault, exact_up_to, must_be, take_end, take_three, take_word,
};
use vw_cell::{Boxed, Cell};

/// The greatest number of 32 bits.
const MOST_32: u64 = 4_294_967_295;

const COLOUR: &[u8] = b"colour";

const COUNT: &[u8] = b"count";

const FACES: &[u8] = b"faces";

const SAVED: &[u8] = b"saved";

const FORGOT: &[u8] = b"forgot";

const FORGOTTEN: &[u8] = b"forgotten";

const STALE: &[u8] = b"stale";

const NO: &[u8] = b"no";

const BOUNDS: &[u8] = b"bounds";

const HIT: &[u8] = b"hit";

const FULL: &[u8] = b"full";

const OK: &[u8] = b"ok";

const SET: &[u8] = b"set";

const CLEAR: &[u8] = b"clear";

const MISS: &[u8] = b"miss";

const SAME: &[u8] = b"same";

const DIFFERENT: &[u8] = b"different";

const HEAD: &[u8] = b"head";

const IS: &[u8] = b"is";

const LOG: &[u8] = b"log";

const NOTHING: &[u8] = b"nothing";

const NONE: &[u8] = b"none";

const UNDO: &[u8] = b"undo";

/// The answer of a line, with its number and its moment.
#[tactic(auto, unfolding(crate::specs::Rows::line_spelled))]
pub(crate) fn read_line(line: &[u8]) -> Result<LineAnswer, WordFault>
    ensures { result ≡ line_spelled (words line.now) }
{
    let mut words = ExactWords::new(line);
    let first = take_word(&mut words)?;
    let second = take_word(&mut words)?;
    let name = take_word(&mut words)?;
    let answer = read_answer(name, &mut words)?;
    let line = number_32(first)?;
    let at = read_moment(second)?;
    Ok(LineAnswer { line, at, answer })
}

fn read_moment(word: &[u8]) -> Result<u32, WordFault>
    ensures { result ≡ moment_spelled word.now }
{
    match word.split_first() {
        Some((first, digits)) => {
            if *first != b'@' {
                return Err(WordFault::Word);
            }
            number_32(digits)
        }
        None => Err(WordFault::Word),
    }
}

// The answer that begins with this word.
#[tactic(auto, unfolding(crate::specs::Rows::long_rows))]
fn read_answer(name: &[u8], words: &mut ExactWords) -> Result<Answer, WordFault>
    ensures { result ≡ answer_spelled name.now words.old }
{
    if name == COLOUR {
        return read_colour(words);
    }
    if name == COUNT {
        return read_count(words);
    }
    if name == FACES {
        return read_faces(words);
    }
    if name == SAVED {
        return read_saved(words);
    }
    if name == FORGOT {
        return read_forgot(words);
    }
    if name == FORGOTTEN {
        return read_forgotten(words);
    }
    if name == STALE {
        return read_stale(words);
    }
    if name == NO {
        return read_no_version(words);
    }
    if name == BOUNDS {
        return read_bounds(words);
    }
    if name == HIT {
        return read_hit(words);
    }
    if name == FULL {
        return read_full(words);
    }
    read_short(name, words)
}

// The same of the answers without numbers.
#[tactic(auto, unfolding(crate::specs::Rows::short_rows))]
fn read_short(name: &[u8], words: &mut ExactWords) -> Result<Answer, WordFault>
    ensures { result ≡ short_spelled name.now words.old }
{
    if name == OK {
        return read_nothing(Answer::Done, words);
    }
    if name == SET {
        return read_nothing(Answer::Is(true), words);
    }
    if name == CLEAR {
        return read_nothing(Answer::Is(false), words);
    }
    if name == MISS {
        return read_nothing(Answer::Hit(None), words);
    }
    if name == SAME {
        return read_nothing(Answer::Same(true), words);
    }
    if name == DIFFERENT {
        return read_nothing(Answer::Same(false), words);
    }
    if name == HEAD {
        return read_nothing(Answer::Head, words);
    }
    if name == IS {
        return read_word(b"head", Answer::IsHead, words);
    }
    if name == LOG {
        return read_word(b"full", Answer::LogFull, words);
    }
    if name == NOTHING {
        return read_way_to(words);
    }
    Err(WordFault::Word)
}

fn read_colour(words: &mut ExactWords) -> Result<Answer, WordFault>
    ensures { result ≡ tint_said words.old }
{
    let tint = read_number(words, 255)?;
    Ok(Answer::Colour(tint as u8))
}

fn read_count(words: &mut ExactWords) -> Result<Answer, WordFault>
    ensures { result ≡ sum_said Count words.old }
{
    let cells = read_number(words, u64::MAX)?;
    Ok(Answer::Count(cells))
}

fn read_faces(words: &mut ExactWords) -> Result<Answer, WordFault>
    ensures { result ≡ sum_said Faces words.old }
{
    let number = read_number(words, u64::MAX)?;
    Ok(Answer::Faces(number))
}

fn read_saved(words: &mut ExactWords) -> Result<Answer, WordFault>
    ensures { result ≡ sum_said Saved words.old }
{
    let cells = read_number(words, u64::MAX)?;
    Ok(Answer::Saved(cells))
}

fn read_forgot(words: &mut ExactWords) -> Result<Answer, WordFault>
    ensures { result ≡ version_said Forgot words.old }
{
    let v = read_number(words, MOST_32)?;
    Ok(Answer::Forgot(v as u32))
}

fn read_forgotten(words: &mut ExactWords) -> Result<Answer, WordFault>
    ensures { result ≡ version_said Forgotten words.old }
{
    let v = read_number(words, MOST_32)?;
    Ok(Answer::Forgotten(v as u32))
}

fn read_stale(words: &mut ExactWords) -> Result<Answer, WordFault>
    ensures { result ≡ version_said Stale words.old }
{
    let base = read_number(words, MOST_32)?;
    Ok(Answer::Stale(base as u32))
}

#[tactic(auto, unfolding(crate::specs::Rows::no_said))]
fn read_no_version(words: &mut ExactWords) -> Result<Answer, WordFault>
    ensures { result ≡ no_said words.old }
{
    let word = take_word(words)?;
    let version = take_word(words)?;
    take_end(words)?;
    must_be(word, b"version")?;
    let v = number_32(version)?;
    Ok(Answer::NoVersion(v))
}

#[tactic(auto, unfolding(crate::specs::Rows::bounds_said))]
fn read_bounds(words: &mut ExactWords) -> Result<Answer, WordFault>
    ensures { result ≡ bounds_said words.old }
{
    let first = take_word(words)?;
    if first == NONE {
        return read_nothing(Answer::Extent(None), words);
    }
    read_box(first, words)
}

// The box whose first number was read.
#[tactic(auto, unfolding(crate::specs::Rows::box_said))]
fn read_box(x: &[u8], words: &mut ExactWords) -> Result<Answer, WordFault>
    ensures { result ≡ box_said x.now words.old }
{
    let y = take_word(words)?;
    let z = take_word(words)?;
    let size = take_three(words)?;
    take_end(words)?;
    let at = read_cell(&ThreeWords { x, y, z })?;
    let size = read_cell(&size)?;
    Ok(Answer::Extent(Some(Boxed { at, size })))
}

#[tactic(auto, unfolding(crate::specs::Rows::hit_said))]
fn read_hit(words: &mut ExactWords) -> Result<Answer, WordFault>
    ensures { result ≡ hit_said words.old }
{
    let at = take_three(words)?;
    take_end(words)?;
    let c = read_cell(&at)?;
    Ok(Answer::Hit(Some(c)))
}

#[tactic(auto, unfolding(crate::specs::Rows::full_said))]
fn read_full(words: &mut ExactWords) -> Result<Answer, WordFault>
    ensures { result ≡ full_said words.old }
{
    let level = take_word(words)?;
    let bucket = take_word(words)?;
    take_end(words)?;
    let level = number(level, 255)?;
    let bucket = number(bucket, 65_535)?;
    Ok(Answer::Full {
        level: level as u8,
        bucket: bucket as u16,
    })
}

fn read_nothing(answer: Answer, words: &mut ExactWords) -> Result<Answer, WordFault>
    ensures { result ≡ nothing_said answer words.old }
{
    take_end(words)?;
    Ok(answer)
}

#[tactic(auto, unfolding(crate::specs::Rows::word_said))]
fn read_word(fixed: &[u8], answer: Answer, words: &mut ExactWords) -> Result<Answer, WordFault>
    ensures { result ≡ word_said fixed.now answer words.old }
{
    let word = take_word(words)?;
    take_end(words)?;
    must_be(word, fixed)?;
    Ok(answer)
}

#[tactic(auto, unfolding(crate::specs::Rows::way_to))]
fn read_way_to(words: &mut ExactWords) -> Result<Answer, WordFault>
    ensures { result ≡ way_to words.old }
{
    let word = take_word(words)?;
    let way = take_word(words)?;
    take_end(words)?;
    must_be(word, b"to")?;
    read_way(way)
}

fn read_way(word: &[u8]) -> Result<Answer, WordFault>
    ensures { result ≡ way_told word.now }
{
    if word == UNDO {
        return Ok(Answer::NothingToUndo);
    }
    must_be(word, b"redo")?;
    Ok(Answer::NothingToRedo)
}

// One number that is at most `most`, and no further word.
#[tactic(auto, unfolding(crate::specs::Rows::number_said))]
fn read_number(words: &mut ExactWords, most: u64) -> Result<u64, WordFault>
    ensures number { result ≡ number_said (most + 1) words.old }
    ensures bounded { IfOk result (λ n. n ≤ most) }
{
    let word = take_word(words)?;
    take_end(words)?;
    number(word, most)
}

#[tactic(auto, unfolding(crate::specs::Rows::cell_said))]
fn read_cell(words: &ThreeWords) -> Result<Cell, WordFault>
    ensures { result ≡ cell_said words.now }
{
    let x = number(words.x, 65_535)?;
    let y = number(words.y, 65_535)?;
    let z = number(words.z, 65_535)?;
    Ok(Cell {
        x: x as u16,
        y: y as u16,
        z: z as u16,
    })
}

fn number_32(word: &[u8]) -> Result<u32, WordFault>
    ensures { result ≡ limited_number (2 ^ 32) word.now }
{
    let n = number(word, MOST_32)?;
    Ok(n as u32)
}

fn number(word: &[u8], most: u64) -> Result<u64, WordFault>
    ensures number { result ≡ limited_number (most + 1) word.now }
    ensures bounded { IfOk result (λ n. n ≤ most) }
{
    match exact_up_to(word, most) {
        Some(n) => Ok(n),
        None => Err(WordFault::Number),
    }
}
