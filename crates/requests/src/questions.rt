//! The words of a question, as they are spelled.
ghost use Rattle.std.specs.Prelude.{◌≡◌};
ghost use Rattle.std.specs.Option.{option_map};
ghost use Rattle.requests.specs.command_line.Texts.{texts};
ghost use Rattle.history_model.specs.Worlds.{box_at};
ghost use Rattle.script.specs.Numbers.{loose};
ghost use Rattle.dag_answers.specs.Questions.{question_spelled, step_spelled, heading_spelled};
ghost use Rattle.requests.specs.Questions.{place_in, asked_box, signed_digits, step_in, asked_heading, get_in, bounds_in, ray_in, question_in};

use dag_answers::{SpelledQuestion, SpelledStep, SpelledWay};
use history_model::Three;
use script::number;

/// The question of this name with the words behind it.
pub(crate) fn question_in(name: &str, words: &[String]) -> Option<SpelledQuestion>
    ensures { option_map question_spelled result ≡ question_in name.now (texts words.now) }
{
    if name == "get" {
        return get_in(words);
    }
    if name == "count" {
        let (at, size) = box_in(words)?;
        return Some(SpelledQuestion::Count(at, size));
    }
    if name == "bounds" {
        return bounds_in(words);
    }
    if name == "faces" {
        let (at, size) = box_in(words)?;
        return Some(SpelledQuestion::Faces(at, size));
    }
    if name == "ray" {
        return ray_in(words);
    }
    None
}

fn get_in(words: &[String]) -> Option<SpelledQuestion>
    ensures { option_map question_spelled result ≡ get_in (texts words.now) }
{
    let [x, y, z] = words else {
        return None;
    };
    let at = place_in(x.as_str(), y.as_str(), z.as_str())?;
    Some(SpelledQuestion::Get(at))
}

fn bounds_in(words: &[String]) -> Option<SpelledQuestion>
    ensures { option_map question_spelled result ≡ bounds_in (texts words.now) }
{
    match words {
        [] => Some(SpelledQuestion::Bounds),
        _ => None,
    }
}

fn ray_in(words: &[String]) -> Option<SpelledQuestion>
    ensures { option_map question_spelled result ≡ ray_in (texts words.now) }
{
    let [x, y, z, steps @ ..] = words else {
        return None;
    };
    let from = place_in(x.as_str(), y.as_str(), z.as_str())?;
    let way = way_in(steps)?;
    Some(SpelledQuestion::Ray(from, way))
}

// `x y z a b c`, the corner and the size of a box.
fn box_in(words: &[String]) -> Option<(Three, Three)>
    ensures { option_map (λ b. box_at b.0 b.1) result ≡ asked_box (texts words.now) }
{
    let [x, y, z, a, b, c] = words else {
        return None;
    };
    let at = place_in(x.as_str(), y.as_str(), z.as_str())?;
    let size = place_in(a.as_str(), b.as_str(), c.as_str())?;
    Some((at, size))
}

fn place_in(x: &str, y: &str, z: &str) -> Option<Three>
    ensures { result ≡ place_in x.now y.now z.now }
{
    let x = loose(x)?;
    let y = loose(y)?;
    let z = loose(z)?;
    Some(Three { x, y, z })
}

fn way_in(words: &[String]) -> Option<SpelledWay>
    ensures { option_map heading_spelled result ≡ asked_heading (texts words.now) }
{
    let [dx, dy, dz] = words else {
        return None;
    };
    let x = step_in(dx.as_str().as_bytes())?;
    let y = step_in(dy.as_str().as_bytes())?;
    let z = step_in(dz.as_str().as_bytes())?;
    Some(SpelledWay { x, y, z })
}

fn step_in(word: &[u8]) -> Option<SpelledStep>
    ensures { option_map step_spelled result ≡ step_in word.now }
{
    match word {
        [] => None,
        [b'-', digits @ ..] => sized(true, digits),
        _ => sized(false, word),
    }
}

fn sized(low: bool, digits: &[u8]) -> Option<SpelledStep>
    ensures { option_map step_spelled result ≡ signed_digits low digits.now }
{
    let size = number(digits).ok()?;
    Some(SpelledStep { low, size })
}

// The number of 1 to 9 digits that a word spells.
fn loose(word: &str) -> Option<u32>
    ensures { result ≡ loose word.now }
{
    number(word.as_bytes()).ok()
}
