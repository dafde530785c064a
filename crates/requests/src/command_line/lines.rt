ghost use Rattle.std.specs.Prelude.{◌≡◌, ◌≤◌, true, length};
ghost use Rattle.std.specs.List.{list_all};
ghost use Rattle.requests.specs.command_line.Parts.{is_part, parts_of, flags_in, operands_in, values_in, is_given_once, is_number_of_operands, are_of_a_run};
ghost use Rattle.requests.specs.command_line.Texts.{texts};

use crate::command_line::parts::first_part;
use std::marker::Model;

/// The texts of the words behind `run`: the value that each option is given, whether the flag
/// `--colours` stands there, and the operands.
#[derive(Drop)]
pub struct Line<'w> {
    pub side: Option<&'w str>,
    pub buckets: Option<&'w str>,
    pub cap: Option<&'w str>,
    pub keep: Option<&'w str>,
    pub journal: Option<&'w str>,
    pub report: Option<&'w str>,
    pub colours: bool,
    pub operands: Vec<&'w str>,
}

impl<'w> Model for Line<'w> {
    ghost use Rattle.std.specs.Prelude.{map, option_map};
    ghost use Rattle.requests.specs.command_line.Parts.{LineTexts};

    ghost Value = { LineTexts };

    ghost view = { λ line. record {
      side = option_map (λ t. t.now) line.side;
      buckets = option_map (λ t. t.now) line.buckets;
      cap = option_map (λ t. t.now) line.cap;
      keep = option_map (λ t. t.now) line.keep;
      journal = option_map (λ t. t.now) line.journal;
      report = option_map (λ t. t.now) line.report;
      colours = line.colours;
      operands = map (λ t. t.now) line.operands.items;
    } };
}

/// Whether these words can stand behind `run`: operands, a file and 1 to 64 scripts, and among them
/// the options with their values and the flag, each at most once.
pub fn are_of_a_run(words: &[String]) -> bool
    ensures are { result ≡ are_of_a_run (parts_of (texts words.now)) }
    ensures few { result ≡ true → length (operands_in (parts_of (texts words.now))) ≤ 65 }
{
    are_parts(words)
        && (is_given_once(words, "--side")
            && (is_given_once(words, "--buckets")
                && (is_given_once(words, "--cap")
                    && (is_given_once(words, "--keep")
                        && (is_given_once(words, "--journal")
                            && is_given_once(words, "--report"))))))
        && number_of_flags(words) <= 1
        && is_number_of_operands(number_of_operands(words))
}

// Whether each word has its place.
fn are_parts(words: &[String]) -> bool
    ensures { result ≡ list_all is_part (parts_of (texts words.now)) }
{
    match first_part(words) {
        None => true,
        Some(step) => (step.flag || step.text.is_some()) && are_parts(step.others),
    }
}

fn number_of_operands(words: &[String]) -> usize
    ensures number { result ≡ length (operands_in (parts_of (texts words.now))) }
    ensures small { result ≤ length words.now }
{
    let Some(step) = first_part(words) else {
        return 0;
    };
    let others = number_of_operands(step.others);
    match (step.flag, step.option, step.text) {
        (false, None, Some(_)) => 1 + others,
        _ => others,
    }
}

fn number_of_flags(words: &[String]) -> usize
    ensures number { result ≡ flags_in (parts_of (texts words.now)) }
    ensures small { result ≤ length words.now }
{
    let Some(step) = first_part(words) else {
        return 0;
    };
    let others = number_of_flags(step.others);
    if step.flag { 1 + others } else { others }
}

fn is_number_of_operands(n: usize) -> bool
    ensures { result ≡ is_number_of_operands n }
{
    2 <= n && n <= 65
}

fn is_given_once(words: &[String], option: &str) -> bool
    ensures { result ≡ is_given_once (parts_of (texts words.now)) option.now }
{
    number_of_values(words, option) <= 1
}

fn number_of_values(words: &[String], option: &str) -> usize
    ensures number { result ≡ length (values_in option.now (parts_of (texts words.now))) }
    ensures small { result ≤ length words.now }
{
    let Some(step) = first_part(words) else {
        return 0;
    };
    let others = number_of_values(step.others, option);
    match (step.flag, step.option, step.text) {
        (false, Some(name), Some(_)) if name == option => 1 + others,
        _ => others,
    }
}
