ghost use Rattle.std.specs.Prelude.{◌≡◌, ◌∷◌, ◌<◌, ◌≤◌, [], false, if◌then◌else◌, Some, None, IfSome, MatchOption, length};
ghost use Rattle.std.specs.Option.{option_map};
ghost use Rattle.requests.specs.command_line.Parts.{is_flag, is_operand, is_option, behind_equals, parts_of, word_alone};
ghost use Rattle.requests.specs.command_line.Steps.{part_of_texts};
ghost use Rattle.requests.specs.command_line.Texts.{texts};

// The part that begins the words, and the words behind it. An operand has no option, and what is no
// part has no text; the flag has neither.
#[derive(Drop)]
pub(crate) struct Step<'w> {
    pub(crate) flag: bool,
    pub(crate) option: Option<&'w str>,
    pub(crate) text: Option<&'w str>,
    pub(crate) others: &'w [String],
}

pub(crate) fn first_part(words: &[String]) -> Option<Step<'_>>
    ensures parts { MatchOption result (parts_of (texts words.now) ≡ [])
        (λ s. parts_of (texts words.now) ≡ part_of_texts s.flag (option_map (λ t. t.now) s.option)
        (option_map (λ t. t.now) s.text) ∷ parts_of (texts s.others.now)) }
    ensures fewer { IfSome result (λ s. length s.others.now < length words.now) }
{
    match words {
        [] => None,
        [word, others @ ..] => Some(part_before(word.as_str(), others)),
    }
}

#[tactic(auto, using(crate::proofs::OfCommandLine::Heads::not_option, crate::proofs::OfCommandLine::Heads::option_alone, crate::proofs::OfCommandLine::Heads::option_then))]
fn part_before<'w>(word: &'w str, others: &'w [String]) -> Step<'w>
    ensures parts { parts_of (word.now ∷ texts others.now)
        ≡ part_of_texts result.flag (option_map (λ t. t.now) result.option)
        (option_map (λ t. t.now) result.text) ∷ parts_of (texts result.others.now) }
    ensures fewer { length result.others.now ≤ length others.now }
{
    if !is_option(word) {
        return alone(word, others);
    }
    match others {
        [] => no_part(others),
        [next, others @ ..] => Step {
            flag: false,
            option: Some(word),
            text: operand(next.as_str()),
            others,
        },
    }
}

// A word that is no option's name.
#[tactic(auto, using(crate::proofs::OfCommandLine::Heads::split_joined))]
fn alone<'w>(word: &'w str, others: &'w [String]) -> Step<'w>
    ensures part { part_of_texts result.flag (option_map (λ t. t.now) result.option)
        (option_map (λ t. t.now) result.text) ≡ word_alone word.now }
    ensures others { result.others ≡ others.entry }
{
    if is_operand(word) {
        return Step {
            flag: false,
            option: None,
            text: Some(word),
            others,
        };
    }
    if is_flag(word) {
        return Step {
            flag: true,
            option: None,
            text: None,
            others,
        };
    }
    match word.split_once('=') {
        Some((option, value)) => behind_equals(option, value, others),
        None => no_part(others),
    }
}

// `option=value`.
fn behind_equals<'w>(option: &'w str, value: &'w str, others: &'w [String]) -> Step<'w>
    ensures part { part_of_texts result.flag (option_map (λ t. t.now) result.option)
        (option_map (λ t. t.now) result.text) ≡ behind_equals option.now value.now }
    ensures others { result.others ≡ others.entry }
{
    let text = if is_option(option) && !value.is_empty() {
        Some(value)
    } else {
        None
    };
    Step {
        flag: false,
        option: Some(option),
        text,
        others,
    }
}

fn no_part<'w>(others: &'w [String]) -> Step<'w>
    ensures { result ≡ record {
      flag = false;
      option = None;
      text = None;
      others = others.entry;
    } }
{
    Step {
        flag: false,
        option: None,
        text: None,
        others,
    }
}

// The word, where it can be an operand.
fn operand(word: &str) -> Option<&str>
    ensures { option_map (λ t. t.now) result
        ≡ (if is_operand word.now then Some word.now else None) }
{
    if is_operand(word) { Some(word) } else { None }
}

/// Whether a word can be a name, or an option's value: not empty, and not beginning with `-`.
pub fn is_operand(word: &str) -> bool
    ensures { result ≡ is_operand word.now }
{
    match word.as_bytes() {
        [] => false,
        [first, ..] => *first != b'-',
    }
}

fn is_option(word: &str) -> bool
    ensures { result ≡ is_option word.now }
{
    "--side" == word
        || "--buckets" == word
        || "--cap" == word
        || "--keep" == word
        || "--journal" == word
        || "--report" == word
}

fn is_flag(word: &str) -> bool
    ensures { result ≡ is_flag word.now }
{
    "--colours" == word
}
