ghost use Rattle.std.specs.Prelude.{◌≡◌, ◌≤◌, ◌+◌, ◌*◌, ◌^◌, IfSome, MatchOption};
ghost use Rattle.plain_text.specs.Numbers.{begins_exactly, number_from, exact};

/// The number that a word spells in its one form: digits without leading zeros. `None` for any
/// other word, and for a number over 32 bits.
pub fn exact_number(word: &[u8]) -> Option<u32>
    ensures { result ≡ exact (2 ^ 32) word.now }
{
    match exact_up_to(word, 4_294_967_295) {
        Some(n) => Some(n as u32),
        None => None,
    }
}

/// The same of a number that is at most `most`.
#[tactic(auto, unfolding(crate::specs::Numbers::exact))]
pub fn exact_up_to(word: &[u8], most: u64) -> Option<u64>
    ensures number { result ≡ exact (most + 1) word.now }
    ensures bounded { IfSome result (λ n. n ≤ most) }
{
    if !begins_exactly(word) {
        return None;
    }
    digits(word, most)
}

// Whether the word begins with 0 only where it is no more than that.
fn begins_exactly(word: &[u8]) -> bool
    ensures { result ≡ begins_exactly word.now }
{
    match word {
        [] => false,
        [_] => true,
        [first, ..] => *first != b'0',
    }
}

// The number that these digits make, where it is at most `most`.
#[tactic(auto, using(crate::proofs::Values::number_stops, crate::proofs::Values::number_ends))]
fn digits(word: &[u8], most: u64) -> Option<u64>
    ensures number { result ≡ number_from (most + 1) 0 word.now }
    ensures bounded { IfSome result (λ n. n ≤ most) }
{
    let mut n: u64 = 0;
    for b in word {
        if !b.is_ascii_digit() {
            return None;
        }
        match with_digit(n, *b - b'0', most) {
            Some(more) => n = more,
            None => return None,
        }
    }
    Some(n)
}

// The number with one more digit, where it is at most `most`.
fn with_digit(n: u64, digit: u8, most: u64) -> Option<u64>
    requires { digit ≤ 9 }
    ensures { MatchOption result (most + 1 ≤ n * 10 + digit)
        (λ m. (m ≡ n * 10 + digit) × (m ≤ most)) }
{
    let digit = u64::from(digit);
    if digit > most || n > (most - digit) / 10 {
        return None;
    }
    Some(n * 10 + digit)
}
