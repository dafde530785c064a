ghost use Rattle.std.specs.Prelude.{◌≡◌, ◌≤◌, ◌<◌, ◌^◌, ◌+◌, ◌-◌, ℤ, pos, ◌≤ℤ◌, Bool, IfSome};
ghost use Rattle.std.proofs.Common.{neg_ℤ};
ghost use Rattle.vox_scene.specs.Numbers.{digits_in, signed_in};

// The number of at least one digit and at most so many, which may begin with zeros.
#[tactic(auto, using(crate::proofs::Digits::digits_stop, crate::proofs::Digits::digits_end))]
pub(crate) fn number_in(text: &[u8], most: usize) -> Option<u32>
    requires { most ≤ 6 }
    ensures value { result ≡ digits_in most text.now }
    ensures small { IfSome result (λ n. n < 10 ^ 6) }
{
    if text.is_empty() || text.len() > most {
        return None;
    }
    let mut n: u32 = 0;
    for b in text {
        if *b < b'0' || *b > b'9' {
            return None;
        }
        n = 10 * n + u32::from(*b - b'0');
    }
    Some(n)
}

// The number of 1 to 6 digits, before which a `-` may stand.
pub(crate) fn signed_in(text: &[u8]) -> Option<i32>
    ensures value { result ≡ signed_in text.now }
    ensures low { IfSome result (λ d. neg_ℤ (pos 999999) ≤ℤ d) }
    ensures high { IfSome result (λ d. d ≤ℤ pos 999999) }
{
    match text {
        [b'-', rest @ ..] => match number_in(rest, 6) {
            Some(n) => Some(-(n as i32)),
            None => None,
        },
        _ => match number_in(text, 6) {
            Some(n) => Some(n as i32),
            None => None,
        },
    }
}
