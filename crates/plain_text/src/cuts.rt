ghost use Rattle.std.specs.Prelude.{◌≡◌, ◌∷◌, ◌==◌, ◌<◌, [], length, IfSome, MatchOption};
ghost use Rattle.std.specs.List.{position};
ghost use Rattle.plain_text.specs.Parts.{parts, lines};

/// The text before the first such byte, and that behind it, where there is one.
pub fn cut(text: &[u8], separator: u8) -> (&[u8], Option<&[u8]>)
    ensures parts { MatchOption result.1
        (parts separator text.now ≡ result.0.now ∷ [])
        (λ rest. parts separator text.now ≡ result.0.now ∷ parts separator rest.now) }
    ensures shorter { MatchOption result.1
        (result.0.now ≡ text.now)
        (λ rest. length rest.now < length text.now) }
{
    match place(text, separator) {
        Some(at) => {
            let (_, rest) = text.split_at(at + 1);
            (&text[..at], Some(rest))
        }
        None => (text, None),
    }
}

/// The first line of a text, without its end, and what stands behind that end. `None` where no line
/// has an end.
pub fn split_line(text: &[u8]) -> Option<(&[u8], &[u8])>
    ensures lines { MatchOption result
        (lines text.now ≡ text.now ∷ [])
        (λ split. lines text.now ≡ split.0.now ∷ lines split.1.now) }
    ensures shorter { IfSome result (λ split. length split.1.now < length text.now) }
{
    match cut(text, b'\n') {
        (line, Some(rest)) => Some((line, rest)),
        (_, None) => None,
    }
}

// The place of the first such byte.
fn place(text: &[u8], separator: u8) -> Option<usize>
    ensures { result ≡ position (λ b. b == separator) text.now }
{
    text.iter().position(|b| *b == separator)
}
