ghost use Rattle.std.specs.Prelude.{◌≡◌, ◌++◌, IfOk, string_bytes};
ghost use Rattle.transcript.specs.Lines.{line_text, transcript_of};

use crate::answers::LineAnswer;
use std::alloc::{AllocError, Global};
use vw_cell::Memory;

/// The text of the answers, one line for each.
pub fn transcript_text(alloc: Global, lines: &[LineAnswer]) -> Result<Vec<u8>, Memory>
    ensures { IfOk result (λ text. text.items ≡ transcript_of lines.now) }
{
    let mut text = String::new(alloc);
    for line in lines {
        put_line(&mut text, *line)?;
    }
    Ok(text.into_bytes())
}

fn put_line(text: &mut String, answered: LineAnswer) -> Result<(), AllocError>
    ensures { IfOk result
        (λ _. string_bytes text.new ≡ string_bytes text.old ++ line_text answered) }
{
    let LineAnswer { line, at, answer } = answered;
    write!(text, "{line} @{at} {answer}\n")
}
