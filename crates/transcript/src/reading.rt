ghost use Rattle.std.specs.Prelude.{◌≡◌, List, All, IfOk, IfErr, MatchResult};
ghost use Rattle.transcript.specs.declared.answers.LineAnswer.{LineAnswer};
ghost use Rattle.transcript.specs.declared.reading.TranscriptFault.TheVariants.{Memory};
ghost use Rattle.transcript.specs.Bounds.{IsLineAnswer};
ghost use Rattle.transcript.specs.Lines.{transcript_of};
ghost use Rattle.transcript.specs.Refusals.{RefusesTranscript};

use crate::answers::LineAnswer;
use crate::words::read_line;
use plain_text::split_line;
use std::alloc::{AllocError, AllocFailed, Global};
use thiserror::Error;

/// Why bytes are no transcript.
#[derive(Clone, Copy, Debug, PartialEq, Eq, Error)]
pub enum TranscriptFault {
    /// The first line that doesn't fit, counted from 1.
    #[error("line {0} doesn't fit")]
    Line(u64),
    /// Memory ran out. It says nothing of the bytes.
    #[error("out of memory")]
    Memory,
}

impl From<AllocError> for TranscriptFault {
    ghost from_gives = { λ _ fault. fault ≡ Memory };

    fn from(_e: AllocError) -> TranscriptFault {
        TranscriptFault::Memory
    }
}

impl<T: Drop> From<AllocFailed<T>> for TranscriptFault {
    ghost from_gives = { λ _ fault. fault ≡ Memory };

    fn from(_e: AllocFailed<T>) -> TranscriptFault {
        TranscriptFault::Memory
    }
}

/// The answers whose text this is, or the first line that doesn't fit: one that is no answer's, or
/// a last one without its newline. Numbers may be any that an answer can hold; whether the answers
/// fit a script, and whether their moments rise, is not asked here.
pub fn read_transcript(alloc: Global, bytes: &[u8]) -> Result<Vec<LineAnswer>, TranscriptFault>
    ensures read { IfOk result (λ answers. All IsLineAnswer answers.items
        × (bytes.now ≡ transcript_of answers.items)) }
    ensures refused { IfErr result (λ fault. RefusesTranscript fault bytes.now) }
    ensures comes { (answers : List LineAnswer) → All IsLineAnswer answers
        → bytes.now ≡ transcript_of answers
        → MatchResult result (λ read. read.items ≡ answers) (λ fault. fault ≡ Memory) }
{
    read_lines(alloc, bytes)
}

// The answers line by line.
fn read_lines(alloc: Global, bytes: &[u8]) -> Result<Vec<LineAnswer>, TranscriptFault>
    ensures read { IfOk result (λ answers. All IsLineAnswer answers.items
        × (bytes.now ≡ transcript_of answers.items)) }
    ensures refused { IfErr result (λ fault. RefusesTranscript fault bytes.now) }
{
    let mut answers = Vec::new(alloc);
    let mut rest = bytes;
    let mut number: u64 = 1;
    loop {
        let Some((line, after)) = split_line(rest) else {
            if rest.is_empty() {
                return Ok(answers);
            }
            return Err(TranscriptFault::Line(number));
        };
        match read_line(line) {
            Ok(answer) => answers.push(answer)?,
            Err(_) => return Err(TranscriptFault::Line(number)),
        }
        rest = after;
        number += 1;
    }
}
