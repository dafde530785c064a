ghost use Rattle.std.specs.Prelude.{◌≡◌, ℕ, List, All};
ghost use Rattle.transcript.specs.declared.answers.LineAnswer.{LineAnswer};
ghost use Rattle.transcript.specs.Bounds.{IsLineAnswer};
ghost use Rattle.transcript.specs.Lines.{transcript_of};
ghost use Rattle.transcript.specs.Refusals.{RefusesTranscript};
ghost use Rattle.transcript.specs.declared.reading.TranscriptFault.TheVariants.{Line};

/// A law: a text is that of one list of answers at most.
pub fn transcripts_have_one_reading()
    ensures { (a b : List LineAnswer) → All IsLineAnswer a → All IsLineAnswer b
        → transcript_of a ≡ transcript_of b → a ≡ b }
{}

/// A law: the line that a refused text is told by is one.
pub fn transcripts_are_refused_at_one_line()
    ensures { (text : List ℕ) (m n : ℕ) → RefusesTranscript (Line m) text
        → RefusesTranscript (Line n) text → m ≡ n }
{}
