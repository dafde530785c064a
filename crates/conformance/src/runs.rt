use transcript::LineAnswer;

/// The answers to a script's commands, in order. Contracts see the list.
#[derive(Drop)]
pub struct Transcript {
    pub lines: Vec<LineAnswer>,
}

impl std::marker::Model for Transcript {
    ghost use Rattle.std.specs.Prelude.{List};
    ghost use Rattle.transcript.specs.declared.answers.LineAnswer.{LineAnswer};

    ghost Value = { List LineAnswer };

    ghost view = { λ t. t.lines.items };
}
