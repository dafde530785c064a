ghost use Rattle.std.specs.Prelude.{◌≡◌, length, IfOk, IfErr};
ghost use Rattle.dag_answers.specs.Looks.{AnswersLook};
ghost use Rattle.commands.specs.Looks.{RefusesLooking, look_means};
ghost use Rattle.commands.specs.Meanings.{file_in};
ghost use Rattle.commands.specs.Outcomes.{Outcome};

use crate::inputs::VOX_LIMIT;
use crate::refusals::{CommandRefused, TextRefused};
use dag_answers::look;
use requests::LookOrder;
use std::alloc::Global;
use transcript::Answer;
use vw_io::{Input, Shelf, Text, read_all};

/// Asks a version of a file of many, of at most 256 MiB. It writes nothing.
#[tactic(auto, using(crate::proofs::Looking::looked, crate::proofs::Looking::not_looked))]
pub fn look_file<'w, S: Shelf>(
    alloc: Global,
    order: &LookOrder<'w>,
    shelf: &mut S,
) -> Result<Answer, CommandRefused<'w>>
    ensures outcome { Outcome (look_means order.now) result (S.state shelf.old)
        (S.state shelf.new) }
{
    let inputs = [Input {
        name: order.dag,
        limit: VOX_LIMIT,
    }];
    let texts = match read_all(alloc, &inputs, shelf) {
        Ok(texts) => texts,
        Err(refused) => return Err(CommandRefused::Input(refused)),
    };
    match answer_of_text(alloc, order, texts) {
        Ok(answer) => Ok(answer),
        Err(refused) => Err(CommandRefused::Text(refused)),
    }
}

// The answer by the one text.
#[tactic(auto, using(crate::proofs::Looking::look_refused))]
fn answer_of_text(
    alloc: Global,
    order: &LookOrder<'_>,
    texts: Vec<Text>,
) -> Result<Answer, TextRefused>
    requires one { length texts.items ≡ 1 }
    ensures answer { IfOk result
        (AnswersLook (file_in texts.items) order.now.version order.now.question) }
    ensures refused { IfErr result (RefusesLooking order.now (file_in texts.items)) }
{
    let mut texts = texts;
    match texts.pop() {
        Some(file) => answer_of_file(alloc, order, file),
        None => unreachable!(),
    }
}

// The answer by a file.
#[tactic(auto, using(crate::proofs::Looking::look_refused))]
fn answer_of_file(alloc: Global, order: &LookOrder<'_>, file: Text) -> Result<Answer, TextRefused>
    ensures answer { IfOk result (AnswersLook file order.now.version order.now.question) }
    ensures refused { IfErr result (RefusesLooking order.now file) }
{
    match look(alloc, file.as_slice(), order.version, &order.question) {
        Ok(answer) => Ok(answer),
        Err(refused) => Err(TextRefused::from(refused)),
    }
}
