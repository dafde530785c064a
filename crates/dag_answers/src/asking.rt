ghost use Rattle.std.specs.Prelude.{◌≡◌, ◌-◌, ◌^◌, IfOk, IfErr, MatchOption, option_copied};
ghost use Rattle.node_words.specs.descent.Roots.{HoldsRoot};
ghost use Rattle.dag_file.specs.Rules.{IsDagFile};
ghost use Rattle.dag_file.specs.Trees.{HasVersion, IsRootOfVersion, opened_state};
ghost use Rattle.script.specs.Fitting.{QuestionFits};
ghost use Rattle.dag_answers.specs.Looks.{AnswersFileVersion, AnswersLook, RefusesLook};
ghost use Rattle.dag_answers.specs.Questions.{question_spelled};

use crate::placing::place_question;
use crate::questions::SpelledQuestion;
use dag_file::{DagFault, DagView};
use history_model::Question;
use node_words::Share;
use std::alloc::Global;
use store_run::tell;
use transcript::Answer;

/// Why a question of a file is not answered.
#[derive(Clone, Copy, Debug, PartialEq, Eq)]
pub enum LookRefused {
    /// The file breaks its first rule at this place.
    Dag(u64),
    /// The file hasn't the version, or its worlds have no such place, box or way.
    NoPlace,
    /// Want of memory.
    Memory,
}

impl From<DagFault> for LookRefused {
    ghost use Rattle.std.specs.Prelude.{◌≡◌};
    ghost use Rattle.dag_answers.specs.Looks.{of_dag};

    ghost from_gives = { λ fault refused. refused ≡ of_dag fault };

    fn from(fault: DagFault) -> Self {
        match fault {
            DagFault::Bad(place) => LookRefused::Dag(place),
            DagFault::Memory => LookRefused::Memory,
        }
    }
}

/// What a file of many versions tells of one of them. The file is read where it lies: the memory
/// that this takes is a bit for each entry of one level, and is given back.
#[tactic(auto, using(crate::proofs::LookLaws::fault_refuses, crate::proofs::LookLaws::looked, crate::proofs::LookLaws::not_there, crate::proofs::LookLaws::out_of_range))]
pub fn look(
    alloc: Global,
    bytes: &[u8],
    version: u32,
    asked: &SpelledQuestion,
) -> Result<Answer, LookRefused>
    ensures answer { IfOk result (AnswersLook bytes.now version (question_spelled asked.now)) }
    ensures refused { IfErr result (RefusesLook bytes.now version (question_spelled asked.now)) }
{
    let view = match DagView::read(alloc, bytes) {
        Ok(view) => view,
        Err(fault) => return Err(LookRefused::from(fault)),
    };
    let mut view = view;
    let question = match place_question(asked, view.side()) {
        Ok(question) => question,
        Err(_) => return Err(LookRefused::NoPlace),
    };
    match ask_version(&mut view, version, question) {
        Some(answer) => Ok(answer),
        None => Err(LookRefused::NoPlace),
    }
}

/// What the question asks of a version, where the file has it.
#[tactic(auto, using(crate::proofs::LookLaws::version_told))]
pub fn ask_version(view: &mut DagView<'_>, version: u32, question: Question) -> Option<Answer>
    requires fits { QuestionFits (2 ^ view.old.side) question }
    ensures same { view.new ≡ view.old }
    ensures tells { MatchOption result
        (HasVersion view.old.bytes (view.old.side - 1) version → ⊥)
        (AnswersFileVersion view.old.bytes view.old.side version question) }
{
    let side = view.side();
    let root = view.root(version)?;
    let answer = tell(view, root.as_ref(), side, question);
    let_go(view, root);
    Some(answer)
}

pub(crate) fn let_go(view: &DagView<'_>, root: Option<Share>) {
    if let Some(share) = root {
        view.drop_root(share);
    }
}
