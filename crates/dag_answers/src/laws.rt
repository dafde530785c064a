ghost use Rattle.dag_answers.specs.Looks.{LooksAreJudged, LooksAreJudgedOnce};

/// A law: any bytes say one thing of a look, that there is nothing to refuse, or why it is refused.
#[tactic(auto, using(crate::proofs::JudgeLaws::judged, crate::proofs::JudgeLaws::judged_once))]
pub fn looks_are_judged()
    ensures some { LooksAreJudged }
    ensures once { LooksAreJudgedOnce }
{}
