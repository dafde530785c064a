//! Whether a session's transcript answers its script.
ghost use Rattle.std.specs.Prelude.{◌≡◌, ◌+◌, ◌<◌, ◌≤◌, ◌^◌, ◌↔◌, ℕ, false, length, IsTrue, All, AllPairs};
ghost use Rattle.std.specs.List.{AllZip};
ghost use Rattle.script.specs.Fitting.{CommandFits};
ghost use Rattle.transcript.specs.declared.answers.Answer.TheVariants as answers;
ghost use Rattle.conformance.specs.Answers.{LineFits};
ghost use Rattle.retain.specs.Retained.{KeepsLast};
ghost use Rattle.conformance.specs.Agreeing.{InOrder, SessionAgrees, SessionsAgree, AgreesKeeping};
ghost use Rattle.audit.specs.Reruns.{AreScriptsFor, IsRerun};
ghost use Rattle.audit.specs.Sessions.{IsAfterMoment, FollowsLast};

use crate::counts::show_as_many;
use crate::reruns::Rerun;
use conformance::Transcript;
use history_model::History;
use node_words::Plan;
use script::{Script, ScriptLine};
use std::sync::ledger::Ledger;
use transcript::{Answer, LineAnswer};

impl<L: Ledger> Rerun<L> {
    // Whether the session's transcript answers its script, line by line and in order.
    #[tactic(auto, using(crate::proofs::Ordering::session_long))]
    pub(crate) fn session_fits(
        &mut self,
        log: &History,
        judged: &Plan,
        session: u16,
        script: &[ScriptLine],
        transcript: &[LineAnswer],
    ) -> bool
        requires rerun { IsRerun log.now self.old.replay self.old.ways.items self.old.table.items }
        requires fits { All
            (λ l. CommandFits log.now.coloured (2 ^ log.now.side) self.old.replay.models l.command)
            script.now }
        ensures fits { IsTrue result ↔ SessionAgrees judged.now self.old.replay.models log.now
            session script.now transcript.now }
        ensures same { self.new ≡ self.old }
    {
        if script.len() != transcript.len() {
            return false;
        }
        if !is_in_order(transcript) {
            return false;
        }
        self.lines_fit(log, judged, session, script, transcript)
    }

    // Whether each line of as many answers its own.
    fn lines_fit(
        &mut self,
        log: &History,
        judged: &Plan,
        session: u16,
        script: &[ScriptLine],
        transcript: &[LineAnswer],
    ) -> bool
        requires rerun { IsRerun log.now self.old.replay self.old.ways.items self.old.table.items }
        requires fits { All
            (λ l. CommandFits log.now.coloured (2 ^ log.now.side) self.old.replay.models l.command)
            script.now }
        requires as_many { length script.now ≡ length transcript.now }
        ensures fits { IsTrue result ↔ AllZip (LineFits judged.now self.old.replay.models log.now
            session) script.now transcript.now }
        ensures same { self.new ≡ self.old }
    {
        for i in 0..script.len() {
            let l = script[i];
            let a = transcript[i];
            if !self.line_fits(log, judged, session, &l, &a) {
                return false;
            }
        }
        true
    }
}

// Whether a transcript's moments are in order.
#[tactic(auto, using(crate::proofs::Ordering::ordered_all, crate::proofs::Ordering::ordered_none))]
fn is_in_order(transcript: &[LineAnswer]) -> bool
    ensures { IsTrue result ↔ AllPairs InOrder transcript.now }
{
    let mut last = None;
    for a in transcript {
        if !follows_last(last, *a) {
            return false;
        }
        last = Some(a.at);
    }
    true
}

fn follows_last(last: Option<u32>, a: LineAnswer) -> bool
    ensures { IsTrue result ↔ FollowsLast last a }
{
    match last {
        None => true,
        Some(n) => is_after(n, a),
    }
}

fn is_after(n: u32, a: LineAnswer) -> bool
    ensures { IsTrue result ↔ IsAfterMoment n a }
{
    match a.answer {
        Answer::Done => n < a.at,
        Answer::Stale(base) => n <= a.at && n <= base,
        _ => n <= a.at,
    }
}

impl<L: Ledger> Rerun<L> {
    // Whether the history, which keeps its last `keep` versions alone, the scripts and the
    // transcripts agree.
    #[tactic(auto, using(crate::proofs::Gathering::agrees_by))]
    pub(crate) fn agrees(
        &mut self,
        log: &History,
        judged: &Plan,
        scripts: &[Script],
        transcripts: &[Transcript],
        keep: u32,
    ) -> bool
        requires rerun { IsRerun log.now self.old.replay self.old.ways.items self.old.table.items }
        requires scripts { AreScriptsFor self.old.replay.models log.now scripts.now }
        requires marks { AllPairs (λ a b. a.version < b.version) log.now.marks }
        requires last { KeepsLast keep log.now }
        ensures fits { IsTrue result ↔ AgreesKeeping keep judged.now self.old.replay.models
            log.now scripts.now transcripts.now }
        ensures same { self.new ≡ self.old }
    {
        if !show_as_many(log, transcripts, keep) {
            return false;
        }
        self.sessions_fit(log, judged, scripts, transcripts)
    }

    // Whether all sessions agree with the history.
    #[tactic(auto, using(crate::proofs::Gathering::sessions_long))]
    pub(crate) fn sessions_fit(
        &mut self,
        log: &History,
        judged: &Plan,
        scripts: &[Script],
        transcripts: &[Transcript],
    ) -> bool
        requires rerun { IsRerun log.now self.old.replay self.old.ways.items self.old.table.items }
        requires fits { All (All
            (λ l. CommandFits log.now.coloured (2 ^ log.now.side) self.old.replay.models l.command))
            scripts.now }
        requires few { length scripts.now ≤ 64 }
        ensures fits { IsTrue result ↔ SessionsAgree judged.now self.old.replay.models log.now
            0 scripts.now transcripts.now }
        ensures same { self.new ≡ self.old }
    {
        if scripts.len() != transcripts.len() {
            return false;
        }
        self.each_fits(log, judged, scripts, transcripts)
    }

    // Whether each of as many does.
    fn each_fits(
        &mut self,
        log: &History,
        judged: &Plan,
        scripts: &[Script],
        transcripts: &[Transcript],
    ) -> bool
        requires rerun { IsRerun log.now self.old.replay self.old.ways.items self.old.table.items }
        requires fits { All (All
            (λ l. CommandFits log.now.coloured (2 ^ log.now.side) self.old.replay.models l.command))
            scripts.now }
        requires few { length scripts.now ≤ 64 }
        requires as_many { length scripts.now ≡ length transcripts.now }
        ensures fits { IsTrue result ↔ SessionsAgree judged.now self.old.replay.models log.now
            0 scripts.now transcripts.now }
        ensures same { self.new ≡ self.old }
    {
        for i in 0..scripts.len() {
            if !self.one_fits(log, judged, i as u16, &scripts[i], &transcripts[i]) {
                return false;
            }
        }
        true
    }

    // Whether the session of this number does.
    fn one_fits(
        &mut self,
        log: &History,
        judged: &Plan,
        session: u16,
        script: &Script,
        transcript: &Transcript,
    ) -> bool
        requires rerun { IsRerun log.now self.old.replay self.old.ways.items self.old.table.items }
        requires fits { All
            (λ l. CommandFits log.now.coloured (2 ^ log.now.side) self.old.replay.models l.command)
            script.now }
        ensures fits { IsTrue result ↔ SessionAgrees judged.now self.old.replay.models log.now
            session script.now transcript.now }
        ensures same { self.new ≡ self.old }
    {
        let script = script.lines.as_slice();
        let transcript = transcript.lines.as_slice();
        self.session_fits(log, judged, session, script, transcript)
    }
}
