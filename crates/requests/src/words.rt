ghost use Rattle.std.specs.Prelude.{◌≡◌, ◌≤◌, ◌∷◌, true, None, Some, IfOk, IfSome, length};
ghost use Rattle.std.specs.List.{list_all};
ghost use Rattle.std.specs.Option.{option_map};
ghost use Rattle.requests.specs.command_line.Texts.{texts};
ghost use Rattle.requests.specs.command_line.Parts.{is_operand};
ghost use Rattle.requests.specs.ScriptNames.{scripts_asked};
ghost use Rattle.requests.specs.Words.{request_of, run_texts, run_line_texts, named_request, counted, parse_run, run_planned, demo_of, flood_words, scene_words, dag_words, look_words, audit_words, audit_unjudged, audit_of, audit_by, audit_judged, audit_kept, buckets_of, is_number_of_scripts, demo_words, exponent_of, short_number, keep_of, keep_or_default, checked_plan, side_read, side_or_default, store_of, store_of_option, cap_or_default, plan_by_number, plan_by_word, plan_of_options, plan_of_line};

use crate::command_line::{Line, are_of_a_run, is_operand, split};
use crate::orders::{
    AuditOrder, Buckets, DagOrder, FileName, FloodOrder, LookOrder, Order, Request, SceneOrder,
};
use crate::questions::question_in;
use node_words::Plan;
use script::number;
use std::alloc::{AllocError, Global};
use vw_cell::Side;

/// The words behind `run` as options and operands, where they can stand there. Nothing else of what
/// the words ask for takes memory.
pub fn words_of_a_run(alloc: Global, words: &[String]) -> Result<Option<Line<'_>>, AllocError>
    ensures line { IfOk result (λ line. line ≡ run_line_texts (texts words.now)) }
    ensures few { IfOk result (λ line. IfSome line (λ l. length l.operands ≤ 65)) }
{
    match words {
        [command, others @ ..] if command.as_str() == "run" => run_texts(alloc, others),
        _ => Ok(None),
    }
}

fn run_texts(alloc: Global, words: &[String]) -> Result<Option<Line<'_>>, AllocError>
    ensures line { IfOk result (λ line. line ≡ run_texts (texts words.now)) }
    ensures few { IfOk result (λ line. IfSome line (λ l. length l.operands ≤ 65)) }
{
    if !are_of_a_run(words) {
        return Ok(None);
    }
    let line = split(alloc, words)?;
    Ok(Some(line))
}

/// What the words ask for, where they are in the grammar: a row for each command.
pub fn request<'w>(words: &'w [String], line: &'w Option<Line<'w>>) -> Option<Request<'w>>
    requires line { line.now ≡ run_line_texts (texts words.now) }
    requires few { IfSome line.now (λ l. length l.operands ≤ 65) }
    ensures asked { result ≡ request_of (texts words.now) }
    ensures few { IfSome result (λ a. length (scripts_asked a) ≤ 64) }
{
    match words {
        [] => None,
        [command, others @ ..] => named_request(command.as_str(), others, line),
    }
}

fn named_request<'w>(
    command: &str,
    words: &'w [String],
    line: &'w Option<Line<'w>>,
) -> Option<Request<'w>>
    requires line { line.now ≡ run_line_texts (command.now ∷ texts words.now) }
    requires few { IfSome line.now (λ l. length l.operands ≤ 65) }
    ensures asked { result ≡ named_request command.now (texts words.now) }
    ensures few { IfSome result (λ a. length (scripts_asked a) ≤ 64) }
{
    if command == "count" {
        return parse_count(words);
    }
    if command == "run" {
        return parse_run(line);
    }
    if command == "demo" {
        return parse_demo(words);
    }
    if command == "flood" {
        return parse_flood(words);
    }
    if command == "scene" {
        return parse_scene(words);
    }
    if command == "dag" {
        return parse_dag(words);
    }
    if command == "look" {
        return parse_look(words);
    }
    if command == "audit" {
        return parse_audit(words);
    }
    None
}

// `FILE`, the words of `count`.
fn parse_count(words: &[String]) -> Option<Request<'_>>
    ensures asked { result ≡ counted (texts words.now) }
    ensures few { IfSome result (λ a. length (scripts_asked a) ≤ 64) }
{
    match words {
        [file] if is_operand(file.as_str()) => {
            let file = FileName {
                text: file.as_str(),
            };
            Some(Request::Count(file))
        }
        _ => None,
    }
}

// The words of `run`: they were read as options and operands, and their numbers are read now.
fn parse_run<'w>(line: &'w Option<Line<'w>>) -> Option<Request<'w>>
    requires few { IfSome line.now (λ l. length l.operands ≤ 65) }
    ensures asked { result ≡ parse_run line.now }
    ensures few { IfSome result (λ a. length (scripts_asked a) ≤ 64) }
{
    match line {
        None => None,
        Some(line) => run_planned(plan_of_line(line), keep_or_default(line.keep), line),
    }
}

fn run_planned<'w>(plan: Option<Plan>, keep: Option<u32>, line: &'w Line<'w>) -> Option<Request<'w>>
    requires few { length line.now.operands ≤ 65 }
    ensures asked { result ≡ run_planned plan keep line.now }
    ensures few { IfSome result (λ a. length (scripts_asked a) ≤ 64) }
{
    let plan = plan?;
    let keep = keep?;
    match line.operands.as_slice() {
        [] => None,
        [file, scripts @ ..] => {
            let order = Order {
                plan,
                tint: line.colours,
                keep,
                journal: line.journal,
                report: line.report,
                file: *file,
                scripts,
            };
            Some(Request::Run(order))
        }
    }
}

// `N`, the words of `demo`.
fn parse_demo(words: &[String]) -> Option<Request<'_>>
    ensures asked { result ≡ demo_words (texts words.now) }
    ensures few { IfSome result (λ a. length (scripts_asked a) ≤ 64) }
{
    match number_in(words) {
        Some(n) => Some(Request::Demo(n)),
        None => None,
    }
}

fn number_in(words: &[String]) -> Option<u32>
    ensures { demo_of result ≡ demo_words (texts words.now) }
{
    match words {
        [number] => short_number(number.as_str()),
        _ => None,
    }
}

// `FILE m x y z OUT`, the words of `flood`.
fn parse_flood(words: &[String]) -> Option<Request<'_>>
    ensures asked { result ≡ flood_words (texts words.now) }
    ensures few { IfSome result (λ a. length (scripts_asked a) ≤ 64) }
{
    let [file, model, x, y, z, out] = words else {
        return None;
    };
    let file = file.as_str();
    let out = out.as_str();
    if !(is_operand(file) && is_operand(out) && file != out) {
        return None;
    }
    Some(Request::Flood(FloodOrder {
        file,
        model: short_number(model.as_str())?,
        x: short_number(x.as_str())?,
        y: short_number(y.as_str())?,
        z: short_number(z.as_str())?,
        out,
    }))
}

// `FILE OUT SCRIPT`, the words of `scene`.
fn parse_scene(words: &[String]) -> Option<Request<'_>>
    ensures asked { result ≡ scene_words (texts words.now) }
    ensures few { IfSome result (λ a. length (scripts_asked a) ≤ 64) }
{
    let [file, out, script] = words else {
        return None;
    };
    let file = file.as_str();
    let out = out.as_str();
    let script = script.as_str();
    let are_operands = is_operand(file) && is_operand(out) && is_operand(script);
    if !(are_operands && file != out && file != script && out != script) {
        return None;
    }
    Some(Request::Scene(SceneOrder { file, out, script }))
}

// `FILE JOURNAL OUT`, the words of `dag`.
fn parse_dag(words: &[String]) -> Option<Request<'_>>
    ensures asked { result ≡ dag_words (texts words.now) }
    ensures few { IfSome result (λ a. length (scripts_asked a) ≤ 64) }
{
    let [file, journal, out] = words else {
        return None;
    };
    let file = file.as_str();
    let journal = journal.as_str();
    let out = out.as_str();
    let are_operands = is_operand(file) && is_operand(journal) && is_operand(out);
    if !(are_operands && file != out && journal != out) {
        return None;
    }
    Some(Request::Dag(DagOrder { file, journal, out }))
}

// `[--buckets b] [--keep k] FILE JOURNAL SCRIPT ..`, the words of `audit`, the options in either
// order.
fn parse_audit(words: &[String]) -> Option<Request<'_>>
    ensures asked { result ≡ audit_words (texts words.now) }
    ensures few { IfSome result (λ a. length (scripts_asked a) ≤ 64) }
{
    let [option, number, others @ ..] = words else {
        return None;
    };
    if option.as_str() == "--buckets" {
        return parse_behind_buckets(buckets_of(short_number(number.as_str())), others);
    }
    parse_keep_first(words)
}

// Where `--buckets b` doesn't come first.
fn parse_keep_first(words: &[String]) -> Option<Request<'_>>
    ensures asked { result ≡ audit_unjudged (texts words.now) }
    ensures few { IfSome result (λ a. length (scripts_asked a) ≤ 64) }
{
    match words {
        [option, number, others @ ..] if option.as_str() == "--keep" => {
            parse_behind_keep(keep_of(short_number(number.as_str())), others)
        }
        _ => parse_audit_operands(None, 0, words),
    }
}

// Behind `--buckets b`.
fn parse_behind_buckets<'w>(buckets: Option<Buckets>, words: &'w [String]) -> Option<Request<'w>>
    ensures asked { result ≡ audit_judged buckets (texts words.now) }
    ensures few { IfSome result (λ a. length (scripts_asked a) ≤ 64) }
{
    let buckets = buckets?;
    match words {
        [option, number, others @ ..] if option.as_str() == "--keep" => {
            parse_behind_both(
                Some(buckets),
                keep_of(short_number(number.as_str())),
                others,
            )
        }
        _ => parse_audit_operands(Some(buckets), 0, words),
    }
}

// Behind `--keep k`.
fn parse_behind_keep<'w>(keep: Option<u32>, words: &'w [String]) -> Option<Request<'w>>
    ensures asked { result ≡ audit_kept keep (texts words.now) }
    ensures few { IfSome result (λ a. length (scripts_asked a) ≤ 64) }
{
    let keep = keep?;
    match words {
        [option, number, others @ ..] if option.as_str() == "--buckets" => {
            parse_behind_both(
                buckets_of(short_number(number.as_str())),
                Some(keep),
                others,
            )
        }
        _ => parse_audit_operands(None, keep, words),
    }
}

// Behind both.
fn parse_behind_both<'w>(
    buckets: Option<Buckets>,
    keep: Option<u32>,
    words: &'w [String],
) -> Option<Request<'w>>
    ensures asked { result ≡ audit_by buckets keep (texts words.now) }
    ensures few { IfSome result (λ a. length (scripts_asked a) ≤ 64) }
{
    match (buckets, keep) {
        (Some(buckets), Some(keep)) => parse_audit_operands(Some(buckets), keep, words),
        _ => None,
    }
}

fn parse_audit_operands<'w>(
    buckets: Option<Buckets>,
    keep: u32,
    words: &'w [String],
) -> Option<Request<'w>>
    ensures asked { result ≡ audit_of buckets keep (texts words.now) }
    ensures few { IfSome result (λ a. length (scripts_asked a) ≤ 64) }
{
    let [file, journal, scripts @ ..] = words else {
        return None;
    };
    if !(are_operands(words) && is_number_of_scripts(number_of(scripts))) {
        return None;
    }
    Some(Request::Audit(AuditOrder {
        buckets,
        keep,
        file: file.as_str(),
        journal: journal.as_str(),
        scripts,
    }))
}

fn number_of(words: &[String]) -> usize
    ensures { result ≡ length (texts words.now) }
{
    words.len()
}

fn is_number_of_scripts(number: usize) -> bool
    ensures is { result ≡ is_number_of_scripts number }
    ensures few { result ≡ true → number ≤ 64 }
{
    number >= 1 && number <= 64
}

fn are_operands(words: &[String]) -> bool
    ensures { result ≡ list_all is_operand (texts words.now) }
{
    match words {
        [] => true,
        [word, others @ ..] => is_operand(word.as_str()) && are_operands(others),
    }
}

// The number of buckets that a word tells.
fn buckets_of(number: Option<u32>) -> Option<Buckets>
    ensures { result ≡ buckets_of number }
{
    match number {
        None => None,
        Some(number) => Buckets::new(number),
    }
}

// `DAG v` and a question, the words of `look`.
fn parse_look(words: &[String]) -> Option<Request<'_>>
    ensures asked { result ≡ look_words (texts words.now) }
    ensures few { IfSome result (λ a. length (scripts_asked a) ≤ 64) }
{
    let [dag, version, name, numbers @ ..] = words else {
        return None;
    };
    let dag = dag.as_str();
    if !is_operand(dag) {
        return None;
    }
    let version = short_number(version.as_str())?;
    let question = question_in(name.as_str(), numbers)?;
    Some(Request::Look(LookOrder {
        dag,
        version,
        question,
    }))
}

// The plan that the options of a run tell, where their numbers are in their ranges.
fn plan_of_line(line: &Line<'_>) -> Option<Plan>
    ensures { result ≡ plan_of_line line.now }
{
    let side = store_of_option(line.colours, side_or_default(line.side));
    plan_of_options(side, line.buckets, cap_or_default(line.cap))
}

fn side_or_default(word: Option<&str>) -> Option<Side>
    ensures { result ≡ side_or_default (option_map (λ t. t.now) word.entry) }
{
    match word {
        None => side_with(256),
        Some(word) => side_read(word),
    }
}

// The side of the store that keeps a world of this side.
fn store_of_option(tint: bool, side: Option<Side>) -> Option<Side>
    ensures { result ≡ store_of_option tint side }
{
    match side {
        None => None,
        Some(side) => store_of(tint, side),
    }
}

fn store_of(tint: bool, side: Side) -> Option<Side>
    ensures { result ≡ store_of tint side }
{
    if tint { fourfold(side) } else { Some(side) }
}

// Four times the side, where that is one.
fn fourfold(side: Side) -> Option<Side>
    ensures { result ≡ store_of true side }
{
    if side.exponent() > 10 {
        return None;
    }
    side_with(side.cells() * 4)
}

fn cap_or_default(word: Option<&str>) -> Option<u32>
    ensures { result ≡ cap_or_default (option_map (λ t. t.now) word.entry) }
{
    match word {
        None => Some(128),
        Some(word) => short_number(word),
    }
}

fn keep_or_default(word: Option<&str>) -> Option<u32>
    ensures { result ≡ keep_or_default (option_map (λ t. t.now) word.entry) }
{
    match word {
        None => Some(0),
        Some(word) => keep_of(short_number(word)),
    }
}

// How many last versions a word tells, from 1 to 65,535.
fn keep_of(number: Option<u32>) -> Option<u32>
    ensures { result ≡ keep_of number }
{
    match number {
        Some(number) if number >= 1 && number <= 65_535 => Some(number),
        _ => None,
    }
}

fn plan_of_options(side: Option<Side>, buckets: Option<&str>, cap: Option<u32>) -> Option<Plan>
    ensures { result ≡ plan_of_options side (option_map (λ t. t.now) buckets.entry) cap }
{
    match (side, cap) {
        (Some(side), Some(cap)) => plan_by_word(side, buckets, cap),
        _ => None,
    }
}

fn plan_by_word(side: Side, buckets: Option<&str>, cap: u32) -> Option<Plan>
    ensures { result ≡ plan_by_word side (option_map (λ t. t.now) buckets.entry) cap }
{
    match buckets {
        None => checked_plan(side, None, cap),
        Some(word) => plan_by_number(side, short_number(word), cap),
    }
}

fn plan_by_number(side: Side, buckets: Option<u32>, cap: u32) -> Option<Plan>
    ensures { result ≡ plan_by_number side buckets cap }
{
    match buckets {
        None => None,
        Some(buckets) => checked_plan(side, Some(buckets), cap),
    }
}

// The plan of these numbers, where they are in their ranges.
fn checked_plan(side: Side, buckets: Option<u32>, cap: u32) -> Option<Plan>
    ensures { result ≡ checked_plan side buckets cap }
{
    if cap > 256 {
        return None;
    }
    match buckets {
        None => Plan::with_cap(side, cap as u16),
        Some(number) if number <= 4096 => Plan::even(side, number as u16, cap as u16),
        Some(_) => None,
    }
}

// The number that a word of at most 6 digits spells.
fn short_number(word: &str) -> Option<u32>
    ensures { result ≡ short_number word.now }
{
    if word.len() > 6 {
        return None;
    }
    number(word.as_bytes()).ok()
}

// The side that a word spells.
fn side_read(word: &str) -> Option<Side>
    ensures { result ≡ side_read (short_number word.now) }
{
    match short_number(word) {
        Some(n) => side_with(n),
        None => None,
    }
}

// The side of this many cells, from 4 to 4,096.
fn side_with(n: u32) -> Option<Side>
    ensures { result ≡ exponent_of n }
{
    Side::new(n)
}
