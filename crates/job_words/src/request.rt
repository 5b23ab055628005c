ghost use Rattle.std.specs.Prelude.{IsTrue, IsErr, is_some, ◌≡◌, ◌≤◌, ◌<◌, Some, None, drop, length, option_map, IfOk};
ghost use Rattle.job_words.specs.Words.{is_word, number_of, is_command, check_of, need_of, budget_of, bindings_of, run_with, flink_asked, plain_asked, asked_of};
ghost use Rattle.job_words.specs.Requests.{budgeted, asked_in};

use crate::binding::bindings_of;
use crate::named_path::NamedPath;
use crate::program::Program;
use flow_outside::failure::Memory;
use flow_outside::words::Words;
use flow_types::decimal::number_up_to;
use std::alloc::Global;

/// The most workers: one, until there are workers beside one another.
const WORKER_LIMIT: u64 = 1;

/// The most segments.
const SEGMENT_LIMIT: u64 = 65_536;

/// How many workers a run has, and how many segments.
#[derive(Clone, Copy, Debug)]
pub struct RunBudget {
    pub workers: u32,
    pub segments: u32,
}

/// What is to be done with a plan.
#[derive(Drop)]
pub enum RequestTask<'a> {
    /// To check it.
    Check,
    /// To say how many segments it needs with so many workers.
    Need {
        workers: u32,
    },
    /// To run it over the files that names are bound to, within a budget where there is one.
    Run {
        budget: Option<RunBudget>,
        bindings: Vec<NamedPath<'a>>,
    },
}

/// What words ask for: something to be done with the plan in a file.
#[derive(Drop)]
pub struct Request<'a> {
    pub plan: &'a str,
    pub task: RequestTask<'a>,
}

/// What the words of a program ask for; `None` exactly where they have no form of it. Memory is taken only where
/// they have one. No text is copied.
pub fn request_of<'a>(
    alloc: Global,
    program: Program,
    words: &'a Words,
) -> Result<Option<Request<'a>>, Memory>
    ensures asked { IfOk result (λ request. asked_in request ≡ asked_of program words.now) }
    ensures form { IsErr result → IsTrue (is_some (asked_of program words.now)) }
{
    match program {
        Program::FlinkRun => flink_request(alloc, words),
        Program::PlainRun => plain_request(alloc, words),
    }
}

/// What the words of `flink_run` ask for.
fn flink_request<'a>(alloc: Global, words: &'a Words) -> Result<Option<Request<'a>>, Memory>
    ensures asked { IfOk result (λ request. asked_in request ≡ flink_asked words.now) }
    ensures form { IsErr result → IsTrue (is_some (flink_asked words.now)) }
{
    match words.len() {
        0 | 1 => Ok(None),
        2 => Ok(check_of(words.at(0), words.at(1))),
        3 => Ok(need_of(words.at(0), words.at(1), words.at(2))),
        _ => run_of(alloc, words),
    }
}

/// `check PLAN`.
fn check_of<'a>(command: &'a str, plan: &'a str) -> Option<Request<'a>>
    ensures { asked_in result ≡ check_of command.now plan.now }
{
    if command == "check" && is_word(plan) {
        let task = RequestTask::Check;
        return Some(Request { plan, task });
    }
    None
}

/// `need PLAN WORKERS`.
fn need_of<'a>(command: &'a str, plan: &'a str, workers: &'a str) -> Option<Request<'a>>
    ensures { asked_in result ≡ need_of command.now plan.now workers.now }
{
    if command == "need" && is_word(plan) {
        let workers = number_of(workers, 1, WORKER_LIMIT)?;
        let task = RequestTask::Need { workers };
        return Some(Request { plan, task });
    }
    None
}

/// `run PLAN WORKERS SEGMENTS NAME=PATH..`, of at least four words.
fn run_of<'a>(alloc: Global, words: &'a Words) -> Result<Option<Request<'a>>, Memory>
    requires { 4 ≤ length words.now }
    ensures asked { IfOk result (λ request. asked_in request ≡ flink_asked words.now) }
    ensures form { IsErr result → IsTrue (is_some (flink_asked words.now)) }
{
    let plan = words.at(1);
    if words.at(0) != "run" || !is_word(plan) {
        return Ok(None);
    }
    match budget_of(words.at(2), words.at(3)) {
        None => Ok(None),
        Some(budget) => run_with(alloc, words, plan, Some(budget), 4),
    }
}

/// What the words of `plain_run` ask for: `PLAN NAME=PATH..`.
fn plain_request<'a>(alloc: Global, words: &'a Words) -> Result<Option<Request<'a>>, Memory>
    ensures asked { IfOk result (λ request. asked_in request ≡ plain_asked words.now) }
    ensures form { IsErr result → IsTrue (is_some (plain_asked words.now)) }
{
    if words.len() == 0 {
        return Ok(None);
    }
    let plan = words.at(0);
    if !is_word(plan) {
        return Ok(None);
    }
    run_with(alloc, words, plan, None, 1)
}

/// A run with the bindings of the words from a place on.
fn run_with<'a>(
    alloc: Global,
    words: &'a Words,
    plan: &'a str,
    budget: Option<RunBudget>,
    from: usize,
) -> Result<Option<Request<'a>>, Memory>
    ensures asked { IfOk result
        (λ request. asked_in request ≡ run_with plan.now (Some (option_map budgeted budget)) (bindings_of (drop from words.now))) }
    ensures form { IsErr result → IsTrue (is_some (bindings_of (drop from words.now))) }
{
    match bindings_of(alloc, words, from)? {
        None => Ok(None),
        Some(bindings) => {
            let task = RequestTask::Run { budget, bindings };
            Ok(Some(Request { plan, task }))
        }
    }
}

/// The numbers of a budget.
fn budget_of(workers: &str, segments: &str) -> Option<RunBudget>
    ensures { option_map budgeted result ≡ budget_of workers.now segments.now }
{
    let workers = number_of(workers, 1, WORKER_LIMIT)?;
    let segments = number_of(segments, 1, SEGMENT_LIMIT)?;
    Some(RunBudget { workers, segments })
}

/// Not empty, and no `-` at its start.
fn is_word(word: &str) -> bool
    ensures { result ≡ is_word word.now }
{
    match word.as_bytes() {
        [] => false,
        [first, ..] => *first != b'-',
    }
}

/// The number from `least` to `most`, at most 4,294,967,295, that one to ten digits write.
fn number_of(word: &str, least: u64, most: u64) -> Option<u32>
    requires { most < 4294967296 }
    ensures { result ≡ number_of least most word.now }
{
    if word.len() > 10 {
        return None;
    }
    let number = number_up_to(word.as_bytes(), most)?;
    if least <= number {
        Some(number as u32)
    } else {
        None
    }
}
