use crate::fixtures::inputs;
use plain_full::demand::Demand;
use plain_full::fullness::full;
use plan_check::check::plan_from;
use std::alloc::Global;

/// A solution of two Longs that is loaded and never changed; node 3 is the iteration.
pub const LOADED: &str = r#"{"version":1,"segment":4096,"nodes":[
{"name":"init","op":"source","fields":["long","long"]},
{"name":"none","op":"filter","input":"init","test":false},
{"name":"it","op":"delta","solution":"init","workset":"none","bind":"w","key":[0],"order":[],"merge":"replace","max":5,"body":[],"delta":"w","next":"w"}
],"result":"it"}"#;

/// One superstep that puts the second input into the first; node 3 is the iteration.
pub const SWAPPED: &str = r#"{"version":1,"segment":4096,"nodes":[
{"name":"init","op":"source","fields":["long","str:1000"]},
{"name":"change","op":"source","fields":["long","str:1000"]},
{"name":"it","op":"delta","solution":"init","workset":"change","bind":"w","key":[0],"order":[],"merge":"replace","max":5,"body":[{"name":"none","op":"filter","input":"w","test":false}],"delta":"w","next":"none"}
],"result":"it"}"#;

/// A plan without an iteration.
pub const FILTERED: &str = r#"{"version":1,"segment":4096,"nodes":[
{"name":"t","op":"source","fields":["long","long"]},
{"name":"big","op":"filter","input":"t","test":["gt",["f",0],1]}
],"result":"big"}"#;

// Each maker answers `None` where memory is wanting or a piece hasn't its form.

/// The first demand that is above what is there: its node, superstep, worker, need, and what is there; `-`
/// where there is none.
pub fn first_full(
    alloc: Global,
    plan: &str,
    texts: &str,
    workers: u32,
    budget: u32,
) -> Option<String> {
    if workers < 1 || workers > 32 {
        return None;
    }
    let inputs = inputs(alloc, texts)?;
    let Ok(plan) = plan_from(alloc, plan.as_bytes()) else {
        return None;
    };
    match full(alloc, &plan, &inputs, workers, budget) {
        Ok(Some(demand)) => told(alloc, demand),
        Ok(None) => String::from_str(alloc, "-").ok(),
        Err(_) => None,
    }
}

fn told(alloc: Global, demand: Demand) -> Option<String> {
    let Demand {
        node,
        step,
        worker,
        need,
        have,
    } = demand;
    format!(in alloc; "{node} {step} {worker} {need} {have}").ok()
}

/// The rows `1,0`, `2,0` and so on, so many of them.
pub fn counted(alloc: Global, count: u32) -> Option<String> {
    let mut text = String::new(alloc);
    for before in 0..count {
        if before > 0 {
            text.push_str(" / ").ok()?;
        }
        let number = before + 1;
        write!(text, "{number},0").ok()?;
    }
    Some(text)
}

/// The rows of a text such as `1:1000 / 2:100 + 2:7`, in which the length of each row's text stands.
pub fn long_texts(alloc: Global, lengths: &str) -> Option<String> {
    let mut text = String::new(alloc);
    for part in lengths.split(' ') {
        push_part(&mut text, part)?;
    }
    Some(text)
}

fn push_part(text: &mut String, part: &str) -> Option<()> {
    let Some((number, length)) = part.split_once(':') else {
        return write!(text, " {part} ").ok();
    };
    write!(text, "{number},").ok()?;
    for _ in 0..length.parse::<u32>().ok()? {
        text.push('z').ok()?;
    }
    Some(())
}
