ghost use Rattle.std.specs.Prelude.{◌≡◌, ◌<◌, IfOk};

use flow_model::plan::Plan;
use flow_outside::shelf::Shelf;
use flow_outside::words::Words;
use job_inputs::inputs::read_inputs;
use job_inputs::plan::read_plan_file;
use job_inputs::sources::unbound_name;
use job_report::fault::Fault;
use job_words::named_path::NamedPath;
use job_words::program::Program;
use job_words::request::{RequestTask, request_of};
use outside_memory::file_name::FileName;
use outside_memory::mem_shelf::MemShelf;
use std::alloc::Global;
use std::test::Fail;

/// Two sources, a filter and a map.
const MAPPED: &str =
    r#"{"version":1,"nodes":[{"name":"t","op":"source","fields":["long"]},{"name":"u","op":"source","fields":["bool"]},{"name":"f","op":"filter","input":"t","test":["gt",["f",0],1]},{"name":"m","op":"map","input":"u","columns":[["f",0]]}],"result":"m"}"#;

/// Two sources, a filter, and no map.
const FILTERED: &str =
    r#"{"version":1,"nodes":[{"name":"t","op":"source","fields":["long"]},{"name":"u","op":"source","fields":["bool"]},{"name":"f","op":"filter","input":"t","test":["gt",["f",0],1]}],"result":"f"}"#;

/// What is told of words, by the program that serves sources and filters.
const RUNTIME: &str = "plan t=longs u=bools => rows 2 1
mapped t=longs u=bools =>  plan 4 NotBuilt
empty t=longs u=bools =>  plan 0 BadJson
none t=longs u=bools =>  read 0
plan u=longs => unbound t
plan u=bools t=longs x=bools => unbound x
plan t=longs u=bools t=longs => unbound t
plan f=longs u=bools => unbound t
plan t=longs u=none => u read 2
plan t=none u=none => t read 1
plan t=bools u=longs => t input 1 0 0 NotBuilt
plan t=longs u=longs => u input 2 0 0 NotBuilt";

/// What is told of words, by the program that serves every op.
const PLAIN: &str = "mapped t=longs u=bools => rows 2 1
empty t=longs u=bools =>  plan 0 BadJson";

fn file(alloc: Global, name: &str, text: &str) -> Result<(FileName, Vec<u8>), Fail> {
    let name = FileName::of(String::from_str(alloc, name)?);
    Ok((name, Vec::from_slice(alloc, text.as_bytes())?))
}

fn files(alloc: Global) -> Result<MemShelf, Fail>
    ensures { IfOk result (λ shelf. ⟦<MemShelf as Shelf>⟧.living shelf ≡ 0) }
{
    let mut files = Vec::new(alloc);
    files.push(file(alloc, "plan", FILTERED)?)?;
    files.push(file(alloc, "mapped", MAPPED)?)?;
    files.push(file(alloc, "empty", "")?)?;
    files.push(file(alloc, "longs", "1\n3\n")?)?;
    files.push(file(alloc, "bools", "true\n")?)?;
    Ok(MemShelf::new(alloc, files, Vec::new(alloc))?)
}

/// A fault, behind its source's name.
fn fault_text(alloc: Global, name: &str, fault: &Fault) -> Result<String, Fail> {
    match fault {
        Fault::PlanRefused { node, code } => Ok(format!(in alloc; "{name} plan {node} {code:?}")?),
        Fault::InputRefused {
            source,
            line,
            field,
            kind,
        } => Ok(format!(in alloc; "{name} input {source} {line} {field} {kind:?}")?),
        Fault::ReadFault { source } => Ok(format!(in alloc; "{name} read {source}")?),
        _ => Ok(String::from_str(alloc, "another fault")?),
    }
}

/// How many rows the inputs have, or what is told.
fn inputs_text<S: Shelf>(
    alloc: Global,
    shelf: &mut S,
    bindings: &[NamedPath<'_>],
    plan: &Plan,
) -> Result<String, Fail>
    requires { S.living shelf.old < 80 }
{
    if let Some(name) = unbound_name(alloc, bindings, plan)? {
        return Ok(format!(in alloc; "unbound {}", name.as_str())?);
    }
    match read_inputs(alloc, shelf, bindings, plan) {
        Ok(inputs) => {
            let mut text = String::from_str(alloc, "rows")?;
            for rows in inputs.inputs() {
                write!(text, " {}", rows.rows().len())?;
            }
            Ok(text)
        }
        Err(stopped) => fault_text(alloc, stopped.name, &stopped.fault),
    }
}

/// What is told of words.
fn answer<S: Shelf>(
    alloc: Global,
    shelf: &mut S,
    program: Program,
    line: &str,
) -> Result<String, Fail>
    requires { S.living shelf.old < 80 }
{
    let mut words = Words::new(alloc);
    for word in line.split(' ') {
        words.push(word)?;
    }
    let Some(request) = request_of(alloc, Program::PlainRun, &words)? else {
        return Ok(String::from_str(alloc, "usage")?);
    };
    match read_plan_file(alloc, shelf, program, request.plan) {
        Ok(plan) => match &request.task {
            RequestTask::Run { bindings, .. } => {
                inputs_text(alloc, shelf, bindings.as_slice(), &plan)
            }
            _ => Ok(String::from_str(alloc, "no run")?),
        },
        Err(fault) => fault_text(alloc, "", &fault),
    }
}

#[test]
fn plans_and_inputs_are_told(rt: HostRuntime) -> Result<(), Fail> {
    for (program, lines) in [(Program::FlinkRun, RUNTIME), (Program::PlainRun, PLAIN)] {
        for line in lines.lines() {
            let (words, want) = line.split_once(" => ").ok_or("no answer")?;
            let mut shelf = files(rt.alloc())?;
            let found = answer(rt.alloc(), &mut shelf, program, words)?;
            assert_eq!(rt; found.as_str(), want, "{line}");
        }
    }
    Ok(())
}
