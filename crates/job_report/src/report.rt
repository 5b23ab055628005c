ghost use Rattle.std.specs.Prelude.{◌≡◌, [], map, OnOk, OnErr};
ghost use Rattle.std.specs.List.{concat};
ghost use Rattle.flow_outside.specs.Causes.{HasCause};
ghost use Rattle.flow_outside.specs.Told.{Appends, AppendsProperPrefix};
ghost use Rattle.job_report.specs.Lines.{usage_text, line_of, full_line, read_text, input_line, code_text, kind_text, status_of, check_text, need_text};

use crate::fault::Fault;
use delim_io::input_kind::InputKind;
use flow_model::plan_code::PlanCode;
use flow_outside::failure::Failed;
use flow_outside::sink::Sink;
use flow_outside::write_all::write_all;
use itoa::Buffer;
use job_words::program::Program;

/// The line of a program's usage.
fn usage_text(program: Program) -> &'static [u8]
    ensures { result.now ≡ usage_text program }
{
    match program {
        Program::FlinkRun =>
            b"usage: flink_run check PLAN | need PLAN WORKERS | explain PLAN WORKERS SEGMENTS | run PLAN WORKERS SEGMENTS NAME=PATH... | drill NUMBER ROWS WORKERS SEGMENTS\n",
        Program::PlainRun => b"usage: plain_run PLAN NAME=PATH...\n",
    }
}

/// The status of an end: 0 where all was written, else the fault's.
pub fn status_of(fault: &Option<Fault>) -> u8
    ensures { result ≡ status_of fault.now }
{
    match fault {
        None => 0,
        Some(Fault::Usage) => 2,
        Some(Fault::PlanRefused { .. }) => 3,
        Some(Fault::InputRefused { .. }) => 4,
        Some(Fault::ReadFault { .. }) => 5,
        Some(Fault::WriteFault) => 8,
        Some(Fault::Memory) => 9,
        Some(Fault::TooSmall { .. }) => 10,
        Some(Fault::Unbound { .. }) => 12,
        Some(Fault::SpillFault { .. }) => 6,
        Some(Fault::Damaged { .. }) => 11,
        Some(Fault::SolutionFull { .. }) => 7,
    }
}

/// Writes the line of a fault. The name is that of the source that the fault speaks of. It takes no
/// memory.
pub fn write_line<E: Sink>(
    err: &mut E,
    program: Program,
    name: &str,
    fault: &Fault,
) -> Result<(), Failed>
    ensures cause { HasCause (E.fault_count err.old) (E.fault_count err.new) result }
    ensures written { OnOk result (Appends (E.told err.old) (E.told err.new) (line_of program name.now fault.now)) }
    ensures broken { OnErr result
        (AppendsProperPrefix (E.told err.old) (E.told err.new) (line_of program name.now fault.now)) }
{
    match fault {
        Fault::Usage => write_all(err, usage_text(program)),
        Fault::PlanRefused { node, code } => write_plan_line(err, *node, *code),
        Fault::InputRefused {
            source: _,
            line,
            field,
            kind,
        } => write_input_line(err, name, *line, *field, *kind),
        Fault::ReadFault { source } => write_read_line(err, name, *source),
        Fault::WriteFault => write_all(err, b"write failed\n"),
        Fault::Memory => write_all(err, b"out of memory\n"),
        Fault::TooSmall { need, have } => write_small_line(err, *need, *have),
        Fault::Unbound { name } => write_parts(
            err,
            &[b"input not bound: ", name.as_str().as_bytes(), b"\n"],
        ),
        Fault::SpillFault { worker } => write_spill_line(err, *worker),
        Fault::Damaged { worker, block } => write_damaged_line(err, *worker, *block),
        Fault::SolutionFull {
            node,
            step,
            worker,
            need,
            have,
        } => write_full_line(err, *node, *step, *worker, *need, *have),
    }
}

/// Writes the line of a file that couldn't be read.
fn write_read_line<E: Sink>(err: &mut E, name: &str, source: u32) -> Result<(), Failed>
    ensures cause { HasCause (E.fault_count err.old) (E.fault_count err.new) result }
    ensures written { OnOk result (Appends (E.told err.old) (E.told err.new) (read_text name.now source)) }
    ensures broken { OnErr result
        (AppendsProperPrefix (E.told err.old) (E.told err.new) (read_text name.now source)) }
{
    if source == 0 {
        write_all(err, b"read failed: plan file\n")
    } else {
        write_parts(err, &[b"read failed: input ", name.as_bytes(), b"\n"])
    }
}

/// Writes the line of a plan that is refused.
fn write_plan_line<E: Sink>(err: &mut E, node: u32, code: PlanCode) -> Result<(), Failed>
    ensures cause { HasCause (E.fault_count err.old) (E.fault_count err.new) result }
    ensures written { OnOk result
        (Appends (E.told err.old) (E.told err.new) (line_of Program.FlinkRun [] (Fault.PlanRefused node code))) }
    ensures broken { OnErr result
        (AppendsProperPrefix (E.told err.old) (E.told err.new) (line_of Program.FlinkRun [] (Fault.PlanRefused node code))) }
{
    let mut buffer = Buffer::new();
    let node = buffer.format(node).as_bytes();
    let parts: [&[u8]; 5] = [
        b"plan refused: node ",
        node,
        b": ",
        code_text(code).as_bytes(),
        b"\n",
    ];
    write_parts(err, &parts)
}

/// Writes the line of an input that is refused.
fn write_input_line<E: Sink>(
    err: &mut E,
    name: &str,
    line: u64,
    field: u32,
    kind: InputKind,
) -> Result<(), Failed>
    ensures cause { HasCause (E.fault_count err.old) (E.fault_count err.new) result }
    ensures written { OnOk result
        (Appends (E.told err.old) (E.told err.new) (line_of Program.FlinkRun name.now (Fault.InputRefused 0 line field kind))) }
    ensures broken { OnErr result
        (AppendsProperPrefix (E.told err.old) (E.told err.new) (line_of Program.FlinkRun name.now (Fault.InputRefused 0 line field kind))) }
{
    let mut line_buffer = Buffer::new();
    let mut field_buffer = Buffer::new();
    let line = line_buffer.format(line).as_bytes();
    let field = field_buffer.format(field).as_bytes();
    write_input_parts(
        err,
        name.as_bytes(),
        line,
        field,
        kind_text(kind).as_bytes(),
    )
}

/// Writes the line of an input that is refused, of its parts.
fn write_input_parts<'a, E: Sink>(
    err: &mut E,
    name: &'a [u8],
    line: &'a [u8],
    field: &'a [u8],
    kind: &'a [u8],
) -> Result<(), Failed>
    ensures cause { HasCause (E.fault_count err.old) (E.fault_count err.new) result }
    ensures written { OnOk result
        (Appends (E.told err.old) (E.told err.new) (input_line name.now line.now field.now kind.now)) }
    ensures broken { OnErr result
        (AppendsProperPrefix (E.told err.old) (E.told err.new) (input_line name.now line.now field.now kind.now)) }
{
    let parts: [&'a [u8]; 9] = [
        b"input refused: ",
        name,
        b" line ",
        line,
        b" field ",
        field,
        b": ",
        kind,
        b"\n",
    ];
    write_parts(err, &parts)
}

/// Writes the line of a budget that is too small.
fn write_small_line<E: Sink>(err: &mut E, need: u64, have: u64) -> Result<(), Failed>
    ensures cause { HasCause (E.fault_count err.old) (E.fault_count err.new) result }
    ensures written { OnOk result
        (Appends (E.told err.old) (E.told err.new) (line_of Program.FlinkRun [] (Fault.TooSmall need have))) }
    ensures broken { OnErr result
        (AppendsProperPrefix (E.told err.old) (E.told err.new) (line_of Program.FlinkRun [] (Fault.TooSmall need have))) }
{
    let mut need_buffer = Buffer::new();
    let mut have_buffer = Buffer::new();
    let need = need_buffer.format(need).as_bytes();
    let have = have_buffer.format(have).as_bytes();
    let parts: [&[u8]; 5] = [b"too few segments: need ", need, b" have ", have, b"\n"];
    write_parts(err, &parts)
}

/// Writes the line of a disk that failed.
fn write_spill_line<E: Sink>(err: &mut E, worker: u32) -> Result<(), Failed>
    ensures cause { HasCause (E.fault_count err.old) (E.fault_count err.new) result }
    ensures written { OnOk result
        (Appends (E.told err.old) (E.told err.new) (line_of Program.FlinkRun [] (Fault.SpillFault worker))) }
    ensures broken { OnErr result
        (AppendsProperPrefix (E.told err.old) (E.told err.new) (line_of Program.FlinkRun [] (Fault.SpillFault worker))) }
{
    let mut buffer = Buffer::new();
    let worker = buffer.format(worker).as_bytes();
    let parts: [&[u8]; 3] = [b"spill failed: worker ", worker, b"\n"];
    write_parts(err, &parts)
}

/// Writes the line of a page that is damaged.
fn write_damaged_line<E: Sink>(err: &mut E, worker: u32, block: u64) -> Result<(), Failed>
    ensures cause { HasCause (E.fault_count err.old) (E.fault_count err.new) result }
    ensures written { OnOk result
        (Appends (E.told err.old) (E.told err.new) (line_of Program.FlinkRun [] (Fault.Damaged worker block))) }
    ensures broken { OnErr result
        (AppendsProperPrefix (E.told err.old) (E.told err.new) (line_of Program.FlinkRun [] (Fault.Damaged worker block))) }
{
    let mut worker_buffer = Buffer::new();
    let mut block_buffer = Buffer::new();
    let worker = worker_buffer.format(worker).as_bytes();
    let block = block_buffer.format(block).as_bytes();
    let parts: [&[u8]; 5] = [b"spill damaged: worker ", worker, b" block ", block, b"\n"];
    write_parts(err, &parts)
}

/// Writes the line of a solution set that is full.
fn write_full_line<E: Sink>(
    err: &mut E,
    node: u32,
    step: u64,
    worker: u32,
    need: u64,
    have: u64,
) -> Result<(), Failed>
    ensures cause { HasCause (E.fault_count err.old) (E.fault_count err.new) result }
    ensures written { OnOk result (Appends (E.told err.old) (E.told err.new)
        (line_of Program.FlinkRun [] (Fault.SolutionFull node step worker need have))) }
    ensures broken { OnErr result (AppendsProperPrefix (E.told err.old) (E.told err.new)
        (line_of Program.FlinkRun [] (Fault.SolutionFull node step worker need have))) }
{
    let mut node_buffer = Buffer::new();
    let mut step_buffer = Buffer::new();
    let mut worker_buffer = Buffer::new();
    let mut need_buffer = Buffer::new();
    let mut have_buffer = Buffer::new();
    let node = node_buffer.format(node).as_bytes();
    let step = step_buffer.format(step).as_bytes();
    let worker = worker_buffer.format(worker).as_bytes();
    let need = need_buffer.format(need).as_bytes();
    let have = have_buffer.format(have).as_bytes();
    write_full_parts(err, node, step, worker, need, have)
}

/// Writes the line of a solution set that is full, of its parts.
fn write_full_parts<'a, E: Sink>(
    err: &mut E,
    node: &'a [u8],
    step: &'a [u8],
    worker: &'a [u8],
    need: &'a [u8],
    have: &'a [u8],
) -> Result<(), Failed>
    ensures cause { HasCause (E.fault_count err.old) (E.fault_count err.new) result }
    ensures written { OnOk result (Appends (E.told err.old) (E.told err.new)
        (full_line node.now step.now worker.now need.now have.now)) }
    ensures broken { OnErr result (AppendsProperPrefix (E.told err.old) (E.told err.new)
        (full_line node.now step.now worker.now need.now have.now)) }
{
    let parts: [&'a [u8]; 11] = [
        b"solution full: node ",
        node,
        b" superstep ",
        step,
        b" worker ",
        worker,
        b" need ",
        need,
        b" have ",
        have,
        b"\n",
    ];
    write_parts(err, &parts)
}

/// Writes what is told of a plan that is accepted: its nodes, bodies counted, and the bytes of its widest
/// record. It takes no memory.
pub fn write_check<K: Sink>(out: &mut K, nodes: usize, widest: u32) -> Result<(), Failed>
    ensures cause { HasCause (K.fault_count out.old) (K.fault_count out.new) result }
    ensures written { OnOk result (Appends (K.told out.old) (K.told out.new) (check_text nodes widest)) }
    ensures broken { OnErr result (AppendsProperPrefix (K.told out.old) (K.told out.new) (check_text nodes widest)) }
{
    let mut nodes_buffer = Buffer::new();
    let mut widest_buffer = Buffer::new();
    let nodes = nodes_buffer.format(nodes).as_bytes();
    let widest = widest_buffer.format(widest).as_bytes();
    let parts: [&[u8]; 5] = [
        b"plan ok: ",
        nodes,
        b" nodes, widest record ",
        widest,
        b" bytes\n",
    ];
    write_parts(out, &parts)
}

/// Writes how many segments a plan needs. It takes no memory.
pub fn write_need<K: Sink>(out: &mut K, need: u64) -> Result<(), Failed>
    ensures cause { HasCause (K.fault_count out.old) (K.fault_count out.new) result }
    ensures written { OnOk result (Appends (K.told out.old) (K.told out.new) (need_text need)) }
    ensures broken { OnErr result (AppendsProperPrefix (K.told out.old) (K.told out.new) (need_text need)) }
{
    let mut buffer = Buffer::new();
    let need = buffer.format(need).as_bytes();
    let parts: [&[u8]; 3] = [b"need ", need, b"\n"];
    write_parts(out, &parts)
}

/// Writes the parts, one after the other.
fn write_parts<E: Sink>(err: &mut E, parts: &[&[u8]]) -> Result<(), Failed>
    ensures cause { HasCause (E.fault_count err.old) (E.fault_count err.new) result }
    ensures written { OnOk result
        (Appends (E.told err.old) (E.told err.new) (concat (map (λ p. p.now) parts.now))) }
    ensures broken { OnErr result
        (AppendsProperPrefix (E.told err.old) (E.told err.new) (concat (map (λ p. p.now) parts.now))) }
{
    for part in parts {
        write_all(err, *part)?;
    }
    Ok(())
}

fn code_text(code: PlanCode) -> &'static str
    ensures { result.now ≡ code_text code }
{
    match code {
        PlanCode::TooBig => "TooBig",
        PlanCode::BadJson => "BadJson",
        PlanCode::BadPlan => "BadPlan",
        PlanCode::TooMany => "TooMany",
        PlanCode::BadNode => "BadNode",
        PlanCode::BadName => "BadName",
        PlanCode::BadExpr => "BadExpr",
        PlanCode::Duplicate => "Duplicate",
        PlanCode::Misplaced => "Misplaced",
        PlanCode::UnknownName => "UnknownName",
        PlanCode::BadField => "BadField",
        PlanCode::BadTypes => "BadTypes",
        PlanCode::BadWidth => "BadWidth",
        PlanCode::NoFit => "NoFit",
        PlanCode::BadResult => "BadResult",
        PlanCode::NotBuilt => "NotBuilt",
    }
}

fn kind_text(kind: InputKind) -> &'static str
    ensures { result.now ≡ kind_text kind }
{
    match kind {
        InputKind::OddQuotes => "OddQuotes",
        InputKind::Split => "Split",
        InputKind::FieldCount => "FieldCount",
        InputKind::BadLong => "BadLong",
        InputKind::BadBool => "BadBool",
        InputKind::BadText => "BadText",
        InputKind::TooLong => "TooLong",
        InputKind::LineTooLong => "LineTooLong",
        InputKind::Endless => "Endless",
        InputKind::NotBuilt => "NotBuilt",
    }
}
