ghost use Rattle.std.specs.Prelude.{◌≡◌, ◌≤◌, length, IfOk};
ghost use Rattle.flow_types.specs.Bags.{ordered};
ghost use Rattle.flow_model.specs.Algebra.{eval};
ghost use Rattle.flow_model.specs.Segments.{widest_record, minimum};
ghost use Rattle.flow_model.specs.Rules.{IsPlan};
ghost use Rattle.delim_io.specs.ResultText.{text_of};
ghost use Rattle.job_report.specs.Lines.{check_text, need_text};
ghost use Rattle.flink_job.specs.Stops.{EndsPrinting};

use delim_io::result_text::{WriteFault, write_rows};
use flow_model::plan::Plan;
use flow_model::rows::Inputs;
use flow_outside::failure::Memory;
use flow_outside::sink::Sink;
use flow_types::row::{Row, sort_rows};
use job_report::fault::Fault;
use job_report::report::{write_check, write_need};
use plain_eval::eval::eval_rows;
use plan_need::need::{minimum, widest_record};
use std::alloc::Global;

/// Writes what is told of a plan that is accepted; `None` where all was written.
pub fn print_check<K: Sink>(plan: &Plan, out: &mut K) -> Option<Fault>
    ensures later { K.fault_count out.old ≤ K.fault_count out.new }
    ensures ends { EndsPrinting (check_text (length plan.now.nodes) (widest_record plan.now))
        (K.told out.old) (K.told out.new) (K.fault_count out.old) (K.fault_count out.new) result }
{
    match write_check(out, plan.nodes.len(), widest_record(plan)) {
        Ok(()) => None,
        Err(_) => Some(Fault::WriteFault),
    }
}

/// Writes how many segments a plan needs; `None` where all was written.
pub fn print_need<K: Sink>(plan: &Plan, workers: u32, out: &mut K) -> Option<Fault>
    requires plan { IsPlan plan.now }
    requires least { 1 ≤ workers }
    requires most { workers ≤ 32 }
    ensures later { K.fault_count out.old ≤ K.fault_count out.new }
    ensures ends { EndsPrinting (need_text (minimum plan.now workers))
        (K.told out.old) (K.told out.new) (K.fault_count out.old) (K.fault_count out.new) result }
{
    match write_need(out, minimum(plan, workers)) {
        Ok(()) => None,
        Err(_) => Some(Fault::WriteFault),
    }
}

/// Writes the text of a plan's result over its inputs, in tuple order; `None` where all was written.
pub fn print_result<K: Sink>(
    alloc: Global,
    plan: &Plan,
    inputs: &Inputs,
    out: &mut K,
) -> Option<Fault>
    ensures later { K.fault_count out.old ≤ K.fault_count out.new }
    ensures ends { EndsPrinting (text_of (eval plan.now inputs.now))
        (K.told out.old) (K.told out.new) (K.fault_count out.old) (K.fault_count out.new) result }
{
    let Ok(rows) = sorted_result(alloc, plan, inputs) else {
        return Some(Fault::Memory);
    };
    match write_rows(alloc, rows.as_slice(), out) {
        Ok(()) => None,
        Err(WriteFault::Memory) => Some(Fault::Memory),
        Err(WriteFault::Write) => Some(Fault::WriteFault),
    }
}

/// The rows of a plan's result over its inputs, in tuple order.
fn sorted_result(alloc: Global, plan: &Plan, inputs: &Inputs) -> Result<Vec<Row>, Memory>
    ensures { IfOk result (λ rows. rows.items ≡ ordered (eval plan.now inputs.now)) }
{
    let mut rows = eval_rows(alloc, plan, inputs)?.into_vec();
    match sort_rows(&mut rows) {
        Ok(()) => Ok(rows),
        Err(_) => Err(Memory),
    }
}
