ghost use Rattle.flink_job.specs.Completes.{JobCompletes};
ghost use Rattle.flink_job.specs.Refuses.{JobRefuses};

/// The converse of the causes: where the words ask for something, the files are told, the plan is one that
/// the program serves, its sources are bound, its budget is enough, its inputs have rows, and no count rose, the
/// status is 0, or 9 for want of memory.
pub fn job_completes()
    ensures { JobCompletes }
{}

/// The converse of each refusal, in their order: where the files are told and the first flaw is a plan or an
/// input that isn't there, a plan that is refused, a source that isn't bound, a budget that is too small or an
/// input that isn't served, the fault is exactly that one. Else a file up to that place couldn't be read, or
/// memory was wanting.
pub fn job_refuses()
    ensures { JobRefuses }
{}
