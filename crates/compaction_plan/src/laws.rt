//! What holds of all jobs.
ghost use Rattle.compaction_plan.specs.Laws.{DueOnesAreJobs, FewStay, JobsAreBounded, JobsAreRuns, JobsAreSmall, JobsHavePlaces, MergingEnds, OneJob};

/// What a job is to the entries that it is made of. It does nothing: its clauses are the laws.
pub fn jobs_of_entries()
    ensures due { DueOnesAreJobs }
    ensures one { OneJob }
    ensures run { JobsAreRuns }
    ensures place { JobsHavePlaces }
    ensures small { JobsAreSmall }
    ensures bytes { JobsAreBounded }
{}

/// How little stands at the levels where no job is due, and that merging comes there. It does nothing: its clauses are
/// the laws.
pub fn levels_without_a_job()
    ensures few { FewStay }
    ensures ends { MergingEnds }
{}
