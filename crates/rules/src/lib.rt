//! The rules of the scheduler's calls, and what is proved of every run of them.
//!
//! There is no code here to run: each function stands for a theorem, which its contract names.
#![tactic(auto)]

ghost use Rattle.rules.specs.Promise.{EveryRunIsSound, EveryCallKeeps, NoPlanByLimit};
ghost use Rattle.rules.specs.Published.{ResidualRecursion, LoadLaw};
ghost use Rattle.rules.specs.Ranges.{EveryRunInRange};
ghost use Rattle.rules.specs.Readings.{FailedReadings};
ghost use Rattle.rules.specs.Worked.{WorkedRuns, Run10, BuiltPartsAreLawful};

/// The promise holds in every state of every run, under any lawful parts.
pub fn every_run_is_sound()
    ensures { EveryRunIsSound }
{}

/// Whatever run led to a state, the state after one call more is sound, and is reached by a run.
pub fn every_call_keeps()
    ensures { EveryCallKeeps }
{}

/// Under the order by earlier limit no plan holds a parked job together with the ready ones.
pub fn no_plan_by_limit()
    ensures { NoPlanByLimit }
{}

/// Every field, the clock and the number of known jobs stay in their ranges.
pub fn every_run_in_range()
    ensures { EveryRunInRange }
{}

/// The worked runs come out as they should.
pub fn worked_runs()
    ensures { WorkedRuns }
{}

/// A tenth run: a job past its deadline, whose profile has no load.
pub fn run_past_a_deadline()
    ensures { Run10 }
{}

/// The parts of the worked runs keep the laws that the promise asks for.
pub fn built_parts_are_lawful()
    ensures { BuiltPartsAreLawful }
{}

/// Readings of the published method that fail, each with its counterexample.
pub fn failed_readings()
    ensures { FailedReadings }
{}

/// The residual of a job from that of the job before it.
pub fn residual_recursion()
    ensures { ResidualRecursion }
{}

/// The load of a job from its residual.
pub fn load_law()
    ensures { LoadLaw }
{}
