ghost use Rattle.amf_commands.specs.WorkedRuns.{RunRows};

/// Worked facts of runs: what numbers among the words say, verdicts with a small limit and on two values, what decides nothing
/// yet, and the lines of `check` and `gen`.
pub fn run_rows()
    ensures { RunRows }
{}
