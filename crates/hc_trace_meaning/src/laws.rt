// What is true of every trace. A function here does nothing: its contract is the law.
ghost use Rattle.hc_trace_meaning.specs.Promise.{EachLineIsAnswered, LogsAreRight};
ghost use Rattle.hc_trace_meaning.specs.Runs.{TracesAreRuns};
ghost use Rattle.hc_trace_meaning.specs.Turns.{OutputIsByLines};

/// The log of every trace is legal, and honest.
pub fn logs_are_right()
    ensures { LogsAreRight }
{}

/// Each line behind the configuration is answered.
pub fn each_line_is_answered()
    ensures { EachLineIsAnswered }
{}

/// The log of every trace is that of a schedule, which follows its steps.
pub fn traces_are_runs()
    ensures { TracesAreRuns }
{}

/// Line by line, as it is read, a trace comes to its output.
pub fn output_is_by_lines()
    ensures { OutputIsByLines }
{}
