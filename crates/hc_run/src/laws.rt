// What follows for runs over any device. A function here does nothing: its contract is the law.
ghost use Rattle.hc_run.specs.Laws.{ChainsAreRuns, RunsStand, RunsKeepPromise};

/// Steps one after another over a device are a run of the machine, whose device fails as that did.
pub fn chains_are_runs()
    ensures { ChainsAreRuns }
{}

/// Behind each run, what the device is to read next is known, and what fills a slot is the cache's own.
pub fn runs_stand()
    ensures { RunsStand }
{}

/// Each run leaves a legal and honest log, and follows its steps.
pub fn runs_keep_promise()
    ensures { RunsKeepPromise }
{}
