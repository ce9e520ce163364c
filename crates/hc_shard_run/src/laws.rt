// What follows for steps of shards. A function here does nothing: its contract is the law.
ghost use Rattle.hc_shard_run.specs.Steps.{RefusedStepsChangeNothing};

/// With a step that is refused each shard has the steps that it has without it.
pub fn refused_steps_change_nothing()
    ensures { RefusedStepsChangeNothing }
{}
