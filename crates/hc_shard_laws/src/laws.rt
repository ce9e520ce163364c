// What follows for shards. A function here does nothing: its contract is the law.
ghost use Rattle.hc_shard_laws.specs.OwnKeys.{ShardsKeepKeys};

/// A shard that follows its own steps has calls of its own keys alone.
pub fn shards_keep_keys()
    ensures { ShardsKeepKeys }
{}
