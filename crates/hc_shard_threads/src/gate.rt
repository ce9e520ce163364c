// Where a worker of a shard stands.

use hc_threads::{Gate, NoGate, Point};

/// Is passed by each worker of each shard at each point of its round, while it holds no lock.
pub trait ShardGate {
    fn pass(&self, shard: u8, point: Point);
}

impl ShardGate for NoGate {
    fn pass(&self, _shard: u8, _point: Point) {}
}

/// The gate of one shard's workers.
#[derive(Drop)]
pub(crate) struct AtShard<'x, G> {
    pub(crate) gate: &'x G,
    pub(crate) shard: u8,
}

impl<'x, G: ShardGate> Gate for AtShard<'x, G> {
    fn pass(&self, point: Point) {
        self.gate.pass(self.shard, point);
    }
}
