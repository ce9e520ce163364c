// The end: what the logs and the records come to.
ghost use Rattle.std.specs.Prelude.{◌≡◌, ◌<◌, ◌≤◌, ℕ, true, false, List, Some, All, length, slice_get, IfOk, IfErr};
ghost use Rattle.hc_client_records.specs.Records.{Record as Did, failures as failures_in_log};
ghost use Rattle.hc_paged.specs.Digests.{sip_hash};
ghost use Rattle.hc_shards.specs.Shards.{share_of};
ghost use Rattle.hc_shard_threads.specs.Closed.{AreClosed, IsColumn, IsOf, IsUnclosed};

use crate::client::ShardClient;
use crate::shards::Shards;
use hc_client_records::{Record, Recorded, failures as failures_of};
use hc_history::Kept;
use hc_threads::Report;
use std::alloc::{AllocError, Global};
use std::marker::Model;

/// Why there is no report.
#[derive(Drop)]
pub enum Unclosed {
    /// What `Shared::close` calls a mismatch, in the shard of this number: the first that has one.
    Mismatch(u8),
    /// A client isn't one of so many shards. The shards come back.
    OtherClients(Shards<Kept, Global>),
    /// There is no memory for the reports. The shards come back.
    NoMemory(Shards<Kept, Global>),
}

/// What a client did in one shard.
#[derive(Drop)]
struct InShard<'x> {
    record: &'x Record,
}

impl<'x> Model for InShard<'x> {
    ghost use Rattle.hc_client_records.specs.Records.{Record as Did};

    ghost Value = { Did };

    ghost view = { λ s. s.record.now };
}

/// What all clients did in one shard, one after the other.
#[derive(Drop)]
struct Column<'x> {
    clients: Vec<InShard<'x>>,
}

impl<'x> Model for Column<'x> {
    ghost use Rattle.std.specs.Prelude.{List};
    ghost use Rattle.hc_client_records.specs.Records.{Record as Did};

    ghost Value = { List Did };

    ghost view = { λ c. c.clients.items };
}

impl<'x> Recorded for InShard<'x> {
    ghost recorded = { λ s. s };

    fn record(&self) -> &Record {
        self.record
    }
}

impl Shards<Kept, Global> {
    /// Ends the shards, and judges each as `Shared::close` does: by its share of the configuration and by its clients'
    /// records, and all together by how often the device failed, lies among it. The reports stand in the order of the
    /// shards' numbers.
    pub fn close(self, clients: &[ShardClient], failures: u64) -> Result<Vec<Report>, Unclosed>
        ensures ok { IfOk result (λ reports. AreClosed sip_hash (share_of self) self.shards clients.now failures reports.items) }
        ensures err { IfErr result (λ e. IsUnclosed self clients.now failures e) }
    {
        let shards = self.count();
        if !are_of(shards, clients) {
            return Err(Unclosed::OtherClients(self));
        }
        let alloc = *self.lanes.allocator();
        let Ok(columns) = columns_of(alloc, clients, shards) else {
            return Err(Unclosed::NoMemory(self));
        };
        let Ok(mut reports) = Vec::with_capacity(alloc, usize::from(shards)) else {
            return Err(Unclosed::NoMemory(self));
        };
        let mut left = failures;
        let mut shard = 0u8;
        for lane in self.into_lanes() {
            let Ok(report) = lane.close(columns[usize::from(shard)].clients.as_slice(), left) else {
                return Err(Unclosed::Mismatch(shard));
            };
            left -= failures_of(report.log.as_slice()) as u64;
            reports.push_reserved(report);
            shard += 1;
        }
        Ok(reports)
    }
}

/// Whether each client is one of so many shards.
fn are_of(shards: u8, clients: &[ShardClient]) -> bool
    ensures all { result ≡ true → All (IsOf shards) clients.now }
    ensures some { result ≡ false → All (IsOf shards) clients.now → ⊥ }
{
    for client in clients {
        if client.count() != usize::from(shards) {
            return false;
        }
    }
    true
}

/// What the clients did in each of so many shards.
fn columns_of<'x>(
    alloc: Global,
    clients: &'x [ShardClient],
    shards: u8,
) -> Result<Vec<Column<'x>>, AllocError>
    requires { All (IsOf shards) clients.now }
    ensures count { IfOk result (λ columns. length columns.items ≡ shards) }
    ensures each { IfOk result (λ columns. (shard : ℕ) (column : List Did) → slice_get columns.items shard ≡ Some column → IsColumn shard clients.now column) }
{
    let mut columns = Vec::with_capacity(alloc, usize::from(shards))?;
    for shard in 0..shards {
        columns.push(column_of(alloc, clients, shard)?)?;
    }
    Ok(columns)
}

/// What the clients did in this shard.
fn column_of<'x>(
    alloc: Global,
    clients: &'x [ShardClient],
    shard: u8,
) -> Result<Column<'x>, AllocError>
    requires { All (λ (row : List Did). shard < length row) clients.now }
    ensures { IfOk result (λ column. IsColumn shard clients.now column) }
{
    let mut column = Vec::with_capacity(alloc, clients.len())?;
    for client in clients {
        column.push(InShard {
            record: client.clients[usize::from(shard)].record(),
        })?;
    }
    Ok(Column { clients: column })
}
