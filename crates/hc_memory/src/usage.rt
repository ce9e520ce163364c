// What a pool is charged.
use hc_types::PoolSize;

/// Charges of a pool: their bytes, and how many they are.
#[derive(Clone, Copy, Debug, PartialEq, Eq)]
pub struct Usage {
    pub bytes: u64,
    pub number: u64,
}

/// The limits of a pool, what its items are charged that can be found (`linked`), and what those are that are being
/// written or wait to be linked (`open_charges`). Both together are within the limits.
#[derive(Clone, Copy, Debug)]
pub struct PoolUsage {
    pub limits: PoolSize,
    pub linked: Usage,
    pub open_charges: Usage,
}
