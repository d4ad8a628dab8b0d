// What a query asks of pushes.
use crate::Tenant;

/// Whose profiles are asked for, and of which times, in milliseconds since 1970, both ends included.
#[derive(Debug, Drop)]
pub struct PartAsk {
    pub tenant: Tenant,
    pub from_ms: u64,
    pub until_ms: u64,
}
