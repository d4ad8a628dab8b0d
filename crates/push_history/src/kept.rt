// What a tenant has in a history.

/// Where a tenant stands in a history.
#[derive(Clone, Copy, Debug, PartialEq, Eq)]
pub struct Standing {
    /// How many pushes of the tenant there are.
    pub front: u64,
    /// All values of all the tenant's profiles.
    pub total: u128,
}
