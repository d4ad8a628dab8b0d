// What each tenant's values may come to.
ghost use Rattle.std.specs.Prelude.{◌≡◌, ◌<◌, [], List, ℕ, OnOk, OnErr, if◌then◌else◌, nat_eq};
ghost use Rattle.std.specs.Cmp.Lexicographic.{pointwise};
ghost use Rattle.profile_model.specs.Limits.{total_bound};
ghost use Rattle.tenant_books.specs.Limits.{limit_of};

use profile_model::{MAX_TOTAL, Tenant};
use std::alloc::{AllocError, Global};
use std::collections::BTreeMap;
use std::marker::Model;

/// What all values of a tenant may come to: a number of its own, or one for all others. None is above 2^63 - 1.
#[derive(Debug, Drop)]
pub struct Limits {
    alloc: Global,
    fallback: u64,
    tenants: BTreeMap<Vec<u8>, u64>,
}

impl Model for Limits {
    ghost use Rattle.std.specs.Prelude.{◌<◌};
    ghost use Rattle.std.specs.List.{AllByRecursion};
    ghost use Rattle.profile_model.specs.Limits.{total_bound};
    ghost use Rattle.tenant_books.specs.Limits.{LimitsView};
    ghost use Rattle.tenant_books.specs.Rows.{rows_of};

    ghost Value = { LimitsView };

    ghost view = { λ l. record { fallback = l.fallback; tenants = rows_of l.tenants.entries } };

    ghost invariant = { λ l. (l.fallback < total_bound) × AllByRecursion (λ entry. entry.1 < total_bound) l.tenants.entries };
}

impl Limits {
    /// No tenant has a number of its own, and the one for all others is 2^63 - 1. It takes no memory.
    pub fn usual(alloc: Global) -> Limits
        ensures fallback { result.fallback ≡ MAX_TOTAL }
        ensures tenants { result.tenants ≡ [] }
    {
        Limits::with_fallback(alloc, MAX_TOTAL)
    }

    /// No tenant has a number of its own. It takes no memory.
    pub fn with_fallback(alloc: Global, fallback: u64) -> Limits
        requires { fallback < total_bound }
        ensures fallback { result.fallback ≡ fallback }
        ensures tenants { result.tenants ≡ [] }
    {
        Limits {
            alloc,
            fallback,
            tenants: BTreeMap::new(alloc),
        }
    }

    /// Gives a tenant a number of its own, in place of the one it had.
    pub fn set(&mut self, tenant: &[u8], limit: u64) -> Result<(), AllocError>
        requires { limit < total_bound }
        ensures ok { OnOk result ((other : List ℕ) → limit_of self.new other ≡ (if pointwise nat_eq tenant.now other then limit else limit_of self.old other)) }
        ensures fallback { self.new.fallback ≡ self.old.fallback }
        ensures err { OnErr result (self.new.tenants ≡ self.old.tenants) }
    {
        let key = Vec::from_slice(self.alloc, tenant)?;
        self.tenants.insert(key, limit)?;
        Ok(())
    }

    /// What all values of the tenant may come to. It takes no memory.
    pub fn of(&self, tenant: &Tenant) -> u64
        ensures limit { result ≡ limit_of self.now tenant.now }
        ensures bound { result < total_bound }
    {
        self.tenants
            .get(tenant.as_bytes())
            .copied()
            .unwrap_or(self.fallback)
    }
}
