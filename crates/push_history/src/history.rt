// What a history holds of one tenant.
ghost use Rattle.std.specs.Prelude.{◌≡◌, ◌<◌, ◌≤◌, length};
ghost use Rattle.profile_model.specs.Limits.{total_bound};
ghost use Rattle.push_history.specs.History.{front_of, tenant_total};

use crate::Standing;
use profile_model::{Push, Tenant};

/// How many pushes of the tenant there are.
pub fn front(history: &[Push], tenant: &Tenant) -> u64
    ensures front { result ≡ front_of history.now tenant.now }
    ensures few { result ≤ length history.now }
{
    history.iter().filter(|push| push.tenant == *tenant).count() as u64
}

/// How many pushes of the tenant there are, and all values of all their profiles.
pub fn standing(history: &[Push], tenant: &Tenant) -> Standing
    requires { tenant_total history.now tenant.now < total_bound }
    ensures front { result.front ≡ front_of history.now tenant.now }
    ensures few { result.front ≤ length history.now }
    ensures total { result.total ≡ tenant_total history.now tenant.now }
{
    let mut front: u64 = 0;
    let mut total: u128 = 0;
    for push in history {
        if push.tenant == *tenant {
            front += 1;
            total += push.total();
        }
    }
    Standing { front, total }
}
