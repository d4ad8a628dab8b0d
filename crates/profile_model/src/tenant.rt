// Who pushes and asks.
ghost use Rattle.std.specs.Prelude.{◌≡◌, ℕ, None, Some, not, position, IsErrOf};
ghost use Rattle.profile_model.specs.TenantPlaces.{is_dots, is_tenant_byte, wrong_place};
ghost use Rattle.profile_model.specs.Tenants.{IsReadTenant};
ghost use Rattle.faults.specs.Answers.{IfAnswered};
ghost use Rattle.faults.specs.declared.refused.Refused.TheVariants.{Fault};

use crate::Name;
use faults::Refused;
use std::alloc::{AllocError, Global};
use std::error::Error;
use std::fmt;
use std::marker::Model;

/// The most bytes that a tenant's name may have.
pub const MAX_TENANT_BYTES: usize = 150;

/// A tenant: 1 to 150 bytes of letters, digits and `!-_.*'()`, and neither `.` nor `..`.
#[derive(Debug, Drop)]
pub struct Tenant {
    name: Name,
}

impl Model for Tenant {
    ghost use Rattle.std.specs.Prelude.{◌≡◌, List, ℕ, None};
    ghost use Rattle.profile_model.specs.TenantPlaces.{wrong_place};

    ghost Value = { List ℕ };

    ghost view = { λ t. t.name };

    ghost invariant = { λ t. wrong_place t.name ≡ None };
}

/// Why bytes are no tenant.
#[derive(Clone, Copy, Debug, PartialEq, Eq)]
pub enum TenantFault {
    /// The first wrong byte among the first 150; else 150 where there are more; else 0.
    BadTenant(usize),
}

impl fmt::Display for TenantFault {
    fn fmt<W: fmt::Write>(&self, f: &mut fmt::Formatter<W>) -> fmt::Result {
        match self {
            TenantFault::BadTenant(at) => write!(f, "no tenant: see byte {at}"),
        }
    }
}

impl Error for TenantFault {}

impl Tenant {
    /// The tenant of these bytes.
    pub fn read(alloc: Global, bytes: &[u8]) -> Result<Tenant, Refused<TenantFault>>
        ensures read { IfAnswered (IsReadTenant bytes.now) result }
        ensures refused { (at : ℕ) → wrong_place bytes.now ≡ Some at → IsErrOf result (Fault (TenantFault.BadTenant at)) }
    {
        if let Some(at) = wrong_tenant_byte(bytes) {
            return Err(Refused::Fault(TenantFault::BadTenant(at)));
        }
        // A tenant's bytes are all ASCII, so this is never refused.
        match Name::read(alloc, bytes) {
            Ok(name) => Ok(Tenant { name }),
            Err(_) => Err(Refused::Memory),
        }
    }

    pub fn as_bytes(&self) -> &[u8]
        ensures value { result.now ≡ self.now }
        ensures tenant { wrong_place self.now ≡ None }
    {
        self.name.as_bytes()
    }
}

/// The place that is wrong in bytes that are no tenant. It takes no memory.
pub fn wrong_tenant_byte(bytes: &[u8]) -> Option<usize>
    ensures { result ≡ wrong_place bytes.now }
{
    let front = &bytes[..MAX_TENANT_BYTES.min(bytes.len())];
    if let Some(at) = first_wrong(front) {
        return Some(at);
    }
    if bytes.len() > MAX_TENANT_BYTES {
        return Some(MAX_TENANT_BYTES);
    }
    if is_only_dots(bytes) { Some(0) } else { None }
}

fn first_wrong(bytes: &[u8]) -> Option<usize>
    ensures { result ≡ position (λ b. not (is_tenant_byte b)) bytes.now }
{
    bytes.iter().position(|b| !is_tenant_character(*b))
}

fn is_tenant_character(byte: u8) -> bool
    ensures { result ≡ is_tenant_byte byte }
{
    byte.is_ascii_alphanumeric() || b"!-_.*'()".contains(&byte)
}

fn is_only_dots(bytes: &[u8]) -> bool
    ensures { result ≡ is_dots bytes.now }
{
    matches!(bytes, [] | [b'.'] | [b'.', b'.'])
}

impl Clone for Tenant {
    ghost is_clone = { λ tenant copy. copy ≡ tenant };

    fn clone(&self) -> Result<Tenant, AllocError> {
        let name = self.name.clone()?;
        Ok(Tenant { name })
    }
}

impl PartialEq for Tenant {
    ghost use Rattle.std.specs.Prelude.{nat_eq};
    ghost use Rattle.std.specs.Cmp.Lexicographic.{pointwise, nat_list_eq_equiv};
    ghost use Rattle.std.specs.Cmp;

    ghost eq = { pointwise nat_eq };

    ghost laws = { Cmp.partial_equiv_from_equiv nat_list_eq_equiv };

    fn eq(&self, other: &Self) -> bool {
        self.name == other.name
    }
}

impl Eq for Tenant {
    ghost use Rattle.std.specs.Cmp.Lexicographic.{nat_list_eq_equiv};

    ghost laws = { nat_list_eq_equiv };
}
