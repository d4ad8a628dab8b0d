//! What a profile is: names, stacks and their sums, labels, types, tenants and pushes, with their limits and weights.
#![tactic(auto)]

mod kind;
mod labels;
mod laws;
mod name;
mod part_ask;
mod profile;
mod push;
mod seen;
mod series;
mod stack;
mod sums;
mod tenant;
#[cfg(test)]
mod tests;
mod weight;

pub use kind::{ProfileType, TypeFault};
pub use labels::{
    LabelFault, LabelSet, MAX_LABELS, MAX_NAME_BYTES, MAX_VALUE_BYTES, SERVICE_LABEL,
};
pub use laws::sums_are_exact;
pub use name::{Name, NameFault};
pub use part_ask::PartAsk;
pub use profile::{MAX_PROFILES, Profile, Profiles};
pub use push::Push;
pub use series::{NAME_LABEL, TYPE_LABEL, own_labels, type_name};
pub use stack::{MAX_FRAME_BYTES, MAX_FRAMES, Stack, StackFault};
pub use sums::{AddFault, MAX_TOTAL, StackSums};
pub use tenant::{MAX_TENANT_BYTES, Tenant, TenantFault, wrong_tenant_byte};
pub use weight::MAX_WEIGHT;
