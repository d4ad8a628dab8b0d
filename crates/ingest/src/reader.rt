// The push of a request to ingest.
ghost use Rattle.std.specs.Prelude.{◌≡◌, MatchResult};
ghost use Rattle.faults.specs.Answers.{IfFault};
ghost use Rattle.query_parameters.specs.Parameters.{pairs_of};
ghost use Rattle.ingest.specs.Ingests.{IsIngestFault, SaysProfiles};

use crate::IngestFault;
use crate::body::read_body;
use crate::parameters::read_form;
use faults::Refused;
use profile_model::{MAX_WEIGHT, Push, Tenant};
use query_parameters::Parameter;
use std::alloc::Global;

/// The push of these parameters and this body, of a request that was whole at this moment (milliseconds since 1970).
pub fn read_ingest(
    alloc: Global,
    tenant: Tenant,
    parameters: &[Parameter],
    body: &[u8],
    moment_ms: u64,
) -> Result<Push, Refused<IngestFault>>
    ensures { MatchResult result
        (λ push. (push.tenant ≡ tenant) × SaysProfiles (pairs_of parameters.now) body.now moment_ms push.profiles)
        (IfFault (IsIngestFault (pairs_of parameters.now) body.now moment_ms)) }
{
    let form = read_form(alloc, parameters, moment_ms)?;
    let profiles = read_body(alloc, form, body)?;
    let push = Push { tenant, profiles };
    if push.weight() > MAX_WEIGHT {
        return Err(Refused::Fault(IngestFault::Weight));
    }
    Ok(push)
}
