// A pprof to profiles.
ghost use Rattle.std.specs.Prelude.{◌≤◌, length, sum_by, IfOk};
ghost use Rattle.faults.specs.Answers.{IfAnswered};
ghost use Rattle.profile_model.specs.Limits.{most_profiles, most_weight};
ghost use Rattle.profile_model.specs.Weights.{profile_weight};
ghost use Rattle.pprof_codec.specs.Read.{IsReadPprof};

use crate::build::build_profiles;
use crate::judged::judge;
use crate::{Base, PprofFault};
use faults::Refused;
use pprof_message::{MessageFault, read_message};
use profile_model::Profile;
use std::alloc::Global;
use wire_forms::begins_as_gzip;

/// The profiles of a pprof (its `profile.proto`, uncompressed): one for each sample type, in order. Equal stacks
/// are summed, values of 0 and the samples' labels are dropped. The error is the first fault in the order of the checks.
pub fn read_pprof(
    alloc: Global,
    bytes: &[u8],
    base: &Base,
) -> Result<Vec<Profile>, Refused<PprofFault>>
    ensures read { IfAnswered (IsReadPprof base.now bytes.now) result }
    ensures few { IfOk result (λ profiles. length profiles.items ≤ most_profiles) }
    ensures light { IfOk result (λ profiles. sum_by profile_weight profiles.items ≤ most_weight) }
{
    if begins_as_gzip(bytes) {
        return Err(Refused::Fault(PprofFault::Compressed));
    }
    let message = match read_message(alloc, bytes) {
        Ok(message) => message,
        Err(Refused::Fault(MessageFault::Broken(at))) => {
            return Err(Refused::Fault(PprofFault::Broken(at)));
        }
        Err(Refused::Memory) => return Err(Refused::Memory),
    };
    match judge(alloc, message) {
        Ok(judged) => build_profiles(alloc, &judged, base),
        Err(refused) => Err(refused),
    }
}
