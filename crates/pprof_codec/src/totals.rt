// The values of a profile, and their sums.
ghost use Rattle.std.specs.Prelude.{◌≡◌, not, nat_lt, sum_by};
ghost use Rattle.profile_model.specs.Limits.{total_bound};
ghost use Rattle.pprof_message.specs.Gathered.{sample_in};
ghost use Rattle.pprof_codec.specs.Profiles.{value_of};
ghost use Rattle.pprof_codec.specs.Checks.{first_of, total_faults};

use crate::PprofFault;
use pprof_message::{PprofMessage, SampleRef};
use profile_model::MAX_TOTAL;

pub(crate) fn first_total_fault(message: &PprofMessage) -> Option<PprofFault>
    ensures { result ≡ first_of (total_faults message.now) }
{
    for number in 0..message.sample_types().len() {
        if is_too_large(message, number) {
            return Some(PprofFault::TooLarge {
                sample_type: number as u64,
            });
        }
    }
    None
}

// Whether all values of the sample type with this number come to more than stacks may.
fn is_too_large(message: &PprofMessage, number: usize) -> bool
    ensures { result ≡ not (nat_lt (sum_by (value_of number) message.now.samples) total_bound) }
{
    let mut total = 0;
    for at in 0..message.samples() {
        let value = value_of(&message.sample(at), number);
        if value > MAX_TOTAL - total {
            return true;
        }
        total += value;
    }
    false
}

// The sample's value of the sample type with this number. Where it has none, or a negative one, it is 0.
pub(crate) fn value_of(sample: &SampleRef, number: usize) -> u64
    ensures { result ≡ value_of number (sample_in sample.now) }
{
    match sample.values.get(number) {
        Some(value) if *value >= 0 => *value as u64,
        _ => 0,
    }
}
