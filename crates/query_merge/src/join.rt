// Two ascending lists of samples, walked side by side.
ghost use Rattle.std.specs.Prelude.{◌≡◌, ◌+◌, ◌<◌, ◌∷◌, [], List, IfOk, MatchOption};
ghost use Rattle.profile_model.specs.Limits.{total_bound};
ghost use Rattle.profile_model.specs.Sums.{AreSums, total_of};
ghost use Rattle.query_merge.specs.Joining.{IsNext};
ghost use Rattle.query_merge.specs.Merging.{with_samples};

use profile_model::Stack;
use std::alloc::{AllocError, Global};
use std::cmp::Ordering;

// The lowest sample of both lists, and what is left of each behind it.
#[derive(Drop)]
struct Next<'a> {
    sample: (Stack, u64),
    first: &'a [(Stack, u64)],
    second: &'a [(Stack, u64)],
}

/// The samples of both in order. A stack of both has its two values together.
pub(crate) fn joined(
    alloc: Global,
    first: &[(Stack, u64)],
    second: &[(Stack, u64)],
) -> Result<Vec<(Stack, u64)>, AllocError>
    requires first { AreSums first.now }
    requires second { AreSums second.now }
    requires room { total_of first.now + total_of second.now < total_bound }
    ensures sums { IfOk result (λ samples. AreSums samples.items) }
    ensures both { IfOk result (λ samples. samples.items ≡ with_samples first.now second.now) }
    ensures total { IfOk result (λ samples. total_of samples.items ≡ total_of first.now + total_of second.now) }
{
    let mut samples = Vec::new(alloc);
    let mut rest = (first, second);
    while let Some(next) = next_sample(rest.0, rest.1)? {
        samples.push(next.sample)?;
        rest = (next.first, next.second);
    }
    Ok(samples)
}

fn next_sample<'a>(
    first: &'a [(Stack, u64)],
    second: &'a [(Stack, u64)],
) -> Result<Option<Next<'a>>, AllocError>
    requires { total_of first.now + total_of second.now < total_bound }
    ensures { IfOk result (λ next. MatchOption next ((first.now ≡ []) × (second.now ≡ []))
        (λ next. IsNext first.now second.now next.sample next.first.now next.second.now)) }
{
    match (first.split_first(), second.split_first()) {
        (None, None) => Ok(None),
        (Some((sample, rest)), None) => Ok(Some(Next {
            sample: copy_of(sample)?,
            first: rest,
            second,
        })),
        (None, Some((sample, rest))) => Ok(Some(Next {
            sample: copy_of(sample)?,
            first,
            second: rest,
        })),
        (Some((one, first_rest)), Some((other, second_rest))) => match one.0.cmp(&other.0) {
            Ordering::Less => Ok(Some(Next {
                sample: copy_of(one)?,
                first: first_rest,
                second,
            })),
            Ordering::Greater => Ok(Some(Next {
                sample: copy_of(other)?,
                first,
                second: second_rest,
            })),
            Ordering::Equal => Ok(Some(Next {
                sample: (one.0.clone()?, one.1 + other.1),
                first: first_rest,
                second: second_rest,
            })),
        },
    }
}

// It shares the stack's frames.
fn copy_of(sample: &(Stack, u64)) -> Result<(Stack, u64), AllocError>
    ensures { IfOk result (λ copy. copy ≡ sample.now) }
{
    Ok((sample.0.clone()?, sample.1))
}
