// What a query asks for.
ghost use Rattle.std.specs.Prelude.{◌≡◌, MatchResult, map};
ghost use Rattle.faults.specs.Answers.{IfAnswered, IfFault};
ghost use Rattle.selector.specs.Grammar.{IsQueryOf, kind_of};
ghost use Rattle.selector.specs.Rests.{AtQuery, IsReadFault, matching_of};

use crate::inside::read_inside;
use crate::written::{ReadFault, Written, placed};
use crate::{Selector, SelectorFault};
use faults::Refused;
use profile_model::{ProfileType, TypeFault};
use std::alloc::Global;

/// The profiles of a type whose labels match.
#[derive(Drop)]
pub struct Query {
    pub kind: ProfileType,
    pub selector: Selector,
}

impl Query {
    ghost use Rattle.selector.specs.Read.{IsReadQuery};

    /// The query of a text such as `process_cpu:samples:count:cpu:nanoseconds{service_name="shop"}`. The type is all
    /// before the first `{`, and without braces the selector is `{}`. The place of a fault counts in the whole text.
    pub fn read(alloc: Global, text: &str) -> Result<Query, Refused<SelectorFault>>
        ensures read { IfAnswered (IsReadQuery text.now) result }
    {
        let kind = match ProfileType::read(alloc, kind_text(text)) {
            Ok(kind) => kind,
            Err(Refused::Fault(TypeFault::NotFiveParts)) => {
                return Err(Refused::Fault(SelectorFault::Kind));
            }
            Err(Refused::Memory) => return Err(Refused::Memory),
        };
        let written = match read_selected(alloc, text) {
            Ok(written) => written,
            Err(refused) => return Err(placed(refused, text.len())),
        };
        let selector = Selector::build(alloc, written)?;
        Ok(Query { kind, selector })
    }
}

fn kind_text(text: &str) -> &str
    ensures { result.now ≡ kind_of text.now }
{
    match text.split_once('{') {
        Some((kind, _)) => kind,
        None => text,
    }
}

// The matchers that a query asks for, as the text has them.
fn read_selected(alloc: Global, text: &str) -> Result<Vec<Written<'_>>, Refused<ReadFault>>
    ensures { MatchResult result
        (λ matchers. IsQueryOf text.now (map matching_of matchers.items))
        (IfFault (IsReadFault AtQuery text.now)) }
{
    match text.split_once('{') {
        Some((_, inside)) => read_inside(alloc, inside),
        None => Ok(Vec::new(alloc)),
    }
}
