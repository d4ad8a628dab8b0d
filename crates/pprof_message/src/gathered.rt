// What was read of a profile so far.
ghost use Rattle.std.specs.Prelude.{◌≡◌};
ghost use Rattle.pprof_message.specs.Kept.{kept, none_kept};

use crate::lists::{Function, Label, ValueType};
use crate::numbers::{NO_NUMBERS, Numbers};
use crate::runs::Runs;
use std::alloc::Global;

// The three lists of each sample.
#[derive(Debug, Drop)]
pub(crate) struct Samples {
    pub(crate) location_ids: Runs<u64>,
    pub(crate) values: Runs<i64>,
    pub(crate) labels: Runs<Label>,
}

// What a location holds besides its lines.
#[derive(Clone, Copy, Debug)]
pub(crate) struct Head {
    pub(crate) id: u64,
    pub(crate) address: u64,
}

#[derive(Debug, Drop)]
pub(crate) struct Locations {
    pub(crate) heads: Vec<Head>,
    pub(crate) lines: Runs<u64>,
}

// The lists as far as they were read. Of the period type, the last number of each field is kept.
#[derive(Debug, Drop)]
pub(crate) struct Gathered<'a> {
    pub(crate) sample_types: Vec<ValueType>,
    pub(crate) samples: Samples,
    pub(crate) locations: Locations,
    pub(crate) functions: Vec<Function>,
    pub(crate) texts: Vec<&'a [u8]>,
    pub(crate) time_nanos: u64,
    pub(crate) period_type: Numbers,
}

impl<'a> Gathered<'a> {
    pub(crate) fn new(alloc: Global) -> Gathered<'a>
        ensures { kept result ≡ none_kept }
    {
        Gathered {
            sample_types: Vec::new(alloc),
            samples: Samples {
                location_ids: Runs::new(alloc),
                values: Runs::new(alloc),
                labels: Runs::new(alloc),
            },
            locations: Locations {
                heads: Vec::new(alloc),
                lines: Runs::new(alloc),
            },
            functions: Vec::new(alloc),
            texts: Vec::new(alloc),
            time_nanos: 0,
            period_type: NO_NUMBERS,
        }
    }
}
