// What may turn out to be kept.

use metastore_index::Entry;
use profile_model::Push;

// An entry whose append met a fault, and the pushes that it would bring.
#[derive(Debug, Drop)]
pub(crate) struct Flight {
    pub(crate) entry: Entry,
    pub(crate) pushes: Vec<Push>,
}
