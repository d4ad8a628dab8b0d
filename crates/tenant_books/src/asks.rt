// A push that asks to be kept.

use profile_model::Push;

/// A push, and how many pushes its tenant must have already.
#[derive(Debug, Drop)]
pub struct PushAsk {
    pub push: Push,
    /// 0 where nothing is asked.
    pub asked: u64,
}
