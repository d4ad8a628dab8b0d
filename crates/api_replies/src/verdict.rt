// The reply to a write, once its fate is settled.
ghost use Rattle.std.specs.Prelude.{◌≡◌};
ghost use Rattle.api_replies.specs.Replies.{reply_for_kept, reply_for_verdict};

use crate::answered::answering;
use crate::fault_body::over_limit;
use crate::refusal::{ahead_reply, memory_reply};
use http_session::{Body, Reply, Status, Text};
use request_meaning::PushForm;

/// What became of a push.
#[derive(Clone, Copy, Debug, PartialEq, Eq)]
pub enum Verdict {
    /// It was kept as the last of so many pushes of its tenant.
    Kept(u64),
    /// The tenant has fewer pushes than were asked for.
    FrontAhead {
        asked: u64,
        front: u64,
    },
    /// The tenant's total and the push's would pass the tenant's limit.
    OverLimit {
        kept: u128,
        push: u128,
        limit: u64,
        /// How many pushes of the tenant there are.
        front: u64,
    },
    Memory,
}

/// The reply that tells a verdict. It takes no memory.
pub fn acknowledge(verdict: Verdict, form: PushForm, now: u64, close: bool) -> Reply
    ensures { result ≡ reply_for_verdict verdict form now close }
{
    match verdict {
        Verdict::Kept(front) => kept_reply(front, form, now, close),
        Verdict::OverLimit {
            kept,
            push,
            limit,
            front,
        } => Reply {
            status: Status::UnprocessableContent,
            text: Text::Json,
            body: over_limit(push, kept, limit),
            allow: None,
            front: Some(front),
            now,
            close,
        },
        Verdict::FrontAhead { asked, front } => ahead_reply(asked, front, now, close),
        Verdict::Memory => memory_reply(now, close),
    }
}

// An ingest is answered by an empty text, and a JSON push by an empty object.
fn kept_reply(front: u64, form: PushForm, now: u64, close: bool) -> Reply
    ensures { result ≡ reply_for_kept form front now close }
{
    match form {
        PushForm::Ingest => answering(Text::Plain, Body::empty(), front, now, close),
        PushForm::Json => answering(Text::Json, Body::kept(b"{}"), front, now, close),
    }
}
