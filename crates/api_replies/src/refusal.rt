// The replies of refusals. No reply here takes memory.
ghost use Rattle.std.specs.Prelude.{◌≡◌, ◌≤◌, length, option_map};
ghost use Rattle.faults.specs.Places.{numbers_of};
ghost use Rattle.api_replies.specs.Replies.{reply_for_ahead};
ghost use Rattle.api_replies.specs.Refusals.{allow_of, body_of, folded_status, ingest_status, last_reply, pprof_status, push_status, refusing, reply_for_memory, reply_for_refusal, status_of};

use crate::fault_body::{front_ahead, named, placed};
use faults::Place;
use folded_reader::FoldedFault;
use http_session::{Allow, BadRequest, Body, Reply, Status, Text};
use ingest::IngestFault;
use json_push::PushFault;
use pprof_codec::PprofFault;
use request_meaning::Refusal;

/// The reply to a request that is refused.
pub(crate) fn refusal_reply(refusal: Refusal, now: u64, close: bool) -> Reply
    ensures { result ≡ reply_for_refusal refusal now close }
{
    Reply {
        status: status_of(refusal),
        text: Text::Json,
        body: body_of(refusal.code(), refusal.place()),
        allow: allow_of(refusal),
        front: None,
        now,
        close,
    }
}

/// The reply to a request that wants more memory than there is.
pub fn memory_reply(now: u64, close: bool) -> Reply
    ensures { result ≡ reply_for_memory now close }
{
    refused(Status::InternalServerError, named("memory"), now, close)
}

/// The reply to a request that asks for more pushes of its tenant than there are.
pub(crate) fn ahead_reply(asked: u64, front: u64, now: u64, close: bool) -> Reply
    ensures { result ≡ reply_for_ahead asked front now close }
{
    Reply {
        status: Status::Conflict,
        text: Text::Json,
        body: front_ahead(asked, front),
        allow: None,
        front: Some(front),
        now,
        close,
    }
}

/// The last reply of a connection whose bytes are no request; none where they were cut off.
pub fn closing_reply(bad: BadRequest, now: u64) -> Option<Reply>
    ensures { result ≡ last_reply bad now }
{
    match bad {
        BadRequest::Malformed => Some(refused(Status::BadRequest, named("H1"), now, true)),
        BadRequest::HeadTooLarge => Some(refused(Status::HeadersTooLarge, named("H2"), now, true)),
        BadRequest::BodyTooLarge => Some(refused(Status::ContentTooLarge, named("H3"), now, true)),
        BadRequest::Chunked => Some(refusal_reply(Refusal::Unbuilt, now, true)),
        BadRequest::CutOff => None,
    }
}

// A fault of what is read is told with its place.
fn body_of(code: &str, place: Option<Place>) -> Body
    requires { length code.now ≤ 100 }
    ensures { result ≡ body_of code.now (option_map numbers_of place) }
{
    match place {
        Some(place) => placed(code, place.numbers().as_slice()),
        None => named(code),
    }
}

// A route with another method names its own.
fn allow_of(refusal: Refusal) -> Option<Allow>
    ensures { result ≡ allow_of refusal }
{
    match refusal {
        Refusal::WrongMethod(allow) => Some(allow),
        _ => None,
    }
}

fn status_of(refusal: Refusal) -> Status
    ensures { result ≡ status_of refusal }
{
    match refusal {
        Refusal::NoRoute => Status::NotFound,
        Refusal::WrongMethod(_) => Status::MethodNotAllowed,
        Refusal::Unbuilt => Status::NotImplemented,
        Refusal::NoTenant => Status::Unauthorized,
        Refusal::Encoded => Status::UnsupportedMediaType,
        Refusal::Ingest(fault) => ingest_status(fault),
        Refusal::Push(fault) => push_status(fault),
        _ => Status::BadRequest,
    }
}

fn ingest_status(fault: IngestFault) -> Status
    ensures { result ≡ ingest_status fault }
{
    match fault {
        IngestFault::Folded(fault) => folded_status(fault),
        IngestFault::Pprof(fault) => pprof_status(fault),
        IngestFault::Weight => Status::ContentTooLarge,
        _ => Status::BadRequest,
    }
}

fn folded_status(fault: FoldedFault) -> Status
    ensures { result ≡ folded_status fault }
{
    match fault {
        FoldedFault::Compressed => Status::UnsupportedMediaType,
        _ => Status::BadRequest,
    }
}

fn pprof_status(fault: PprofFault) -> Status
    ensures { result ≡ pprof_status fault }
{
    match fault {
        PprofFault::Compressed => Status::UnsupportedMediaType,
        PprofFault::Weight => Status::ContentTooLarge,
        _ => Status::BadRequest,
    }
}

fn push_status(fault: PushFault) -> Status
    ensures { result ≡ push_status fault }
{
    match fault {
        PushFault::Pprof { fault, .. } => pprof_status(fault),
        PushFault::TooMany { .. } | PushFault::Weight { .. } => Status::ContentTooLarge,
        _ => Status::BadRequest,
    }
}

fn refused(status: Status, body: Body, now: u64, close: bool) -> Reply
    ensures { result ≡ refusing status body now close }
{
    Reply {
        status,
        text: Text::Json,
        body,
        allow: None,
        front: None,
        now,
        close,
    }
}
