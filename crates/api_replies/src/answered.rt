// The reply to a request over a history, or the write that it asks for.
ghost use Rattle.std.specs.Prelude.{◌≡◌};
ghost use Rattle.push_history.specs.History.{HasBoundedTotals};
ghost use Rattle.request_meaning.specs.Facts.{facts_of};
ghost use Rattle.api_replies.specs.Replies.{IsAnswered, IsAnsweredAs, IsRepliedTo, answering};

use crate::labels::listed_text;
use crate::refusal::{ahead_reply, memory_reply, refusal_reply};
use crate::render::folded_text;
use faults::Refused;
use http_session::{Body, Reply, Request, Status, Text};
use profile_model::Push;
use push_history::front;
use request_meaning::{Ask, Config, Meaning, Meant, PushForm, meaning_of};
use std::alloc::Global;
use tenant_books::PushAsk;

/// What is to be done with a request.
#[derive(Drop)]
pub enum Answered {
    Reply(Reply),
    /// A write request that was read without fault.
    Push(PushForm, PushAsk),
}

/// The reply to a request over the pushes that were accepted before it, or its push.
pub fn answer(alloc: Global, request: &Request, history: &[Push], config: &Config) -> Answered
    requires { HasBoundedTotals history.now }
    ensures answer { IsAnswered (facts_of config.now) request.now history.now result }
{
    match meaning_of(alloc, request, config) {
        Ok(meant) => answer_meant(alloc, request, history, meant),
        Err(Refused::Fault(refusal)) => {
            Answered::Reply(refusal_reply(refusal, request.moment(), request.close()))
        }
        Err(Refused::Memory) => Answered::Reply(memory_reply(request.moment(), request.close())),
    }
}

fn answer_meant(alloc: Global, request: &Request, history: &[Push], meant: Meant) -> Answered
    requires { HasBoundedTotals history.now }
    ensures { IsAnsweredAs history.now request.now meant result }
{
    let Meant { what, least_front } = meant;
    match what {
        Meaning::Write(form, push) => {
            let asked = least_front;
            Answered::Push(form, PushAsk { push, asked })
        }
        Meaning::Query(ask) => {
            Answered::Reply(answer_query(alloc, request, history, ask, least_front))
        }
    }
}

// The answer to a query, where its tenant has as many pushes as it asks for.
fn answer_query(
    alloc: Global,
    request: &Request,
    history: &[Push],
    ask: Ask,
    least_front: u64,
) -> Reply
    requires { HasBoundedTotals history.now }
    ensures { IsRepliedTo history.now request.now ask least_front result }
{
    let (now, close) = (request.moment(), request.close());
    let front = front(history, &ask.part().tenant);
    if front < least_front {
        return ahead_reply(least_front, front, now, close);
    }
    match ask {
        Ask::Render(mut ask) => match folded_text(alloc, history, &mut ask) {
            Ok(text) => answering(Text::Plain, Body::from_vec(text), front, now, close),
            Err(_) => memory_reply(now, close),
        },
        Ask::Labels(ask) => match listed_text(alloc, history, ask) {
            Ok(text) => answering(Text::Json, Body::from_vec(text), front, now, close),
            Err(_) => memory_reply(now, close),
        },
    }
}

/// An answer that counts so many pushes.
pub(crate) fn answering(text: Text, body: Body, front: u64, now: u64, close: bool) -> Reply
    ensures { result ≡ answering text body front now close }
{
    Reply {
        status: Status::Ok,
        text,
        body,
        allow: None,
        front: Some(front),
        now,
        close,
    }
}
