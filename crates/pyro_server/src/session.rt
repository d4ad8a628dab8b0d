// One connection, served to its end.
ghost use Rattle.std.specs.Prelude.{◌≡◌, ◌≢◌, ◌+◌, ◌<◌, [], true, false, min};
ghost use Rattle.link_trait.specs.Link.{Goes, Rose};
ghost use Rattle.http_session.specs.Limits.{most_requests};
ghost use Rattle.http_session.specs.Reply.{bytes_of_reply};
ghost use Rattle.http_session.specs.declared.reply.Reply.{Reply};
ghost use Rattle.push_history.specs.History.{HasBoundedTotals};
ghost use Rattle.request_meaning.specs.Facts.{facts_of};
ghost use Rattle.pyro_server.specs.Served.{IsExchange, IsServedInTurn};
ghost use Rattle.pyro_server.specs.ServedAt.{IsServedAt};
ghost use Rattle.pyro_server.specs.ServedLaws.{AnswersAreIsolated};
ghost use Rattle.pyro_server.specs.Steps.{GivesBytes, GivesLast, GivesReply, IsReplied, ServesStep};

use crate::ending::Ending;
use crate::settle::settle;
use api_replies::{Answered, acknowledge, answer, closing_reply, memory_reply};
use http_session::{BadRequest, MAX_REQUESTS, NextRequest, Reader, Reply, Request, write_reply};
use link_trait::Link;
use profile_model::Push;
use request_meaning::Config;
use std::alloc::Global;

/// How a session ended, with all that was handed in.
#[derive(Drop)]
pub struct Ended<D, L> {
    pub ending: Ending,
    pub disk: D,
    pub stdio: L,
    /// The accepted pushes, in order.
    pub history: Vec<Push>,
}

// What became of one request.
#[derive(Clone, Copy)]
enum Step {
    /// It was replied to, and the connection closes after it or not.
    Replied { close: bool },
    Over(Ending),
}

/// Serves the requests of one connection until it ends. It starts no thread and waits for nobody but
/// its input.
pub fn run_session<D, L: Link>(alloc: Global, disk: D, stdio: L, config: Config) -> Ended<D, L>
    requires open { L.is_open stdio ≡ true }
    // Each reply is over a front of its tenant's pushes in the history that is handed back.
    ensures served { Goes (IsServedAt (facts_of config) result.history.items [] result.ending) (L.told stdio) (L.told result.stdio) }
    // More closely, each is over the history that the requests before it left.
    ensures in_turn { Goes (IsServedInTurn (facts_of config) result.history.items result.ending) (L.told stdio) (L.told result.stdio) }
    // And what a tenant is told depends on its own pushes alone.
    ensures apart { AnswersAreIsolated }

    ensures disk { result.disk ≡ disk }
    ensures open { result.ending ≢ Ending.LinkFault → L.is_open result.stdio ≡ true }
    ensures cause { result.ending ≡ Ending.LinkFault → Rose (L.faults stdio) (L.faults result.stdio) }
    ensures quiet { result.ending ≢ Ending.LinkFault → L.faults result.stdio ≡ L.faults stdio }
{
    let mut stdio = stdio;
    let mut history = Vec::new(alloc);
    let ending = serve(alloc, &mut stdio, &mut history, &config);
    Ended {
        ending,
        disk,
        stdio,
        history,
    }
}

fn serve<L: Link>(alloc: Global, stdio: &mut L, history: &mut Vec<Push>, config: &Config) -> Ending
    requires none { history.old.items ≡ [] }
    requires open { L.is_open stdio.old ≡ true }
    ensures in_turn { Goes (IsServedInTurn (facts_of config.now) history.new.items result) (L.told stdio.old) (L.told stdio.new) }
    ensures open { result ≢ Ending.LinkFault → L.is_open stdio.new ≡ true }
    ensures cause { result ≡ Ending.LinkFault → Rose (L.faults stdio.old) (L.faults stdio.new) }
    ensures quiet { result ≢ Ending.LinkFault → L.faults stdio.new ≡ L.faults stdio.old }
{
    let mut reader = Reader::new(alloc);
    for number in 1..MAX_REQUESTS {
        match serve_next(alloc, &mut reader, stdio, history, config) {
            Step::Replied { close: false } => {}
            Step::Replied { close: true } => return Ending::Closed,
            Step::Over(ending) => return ending,
        }
    }
    match serve_next(alloc, &mut reader, stdio, history, config) {
        Step::Replied { .. } => Ending::LastRequest,
        Step::Over(ending) => ending,
    }
}

// Takes the next request and answers it, or ends the connection.
fn serve_next<L: Link>(
    alloc: Global,
    reader: &mut Reader,
    stdio: &mut L,
    history: &mut Vec<Push>,
    config: &Config,
) -> Step
    requires bounded { HasBoundedTotals history.old.items }
    requires reading { reader.old.ended ≡ false }
    requires number { reader.old.given < most_requests }
    requires open { L.is_open stdio.old ≡ true }
    ensures bounded { HasBoundedTotals history.new.items }
    ensures served { Goes (ServesStep (facts_of config.now) reader.old reader.new history.old.items history.new.items result) (L.told stdio.old) (L.told stdio.new) }
    ensures continues { IsReplied result → (reader.new.ended ≡ false) × (reader.new.given ≡ min (reader.old.given + 1) most_requests) }
    ensures open { result ≢ Step.Over Ending.LinkFault → L.is_open stdio.new ≡ true }
    ensures cause { result ≡ Step.Over Ending.LinkFault → Rose (L.faults stdio.old) (L.faults stdio.new) }
    ensures quiet { result ≢ Step.Over Ending.LinkFault → L.faults stdio.new ≡ L.faults stdio.old }
{
    match reader.next_request(stdio) {
        NextRequest::Request(request) => serve_request(alloc, &request, stdio, history, config),
        NextRequest::End => Step::Over(Ending::Done),
        NextRequest::Bad(bad) => Step::Over(refuse(stdio, bad)),
        NextRequest::LinkFault(_) => Step::Over(Ending::LinkFault),
        NextRequest::Memory => Step::Over(give_up(stdio)),
    }
}

// A push is settled before its reply is made, and every reply is given before the next request is taken.
fn serve_request<L: Link>(
    alloc: Global,
    request: &Request,
    stdio: &mut L,
    history: &mut Vec<Push>,
    config: &Config,
) -> Step
    requires bounded { HasBoundedTotals history.old.items }
    requires open { L.is_open stdio.old ≡ true }
    ensures bounded { HasBoundedTotals history.new.items }
    ensures exchange { (reply : Reply) × IsExchange (facts_of config.now) request.now history.old.items reply history.new.items
        × Goes (GivesReply request.now.close reply result) (L.told stdio.old) (L.told stdio.new) }
    ensures open { result ≢ Step.Over Ending.LinkFault → L.is_open stdio.new ≡ true }
    ensures cause { result ≡ Step.Over Ending.LinkFault → Rose (L.faults stdio.old) (L.faults stdio.new) }
    ensures quiet { result ≢ Step.Over Ending.LinkFault → L.faults stdio.new ≡ L.faults stdio.old }
{
    let reply = reply_to(alloc, request, history, config);
    match write_reply(stdio, &reply) {
        Ok(()) => Step::Replied {
            close: request.close(),
        },
        Err(_) => Step::Over(Ending::LinkFault),
    }
}

// The reply to a request, and the history after it.
fn reply_to(alloc: Global, request: &Request, history: &mut Vec<Push>, config: &Config) -> Reply
    requires { HasBoundedTotals history.old.items }
    ensures bounded { HasBoundedTotals history.new.items }
    ensures exchange { IsExchange (facts_of config.now) request.now history.old.items result history.new.items }
{
    match answer(alloc, request, history, config) {
        Answered::Reply(reply) => reply,
        Answered::Push(form, ask) => {
            let verdict = settle(history, ask);
            acknowledge(verdict, form, request.moment(), request.close())
        }
    }
}

// The last reply of a connection whose bytes are no request.
fn refuse<L: Link>(stdio: &mut L, bad: BadRequest) -> Ending
    requires open { L.is_open stdio.old ≡ true }
    ensures gives { Goes (GivesLast (Ending.Refused bad) result) (L.told stdio.old) (L.told stdio.new) }
    ensures open { result ≢ Ending.LinkFault → L.is_open stdio.new ≡ true }
    ensures cause { result ≡ Ending.LinkFault → Rose (L.faults stdio.old) (L.faults stdio.new) }
    ensures quiet { result ≢ Ending.LinkFault → L.faults stdio.new ≡ L.faults stdio.old }
{
    let now = stdio.moment();
    match closing_reply(bad, now) {
        Some(reply) => give_last(stdio, &reply, Ending::Refused(bad)),
        None => Ending::Refused(bad),
    }
}

// The last reply of a connection where memory ran out.
fn give_up<L: Link>(stdio: &mut L) -> Ending
    requires open { L.is_open stdio.old ≡ true }
    ensures gives { Goes (GivesLast Ending.NoMemory result) (L.told stdio.old) (L.told stdio.new) }
    ensures open { result ≢ Ending.LinkFault → L.is_open stdio.new ≡ true }
    ensures cause { result ≡ Ending.LinkFault → Rose (L.faults stdio.old) (L.faults stdio.new) }
    ensures quiet { result ≢ Ending.LinkFault → L.faults stdio.new ≡ L.faults stdio.old }
{
    let now = stdio.moment();
    give_last(stdio, &memory_reply(now, true), Ending::NoMemory)
}

// Gives the last reply of a connection that ends so.
fn give_last<L: Link>(stdio: &mut L, reply: &Reply, ending: Ending) -> Ending
    requires plain { ending ≢ Ending.LinkFault }
    requires open { L.is_open stdio.old ≡ true }
    ensures gives { Goes (GivesBytes (bytes_of_reply reply.entry.now) ending result) (L.told stdio.old) (L.told stdio.new) }
    ensures open { result ≢ Ending.LinkFault → L.is_open stdio.new ≡ true }
    ensures cause { result ≡ Ending.LinkFault → Rose (L.faults stdio.old) (L.faults stdio.new) }
    ensures quiet { result ≢ Ending.LinkFault → L.faults stdio.new ≡ L.faults stdio.old }
{
    match write_reply(stdio, reply) {
        Ok(()) => ending,
        Err(_) => Ending::LinkFault,
    }
}
