//! Writes replies to a link, without memory.
ghost use Rattle.std.specs.Prelude.{◌≡◌, ◌+◌, ◌≤◌, ◌++◌, true, length, decimal, OnOk, IfErr};
ghost use Rattle.arrayvec.specs.ArrayVec.{array_vec_len};
ghost use Rattle.link_trait.specs.Link.{Goes, Rose};
ghost use Rattle.http_session.specs.Reply.{line, status_line, allow_line, front_line, close_line, head_of_reply, bytes_of_reply};
ghost use Rattle.http_session.specs.Written.{WriteAll};

use crate::reply::{Allow, Reply, Status};
use arrayvec::ArrayVec;
use link_trait::{Failed, Link};

// Room for a head, and for a body that goes out with it: on a kept connection the second of two
// small writes waits for the peer.
const ROOM: usize = 4_096;

type Room = ArrayVec<u8, ROOM>;

/// The link failed; this is its count of faults.
#[derive(Clone, Copy, Debug, PartialEq, Eq)]
pub struct LinkFault(pub u64);

/// Writes a reply. After a fault a prefix of its bytes was given.
pub fn write_reply<L: Link>(link: &mut L, reply: &Reply) -> Result<(), LinkFault>
    requires open { L.is_open link.old ≡ true }
    ensures open { OnOk result (L.is_open link.new ≡ true) }
    ensures quiet { OnOk result (L.faults link.new ≡ L.faults link.old) }
    ensures told { Goes (WriteAll result (bytes_of_reply reply.entry.now))
        (L.told link.old) (L.told link.new) }
    ensures count { L.faults link.old ≤ L.faults link.new }
    ensures fault { IfErr result (λ fault.
        Rose (L.faults link.old) (L.faults link.new) × (fault.0 ≡ L.faults link.new)) }
{
    let mut out = Room::new();
    put_head(&mut out, reply);
    let body = reply.body.as_slice();
    if out.try_extend_from_slice(body).is_ok() {
        write_whole(link, out.as_slice())
    } else {
        write_whole(link, out.as_slice())?;
        write_whole(link, body)
    }
}

// Writes all of the bytes.
fn write_whole<L: Link>(link: &mut L, bytes: &[u8]) -> Result<(), LinkFault>
    requires open { L.is_open link.old ≡ true }
    ensures open { OnOk result (L.is_open link.new ≡ true) }
    ensures quiet { OnOk result (L.faults link.new ≡ L.faults link.old) }
    ensures told { Goes (WriteAll result bytes.now) (L.told link.old) (L.told link.new) }
    ensures count { L.faults link.old ≤ L.faults link.new }
    ensures fault { IfErr result (λ fault.
        Rose (L.faults link.old) (L.faults link.new) × (fault.0 ≡ L.faults link.new)) }
{
    let mut rest = bytes;
    while !rest.is_empty() {
        match link.write(rest) {
            Ok(count) => rest = &rest[count..],
            Err(Failed) => return Err(LinkFault(link.faults())),
        }
    }
    Ok(())
}

// The head is at most 250 bytes long.
#[tactic(auto, unfolding(crate::specs::Reply::head_of_reply))]
fn put_head(out: &mut Room, reply: &Reply)
    requires { array_vec_len out.old ≡ 0 }
    ensures { out.new.items ≡ head_of_reply reply.entry.now }
{
    put_status(out, reply.status);
    put_line(out, "Content-Type", reply.text.content_type());
    put_number(out, "Content-Length", reply.body.as_slice().len() as u64);
    put_allow(out, reply.allow);
    put_front(out, reply.front);
    put_number(out, "X-Pyro-Now", reply.now);
    put_close(out, reply.close);
    put(out, "\r\n");
}

#[tactic(auto, unfolding(crate::specs::Reply::status_line))]
fn put_status(out: &mut Room, status: Status)
    requires { array_vec_len out.old ≤ 2048 }
    ensures value { out.new.items ≡ out.old.items ++ status_line status }
    ensures short { array_vec_len out.new ≤ array_vec_len out.old + 80 }
{
    put(out, "HTTP/1.1 ");
    put_decimal(out, u64::from(status.code()));
    put(out, " ");
    put(out, status.reason());
    put(out, "\r\n");
}

fn put_allow(out: &mut Room, allow: Option<Allow>)
    requires { array_vec_len out.old ≤ 2048 }
    ensures value { out.new.items ≡ out.old.items ++ allow_line allow }
    ensures short { array_vec_len out.new ≤ array_vec_len out.old + 80 }
{
    if let Some(allow) = allow {
        put_line(out, "Allow", allow.name());
    }
}

fn put_front(out: &mut Room, front: Option<u64>)
    requires { array_vec_len out.old ≤ 2048 }
    ensures value { out.new.items ≡ out.old.items ++ front_line front }
    ensures short { array_vec_len out.new ≤ array_vec_len out.old + 80 }
{
    if let Some(front) = front {
        put_number(out, "X-Pyro-Front", front);
    }
}

fn put_close(out: &mut Room, close: bool)
    requires { array_vec_len out.old ≤ 2048 }
    ensures value { out.new.items ≡ out.old.items ++ close_line close }
    ensures short { array_vec_len out.new ≤ array_vec_len out.old + 80 }
{
    if close {
        put_line(out, "Connection", "close");
    }
}

// A line of a name and a text.
#[tactic(auto, unfolding(crate::specs::Reply::line))]
fn put_line(out: &mut Room, name: &str, value: &str)
    requires start { array_vec_len out.old ≤ 2048 }
    requires short { length name.now + length value.now ≤ 76 }
    ensures value { out.new.items ≡ out.old.items ++ line name.now value.now }
    ensures short { array_vec_len out.new ≤ array_vec_len out.old + 80 }
{
    put(out, name);
    put(out, ": ");
    put(out, value);
    put(out, "\r\n");
}

// A line of a name and a number.
#[tactic(auto, unfolding(crate::specs::Reply::line))]
fn put_number(out: &mut Room, name: &str, value: u64)
    requires start { array_vec_len out.old ≤ 2048 }
    requires short { length name.now ≤ 36 }
    ensures value { out.new.items ≡ out.old.items ++ line name.now (decimal value) }
    ensures short { array_vec_len out.new ≤ array_vec_len out.old + 80 }
{
    put(out, name);
    put(out, ": ");
    put_decimal(out, value);
    put(out, "\r\n");
}

fn put_decimal(out: &mut Room, value: u64)
    requires { array_vec_len out.old + 20 ≤ 4096 }
    ensures value { out.new.items ≡ out.old.items ++ decimal value }
    ensures short { array_vec_len out.new ≤ array_vec_len out.old + 20 }
{
    put(out, itoa::Buffer::new().format(value));
}

fn put(out: &mut Room, text: &str)
    requires { array_vec_len out.old + length text.now ≤ 4096 }
    ensures value { out.new.items ≡ out.old.items ++ text.now }
    ensures len { array_vec_len out.new ≡ array_vec_len out.old + length text.now }
{
    let _ = out.try_extend_from_slice(text.as_bytes());
}
