// The bodies of refusals: compact JSON, keys ascending. They take no memory.
ghost use Rattle.std.specs.Prelude.{◌≡◌, ◌+◌, ◌*◌, ◌≤◌, ◌++◌, length, decimal};
ghost use Rattle.api_replies.specs.FaultBodies.{ahead_body, limit_body, named_body, placed_body, place_text};

use arrayvec::ArrayString;
use http_session::Body;
use itoa::Buffer;

/// The most bytes that a reply's body keeps in place.
const ROOM: usize = 256;

/// `{"fault":"CODE"}`
pub(crate) fn named(code: &str) -> Body
    requires { length code.now ≤ 100 }
    ensures { result ≡ named_body code.now }
{
    let mut text = ArrayString::<ROOM>::new();
    append(&mut text, "{\"fault\":\"");
    append(&mut text, code);
    append(&mut text, "\"}");
    Body::kept(text.as_str().as_bytes())
}

/// `{"fault":"CODE","place":[A,B,..]}`, with at most three numbers.
pub(crate) fn placed(code: &str, place: &[u64]) -> Body
    requires code { length code.now ≤ 100 }
    requires few { length place.now ≤ 3 }
    ensures { result ≡ placed_body code.now place.now }
{
    let mut text = ArrayString::<ROOM>::new();
    append(&mut text, "{\"fault\":\"");
    append(&mut text, code);
    append(&mut text, "\",\"place\":[");
    append_numbers(&mut text, place);
    append(&mut text, "]}");
    Body::kept(text.as_str().as_bytes())
}

// The numbers, with a comma between each two.
fn append_numbers(text: &mut ArrayString<ROOM>, numbers: &[u64])
    requires few { length numbers.now ≤ 3 }
    requires room { length text.old.bytes + 63 ≤ 256 }
    ensures bytes { text.new.bytes ≡ text.old.bytes ++ place_text numbers.now }
    ensures room { length text.new.bytes ≤ length text.old.bytes + 63 }
{
    match numbers {
        [] => {}
        [first] => append_number(text, *first),
        [first, second] => {
            append_number(text, *first);
            append(text, ",");
            append_number(text, *second);
        }
        [first, second, third, ..] => {
            append_number(text, *first);
            append(text, ",");
            append_number(text, *second);
            append(text, ",");
            append_number(text, *third);
        }
    }
}

fn append_number(text: &mut ArrayString<ROOM>, number: u64)
    requires { length text.old.bytes + 20 ≤ 256 }
    ensures bytes { text.new.bytes ≡ text.old.bytes ++ decimal number }
    ensures room { length text.new.bytes ≤ length text.old.bytes + 20 }
{
    append(text, Buffer::new().format(number));
}

/// `{"asked":ASKED,"fault":"front","front":FRONT}`
pub(crate) fn front_ahead(asked: u64, front: u64) -> Body
    ensures { result ≡ ahead_body asked front }
{
    let mut text = ArrayString::<ROOM>::new();
    append(&mut text, "{\"asked\":");
    append_number(&mut text, asked);
    append(&mut text, ",\"fault\":\"front\",\"front\":");
    append_number(&mut text, front);
    append(&mut text, "}");
    Body::kept(text.as_str().as_bytes())
}

/// `{"asked":PUSH,"fault":"limit","kept":KEPT,"limit":LIMIT}`
pub(crate) fn over_limit(push: u128, kept: u128, limit: u64) -> Body
    ensures { result ≡ limit_body push kept limit }
{
    let mut text = ArrayString::<ROOM>::new();
    append(&mut text, "{\"asked\":");
    append(&mut text, Buffer::new().format(push));
    append(&mut text, ",\"fault\":\"limit\",\"kept\":");
    append(&mut text, Buffer::new().format(kept));
    append(&mut text, ",\"limit\":");
    append(&mut text, Buffer::new().format(limit));
    append(&mut text, "}");
    Body::kept(text.as_str().as_bytes())
}

fn append(text: &mut ArrayString<ROOM>, piece: &str)
    requires { length text.old.bytes + length piece.now ≤ 256 }
    ensures { text.new.bytes ≡ text.old.bytes ++ piece.now }
{
    let _ = text.try_push_str(piece);
}
