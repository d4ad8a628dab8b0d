// Where a text breaks off from all names of series.
ghost use Rattle.std.specs.Prelude.{◌≡◌, MatchOption};
ghost use Rattle.profile_model.specs.Breaks.{BreaksAt};
ghost use Rattle.query_parameters.specs.SeriesNames.{IsName};
ghost use Rattle.query_parameters.specs.SeriesScan.{after_key, after_service, after_value, is_whole, next_part};

use crate::series_name::MAX_SERVICE_BYTES;

// What the next byte belongs to.
#[derive(Clone, Copy)]
enum Part {
    // A service that has so many bytes already.
    Service(usize),
    // What follows the opening brace.
    Open,
    Key,
    Value,
    // Nothing: the name is whole.
    End,
}

/// The place where the text breaks off, if it is no name.
pub(crate) fn broken_place(text: &[u8]) -> Option<usize>
    ensures { MatchOption result (IsName text.now) (λ at. (¬ (IsName text.now)) × BreaksAt IsName text.now at) }
{
    let mut part = Part::Service(0);
    for (at, byte) in text.iter().enumerate() {
        match next_part(part, *byte) {
            Some(next) => part = next,
            None => return Some(at),
        }
    }
    if is_whole(part) {
        None
    } else {
        Some(text.len())
    }
}

// What follows this byte, if some name goes on with it.
fn next_part(part: Part, byte: u8) -> Option<Part>
    ensures { result ≡ next_part part byte }
{
    match part {
        Part::Service(length) => after_service(length, byte),
        Part::Open => {
            if byte == b'}' {
                Some(Part::End)
            } else {
                after_key(byte)
            }
        }
        Part::Key => after_key(byte),
        Part::Value => after_value(byte),
        Part::End => None,
    }
}

fn after_service(length: usize, byte: u8) -> Option<Part>
    ensures { result ≡ after_service length byte }
{
    if byte == b'{' {
        if 0 < length { Some(Part::Open) } else { None }
    } else if length < MAX_SERVICE_BYTES {
        Some(Part::Service(length + 1))
    } else {
        None
    }
}

fn after_key(byte: u8) -> Option<Part>
    ensures { result ≡ after_key byte }
{
    if byte == b'=' {
        Some(Part::Value)
    } else if byte == b',' || byte == b'}' {
        None
    } else {
        Some(Part::Key)
    }
}

fn after_value(byte: u8) -> Option<Part>
    ensures { result ≡ after_value byte }
{
    if byte == b',' {
        Some(Part::Key)
    } else if byte == b'}' {
        Some(Part::End)
    } else {
        Some(Part::Value)
    }
}

// Whether a text that ends here is a name.
fn is_whole(part: Part) -> bool
    ensures { result ≡ is_whole part }
{
    match part {
        Part::Service(length) => 0 < length,
        Part::End => true,
        _ => false,
    }
}
