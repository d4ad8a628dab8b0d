// The name of a series: a service, and labels in braces behind it.
ghost use Rattle.std.specs.Prelude.{◌≡◌, ◌==◌, ◌<◌, IfOk, MatchOption, length, map};
ghost use Rattle.std.specs.List.{after_first, before_first, position_or_len, slice_split};
ghost use Rattle.query_parameters.specs.SeriesNames.{IsName, IsSeriesName, pairs_in};
ghost use Rattle.query_parameters.specs.SeriesScan.{split_pair, split_pairs};
ghost use Rattle.query_parameters.specs.ReadNames.{IsReadName};

use crate::scan::broken_place;
use faults::Refused;
use std::alloc::{AllocError, Global};
use std::error::Error;
use std::fmt;

/// The most bytes that a service may have.
pub const MAX_SERVICE_BYTES: usize = 2048;

/// A service, and pairs of a key and a value in the order of the text, which may be empty and may repeat.
#[derive(Debug, Drop)]
pub struct SeriesName<'a> {
    pub service: &'a str,
    pub pairs: Vec<(&'a str, &'a str)>,
}

/// Why a text is no name of a series.
#[derive(Clone, Copy, Debug, PartialEq, Eq)]
pub enum NameFault {
    /// The length of the longest prefix that begins a name of a series.
    Broken(usize),
}

impl fmt::Display for NameFault {
    fn fmt<W: fmt::Write>(&self, f: &mut fmt::Formatter<W>) -> fmt::Result {
        match self {
            NameFault::Broken(at) => write!(f, "no name of a series: see byte {at}"),
        }
    }
}

impl Error for NameFault {}

/// The service and the pairs of `service` or `service{key=value,key=value}`. A text that isn't of this
/// form is refused before memory is asked for.
pub fn read_series_name(alloc: Global, text: &str) -> Result<SeriesName<'_>, Refused<NameFault>>
    ensures { IsReadName text.now result }
{
    if let Some(at) = broken_place(text.as_bytes()) {
        return Err(Refused::Fault(NameFault::Broken(at)));
    }
    Ok(split_name(alloc, text)?)
}

// The service and the pairs of a name.
fn split_name(alloc: Global, text: &str) -> Result<SeriesName<'_>, AllocError>
    requires { IsName text.now }
    ensures { IfOk result (λ name. IsSeriesName text.now name.service.now (pairs_in name)) }
{
    match cut(text, '{') {
        Some((service, rest)) => Ok(SeriesName {
            service,
            pairs: split_pairs(alloc, before_brace(rest))?,
        }),
        None => Ok(SeriesName {
            service: text,
            pairs: Vec::new(alloc),
        }),
    }
}

fn before_brace(text: &str) -> &str
    ensures { result.now ≡ before_first (λ b. b == 125) text.now }
{
    match cut(text, '}') {
        Some((front, _)) => front,
        None => text,
    }
}

// The pairs between the braces.
fn split_pairs<'t>(alloc: Global, body: &'t str) -> Result<Vec<(&'t str, &'t str)>, AllocError>
    ensures { IfOk result (λ pairs. map (λ pair. (pair.0.now, pair.1.now)) pairs.items ≡ split_pairs body.now) }
{
    if body.is_empty() {
        Ok(Vec::new(alloc))
    } else {
        split_pieces(alloc, body)
    }
}

fn split_pieces<'t>(alloc: Global, body: &'t str) -> Result<Vec<(&'t str, &'t str)>, AllocError>
    ensures { IfOk result (λ pairs. map (λ pair. (pair.0.now, pair.1.now)) pairs.items ≡ map split_pair (slice_split (λ b. b == 44) body.now)) }
{
    let mut pairs = Vec::new(alloc);
    for piece in body.split(',') {
        pairs.push(split_pair(piece))?;
    }
    Ok(pairs)
}

// What stands before the first `=`, and what follows it.
fn split_pair(piece: &str) -> (&str, &str)
    ensures { (result.0.now, result.1.now) ≡ split_pair piece.now }
{
    match cut(piece, '=') {
        Some(pair) => pair,
        None => (piece, ""),
    }
}

// The text around the first byte of this value.
fn cut(text: &str, mark: char) -> Option<(&str, &str)>
    requires { mark < 128 }
    ensures { MatchOption result (position_or_len (λ b. b == mark) text.now ≡ length text.now)
        (λ p. (p.0.now ≡ before_first (λ b. b == mark) text.now) × (p.1.now ≡ after_first (λ b. b == mark) text.now)
        × (position_or_len (λ b. b == mark) text.now < length text.now)) }
{
    text.split_once(mark)
}
