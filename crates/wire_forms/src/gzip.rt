// How gzip begins.
ghost use Rattle.std.specs.Prelude.{◌≡◌};
ghost use Rattle.wire_forms.specs.Gzip.{begins_as_gzip};

/// Whether the bytes begin with the two that each member of a gzip file begins with (RFC 1952).
pub fn begins_as_gzip(bytes: &[u8]) -> bool
    ensures { result ≡ begins_as_gzip bytes.now }
{
    bytes.starts_with(&[0x1F, 0x8B])
}
