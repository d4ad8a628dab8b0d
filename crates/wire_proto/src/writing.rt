//! Writing fields, each number in its shortest spelling.

ghost use Rattle.std.specs.Prelude.{◌≡◌, ◌≤◌, ◌++◌, take, vec_len, OnOk, OnErr};
ghost use Rattle.wire_proto.specs.Field.{last_number};
ghost use Rattle.wire_proto.specs.Writing.{varint, number_field, bytes_field};

use std::alloc::AllocError;

/// Appends a number, as it stands in a packed field.
pub fn put_varint(out: &mut Vec<u8>, v: u64) -> Result<(), AllocError>
    ensures bytes { OnOk result (out.new.items ≡ out.old.items ++ varint v) }
    ensures unchanged { OnErr result (out.new.items ≡ out.old.items) }
{
    let mut spelling = [0u8; 10];
    let mut length = 0;
    let mut rest = v;
    while rest >= 128 {
        spelling[length] = (rest % 128 + 128) as u8;
        rest /= 128;
        length += 1;
    }
    spelling[length] = rest as u8;
    out.extend_from_slice(&spelling[..length + 1])
}

/// Appends a field that holds a number.
pub fn put_number(out: &mut Vec<u8>, number: u64, v: u64) -> Result<(), AllocError>
    requires not_zero { 1 ≤ number }
    requires at_most_last { number ≤ last_number }
    ensures bytes { OnOk result (out.new.items ≡ out.old.items ++ number_field number v) }
    ensures unchanged { OnErr result (out.new.items ≡ out.old.items) }
{
    let before = out.len();
    let written = append_number(out, number, v);
    undo_on_error(out, before, written)
}

/// Appends a field that holds these bytes, behind their length.
pub fn put_bytes(out: &mut Vec<u8>, number: u64, bytes: &[u8]) -> Result<(), AllocError>
    requires not_zero { 1 ≤ number }
    requires at_most_last { number ≤ last_number }
    ensures bytes { OnOk result (out.new.items ≡ out.old.items ++ bytes_field number bytes.now) }
    ensures unchanged { OnErr result (out.new.items ≡ out.old.items) }
{
    let before = out.len();
    let written = append_bytes(out, number, bytes);
    undo_on_error(out, before, written)
}

// Memory can run out after a part of a field was written.
fn undo_on_error(
    out: &mut Vec<u8>,
    before: usize,
    written: Result<(), AllocError>,
) -> Result<(), AllocError>
    ensures same { result ≡ written }
    ensures ok { OnOk result (out.new.items ≡ out.old.items) }
    ensures err { OnErr result (out.new.items ≡ take before out.old.items) }
{
    if written.is_err() {
        out.truncate(before);
    }
    written
}

fn append_number(out: &mut Vec<u8>, number: u64, v: u64) -> Result<(), AllocError>
    requires { number ≤ last_number }
    ensures bytes { OnOk result (out.new.items ≡ out.old.items ++ number_field number v) }
    ensures kept { take (vec_len out.old) out.new.items ≡ out.old.items }
{
    put_varint(out, number * 8)?;
    put_varint(out, v)
}

fn append_bytes(out: &mut Vec<u8>, number: u64, bytes: &[u8]) -> Result<(), AllocError>
    requires { number ≤ last_number }
    ensures bytes { OnOk result (out.new.items ≡ out.old.items ++ bytes_field number bytes.now) }
    ensures kept { take (vec_len out.old) out.new.items ≡ out.old.items }
{
    put_varint(out, number * 8 + 2)?;
    put_varint(out, bytes.len() as u64)?;
    out.extend_from_slice(bytes)
}
