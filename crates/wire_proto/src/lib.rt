//! The Protocol Buffers wire format, field by field, both ways.
//!
//! A field is a tag and a value. The tag is a varint, the field's number times 8 and its wire: 0 a
//! varint, 1 eight bytes, 2 a varint length and that many bytes, 5 four bytes. So says the encoding
//! document of Protocol Buffers. That the tenth byte of a varint is 0 or 1, and that groups (the
//! wires 3 and 4) are refused, is this project's own rule.
#![tactic(auto)]

mod field;
mod fields;
mod laws;
mod reading;
mod varint;
mod wire;
mod writing;

pub use field::{Field, Next, Value, WireFault};
pub use fields::Fields;
pub use laws::{
    first_field_is_read, no_varint_begins_another, one_reading, varint_is_shortest, written_is_read,
};
pub use varint::read_varint;
pub use writing::{put_bytes, put_number, put_varint};

#[cfg(test)]
mod tests;
