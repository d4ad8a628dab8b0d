//! What a message holds, and what can be wrong with it.

/// A field of a message.
#[derive(Clone, Copy, Debug, PartialEq, Eq)]
pub struct Field<'a> {
    /// From 1 to 536,870,911.
    pub number: u64,
    /// The place of the field's first byte.
    pub at: u64,
    pub value: Value<'a>,
}

/// A field's value, as its wire spells it.
#[derive(Clone, Copy, Debug, PartialEq, Eq)]
pub enum Value<'a> {
    Varint(u64),
    Eight([u8; 8]),
    /// The bytes behind a length, as a text or a message is spelled.
    Bytes(&'a [u8]),
    Four([u8; 4]),
}

/// What comes next in a message.
#[derive(Clone, Copy, Debug, PartialEq, Eq)]
pub enum Next<'a> {
    Field(Field<'a>),
    End,
    Fault(WireFault),
}

/// The first fault of a message. The number is the place of the first byte of the field that has it.
#[derive(Clone, Copy, Debug, PartialEq, Eq)]
pub enum WireFault {
    /// The bytes end before the tag or the value does.
    Truncated(u64),
    /// A varint has a tenth byte above 1.
    BadVarint(u64),
    /// The wire is 3, 4, 6 or 7, or the number is 0 or above 536,870,911.
    BadType(u64),
}
