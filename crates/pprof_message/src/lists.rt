// What the lists of a profile hold. An absent number is 0.

/// A kind of values and their unit, as places in the string table.
#[derive(Clone, Copy, Debug, PartialEq, Eq)]
pub struct ValueType {
    pub kind: i64,
    pub unit: i64,
}

/// A label of a sample. All three are places in the string table.
#[derive(Clone, Copy, Debug, PartialEq, Eq)]
pub struct Label {
    pub key: i64,
    pub text: i64,
    pub num_unit: i64,
}

/// A function. The names are places in the string table.
#[derive(Clone, Copy, Debug, PartialEq, Eq)]
pub struct Function {
    pub id: u64,
    pub name: i64,
    pub system_name: i64,
}

/// A sample: the ids of its locations, the leaf first, and a value for each sample type.
#[derive(Clone, Copy, Debug, PartialEq, Eq)]
pub struct SampleRef<'a> {
    pub location_ids: &'a [u64],
    pub values: &'a [i64],
    pub labels: &'a [Label],
}

/// A location. Its lines are told by the ids of their functions, the innermost first.
#[derive(Clone, Copy, Debug, PartialEq, Eq)]
pub struct LocationRef<'a> {
    pub id: u64,
    pub address: u64,
    pub lines: &'a [u64],
}
