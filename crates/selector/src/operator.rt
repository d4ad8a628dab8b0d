// What a matcher asks of a label's value.

/// How a matcher compares: with a text (`=`, `!=`), or with a pattern (`=~`, `!~`).
#[derive(Clone, Copy, Debug, PartialEq, Eq)]
pub enum Operator {
    Equal,
    NotEqual,
    Finds,
    FindsNot,
}
