// What the seats of the table know. No value of these types is made.
use profile_model::Push;
use std::collections::LinkedList;

/// A list of pushes, and the two numbers that stand beside it.
pub struct Mark {
    pub list: LinkedList<Push>,
    pub faults: u64,
    pub full: u64,
}

/// What a seat knows: whether it is the spine's, what it has, and what a pass had that was joined into it.
pub(crate) struct View {
    pub is_spine: bool,
    pub has: Mark,
    pub older: Mark,
}
