// Where a test may hold a run up.

/// It is called where no lock is held, so that a test can hold a connection up there.
pub trait Gate {
    /// Before a query reads its part with this number, from 1 on.
    fn between_parts(&self, connection: u64, part: u64);

    /// After the replies to a flush of so many pushes were written.
    fn settled(&self, pushes: u64);

    /// After the entries of a run became one entry over these pushes.
    fn compacted(&self, lo: u64, hi: u64);
}

/// It holds nothing up.
#[derive(Clone, Copy, Debug)]
pub struct FreeGate;

impl Gate for FreeGate {
    fn between_parts(&self, _connection: u64, _part: u64) {}

    fn settled(&self, _pushes: u64) {}

    fn compacted(&self, _lo: u64, _hi: u64) {}
}
