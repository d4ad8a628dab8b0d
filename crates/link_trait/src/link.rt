//! One connection, as the reader and the writer see it.
ghost use Rattle.std.specs.Prelude.{◌≡◌, ℕ, ◌≤◌, ◌<◌, length, IfOk, OnOk, Option, Bool, true, false};
ghost use Rattle.link_trait.specs.Link.{Told, Goes, ReadStep, WriteStep, Stays, HasCause};

/// The last moment: the end of the year 9999, in milliseconds since 1970.
pub const LAST_MOMENT: u64 = 253_402_300_799_999;

/// A read or a write that the link counted as a fault.
#[derive(Clone, Copy, Debug, PartialEq, Eq)]
pub struct Failed;

/// One connection. No read or write follows `end`, or one that failed.
pub trait Link {
    /// What the link tells of its bytes and its moment, and none where it doesn't, as a real stream.
    ghost told: { Self → Option Told };

    /// How often a read or a write has failed.
    ghost faults: { Self → ℕ };

    /// Whether it may be read and written: it wasn't closed yet, and no read or write of it failed.
    ghost is_open: { Self → Bool };

    /// Reads some bytes to the front of `into`, and says how many. 0 for a room that isn't empty is
    /// the end of input.
    fn read(&mut self, into: &mut [u8]) -> Result<usize, Failed>
        requires open { is_open self.old ≡ true }
        ensures open { OnOk result (is_open self.new ≡ true) }
        ensures bound { IfOk result (λ count. count ≤ length into.old) }
        ensures told { Goes (ReadStep result (length into.old) into.new)
            (told self.old) (told self.new) }
        ensures cause { HasCause (faults self.old) (faults self.new) result };

    /// Writes the first bytes of `from`, and says how many.
    fn write(&mut self, from: &[u8]) -> Result<usize, Failed>
        requires open { is_open self.old ≡ true }
        ensures open { OnOk result (is_open self.new ≡ true) }
        ensures bound { IfOk result (λ count. count ≤ length from.now) }
        ensures moves { IfOk result (λ count. 0 < length from.now → 0 < count) }
        ensures told { Goes (WriteStep result from.now) (told self.old) (told self.new) }
        ensures cause { HasCause (faults self.old) (faults self.new) result };

    /// The moment, in milliseconds since 1970.
    fn moment(&mut self) -> u64
        ensures open { is_open self.new ≡ is_open self.old }
        ensures last { result ≤ LAST_MOMENT }
        ensures told { Goes (λ old new. (new ≡ old) × (result ≡ old.moment))
            (told self.old) (told self.new) }
        ensures faults { faults self.new ≡ faults self.old };

    /// Closes the connection.
    fn end(&mut self)
        ensures open { is_open self.new ≡ false }
        ensures told { Goes Stays (told self.old) (told self.new) }
        ensures faults { faults self.new ≡ faults self.old };

    /// The count of faults.
    fn faults(&self) -> u64
        ensures { result ≡ faults self.now };
}
