//! What follows from the definitions alone, for the crates above. These functions do nothing.

ghost use Rattle.std.specs.Prelude.{◌≡◌, ℕ, List, Result};
ghost use Rattle.pprof_message.specs.Packed.{PackedAreSpelled, PackedAreOne};
ghost use Rattle.pprof_message.specs.Pprof.{Pprof};
ghost use Rattle.pprof_message.specs.Read.{IsReadMessage};
ghost use Rattle.pprof_message.specs.declared.fault.MessageFault.{MessageFault};

/// The numbers of a packed field are those whose spellings stand there one after another, and no others.
pub fn packed_numbers_have_one_reading()
    ensures spelled { PackedAreSpelled }
    ensures one { PackedAreOne }
{}

/// Bytes have one reading: a message, or one broken place.
pub fn one_reading()
    ensures { (bytes : List ℕ) (first second : Result Pprof MessageFault) → IsReadMessage bytes first → IsReadMessage bytes second → first ≡ second }
{}
