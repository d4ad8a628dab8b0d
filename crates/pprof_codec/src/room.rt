// What is left of the weight that the profiles of one pprof may have.
ghost use Rattle.std.specs.Prelude.{◌≡◌, ◌+◌, MatchResult};
ghost use Rattle.pprof_codec.specs.Tables.{IsShort};

use crate::PprofFault;

// Takes a weight from what is left, or refuses it where there is too little.
pub(crate) fn take_room(room: &mut u64, weight: u64) -> Result<(), PprofFault>
    ensures { MatchResult result (λ _. room.old ≡ room.new + weight) (IsShort room.old weight) }
{
    if weight > *room {
        return Err(PprofFault::Weight);
    }
    *room -= weight;
    Ok(())
}
