// Reading a history along a pass.
ghost use Rattle.std.specs.Prelude.{◌≡◌, ◌≤◌, ℕ, false, true, IfErr, IfOk, IsErrOf, MatchOption, OnErr, OnOk, Option};
ghost use Rattle.disk_trait.specs.Disk.{Rose};
ghost use Rattle.history_pass.specs.Marks.{Below};
ghost use Rattle.push_history.specs.History.{HasBoundedTotals};
ghost use Rattle.shared_store.specs.Cursors.{Alone, HasEnded, IsAhead, IsBegun, IsNextPart, IsOn, IsOwn};

use crate::names::Names;
use history_pass::Pass;
use profile_model::PartAsk;
use segment_file::Part;
use std::alloc::Global;
use store_core::ReadFault;

/// How far a query has read, and what it reads: what it asks for in the first `until` pushes of a history.
#[derive(Debug, Drop)]
pub struct Cursor {
    /// The number of the next push that it reads.
    pub at: u64,
    pub until: u64,
    /// How many of those pushes are the tenant's.
    pub front: u64,
    pub ask: PartAsk,
}

/// A query asks for more pushes of its tenant than there are.
#[derive(Clone, Copy, Debug, PartialEq, Eq)]
pub struct FrontAhead {
    pub asked: u64,
    pub front: u64,
}

/// A history that queries read along a pass, whether alone or among others. It may grow between any two calls.
pub trait Profiles<J: Names> {
    // the history, and what is in the air, where nobody else can bring pushes to it
    ghost alone: { Self → Option Alone };

    /// Begins to read the whole history, which the pass then has. It takes no memory.
    fn begin(&mut self, pass: &mut Pass<J>, ask: PartAsk, asked: u64) -> Result<Cursor, FrontAhead>
        ensures below { Below pass.old pass.new }
        ensures begun { IfOk result (IsBegun J.run.tells pass.new.list ask asked) }
        ensures ahead { IfErr result (IsAhead J.run.tells pass.new.list ask asked) }
        ensures on { IfOk result (IsOn pass.new.list) }
        ensures bounded { J.run.tells → HasBoundedTotals pass.new.list }
        ensures alone { alone self.new ≡ alone self.old }
        ensures own { IsOwn (alone self.old) pass.new.list };

    /// What the query finds in the next pushes, and none where it has read all. After a fault the cursor is as before.
    fn next_part(
        &mut self,
        alloc: Global,
        pass: &mut Pass<J>,
        cursor: &mut Cursor,
    ) -> Result<Option<Part>, ReadFault>
        requires { IsOn pass.old.list cursor.old }
        ensures below { Below pass.old pass.new }
        ensures part { IfOk result (λ found. MatchOption found (HasEnded cursor.old cursor.new) (IsNextPart J.run.tells pass.old.list cursor.old cursor.new)) }
        ensures unchanged { OnErr result (cursor.new ≡ cursor.old) }
        ensures on { IsOn pass.new.list cursor.new }
        ensures failed { (count : ℕ) → IsErrOf result (ReadFault.Disk count) → Rose pass.old.faults count × (count ≤ pass.new.faults) }
        ensures damaged { (id : ℕ) → IsErrOf result (ReadFault.Damaged id) → ¬ J.run.tells }
        ensures alone { alone self.new ≡ alone self.old }
        ensures own { IsOwn (alone self.old) pass.old.list → IsOwn (alone self.old) pass.new.list };
}
