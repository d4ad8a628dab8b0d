// Members by their ids.
ghost use Rattle.std.specs.Prelude.{◌≡◌, [], ◌∷◌, ◌++◌, length, None, OnOk};
ghost use Rattle.pprof_codec.specs.Tables.{is_in_place, number_of};

use std::alloc::{AllocError, Global};
use std::collections::BTreeMap;
use std::marker::Model;

// The ids of members, in their order, no id twice. Mostly they are 1, 2, ..: such an id tells its own number.
// The map has the others, since no choice of ids makes it slow.
#[derive(Drop)]
pub(crate) struct Ids {
    ids: Vec<u64>,
    others: BTreeMap<u64, usize>,
}

impl Model for Ids {
    ghost use Rattle.std.specs.Prelude.{List, ℕ};
    ghost use Rattle.pprof_codec.specs.Tables.{AreNumbered};

    ghost Value = { List ℕ };

    ghost view = { λ i. i.ids.items };

    ghost invariant = { λ i. AreNumbered i.ids.items i.others.entries };
}

impl Ids {
    pub(crate) fn new(alloc: Global) -> Ids
        ensures { result ≡ [] }
    {
        Ids {
            ids: Vec::new(alloc),
            others: BTreeMap::new(alloc),
        }
    }

    // The number of the member with this id.
    pub(crate) fn number(&self, id: u64) -> Option<usize>
        ensures { result ≡ number_of self.now id }
    {
        if is_in_place(&self.ids, id) {
            return Some((id - 1) as usize);
        }
        self.others.get(&id).copied()
    }

    // One more member, whose id none has.
    pub(crate) fn push(&mut self, id: u64) -> Result<(), AllocError>
        requires { number_of self.old id ≡ None }
        ensures { OnOk result (self.new ≡ self.old ++ id ∷ []) }
    {
        let number = self.ids.len();
        self.ids.push(id)?;
        if id == number as u64 + 1 {
            return Ok(());
        }
        if self.others.insert(id, number).is_err() {
            self.ids.pop();
            return Err(AllocError);
        }
        Ok(())
    }
}

fn is_in_place(ids: &[u64], id: u64) -> bool
    ensures { result ≡ is_in_place ids.now id }
{
    if id == 0 || id > ids.len() as u64 {
        return false;
    }
    ids[(id - 1) as usize] == id
}
