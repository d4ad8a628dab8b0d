// The names of the pairs that were looked at.
ghost use Rattle.std.specs.Prelude.{◌≡◌, List, ℕ, [], ◌∷◌, ◌++◌};
ghost use Rattle.profile_model.specs.LabelSets.{has_label};
ghost use Rattle.profile_model.specs.SeenNames.{Knows};

use crate::Name;
use crate::labels::has_name;
use std::alloc::Global;
use std::collections::BTreeSet;

// The names of pairs, by which a name that comes again is told. An ordered set, since no choice of names makes it
// slow. Where memory for one is refused, the set is given up, and the pairs themselves are looked through.
#[derive(Drop)]
pub(crate) struct Seen<'p> {
    names: BTreeSet<&'p [u8]>,
    is_whole: bool,
}

impl<'p> Seen<'p> {
    pub(crate) fn none(alloc: Global) -> Seen<'p>
        ensures { Knows result [] }
    {
        Seen {
            names: BTreeSet::new(alloc),
            is_whole: true,
        }
    }

    // Whether one of the pairs has the name, which is one of the names from then on.
    pub(crate) fn repeats(&mut self, pairs: &[(Name, Name)], name: &'p [u8]) -> bool
        requires { Knows self.old pairs.now }
        ensures repeats { result ≡ has_label pairs.now name.now }
        ensures knows { (value : List ℕ) → Knows self.new (pairs.now ++ (name.now, value) ∷ []) }
    {
        if !self.is_whole {
            return has_name(pairs, name);
        }
        match self.names.insert(name) {
            Ok(added) => !added,
            Err(_) => {
                self.is_whole = false;
                false
            }
        }
    }
}
