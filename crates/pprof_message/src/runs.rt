// Many short lists in one: all their items lie behind one another, so a list costs no allocation.
ghost use Rattle.std.specs.Prelude.{◌≡◌, ◌<◌, ◌≤◌, [], ◌∷◌, ◌++◌, length, OnOk, Some, slice_get, slice_index, slice_range};

use std::alloc::{AllocError, Global};
use std::marker::Model;

// The items of all lists, and where each list that is closed ends. What follows the last end is the list that has begun.
#[derive(Debug, Drop)]
pub(crate) struct Runs<T> {
    items: Vec<T>,
    ends: Vec<usize>,
}

impl<T> Model for Runs<T> {
    ghost use Rattle.std.specs.Prelude.{length};
    ghost use Rattle.pprof_message.specs.Runs.{Runs as Cut, runs_code, runs_of, IsCut};

    ghost Value = { Cut T };

    ghost coded = { runs_code T.code };

    ghost view = { λ r. runs_of r.items.items r.ends.items };

    ghost invariant = { λ r. IsCut 0 r.ends.items (length r.items.items) };
}

impl<T: Copy + Drop> Runs<T> {
    pub(crate) fn new(alloc: Global) -> Runs<T>
        ensures { result ≡ record { closed = []; begun = [] } }
    {
        Runs {
            items: Vec::new(alloc),
            ends: Vec::new(alloc),
        }
    }

    // One more item of the list that has begun.
    pub(crate) fn push(&mut self, item: T) -> Result<(), AllocError>
        ensures { OnOk result (self.new ≡ record self.old { begun = self.old.begun ++ item ∷ [] }) }
    {
        self.items.push(item)?;
        Ok(())
    }

    // Ends the list that has begun, also an empty one.
    pub(crate) fn close(&mut self) -> Result<(), AllocError>
        ensures { OnOk result (self.new ≡ record { closed = self.old.closed ++ self.old.begun ∷ []; begun = [] }) }
    {
        let end = self.items.len();
        self.ends.push(end)?;
        Ok(())
    }

    pub(crate) fn len(&self) -> usize
        ensures { result ≡ length self.now.closed }
    {
        self.ends.len()
    }

    pub(crate) fn get(&self, i: usize) -> &[T]
        requires { i < length self.now.closed }
        ensures { slice_get self.now.closed i ≡ Some result.now }
    {
        let from = start_of(&self.ends, i);
        let end = self.ends[i];
        between(&self.items, from, end)
    }
}

fn between<T>(items: &[T], from: usize, end: usize) -> &[T]
    requires ordered { from ≤ end }
    requires within { end ≤ length items.now }
    ensures { result.now ≡ slice_range items.now from end }
{
    &items[from..end]
}

// Where the list begins that ends at the i-th end.
fn start_of(ends: &[usize], i: usize) -> usize
    requires { i < length ends.now }
    ensures { result ≡ slice_index (0 ∷ ends.now) i }
{
    if i == 0 { 0 } else { ends[i - 1] }
}
