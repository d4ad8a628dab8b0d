// Where in what is read a fault stands.
ghost use Rattle.std.specs.Prelude.{◌≡◌, ◌<◌, ◌∷◌, length};
ghost use Rattle.faults.specs.Places.{numbers_of};

use arrayvec::ArrayVec;

/// The numbers that say where a fault stands: none where it is one of the whole, else up to three, the outermost first.
#[derive(Clone, Copy, Debug, PartialEq, Eq)]
pub enum Place {
    Whole,
    At(u64),
    Pair(u64, u64),
    Triple(u64, u64, u64),
}

impl Place {
    /// The same place, in the part with this number.
    pub fn within(self, outer: u64) -> Place
        requires { length (numbers_of self) < 3 }
        ensures { numbers_of result ≡ outer ∷ numbers_of self }
    {
        match self {
            Place::Whole => Place::At(outer),
            Place::At(first) => Place::Pair(outer, first),
            Place::Pair(first, second) => Place::Triple(outer, first, second),
            Place::Triple(..) => unreachable!(),
        }
    }

    pub fn numbers(self) -> ArrayVec<u64, 3>
        ensures { result.items ≡ numbers_of self }
    {
        let mut numbers = ArrayVec::new();
        match self {
            Place::Whole => {}
            Place::At(first) => numbers.push(first),
            Place::Pair(first, second) => {
                numbers.push(first);
                numbers.push(second);
            }
            Place::Triple(first, second, third) => {
                numbers.push(first);
                numbers.push(second);
                numbers.push(third);
            }
        }
        numbers
    }
}
