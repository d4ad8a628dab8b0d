// What becomes of a push that asks to be kept.
ghost use Rattle.std.specs.Prelude.{◌≡◌};
ghost use Rattle.tenant_books.specs.Keeping.{is_kept};

/// A push was kept. It can't be copied, and only judging makes one.
#[derive(Debug, Drop, PartialEq, Eq)]
pub struct Receipt {
    place: u64,
    front: u64,
}

impl Receipt {
    pub(crate) fn new(place: u64, front: u64) -> Receipt
        ensures place { result.place ≡ place }
        ensures front { result.front ≡ front }
    {
        Receipt { place, front }
    }

    /// The push's number in the history, from 0.
    pub fn place(&self) -> u64
        ensures { result ≡ self.now.place }
    {
        self.place
    }

    /// How many pushes its tenant has with it.
    pub fn front(&self) -> u64
        ensures { result ≡ self.now.front }
    {
        self.front
    }
}

/// What becomes of a push that asks to be kept.
#[derive(Debug, Drop, PartialEq, Eq)]
pub enum Verdict {
    Kept(Receipt),
    /// Its tenant has fewer pushes than were asked for.
    FrontAhead {
        asked: u64,
        front: u64,
    },
    /// With it, all values of its tenant would pass the tenant's limit.
    OverLimit {
        kept: u128,
        push: u128,
        limit: u64,
        front: u64,
    },
}

impl Verdict {
    pub fn is_kept(&self) -> bool
        ensures { result ≡ is_kept self.now }
    {
        matches!(self, Verdict::Kept(_))
    }
}
