// A run of pushes and the object that holds them.
ghost use Rattle.std.specs.Prelude.{◌≡◌, ◌≢◌, ◌<◌, ◌≤◌, IsTrue, IsFalse, drop, replicate};

use crate::number::number_at;

/// The highest level.
pub const MAX_LEVEL: u8 = 3;

/// Pushes number `lo` to `hi` - 1 stand in the object `id`.
#[derive(Clone, Copy, Debug, PartialEq, Eq)]
pub struct Entry {
    pub lo: u64,
    pub hi: u64,
    pub id: u64,
    /// Of the object's file, in bytes.
    pub length: u64,
    /// The least and the greatest time of its profiles, in milliseconds since 1970; 2^64 - 1 and 0 where there are none.
    pub tmin: u64,
    pub tmax: u64,
    /// How often its pushes were merged: 0 to 3.
    pub level: u8,
    ghost some: { lo < hi },
    ghost known: { level ≤ 3 },
}

// Whether the bytes behind the level are all 0.
fn ends_in_zeros(body: &[u8; 63]) -> bool
    ensures zeros { IsTrue result → drop 49 body.now ≡ replicate 14 0 }
    ensures others { IsFalse result → drop 49 body.now ≢ replicate 14 0 }
{
    body[49..] == [0; 14]
}

impl Entry {
    ghost use Rattle.std.specs.Prelude.{◌≡◌, ◌≢◌, ◌^◌, IfSome, IsNone};
    ghost use Rattle.metastore_index.specs.declared.entry.Entry.{Entry};
    ghost use Rattle.metastore_index.specs.Bodies.{body_of};

    /// Its record in the index file. It takes no memory.
    pub fn body(&self) -> [u8; 63]
        ensures { result ≡ body_of self.now }
    {
        let mut body = [0; 63];
        body[..8].copy_from_slice(&self.lo.to_be_bytes());
        body[8..16].copy_from_slice(&self.hi.to_be_bytes());
        body[16..24].copy_from_slice(&self.id.to_be_bytes());
        body[24..32].copy_from_slice(&self.length.to_be_bytes());
        body[32..40].copy_from_slice(&self.tmin.to_be_bytes());
        body[40..48].copy_from_slice(&self.tmax.to_be_bytes());
        body[48] = self.level;
        body
    }

    /// The entry of a record. It takes no memory.
    pub fn read(body: &[u8; 63]) -> Option<Entry>
        ensures entry { IfSome result (λ entry. body.now ≡ body_of entry) }
        ensures none { IsNone result → (entry : Entry) → entry.lo < entry.hi → entry.hi < 2 ^ 64 → entry.level ≤ 3 → body.now ≢ body_of entry }
    {
        let lo = number_at(body, 0);
        let hi = number_at(body, 8);
        let level = body[48];
        if lo >= hi || level > MAX_LEVEL || !ends_in_zeros(body) {
            return None;
        }
        Some(Entry {
            lo,
            hi,
            id: number_at(body, 16),
            length: number_at(body, 24),
            tmin: number_at(body, 32),
            tmax: number_at(body, 40),
            level,
        })
    }
}
