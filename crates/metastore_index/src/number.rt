// A number of eight bytes within a record.
ghost use Rattle.std.specs.Prelude.{◌≡◌, ◌+◌, ◌≤◌, take, drop};
ghost use Rattle.std.specs.Int.{bytes_high_first};

// The number whose bytes stand there, the highest byte first.
pub(crate) fn number_at(body: &[u8; 63], at: usize) -> u64
    requires { at + 8 ≤ 63 }
    ensures { take 8 (drop at body.now) ≡ bytes_high_first 8 result }
{
    let mut bytes = [0; 8];
    bytes.copy_from_slice(&body[at..at + 8]);
    u64::from_be_bytes(bytes)
}
