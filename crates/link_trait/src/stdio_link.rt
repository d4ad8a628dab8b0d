//! The real standard streams and clock as a link. It tells nothing.
ghost use Rattle.std.specs.Prelude.{◌≡◌, ◌≤◌, true, IfSome};
ghost use Rattle.link_trait.specs.Link.{Rose};

use crate::link::{Failed, LAST_MOMENT, Link};
use std::io::Read;
use std::time::{Clock, SystemTime, UNIX_EPOCH};

/// Standard input and output, with no buffer of our own, and the system's clock.
#[derive(Drop)]
pub struct StdioLink<R: Input + Print + Clock + Drop> {
    open: bool,
    rt: R,
    input: R::Reader,
    moment: u64,
    faults: u64,
    ghost in_range: { moment ≤ 253402300799999 },
}

impl<R: Input + Print + Clock + Drop> StdioLink<R> {
    pub fn new(rt: R) -> StdioLink<R>
        ensures open { ⟦<StdioLink<R> as Link>⟧.is_open result ≡ true }
    {
        let input = rt.reader();
        StdioLink {
            open: true,
            rt,
            input,
            moment: 0,
            faults: 0,
        }
    }

    fn fail(&mut self) -> Failed
        ensures later { self.old.faults ≤ self.new.faults }
        ensures rose { Rose self.old.faults self.new.faults }
        ensures open { self.new.open ≡ self.old.open }
    {
        self.faults = self.faults.saturating_add(1);
        Failed
    }
}

// The clock's moment, where it can be read and is no later than the last.
fn clock_moment(clock: &impl Clock) -> Option<u64>
    ensures { IfSome result (λ moment. moment ≤ LAST_MOMENT) }
{
    let now = SystemTime::now(clock).ok()?;
    let since = now.duration_since(UNIX_EPOCH).ok()?;
    let moment = u64::try_from(since.as_millis()).ok()?;
    if moment <= LAST_MOMENT {
        Some(moment)
    } else {
        None
    }
}

impl<R: Input + Print + Clock + Drop> Link for StdioLink<R> {
    ghost use Rattle.std.specs.Prelude.{None};

    ghost told = { λ _. None };

    ghost faults = { λ link. link.faults };

    ghost is_open = { λ link. link.open };

    fn read(&mut self, into: &mut [u8]) -> Result<usize, Failed> {
        match self.input.read(into) {
            Ok(count) => Ok(count),
            Err(_) => Err(self.fail()),
        }
    }

    /// A write of nothing counts as a fault.
    fn write(&mut self, from: &[u8]) -> Result<usize, Failed> {
        match self.rt.write_some(from) {
            Ok(count) if 0 < count || from.is_empty() => Ok(count),
            _ => Err(self.fail()),
        }
    }

    /// Where the clock can't be read, this is the last moment that it gave, 0 at first.
    fn moment(&mut self) -> u64 {
        if let Some(moment) = clock_moment(&self.rt) {
            self.moment = moment;
        }
        self.moment
    }

    fn end(&mut self) {
        self.open = false;
    }

    fn faults(&self) -> u64 {
        self.faults
    }
}
