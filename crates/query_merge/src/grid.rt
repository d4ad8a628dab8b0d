// Points in time.
ghost use Rattle.std.specs.Prelude.{◌≡◌, ◌<◌, ◌≤◌, ◌^◌};
ghost use Rattle.query_merge.specs.Grid.{IsGrid, most_time, point_of};

/// The greatest distance of two points, in seconds.
pub const MAX_STEP: u64 = 31_622_400;

/// The last time, in milliseconds since 1970: the end of the year 9999.
pub const MAX_TIME_MS: u64 = 253_402_300_799_999;

const MS_PER_SECOND: u64 = 1000;

// The points `start`, `start` and a step, `start` and two steps ..
#[derive(Drop)]
pub(crate) struct Grid {
    pub(crate) start: u64,
    pub(crate) step: u64,
    ghost grid: { IsGrid start step },
}

impl Grid {
    // The first point that isn't before the time.
    pub(crate) fn point(&self, time: u64) -> u64
        requires { time ≤ most_time }
        ensures { result ≡ point_of self.now.start self.now.step time }
    {
        let width = self.step * MS_PER_SECOND;
        let after = time.saturating_sub(self.start);
        self.start + after.div_ceil(width) * width
    }
}
