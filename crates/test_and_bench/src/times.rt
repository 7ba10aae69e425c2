//! Durations.

ghost use Rattle.test_and_bench.specs.Five.{AreOf};

/// The minimum and the median of five durations, in microseconds.
#[derive(Clone, Copy, PartialEq, Eq, Debug)]
pub struct Times {
    pub least: u64,
    pub median: u64,
}

impl Times {
    /// Returns the minimum and the median of these.
    pub fn of(times: [u64; 5]) -> Times
        ensures { AreOf times result.least result.median }
    {
        let mut ordered = times;
        ordered.sort_unstable();
        Times {
            least: ordered[0],
            median: ordered[2],
        }
    }
}

/// The durations of the runs of a program: serially, and in parallel on up to this many workers.
#[derive(Clone, Copy, PartialEq, Eq, Debug)]
pub struct Timed {
    pub workers: u64,
    pub serial: Times,
    pub on_one: Times,
    /// On 2 workers, if there are more than 2.
    pub on_two: Option<Times>,
    /// On all workers, if there is more than 1.
    pub on_all: Option<Times>,
}
