//! The sheet: the vertical position of each part. Positions are in tenths of a pixel.

ghost use Rattle.std.specs.Prelude.{◌≤◌};

use events::worker_id::WorkerId;
use trace_layout::axis::Axis;

/// The distance of a task's bar from the upper edge of its lane, and its height.
pub const BAR: u32 = 120;

pub const BAR_HEIGHT: u32 = 300;

/// The height of a lane, and the distance from one lane to the next.
pub const LANE_HEIGHT: u32 = 660;

const LANE: u32 = 740;

/// The distance from one row of brackets to the next.
const ROW: u32 = 260;

/// What the positions on a sheet depend on.
#[derive(Clone, Copy, Debug)]
pub struct Sheet {
    pub axis: Axis,
    /// The number of lanes.
    pub workers: u32,
    /// The number of rows of brackets.
    pub rows: u32,
    ghost few_workers: { workers ≤ 64 },
    ghost few_rows: { rows ≤ 25 },
}

impl Sheet {
    /// Returns the upper edge of a worker's lane.
    pub fn lane(self, worker: WorkerId) -> u32
        ensures below { 780 ≤ result }
        ensures above { result ≤ 47400 }
    {
        780 + LANE * worker.number()
    }

    /// Returns the upper edge of the bars in a worker's lane.
    pub fn bar(self, worker: WorkerId) -> u32
        ensures below { 900 ≤ result }
        ensures above { result ≤ 47520 }
    {
        self.lane(worker) + BAR
    }

    /// Returns the lower edge of the last lane.
    pub fn lanes_end(self) -> u32
        ensures { result ≤ 48100 }
    {
        LANE * (self.workers + 1)
    }

    /// Returns the line of the brackets in a row. The number of rows is small.
    pub fn row(self, row: usize) -> u32
        ensures { result ≤ 60000 }
    {
        self.lanes_end() + 180 + ROW * row.min(25) as u32
    }

    /// Returns the lower end of the grid.
    pub fn grid_end(self) -> u32
        ensures { result ≤ 60000 }
    {
        self.lanes_end() + ROW * (self.rows + 1)
    }

    /// Returns the line below the graph of running tasks.
    pub fn busy_line(self) -> u32
        ensures { result ≤ 70000 }
    {
        self.grid_end() + 440 + 100 * self.workers
    }

    /// Returns the upper edge of the legend.
    pub fn legend(self) -> u32
        ensures { result ≤ 71000 }
    {
        self.busy_line() + 200
    }

    /// Returns the total height.
    pub fn height(self) -> u32
        ensures { result ≤ 72000 }
    {
        self.legend() + 540
    }
}
