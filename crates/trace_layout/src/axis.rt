//! The axis: horizontal coordinates of events, in tenths of a pixel.

ghost use Rattle.std.specs.Prelude.{◌≡◌, ◌+◌, ◌/◌, ◌<◌, ◌≤◌, ◌↔◌, IsTrue};
ghost use Rattle.trace_layout.specs.Axis.{x_of};

/// The start of the first event's column.
pub const LEFT: u32 = 960;

/// The axis of this many events: columns of 14 pixels, or narrower ones that together fit into
/// 1,500 pixels.
#[derive(Clone, Copy, Debug)]
pub struct Axis {
    pub events: usize,
}

impl Axis {
    /// Returns the start of an event's column. If there is no such event, it returns the end of the
    /// last event's column.
    pub fn x(self, event: usize) -> u32
        ensures place { result ≡ x_of self.events event }
        ensures within { result ≤ 15960 }
    {
        let event = event.min(self.events);
        if self.events <= 107 {
            return LEFT + event as u32 * 140;
        }
        LEFT + (event as u128 * 15000 / self.events as u128) as u32
    }

    /// Returns the end of an event's column.
    pub fn end(self, event: usize) -> u32
        ensures place { event < self.events → result ≡ x_of self.events (event + 1) }
        ensures within { result ≤ 15960 }
    {
        self.x(event.saturating_add(1))
    }

    /// Returns the middle of an event's column.
    pub fn middle(self, event: usize) -> u32
        ensures place { event < self.events
            → result ≡ (x_of self.events event + x_of self.events (event + 1)) / 2 }
        ensures within { result ≤ 15960 }
    {
        (self.x(event) + self.end(event)) / 2
    }

    /// Returns whether columns are at least 3 pixels wide, which is enough for a mark for each
    /// event.
    pub fn is_wide(self) -> bool
        ensures { IsTrue result ↔ (self.events ≤ 500) }
    {
        self.events <= 500
    }

    /// Returns the number of events between grid lines: 10, 20, 50, 100, .., the first that is at
    /// least 60 pixels wide.
    pub fn grid(self) -> usize {
        let mut ten: usize = 10;
        for _ in 0..18 {
            for factor in [1usize, 2, 5] {
                let step = ten.saturating_mul(factor);
                if self.x(step) >= LEFT + 600 {
                    return step;
                }
            }
            ten = ten.saturating_mul(10);
        }
        ten
    }
}
