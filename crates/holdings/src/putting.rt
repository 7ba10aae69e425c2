//! Numbers of others, written at places of windows.

ghost use Rattle.std.specs.Prelude.{◌≡◌, OnOk, map};
ghost use Rattle.sections.specs.Covers.{has, is_in};
ghost use Rattle.sections.specs.Translation.{window as window_of};
ghost use Rattle.blocks.specs.Held.{numbers, only, put_all};
ghost use Rattle.holdings.specs.Rows.{held_in};

use crate::rows::BlockRows;
use sections::window::{Place, Window};
use std::alloc::AllocError;

impl BlockRows {
    /// Writes the numbers that others hold at places of windows. An owned number stays owned, and
    /// at any other place the number is a copy.
    pub fn put_all(&mut self, windows: &[Window], others: &BlockRows) -> Result<(), AllocError>
        ensures { OnOk result (held_in self.new
            ≡ put_all (only (has (map window_of windows.now)) (numbers (held_in others.now)))
            (held_in self.old)) }
    {
        for window in windows {
            self.put_window(*window, others)?;
        }
        Ok(())
    }

    /// Writes the numbers that others hold at places of one window.
    fn put_window(&mut self, window: Window, others: &BlockRows) -> Result<(), AllocError>
        ensures { OnOk result (held_in self.new
            ≡ put_all (only (is_in (window_of window)) (numbers (held_in others.now)))
            (held_in self.old)) }
    {
        for index in window.at..window.at + window.len {
            let place = Place {
                array: window.array,
                index,
            };
            if let Some(number) = others.number(place) {
                self.put(place, number)?;
            }
        }
        Ok(())
    }
}
