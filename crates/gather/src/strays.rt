//! Places that come back from a task that doesn't own exactly what is listed for it.

ghost use Rattle.std.specs.Prelude.{◌≡◌, ◌+◌, ◌&&◌, IfErr, OnOk, false, map, nat_eq, nat_le, nat_lt};
ghost use Rattle.std.specs.List.{list_any};
ghost use Rattle.sections.specs.Translation.{place as place_of, window as window_of};
ghost use Rattle.task_run.specs.Places.{has_one, meets};
ghost use Rattle.task_run.specs.Translation.{contents_of};
ghost use Rattle.gather.specs.Parts.{given_back};
ghost use Rattle.gather.specs.PartRefusal.{RefusesBack};
ghost use Rattle.gather.specs.Stages.{part as part_of};

use crate::error::GatherError;
use crate::filling::Filling;
use holdings::holdings::Holdings;
use sections::window::{Place, Window};
use types::path::Path;

impl Filling {
    /// Takes the places of windows back one by one. If the task has a number for a place, owned or
    /// not, it is stored as a copy. Otherwise the old number stays. All places count as owned from
    /// then on.
    pub fn take_strays(
        &mut self,
        path: Path,
        windows: Vec<Window>,
        child: &Holdings,
    ) -> Result<(), GatherError>
        ensures taken { OnOk result (part_of self.new ≡ given_back (part_of self.old)
            (map window_of windows.items) (contents_of child.now)) }
        ensures apart { OnOk result
            (meets (part_of self.old).owned (map window_of windows.items) ≡ false) }
        ensures refused { IfErr result (RefusesBack path
            (meets (part_of self.old).owned (map window_of windows.items))) }
    {
        if self.owns_one(&windows) {
            return Err(GatherError::Double(path));
        }
        self.so_far.holdings.put_all(&windows, child)?;
        let mut windows = windows;
        self.strays.append(&mut windows)?;
        Ok(())
    }

    /// Returns whether one of the places of windows counts as owned.
    fn owns_one(&self, windows: &[Window]) -> bool
        ensures { result ≡ meets (part_of self.now).owned (map window_of windows.now) }
    {
        for window in windows {
            if self.owns_one_of(*window) {
                return true;
            }
        }
        false
    }

    /// Returns whether one of the places of a window counts as owned.
    fn owns_one_of(&self, window: Window) -> bool
        ensures { result
            ≡ has_one (part_of self.now).owned window.array.number window.at window.len }
    {
        let mut index = window.at;
        let mut left = window.len;
        'places: while left > 0 {
            let place = Place {
                array: window.array,
                index,
            };
            if self.owns(place) {
                return true;
            }
            index += 1;
            left -= 1;
        }
        false
    }

    /// Returns whether a place counts as owned.
    fn owns(&self, place: Place) -> bool
        ensures { result ≡ (part_of self.now).owned (place_of place) }
    {
        have(&self.strays, place) || self.so_far.holdings.owns(place)
    }
}

/// Returns whether one of these windows contains a place.
fn have(windows: &[Window], place: Place) -> bool
    ensures { result ≡ list_any (λ w. nat_eq place.array.number w.array.number
        && (nat_le w.at place.index && nat_lt place.index (w.at + w.len))) windows.now }
{
    windows.iter().any(|w| {
        place.array.number == w.array.number && w.at <= place.index && place.index < w.at + w.len
    })
}
