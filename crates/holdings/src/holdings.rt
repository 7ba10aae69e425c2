//! What a task holds of the arrays.

use crate::error::HoldError;
use crate::presence::Presence;
use crate::rows::BlockRows;
use sections::cover::cover;
use sections::id::ArrayId;
use sections::window::{Place, Window};
use std::alloc::{AllocError, Global};
use types::input::Input;
use types::typed::Typed;

/// Numbers at places of the arrays. Each number is either owned or a copy. An owned number can be
/// written and carved out.
#[derive(Drop)]
pub struct Holdings {
    pub(crate) rows: BlockRows,
    pub(crate) copied: u64,
}

impl Holdings {
    ghost use Rattle.std.specs.Prelude.{◌≡◌, ◌<◌, ◌↔◌, IfErr, IfNone, IfOk};
    ghost use Rattle.std.specs.Prelude.{IfSome, IsSome, IsTrue, None, OnErr, OnOk};
    ghost use Rattle.std.specs.Prelude.{is_some, map, ok_or};
    ghost use Rattle.std.specs.Bool.{OnFalse, OnTrue};
    ghost use Rattle.sections.specs.Place.{Place as PlainPlace};
    ghost use Rattle.sections.specs.Covers.{has};
    ghost use Rattle.sections.specs.Translation.{place as place_of, window as window_of};
    ghost use Rattle.blocks.specs.Held.{AreApart, IsJustAt, IsThere, Owned, as_owned, as_shared};
    ghost use Rattle.blocks.specs.Held.{in_place_of, numbers, only, over};
    ghost use Rattle.blocks.specs.Held.{owned, put, put_all, without};
    ghost use Rattle.holdings.specs.Copied.{CopiesSplit, CountsCarve, CountsPaste};
    ghost use Rattle.holdings.specs.Holdings.{held, listed};
    ghost use Rattle.holdings.specs.Errors.{RefusesPlaces, RefusesOwned};
    ghost use Rattle.holdings.specs.Reach.{LieAsBefore, LiesFrom, LiesNowhere, ReachesTo, place_at};
    ghost use Rattle.types.specs.Contents.{FitsArrays, read as read_of, row as row_of};
    ghost use Rattle.types.specs.Translation.{input as lists_in};
    ghost use Rattle.types.specs.Typed.{code_of};

    /// Returns holdings without places.
    pub fn none(alloc: Global) -> Holdings
        ensures held { (q : PlainPlace) → held result q ≡ None }
        ensures copied { result.copied ≡ 0 }
    {
        let rows = BlockRows::new(alloc);
        Holdings { rows, copied: 0 }
    }

    /// Returns holdings that own all places of the arrays, with the numbers of the input's lists.
    /// Only the contract needs the program.
    pub fn of_input(alloc: Global, _typed: &Typed, input: &Input) -> Result<Holdings, AllocError>
        requires { FitsArrays (code_of _typed.now).arrays (lists_in input.now) }
        ensures held { IfOk result (λ h. held h ≡ as_owned (listed (lists_in input.now))) }
        ensures copied { IfOk result (λ h. h.copied ≡ 0) }
    {
        let rows = BlockRows::of_lists(alloc, &input.arrays)?;
        Ok(Holdings { rows, copied: 0 })
    }

    /// Returns how many places were copied one by one when places were carved out or pasted.
    pub fn copied(&self) -> u64
        ensures { result ≡ self.now.copied }
    {
        self.copied
    }

    /// Returns the number at a place.
    pub fn read(&self, array: ArrayId, index: usize) -> Result<i64, HoldError>
        ensures { result ≡ ok_or
            (numbers (held self.now) (record { array = array.number; index = index }))
            HoldError.NotHeld }
    {
        match self.rows.number(Place { array, index }) {
            Some(number) => Ok(number),
            None => Err(HoldError::NotHeld),
        }
    }

    /// Returns the number at a place, or 0 if nothing is held there.
    #[inline(always)]
    pub fn number(&self, place: Place) -> i64
        ensures { result ≡ read_of (numbers (held self.now)) (place_of place) }
    {
        self.rows.number(place).unwrap_or(0)
    }

    /// Returns how far a window's first place is from the first place for which there is a block of
    /// its array, if there are blocks for all of the window.
    pub fn distance(&self, window: Window) -> Option<usize>
        ensures found { IfSome result (λ at. LiesFrom self.now.rows.list.items (window_of window) at) }
        ensures none { IfNone result (LiesNowhere self.now.rows.list.items (window_of window)) }
    {
        self.rows.distance(window)
    }

    /// Returns the number of an element of a window, by its distance, or 0 if nothing is held there.
    #[inline(always)]
    pub fn number_at(&self, array: usize, at: usize) -> i64
        requires { ReachesTo self.now.rows.list.items array at }
        ensures { result ≡ read_of (numbers (held self.now))
            (place_at self.now.rows.list.items array at) }
    {
        self.rows.number_at(array, at)
    }

    /// Writes the number of an element of a window, by its distance, if it is owned and that needs no
    /// memory, and returns whether it did. What is at a distance stays there.
    #[inline(always)]
    pub fn set_at(&mut self, array: usize, at: usize, value: i64) -> bool
        requires { ReachesTo self.old.rows.list.items array at }
        ensures written { OnTrue result (held self.new
            ≡ put (place_at self.old.rows.list.items array at) (Owned value) (held self.old)) }
        ensures owned { OnTrue result
            (IsSome (owned (held self.old) (place_at self.old.rows.list.items array at))) }
        ensures unchanged { OnFalse result (held self.new ≡ held self.old) }
        ensures copied { self.new.copied ≡ self.old.copied }
        ensures lie { LieAsBefore self.old.rows.list.items self.new.rows.list.items }
    {
        self.rows.set_at(array, at, value)
    }

    /// Returns the first numbers of an array, with 0 where nothing is held.
    pub fn row(&self, alloc: Global, array: ArrayId, length: usize) -> Result<Vec<i64>, AllocError>
        ensures { IfOk result (λ v. v.items
            ≡ row_of (numbers (held self.now)) array.number 0 length) }
    {
        let mut row = vec![in alloc; 0; length]?;
        self.rows.copy_to(array.number, &mut row);
        Ok(row)
    }

    /// Returns whether a place is owned.
    pub fn owns(&self, place: Place) -> bool
        ensures { result ≡ is_some (owned (held self.now) (place_of place)) }
    {
        self.rows.owns(place)
    }

    /// Returns whether the places of windows are owned, and no others. Takes no memory.
    pub fn owns_just(&self, windows: &[Window]) -> bool
        ensures { IsTrue result
            ↔ IsJustAt (has (map window_of windows.now)) (owned (held self.now)) }
    {
        self.rows.owns_just(windows)
    }

    /// Writes the number at an owned place.
    #[inline(never)]
    pub fn write(&mut self, array: ArrayId, index: usize, value: i64) -> Result<(), HoldError>
        ensures written { OnOk result (held self.new
            ≡ put (record { array = array.number; index = index }) (Owned value) (held self.old)) }
        ensures owned { OnOk result
            (IsSome (owned (held self.old) (record { array = array.number; index = index }))) }
        ensures refused { IfErr result (λ e. RefusesPlaces e
            (IsSome (owned (held self.old) (record { array = array.number; index = index })))) }
        ensures unchanged { OnErr result (held self.new ≡ held self.old) }
        ensures copied { self.new.copied ≡ self.old.copied }
    {
        if self.rows.write(Place { array, index }, value)? {
            Ok(())
        } else {
            Err(HoldError::NotHeld)
        }
    }

    /// Writes the number at an owned place if that needs no memory, and returns whether it did.
    /// Writes nothing if copies of the number may share its memory.
    #[inline(always)]
    pub fn set(&mut self, place: Place, value: i64) -> bool
        ensures written { OnTrue result
            (held self.new ≡ put (place_of place) (Owned value) (held self.old)) }
        ensures owned { OnTrue result (IsSome (owned (held self.old) (place_of place))) }
        ensures unchanged { OnFalse result (held self.new ≡ held self.old) }
        ensures copied { self.new.copied ≡ self.old.copied }
    {
        self.rows.set(place, value)
    }

    /// Writes the number at any place. An owned number stays owned, and at any other place the
    /// number is a copy. Fails only if memory runs out.
    #[inline(never)]
    pub fn put(&mut self, place: Place, value: i64) -> Result<(), AllocError>
        requires { place.index < 4194304 }
        ensures written { OnOk result (held self.new ≡ put (place_of place)
            (in_place_of (held self.old (place_of place)) value) (held self.old)) }
        ensures unchanged { OnErr result (held self.new ≡ held self.old) }
        ensures copied { self.new.copied ≡ self.old.copied }
    {
        self.rows.put(place, value)
    }

    /// Writes the numbers that others hold at places of windows, as `put` does. Fails only if
    /// memory runs out.
    pub fn put_all(&mut self, windows: &[Window], others: &Holdings) -> Result<(), AllocError>
        ensures written { OnOk result (held self.new ≡ put_all (only (has (map window_of windows.now))
            (numbers (held others.now))) (held self.old)) }
        ensures copied { self.new.copied ≡ self.old.copied }
    {
        self.rows.put_all(windows, &others.rows)
    }

    /// Moves out the places of windows, which must all be owned.
    pub fn carve(&mut self, alloc: Global, windows: &[Window]) -> Result<Holdings, HoldError>
        ensures taken { IfOk result (λ c. held c
            ≡ only (has (map window_of windows.now)) (held self.old)) }
        ensures left { OnOk result (held self.new
            ≡ without (has (map window_of windows.now)) (held self.old)) }
        ensures owned { OnOk result
            (IsThere (has (map window_of windows.now)) (owned (held self.old))) }
        ensures refused { IfErr result (λ e. RefusesPlaces e
            (IsThere (has (map window_of windows.now)) (owned (held self.old)))) }
        ensures unchanged { OnErr result (held self.new ≡ held self.old) }
        ensures copied { OnOk result (CopiesSplit (held self.old)
            (has (map window_of windows.now)) self.old.copied self.new.copied) }
        ensures counted { OnOk result (CountsCarve (held self.old)
            (has (map window_of windows.now)) self.old.copied self.new.copied) }
        ensures begins { IfOk result (λ c. c.copied ≡ 0) }
        ensures kept { OnErr result (self.new.copied ≡ self.old.copied) }
    {
        if !self.rows.has_all(windows, Presence::Owned) {
            return Err(HoldError::NotHeld);
        }
        let places = cover(alloc, windows)?;
        let mut rows = BlockRows::new(alloc);
        // Allocate first: if memory runs out, nothing has changed. The rest needs no memory.
        let carvings = self.rows.cut_all(&mut rows, &places)?;
        self.copied = self.copied.saturating_add(carvings.copied);
        self.rows.carve_all(&mut rows, carvings);
        Ok(Holdings { rows, copied: 0 })
    }

    /// Returns copies of the places of windows, which must all be held.
    pub fn share(&self, alloc: Global, windows: &[Window]) -> Result<Holdings, HoldError>
        ensures shared { IfOk result (λ c. held c
            ≡ as_shared (only (has (map window_of windows.now)) (numbers (held self.now)))) }
        ensures held { OnOk result (IsThere (has (map window_of windows.now)) (held self.now)) }
        ensures refused { IfErr result (λ e. RefusesPlaces e
            (IsThere (has (map window_of windows.now)) (held self.now))) }
        ensures begins { IfOk result (λ c. c.copied ≡ 0) }
    {
        if !self.rows.has_all(windows, Presence::Held) {
            return Err(HoldError::NotHeld);
        }
        let mut rows = BlockRows::new(alloc);
        rows.share_all(&self.rows, windows)?;
        Ok(Holdings { rows, copied: 0 })
    }

    /// Returns holdings with the same numbers at the same places, owned and copied alike. A whole
    /// block is copied only when it is written.
    pub fn clone(&self, alloc: Global) -> Result<Holdings, AllocError>
        ensures held { IfOk result (λ h. held h ≡ held self.now) }
        ensures copied { IfOk result (λ h. h.copied ≡ self.now.copied) }
    {
        let rows = self.rows.again(alloc)?;
        Ok(Holdings {
            rows,
            copied: self.copied,
        })
    }

    /// Takes in the owned places of others. Their copies are dropped.
    pub fn paste(&mut self, other: Holdings) -> Result<(), (HoldError, Holdings)>
        ensures pasted { OnOk result (held self.new
            ≡ over (as_owned (owned (held other))) (held self.old)) }
        ensures apart { OnOk result (AreApart (owned (held other)) (owned (held self.old))) }
        ensures refused { IfErr result (λ e. RefusesOwned e.0
            (AreApart (owned (held other)) (owned (held self.old)))) }
        ensures unchanged { IfErr result (λ e. (held self.new ≡ held self.old)
            × (held e.1 ≡ held other)) }
        ensures copied { OnOk result (CopiesSplit (held self.old)
            (λ q. is_some (owned (held other) q)) self.old.copied self.new.copied) }
        ensures counted { OnOk result (CountsPaste (held self.old)
            (owned (held other)) self.old.copied self.new.copied) }
        ensures kept { OnErr result (self.new.copied ≡ self.old.copied) }
    {
        if !self.rows.are_apart(&other.rows) {
            return Err((HoldError::OwnedTwice, other));
        }
        // Make room first: if memory runs out, nothing has changed. The rest needs no memory.
        if self.rows.make_room_for(&other.rows).is_err() {
            return Err((HoldError::OutOfMemory, other));
        }
        let Holdings { rows, copied: _ } = other;
        let copied = self.rows.paste_all(rows);
        self.copied = self.copied.saturating_add(copied);
        Ok(())
    }
}
