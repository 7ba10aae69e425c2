//! Places that move out.

ghost use Rattle.std.specs.Prelude.{◌≡◌, ◌≤◌, ◌<◌, ◌+◌, ◌||◌, ℕ, true, false, IfOk, None};
ghost use Rattle.std.specs.Prelude.{List, OnOk, map, nat_eq, if◌then◌else◌};
ghost use Rattle.sections.specs.Covers.{has, is_cover, is_in};
ghost use Rattle.sections.specs.Place.{Place, Window as PlainWindow};
ghost use Rattle.sections.specs.Translation.{window as window_of};
ghost use Rattle.blocks.specs.Held.{IsThere, only, owned, without};
ghost use Rattle.holdings.specs.Copied.{CopiesSplit};
ghost use Rattle.holdings.specs.Pieces.{taking};

use crate::pieces::{block_number, cut, offsets};
use crate::rows::BlockRows;
use blocks::block::Block;
use blocks::cut::Cut;
use sections::window::Window;
use std::alloc::AllocError;

/// What will move out of one block.
#[derive(Drop)]
pub struct Carving {
    pub(crate) piece: Window,
    pub(crate) cut: Cut,
}

/// What will move out, piece by piece, and how many places were copied for it.
#[derive(Drop)]
pub struct Carvings {
    pub(crate) list: Vec<Carving>,
    pub copied: u64,
}

impl BlockRows {
    ghost use Rattle.holdings.specs.Carvings.{IsCut, IsMovable, IsPiece, IsWhole, StandClear};
    ghost use Rattle.holdings.specs.Carvings.{copied_places, cut_places, moved_places, moves, piece_of};
    ghost use Rattle.holdings.specs.Copied.{IsCoverOf, LiesWithin, as_count, carve_copies, copied_from};
    ghost use Rattle.holdings.specs.Copied.{split_places};
    ghost use Rattle.holdings.specs.Rows.{held_in};
    ghost use Rattle.holdings.specs.declared.carving.Carving.{Carving as CarvingOf};

    /// Cuts out the places of the windows of a cover, which must all be owned, so moving them needs
    /// no memory. Places whose numbers were copied are then in `others`.
    pub fn cut_all(
        &mut self,
        others: &mut BlockRows,
        windows: &[Window],
    ) -> Result<Carvings, AllocError>
        requires cover { is_cover (map window_of windows.now) ≡ true }
        requires owned { IsThere (has (map window_of windows.now)) (owned (held_in self.old)) }
        requires none { (q : Place) → held_in others.old q ≡ None }
        ensures same { held_in self.new ≡ held_in self.old }
        ensures cut { IfOk result
            (λ c. IsCut self.new.list.items others.new.list.items c.list.items) }
        ensures places { IfOk result (λ c. (q : Place) → has (map window_of windows.now) q
            ≡ cut_places c.list.items q) }
        ensures taken { IfOk result (λ c. held_in others.new
            ≡ only (copied_places c.list.items) (held_in self.old)) }
        ensures copied { IfOk result (λ c. CopiesSplit (held_in self.old)
            (has (map window_of windows.now)) 0 c.copied) }
        ensures counted { IfOk result (λ c. (ws : List PlainWindow)
            → IsCoverOf ws (has (map window_of windows.now))
            → as_count c.copied ≡ as_count (carve_copies (held_in self.old) ws)) }
    {
        let mut carvings = Carvings {
            list: Vec::new(self.alloc),
            copied: 0,
        };
        for window in windows {
            self.cut_window(others, *window, &mut carvings)?;
        }
        Ok(carvings)
    }

    /// Cuts out the places of one window.
    fn cut_window(
        &mut self,
        others: &mut BlockRows,
        window: Window,
        carvings: &mut Carvings,
    ) -> Result<(), AllocError>
        requires owned { IsThere (is_in (window_of window)) (owned (held_in self.old)) }
        requires cut { IsCut self.old.list.items others.old.list.items carvings.old.list.items }
        requires taken { held_in others.old
            ≡ only (copied_places carvings.old.list.items) (held_in self.old) }
        requires clear { (q : Place) → cut_places carvings.old.list.items q ≡ true
            → is_in (window_of window) q ≡ false }
        ensures same { held_in self.new ≡ held_in self.old }
        ensures cut { OnOk result
            (IsCut self.new.list.items others.new.list.items carvings.new.list.items) }
        ensures taken { OnOk result (held_in others.new
            ≡ only (copied_places carvings.new.list.items) (held_in self.old)) }
        ensures places { OnOk result ((q : Place) → cut_places carvings.new.list.items q
            ≡ (cut_places carvings.old.list.items q || is_in (window_of window) q)) }
        ensures copied { OnOk result ((lengths : ℕ → ℕ) → LiesWithin lengths (held_in self.old)
            → carvings.new.copied ≤ carvings.old.copied + split_places lengths (window_of window)) }
        ensures counted { OnOk result (as_count carvings.new.copied ≡ as_count
            (carvings.old.copied + copied_from (held_in self.old) (window_of window))) }
    {
        let mut rest = window;
        'pieces: while rest.len > 0 {
            let (piece, behind) = cut(rest);
            let cut = self.cut_piece(others, piece)?;
            carvings.copied = carvings.copied.saturating_add(cut.copied);
            carvings.list.push(Carving { piece, cut })?;
            rest = behind;
        }
        Ok(())
    }

    /// Cuts out a piece of one block. `others` must hold nothing of the piece, and elsewhere only
    /// places that these rows hold too. If places are copied, they are copied straight to `others`.
    fn cut_piece(&mut self, others: &mut BlockRows, piece: Window) -> Result<Cut, AllocError>
        requires piece { IsPiece (window_of piece) }
        requires owned { IsThere (is_in (window_of piece)) (owned (held_in self.old)) }
        requires within { (q : Place) → (held_in others.old q ≡ None → ⊥)
            → held_in self.old q ≡ None → ⊥ }
        requires clear { (q : Place) → is_in (window_of piece) q ≡ true
            → held_in others.old q ≡ None }
        ensures same { held_in self.new ≡ held_in self.old }
        ensures movable { IfOk result (λ c. IsMovable self.new.list.items others.new.list.items
            (record { piece = piece; cut = c })) }
        ensures keeps { OnOk result ((d : CarvingOf) → StandClear (piece_of d) (window_of piece)
            → IsMovable self.old.list.items others.old.list.items d
            → IsMovable self.new.list.items others.new.list.items d) }
        ensures taken { IfOk result (λ c. held_in others.new ≡ (if nat_eq c.copied 0
            then held_in others.old
            else taking (is_in (window_of piece)) (held_in self.old) (held_in others.old))) }
        ensures moved { IfOk result
            (λ c. IsWhole (held_in self.old) (window_of piece) → c.copied ≡ 0) }
        ensures counted { IfOk result (λ c. (IsWhole (held_in self.old) (window_of piece) → ⊥)
            → c.copied ≡ piece.len) }
    {
        let (array, number) = (piece.array.number, block_number(piece));
        let (from, to) = offsets(piece);
        others.make_room(array, number)?;
        let mut theirs = others.swap(array, number, Block::Empty);
        let mut mine = self.swap(array, number, Block::Empty);
        let cut = mine.cut(self.alloc, &mut theirs, from, to);
        self.swap(array, number, mine);
        let cut = cut?;
        others.swap(array, number, theirs);
        Ok(cut)
    }

    /// Moves what was cut out to others. They must have room for it.
    pub fn carve_all(&mut self, others: &mut BlockRows, carvings: Carvings)
        requires { IsCut self.old.list.items others.old.list.items carvings.list.items }
        ensures left { held_in self.new ≡ without (cut_places carvings.list.items)
            (held_in self.old) }
        ensures taken { held_in others.new ≡ taking (moved_places carvings.list.items)
            (held_in self.old) (held_in others.old) }
    {
        let mut list = carvings.list;
        'carvings: while let Some(carving) = list.pop() {
            self.carve_piece(others, carving);
        }
    }

    /// Moves what was cut out of one block.
    fn carve_piece(&mut self, others: &mut BlockRows, carving: Carving)
        requires { IsMovable self.old.list.items others.old.list.items carving }
        ensures left { held_in self.new ≡ without (is_in (piece_of carving)) (held_in self.old) }
        ensures taken { held_in others.new ≡ (if moves carving
            then taking (is_in (piece_of carving)) (held_in self.old) (held_in others.old)
            else held_in others.old) }
        ensures keeps { (d : CarvingOf) → StandClear (piece_of d) (piece_of carving)
            → IsMovable self.old.list.items others.old.list.items d
            → IsMovable self.new.list.items others.new.list.items d }
    {
        let Carving { piece, cut } = carving;
        let (array, number) = (piece.array.number, block_number(piece));
        let (from, to) = offsets(piece);
        let moves = cut.copied == 0;
        let mut mine = self.swap(array, number, Block::Empty);
        let block = mine.carve(cut, from, to);
        self.swap(array, number, mine);
        if !moves {
            return;
        }
        others.swap(array, number, block);
    }
}
