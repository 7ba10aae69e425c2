//! Theorems about sections, each stated as the contract of an empty function.

ghost use Rattle.std.specs.Prelude.{◌≡◌, ◌≢◌, ◌⊎◌, ◌↔◌, ◌+◌, ◌-◌, ◌<◌, ℕ, List, Some, true, false};
ghost use Rattle.sections.specs.Covers.{is_in, has, is_cover};
ghost use Rattle.sections.specs.Member.{Member};
ghost use Rattle.sections.specs.Origins.{Origin, Left, Right, origin_of, IsNumbered, IsChildOf};
ghost use Rattle.sections.specs.Overlap.{overlap, root_of, are_sides, are_opposite};
ghost use Rattle.sections.specs.Place.{Place, Window, In, piece_of};
ghost use Rattle.sections.specs.Placed.{Apart, Names, Placed};

/// States that overlap is symmetric, and that a section overlaps itself, its sides and its pieces.
pub fn overlap_is_near()
    ensures symmetric { (origins : List Origin) (a b : ℕ)
        → overlap origins a b ≡ overlap origins b a }
    ensures itself { (origins : List Origin) → IsNumbered origins → (a : ℕ)
        → overlap origins a a ≡ true }
    ensures parent { (origins : List Origin) → IsNumbered origins → (s a : ℕ)
        → IsChildOf origins s a → overlap origins s a ≡ true }
{}

/// States that the other side of a split is numbered right next to each side.
pub fn sides_stand_together()
    ensures left { (origins : List Origin) → IsNumbered origins → (l s : ℕ)
        → origin_of origins l ≡ Left s → are_sides origins l (l + 1) ≡ true }
    ensures right { (origins : List Origin) → IsNumbered origins → (r s : ℕ)
        → origin_of origins r ≡ Right s → are_sides origins (r - 1) r ≡ true }
{}

/// States that the two sides of one split are disjoint, and that what is disjoint from a section is
/// disjoint from its sides and pieces. Two others of these overlap: two pieces of one section, a piece
/// and a side, or sides of two different splits.
pub fn overlap_follows_the_splits()
    ensures sides { (origins : List Origin) (l r : ℕ)
        → are_sides origins l r ≡ true → overlap origins l r ≡ false }
    ensures inherited { (origins : List Origin) → IsNumbered origins → (a s b : ℕ)
        → IsChildOf origins s a → overlap origins s b ≡ false → overlap origins a b ≡ false }
    ensures two_splits { (origins : List Origin) → IsNumbered origins → (s a b : ℕ)
        → IsChildOf origins s a → IsChildOf origins s b → are_opposite origins a b ≡ false
        → overlap origins a b ≡ true }
{}

/// States that two disjoint sections share no place if one of them may be written, provided that
/// the windows of the sections agree with their origins.
pub fn disjoint_sections_share_no_place()
    ensures { (names : Names) (windows : ℕ → Window)
        → IsNumbered names.origins → Placed names windows
        → (a b : ℕ) → Member a names.scope → Member b names.scope
        → overlap names.origins a b ≡ false
        → (names.may_write (root_of names.origins a) ≡ true)
        ⊎ (names.may_write (root_of names.origins b) ≡ true)
        → Apart (windows a) (windows b) }
{}

/// States that the pieces of a window share no place, lie in the window, and contain all its places.
pub fn pieces_divide_a_window()
    ensures apart { (w v u : Window) (size j k : ℕ) → j ≢ k
        → piece_of w size j ≡ Some v → piece_of w size k ≡ Some u → Apart v u }
    ensures inside { (w v : Window) (size turn : ℕ) → piece_of w size turn ≡ Some v
        → (q : Place) → In v q → In w q }
    ensures whole { (w : Window) (size : ℕ) (q : Place) → 0 < size → In w q
        → (turn : ℕ) × (v : Window) × (piece_of w size turn ≡ Some v) × In v q }
{}

/// States that a set of places has one cover, so the results of `cover` and `less` are unique.
pub fn covers_are_unique()
    ensures tested { (w : Window) (q : Place) → (is_in w q ≡ true) ↔ In w q }
    ensures unique { (vs ws : List Window) → is_cover vs ≡ true → is_cover ws ≡ true
        → ((q : Place) → has vs q ≡ has ws q) → vs ≡ ws }
{}
