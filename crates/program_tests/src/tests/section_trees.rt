//! Which sections overlap, and what windows cover.

use sections::cover::{cover, less};
use sections::id::{ArrayId, SectionId};
use sections::origin::Origin;
use sections::tree::SectionTree;
use sections::window::Window;
use std::alloc::Global;
use std::process::Abort;

/// Splits of two roots, 0 and 1, in order: the section, its left side and its right side.
const SPLITS: &[(usize, usize, usize)] = &[(0, 2, 3), (0, 4, 5), (2, 6, 7)];

/// Returns the two roots.
fn roots(rt: &impl Abort, alloc: Global) -> SectionTree {
    let mut tree = SectionTree::new(alloc);
    let first = tree.root().expect(rt, "memory");
    let second = tree.root().expect(rt, "memory");
    assert!(rt; first.number == 0 && second.number == 1);
    tree
}

/// Returns whether a section is split into sides with these numbers.
fn is_split(rt: &impl Abort, tree: &mut SectionTree, split: (usize, usize, usize)) -> bool {
    let (number, want_left, want_right) = split;
    assert!(rt; number < tree.len());
    let (left, right) = tree.split(SectionId { number }).expect(rt, "memory");
    left.number == want_left && right.number == want_right
}

/// Returns the two roots and all sides.
fn tree(rt: &impl Abort, alloc: Global) -> SectionTree {
    let mut tree = roots(rt, alloc);
    for split in SPLITS {
        assert!(rt; is_split(rt, &mut tree, *split), "split of {}", split.0);
    }
    tree
}

/// Two sections of the tree, and whether they overlap.
const OVERLAPS: &[(usize, usize, bool)] = &[
    (0, 1, false),
    (0, 0, true),
    (5, 5, true),
    // ---- a section and its sides
    (0, 2, true),
    (0, 3, true),
    (0, 7, true),
    (1, 2, false),
    (1, 7, false),
    // ---- the sides of one split, and of two
    (2, 3, false),
    (4, 5, false),
    (2, 4, true),
    (2, 5, true),
    (3, 4, true),
    (3, 5, true),
    // ---- the sides of a side
    (6, 7, false),
    (2, 6, true),
    (2, 7, true),
    (3, 6, false),
    (3, 7, false),
    (4, 6, true),
    (5, 7, true),
];

#[test]
fn sections_that_overlap(rt: HostRuntime) {
    let tree = tree(&rt, rt.alloc());
    assert!(rt; tree.len() == 8);
    for (a, b, want) in OVERLAPS {
        assert!(rt; *a < tree.len() && *b < tree.len(), "{a} and {b}");
        let first = SectionId { number: *a };
        let second = SectionId { number: *b };
        assert!(rt; tree.overlap(first, second) == *want, "{a} and {b}");
        assert!(rt; tree.overlap(second, first) == *want, "{b} and {a}");
    }
    let parent = SectionId { number: 2 };
    assert!(rt; tree.origin(SectionId { number: 7 }) == Origin::Right { parent });
}

/// Returns the tree with a piece of the array 0, a piece of the side 2, and a piece of that.
fn tree_with_pieces(rt: &impl Abort, alloc: Global) -> SectionTree {
    let mut tree = tree(rt, alloc);
    for (number, want) in [(0, 8), (2, 9), (9, 10)] {
        assert!(rt; number < tree.len());
        let piece = tree.part(SectionId { number }).expect(rt, "memory");
        assert!(rt; piece.number == want, "piece of {number}");
    }
    tree
}

/// Two sections of that tree, and whether they overlap.
const PIECES: &[(usize, usize, bool)] = &[
    (8, 8, true),
    (8, 0, true),
    (8, 1, false),
    (8, 3, true),
    (8, 9, true),
    (9, 2, true),
    (9, 3, false),
    (9, 5, true),
    (9, 7, true),
    (10, 9, true),
    (10, 3, false),
    (10, 8, true),
];

#[test]
fn pieces_that_overlap(rt: HostRuntime) {
    let tree = tree_with_pieces(&rt, rt.alloc());
    assert!(rt; tree.len() == 11);
    for (a, b, want) in PIECES {
        assert!(rt; *a < tree.len() && *b < tree.len(), "{a} and {b}");
        let first = SectionId { number: *a };
        let second = SectionId { number: *b };
        assert!(rt; tree.overlap(first, second) == *want, "{a} and {b}");
        assert!(rt; tree.overlap(second, first) == *want, "{b} and {a}");
    }
}

/// A window, the size of its pieces, the number of a piece, and where that piece starts and how long
/// it is.
const CUTS: &[(WindowNumbers, u64, u64, Option<(usize, usize)>)] = &[
    ((0, 5, 10), 4, 0, Some((5, 4))),
    ((0, 5, 10), 4, 1, Some((9, 4))),
    ((0, 5, 10), 4, 2, Some((13, 2))),
    ((0, 5, 10), 4, 3, None),
    ((0, 0, 8), 4, 1, Some((4, 4))),
    ((0, 0, 8), 4, 2, None),
    ((0, 0, 3), 3, 0, Some((0, 3))),
    ((0, 2, 3), u64::MAX, 0, Some((2, 3))),
    ((0, 0, 0), 1, 0, None),
    ((0, 0, 3), 0, 0, None),
    // ---- a product over 64 bits
    ((0, 0, 3), 9_223_372_036_854_775_808, 2, None),
    ((0, 0, 3), 4_294_967_296, 4_294_967_296, None),
    ((0, 0, 3), u64::MAX, u64::MAX, None),
];

#[test]
fn pieces_of_windows(rt: HostRuntime) {
    for (whole, size, turn, want) in CUTS {
        let found = window(&rt, *whole).piece(*size, *turn);
        let numbers = found.map(|piece| (piece.at, piece.len));
        assert!(rt; numbers == *want, "piece {turn} of {size} in {whole:?}");
    }
}

/// A window: its array, its first place and its length.
pub type WindowNumbers = (usize, usize, usize);

/// Returns the window with these numbers.
fn window(rt: &impl Abort, (array, at, len): WindowNumbers) -> Window {
    assert!(rt; at <= 100 && len <= 100);
    Window {
        array: ArrayId { number: array },
        at,
        len,
    }
}

/// Returns the windows with these numbers.
pub fn windows(rt: &impl Abort, alloc: Global, rows: &[WindowNumbers]) -> Vec<Window> {
    let mut windows = Vec::new(alloc);
    for row in rows {
        windows.push(window(rt, *row)).expect(rt, "memory");
    }
    windows
}

/// Returns whether windows have these numbers.
fn have_numbers(windows: &[Window], rows: &[WindowNumbers]) -> bool {
    windows.len() == rows.len()
        && windows.iter().zip(rows).all(|(window, row)| (window.array.number, window.at, window.len)
            == *row)
}

/// Windows and others, the cover of the windows, and what is left of it without the others.
const COVERS: &[(
    &[WindowNumbers],
    &[WindowNumbers],
    &[WindowNumbers],
    &[WindowNumbers],
)] = &[
    (&[], &[], &[], &[]),
    (&[], &[(0, 0, 4)], &[], &[]),
    (&[(0, 3, 0)], &[], &[], &[]),
    (&[(0, 9, 0), (0, 1, 1)], &[], &[(0, 1, 1)], &[(0, 1, 1)]),
    // ---- windows that touch, overlap or contain one another
    (
        &[(0, 2, 2), (0, 0, 2)],
        &[(0, 1, 2)],
        &[(0, 0, 4)],
        &[(0, 0, 1), (0, 3, 1)],
    ),
    (&[(0, 1, 4), (0, 0, 3)], &[(0, 0, 5)], &[(0, 0, 5)], &[]),
    (
        &[(0, 0, 9), (0, 2, 3)],
        &[(0, 2, 3)],
        &[(0, 0, 9)],
        &[(0, 0, 2), (0, 5, 4)],
    ),
    // ---- a gap
    (
        &[(0, 3, 2), (0, 0, 2)],
        &[(0, 1, 3)],
        &[(0, 0, 2), (0, 3, 2)],
        &[(0, 0, 1), (0, 4, 1)],
    ),
    (&[(0, 0, 4)], &[(0, 2, 0)], &[(0, 0, 4)], &[(0, 0, 4)]),
    // ---- two arrays
    (
        &[(1, 2, 2), (0, 0, 2)],
        &[(1, 0, 3)],
        &[(0, 0, 2), (1, 2, 2)],
        &[(0, 0, 2), (1, 3, 1)],
    ),
    (
        &[(0, 0, 4), (1, 0, 4)],
        &[(1, 1, 1), (0, 3, 9)],
        &[(0, 0, 4), (1, 0, 4)],
        &[(0, 0, 3), (1, 0, 1), (1, 2, 2)],
    ),
];

#[test]
fn covers_of_windows(rt: HostRuntime) {
    let alloc = rt.alloc();
    for (some, others, want_cover, want_less) in COVERS {
        let taken = windows(&rt, alloc, some);
        let gone = windows(&rt, alloc, others);
        let whole = cover(alloc, &taken).expect(&rt, "memory");
        let rest = less(alloc, &taken, &gone).expect(&rt, "memory");
        assert!(rt;
            have_numbers(&whole, want_cover),
            "cover of {some:?}: {whole:?}"
        );
        assert!(rt;
            have_numbers(&rest, want_less),
            "{some:?} less {others:?}: {rest:?}"
        );
    }
}
