//! The number of places that are copied when they are carved out of an array of 1,024, or come
//! back.

use crate::tests::section_trees::WindowNumbers;
use crate::tests::{compare, typed};
use holdings::holdings::Holdings;
use sections::id::ArrayId;
use sections::window::Window;
use std::alloc::Global;
use std::process::Abort;
use types::input::Input;

/// Windows that are carved out together, the number of places that are copied for that, and the
/// number when they come back.
type Row = (&'static [WindowNumbers], &'static str);

const ROWS: &[Row] = &[
    (&[(0, 0, 300)], "44 44"),
    (&[(0, 100, 400)], "400 400"),
    (&[(0, 256, 768)], "0 0"),
    (&[(0, 0, 1024)], "0 0"),
    (&[(0, 0, 0)], "0 0"),
    // ---- two windows in one block, and one window after the other
    (&[(0, 10, 5), (0, 20, 5)], "10 10"),
    (&[(0, 0, 128), (0, 128, 128)], "0 0"),
    // ---- an array whose last block isn't full
    (&[(1, 256, 44)], "0 0"),
    (&[(1, 255, 45)], "1 1"),
];

/// Returns all places of two arrays.
fn all(rt: &impl Abort, alloc: Global) -> Holdings {
    let typed = typed(rt, alloc, "main { array a: int[1024]; array b: int[300]; }");
    let input = Input::zeros(alloc, &typed).expect(rt, "memory");
    Holdings::of_input(alloc, &typed, &input).expect(rt, "memory")
}

/// Returns the windows with these numbers.
fn windows(rt: &impl Abort, alloc: Global, rows: &[WindowNumbers]) -> Vec<Window> {
    let mut windows = Vec::new(alloc);
    for (number, at, len) in rows {
        assert!(rt; *at <= 1024 && *len <= 1024);
        let array = ArrayId { number: *number };
        let window = Window {
            array,
            at: *at,
            len: *len,
        };
        windows.push(window).expect(rt, "memory");
    }
    windows
}

/// Returns the number of places that are copied when these windows are carved out, and when they
/// come back.
fn copied(rt: &impl Abort, alloc: Global, rows: &[WindowNumbers]) -> String {
    let mut own = all(rt, alloc);
    let windows = windows(rt, alloc, rows);
    let part = own.carve(alloc, &windows).expect(rt, "owned places");
    let begun = part.copied();
    assert!(rt; begun == 0, "a part begins with 0");
    let copies = own.share(alloc, &[]).expect(rt, "no places");
    let carved = own.copied();
    let shared = copies.copied();
    assert!(rt; shared == 0, "to share copies nothing");
    let is_back = own.paste(part).is_ok();
    assert!(rt; is_back, "places that aren't owned here");
    let pasted = own.copied().saturating_sub(carved);
    format!(in alloc; "{carved} {pasted}").expect(rt, "memory")
}

#[test]
fn places_of_split_blocks_are_copied(rt: HostRuntime) {
    let alloc = rt.alloc();
    for (rows, want) in ROWS {
        let said = copied(&rt, alloc, rows);
        compare(&rt, alloc, "copied", said, want);
    }
}

/// Carves out both halves of a block, one after the other, and pastes them back in that order.
/// Returns the number of places that were copied after each of the four calls.
fn copied_by_halves(rt: &impl Abort, alloc: Global) -> String {
    let mut own = all(rt, alloc);
    let low = windows(rt, alloc, &[(0, 0, 128)]);
    let high = windows(rt, alloc, &[(0, 128, 128)]);
    let first = own.carve(alloc, &low).expect(rt, "owned places");
    let low_carved = own.copied();
    let second = own.carve(alloc, &high).expect(rt, "owned places");
    let high_carved = own.copied();
    let is_back = own.paste(first).is_ok();
    assert!(rt; is_back, "places that aren't owned here");
    let low_pasted = own.copied();
    let is_back = own.paste(second).is_ok();
    assert!(rt; is_back, "places that aren't owned here");
    let high_pasted = own.copied();
    format!(in alloc; "{low_carved} {high_carved} {low_pasted} {high_pasted}").expect(rt, "memory")
}

/// The second half is all that is left, so it moves. On the way back the first half moves, and the
/// second one is copied.
#[test]
fn each_half_of_a_block_is_copied_once(rt: HostRuntime) {
    let alloc = rt.alloc();
    let said = copied_by_halves(&rt, alloc);
    compare(&rt, alloc, "copied", said, "128 128 128 256");
}
