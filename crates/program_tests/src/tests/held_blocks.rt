//! Offsets of blocks that are carved out, shared, written and pasted.

use crate::tests::compare;
use blocks::block::Block;
use std::alloc::Global;
use std::process::Abort;

/// A step on the block with a number. New blocks come after the others.
#[derive(Clone, Copy)]
enum Step {
    /// The offsets of a range are carved out of it.
    Carve(usize, usize, usize),
    /// Copies are made of the offsets of a range.
    Share(usize, usize, usize),
    /// A number is written at an offset.
    Write(usize, usize, i64),
    /// The last one is pasted into it.
    Paste(usize),
    /// It is copied once more.
    Again(usize),
}

use Step::{Again, Carve, Paste, Share, Write};

/// Steps in order from a block that owns all offsets, and a line before the first and after each:
/// the number of copied numbers, or whether an offset was written, and then what is held. For each
/// block the numbers at a few offsets are shown, in brackets if they are copies.
type Story = (&'static [Step], &'static str);

const STORIES: &[Story] = &[
    // ---- a part carved out, written and pasted
    (
        &[
            Carve(0, 100, 200),
            Write(0, 100, 5),
            Write(0, 99, 5),
            Write(1, 199, 6),
            Paste(0),
        ],
        ": 0 99 100 199 200 255 |
100: 0 99 - - 200 255 | - - 100 199 - - |
false: 0 99 - - 200 255 | - - 100 199 - - |
true: 0 5 - - 200 255 | - - 100 199 - - |
true: 0 5 - - 200 255 | - - 100 6 - - |
100: 0 5 100 6 200 255 |
",
    ),
    // ---- a whole block moves
    (
        &[Carve(0, 0, 256), Paste(0)],
        ": 0 99 100 199 200 255 |
0: - - - - - - | 0 99 100 199 200 255 |
0: 0 99 100 199 200 255 |
",
    ),
    // ---- the last part that is held moves too
    (
        &[Carve(0, 0, 100), Carve(0, 100, 256), Paste(1), Paste(0)],
        ": 0 99 100 199 200 255 |
100: - - 100 199 200 255 | 0 99 - - - - |
0: - - - - - - | 0 99 - - - - | - - 100 199 200 255 |
156: - - - - - - | 0 99 100 199 200 255 |
0: 0 99 100 199 200 255 |
",
    ),
    // ---- copies keep their numbers, and are not written
    (
        &[
            Share(0, 0, 256),
            Write(0, 99, 7),
            Write(1, 99, 7),
            Carve(0, 0, 100),
            Paste(1),
            Paste(0),
        ],
        ": 0 99 100 199 200 255 |
: 0 99 100 199 200 255 | (0) (99) (100) (199) (200) (255) |
true: 0 7 100 199 200 255 | (0) (99) (100) (199) (200) (255) |
false: 0 7 100 199 200 255 | (0) (99) (100) (199) (200) (255) |
100: - - 100 199 200 255 | (0) (99) (100) (199) (200) (255) | 0 7 - - - - |
100: - - 100 199 200 255 | 0 7 (100) (199) (200) (255) |
100: 0 7 100 199 200 255 |
",
    ),
    // ---- a part of a shared block is carved out, and comes back
    (
        &[
            Again(0),
            Carve(0, 200, 256),
            Write(2, 200, 1),
            Share(1, 100, 200),
            Paste(2),
        ],
        ": 0 99 100 199 200 255 |
: 0 99 100 199 200 255 | 0 99 100 199 200 255 |
56: 0 99 100 199 - - | 0 99 100 199 200 255 | - - - - 200 255 |
true: 0 99 100 199 - - | 0 99 100 199 200 255 | - - - - 1 255 |
: 0 99 100 199 - - | 0 99 100 199 200 255 | - - - - 1 255 | - - (100) (199) - - |
0: 0 99 100 199 - - | 0 99 100 199 200 255 | - - - - 1 255 |
",
    ),
];

const SHOWN: [usize; 6] = [0, 99, 100, 199, 200, 255];

/// Returns a block that owns 256 offsets, each with a different number.
fn begun(rt: &impl Abort, alloc: Global) -> Block {
    let mut numbers = Vec::new(alloc);
    for number in 0..256 {
        numbers.push(number).expect(rt, "memory");
    }
    assert!(rt; numbers.len() <= 256, "a block's numbers");
    Block::of_numbers(alloc, &numbers).expect(rt, "memory")
}

/// Carries out a step. Returns the number of copied numbers, or whether an offset was written.
fn act(rt: &impl Abort, alloc: Global, step: Step, all: &mut Vec<Block>) -> String {
    match step {
        Carve(of, from, to) => {
            let own = all.get_mut(of).expect(rt, "a block");
            assert!(rt; from < to && to <= 256, "offsets of a block");
            assert!(rt; own.owns_all(from, to), "they are owned");
            let mut copies = Block::Empty;
            let cut = own.cut(alloc, &mut copies, from, to).expect(rt, "memory");
            let copied = cut.copied;
            let moved = own.carve(cut, from, to);
            let part = if copied == 0 { moved } else { copies };
            all.push(part).expect(rt, "memory");
            return format!(in alloc; "{copied}").expect(rt, "memory");
        }
        Share(of, from, to) => {
            let own = all.get(of).expect(rt, "a block");
            assert!(rt; from < to, "some offsets");
            assert!(rt; own.holds_all(from, to), "they are held");
            let part = own.share(alloc, from, to).expect(rt, "memory");
            all.push(part).expect(rt, "memory");
        }
        Write(of, offset, number) => {
            let own = all.get_mut(of).expect(rt, "a block");
            let found = own.write(alloc, offset, number).expect(rt, "memory");
            return format!(in alloc; "{found}").expect(rt, "memory");
        }
        Paste(of) => {
            let last = all.pop().expect(rt, "a block");
            let own = all.get_mut(of).expect(rt, "a block");
            assert!(rt; own.is_apart(&last), "none is owned by both");
            own.make_room(alloc, &last).expect(rt, "memory");
            let copied = own.paste(alloc, last);
            return format!(in alloc; "{copied}").expect(rt, "memory");
        }
        Again(of) => {
            let own = all.get(of).expect(rt, "a block");
            let again = own.again(alloc).expect(rt, "memory");
            all.push(again).expect(rt, "memory");
        }
    }
    String::new(alloc)
}

/// Appends what a block holds.
fn show(rt: &impl Abort, block: &Block, text: &mut String) {
    for offset in SHOWN {
        match block.number(offset) {
            None => write!(text, " -").expect(rt, "memory"),
            Some(number) if block.owns_all(offset, offset + 1) => {
                write!(text, " {number}").expect(rt, "memory");
            }
            Some(number) => write!(text, " ({number})").expect(rt, "memory"),
        }
    }
    text.push_str(" |").expect(rt, "memory");
}

/// Appends the result of a step, and then what all blocks hold.
fn show_all(rt: &impl Abort, said: &str, all: &[Block], text: &mut String) {
    write!(text, "{said}:").expect(rt, "memory");
    for block in all {
        show(rt, block, text);
    }
    text.push('\n').expect(rt, "memory");
}

#[test]
fn what_blocks_hold_after_each_step(rt: HostRuntime) {
    let alloc = rt.alloc();
    for (steps, want) in STORIES {
        let mut all = vec![in alloc; begun(&rt, alloc)].expect(&rt, "memory");
        let mut told = String::new(alloc);
        show_all(&rt, "", &all, &mut told);
        for step in *steps {
            let said = act(&rt, alloc, *step, &mut all);
            show_all(&rt, said.as_str(), &all, &mut told);
        }
        compare(&rt, alloc, "a story", told.as_str(), want);
    }
}

#[test]
fn what_is_held_goes_into_a_row(rt: HostRuntime) {
    let alloc = rt.alloc();
    let mut all = vec![in alloc; begun(&rt, alloc)].expect(&rt, "memory");
    let _ = act(&rt, alloc, Carve(0, 1, 3), &mut all);
    let mut row = [7, 7, 7, 7];
    all.get(0).expect(&rt, "a block").copy_to(&mut row);
    let [a, b, c, d] = row;
    let said = format!(in alloc; "{a} {b} {c} {d}").expect(&rt, "memory");
    compare(&rt, alloc, "a row", said, "0 7 7 3");
}
