//! Weights that are divided, minted and given back.

use crate::tests::compare;
use std::alloc::Global;
use std::process::Abort;
use types::child_number::ChildNumber;
use types::path::Path;
use weights::book::{Back, Book};
use weights::weight::Weight;

/// A weight, its child's half and the rest; no halves if it isn't divided.
const HALVES: &[(u64, u64, u64)] = &[
    (1, 0, 1),
    (2, 1, 1),
    (3, 1, 2),
    (8, 4, 4),
    (4_294_967_296, 2_147_483_648, 2_147_483_648),
];

/// No scope here has more entries.
const MOST_ENTRIES: usize = 8;

/// Returns a scope that has issued this much at its opening.
fn opened(rt: &impl Abort, alloc: Global, units: u64) -> (Book, Weight) {
    assert!(rt; 1 <= units && units <= 4_294_967_296);
    Book::open(alloc, units)
}

/// Returns the halves of a weight, which is forfeited.
fn halves(weight: Weight) -> (u64, u64) {
    match weight.divide() {
        Ok((child, rest)) => {
            let units = (child.units(), rest.units());
            child.forfeit();
            rest.forfeit();
            units
        }
        Err(weight) => {
            let units = weight.units();
            weight.forfeit();
            (0, units)
        }
    }
}

#[test]
fn weights_divide_in_halves_and_one_is_not_divided(rt: HostRuntime) {
    for (units, child, rest) in HALVES {
        let (_, weight) = opened(&rt, rt.alloc(), *units);
        assert!(rt; halves(weight) == (*child, *rest), "halves of {units}");
    }
}

/// Returns a child's weight and the rest, after issuing more weight if there is too little.
fn share(rt: &impl Abort, book: &mut Book, weight: Weight) -> (Weight, Weight) {
    let weight = match weight.divide() {
        Ok(parts) => return parts,
        Err(weight) => weight,
    };
    assert!(rt; book.issues() < 2_147_483_648);
    assert!(rt; weight.units() <= book.issued() - book.returned());
    match book.mint(weight).divide() {
        Ok(parts) => parts,
        Err(weight) => {
            weight.forfeit();
            panic!(rt; "no weight to divide")
        }
    }
}

/// Gives a weight back, from the child with this number, or from the owner for 0. Returns whether
/// all is back.
fn completes(rt: &impl Abort, alloc: Global, book: &mut Book, weight: Weight, child: u32) -> bool {
    let owner = Path::root(alloc);
    let path = match ChildNumber::new(child) {
        Some(number) => owner.child(number).expect(rt, "memory"),
        None => owner,
    };
    assert!(rt; weight.units() <= book.issued() - book.returned());
    book.back(weight, &path) == Back::Complete
}

/// Returns the text of a book: what came back from whom, the number of issues and the amount
/// issued, the amount that came back, and the part of that which isn't listed.
fn shown(rt: &impl Abort, alloc: Global, book: &Book) -> String {
    let mut text = String::new(alloc);
    for number in 0..MOST_ENTRIES {
        if let Some(entry) = book.entry(alloc, number).expect(rt, "memory") {
            write!(text, "{} {}, ", entry.path, entry.weight).expect(rt, "memory");
        }
    }
    let (issues, issued) = (book.issues(), book.issued());
    let (returned, unlisted) = (book.returned(), book.unlisted());
    write!(text, "{issues} {issued} {returned} {unlisted}").expect(rt, "memory");
    text
}

/// The weight that a scope issues at a time, its number of children, and its book at the end. Child
/// 0 is the owner.
const SCOPES: &[(u64, u32, &str)] = &[
    (1, 0, "0 1, 1 1 1 0"),
    (1, 3, "0.1 1, 0.2 1, 0.3 1, 0 1, 4 4 4 0"),
    (8, 4, "0.1 4, 0.2 2, 0.3 1, 0.4 4, 0 5, 2 16 16 0"),
];

#[test]
fn children_that_give_back_at_once(rt: HostRuntime) {
    let alloc = rt.alloc();
    for (units, children, want) in SCOPES {
        let (mut book, mut weight) = opened(&rt, alloc, *units);
        for child in 0..*children {
            let (half, rest) = share(&rt, &mut book, weight);
            weight = rest;
            let is_over = completes(&rt, alloc, &mut book, half, child + 1);
            assert!(rt; !is_over, "child {child} of {want}");
        }
        let is_over = completes(&rt, alloc, &mut book, weight, 0);
        assert!(rt; is_over, "the owner of {want}");
        compare(&rt, alloc, "a scope", shown(&rt, alloc, &book), want);
    }
}

#[test]
fn children_that_outlive_their_owner(rt: HostRuntime) {
    let alloc = rt.alloc();
    let (mut book, weight) = opened(&rt, alloc, 1);
    let (first, weight) = share(&rt, &mut book, weight);
    let (second, weight) = share(&rt, &mut book, weight);
    let (third, weight) = share(&rt, &mut book, weight);
    let owner_ends = completes(&rt, alloc, &mut book, weight, 0);
    let third_ends = completes(&rt, alloc, &mut book, third, 3);
    let first_ends = completes(&rt, alloc, &mut book, first, 1);
    assert!(rt; !owner_ends && !third_ends && !first_ends);
    assert!(rt; completes(&rt, alloc, &mut book, second, 2));
    let want = "0 1, 0.3 1, 0.1 1, 0.2 1, 4 4 4 0";
    compare(&rt, alloc, "a scope", shown(&rt, alloc, &book), want);
}
