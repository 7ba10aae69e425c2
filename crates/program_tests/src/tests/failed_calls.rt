//! The lines of failures, as `emit_message` writes them and as `Display` formats them.

use commands::programs::accepted_of;
use failures::failure::Failure;
use failures::message::emit_message;
use finish_scope::inner::Inner;
use finish_scope::late::{Late, Reason};
use finish_scope::run_error::{RunError, reported};
use finish_scope::scope_table::{FindError, ScopeTable};
use std::alloc::Global;
use std::marker::Brand;
use std::process::Abort;
use std::rt::HostRuntime;
use syntax::error::SyntaxError;
use syntax::place::TextPlace;
use tickets::Tickets;
use trace_text::error::TraceError;
use types::error::TypeError;
use types::input_error::InputError;

const PLACE: TextPlace = TextPlace {
    line: 1,
    column: 13,
};

/// Failures that own nothing, and their lines.
const PLAIN: &[(Plain, &str)] = &[
    (
        Plain::Syntax(SyntaxError::NotACharacter { place: PLACE }),
        "S1 at 1:13",
    ),
    (
        Plain::Syntax(SyntaxError::UnexpectedToken { place: PLACE }),
        "S2 at 1:13",
    ),
    (
        Plain::Syntax(SyntaxError::NumberTooLarge { place: PLACE }),
        "S3 at 1:13",
    ),
    (
        Plain::Syntax(SyntaxError::TooDeep { place: PLACE }),
        "S4 at 1:13",
    ),
    (Plain::Syntax(SyntaxError::TooLong), "S5"),
    (Plain::Syntax(SyntaxError::OutOfMemory), "S6"),
    (
        Plain::Types(TypeError::NotInScope { label: 2 }),
        "Y1 at label 2",
    ),
    (
        Plain::Types(TypeError::DeclaredTwice { label: Some(2) }),
        "Y2 at label 2",
    ),
    (Plain::Types(TypeError::DeclaredTwice { label: None }), "Y2"),
    (
        Plain::Types(TypeError::WrongKind { label: 65_535 }),
        "Y3 at label 65535",
    ),
    (
        Plain::Types(TypeError::WrongArguments { label: 2 }),
        "Y4 at label 2",
    ),
    (
        Plain::Types(TypeError::AssignedOutsideAsync { label: 3 }),
        "Y5 at label 3",
    ),
    (
        Plain::Types(TypeError::ReadOnly { label: 1 }),
        "Y6 at label 1",
    ),
    (
        Plain::Types(TypeError::Overlapping { label: 2 }),
        "Y7 at label 2",
    ),
    (Plain::Types(TypeError::NoMain), "Y8"),
    (Plain::Types(TypeError::OverLimit), "Y9"),
    (Plain::Types(TypeError::OutOfMemory), "Y10"),
    (Plain::NoMemoryInCheck, "C2"),
    (Plain::Trace(TraceError::NotALine(14)), "J1 line 14"),
    (Plain::Trace(TraceError::NoMemory), "J2"),
    (Plain::Illegal(7), "illegal at event 7"),
    (Plain::ChoicesNotUnderstood, "choices not understood"),
    (Plain::NoLeaf(5), "no leaf at choice 5"),
    (Plain::NotLaidOut, "not formatted"),
    (Plain::CannotWriteOutput, "cannot write output"),
    (Plain::NoMemory, "no memory"),
];

/// A failure that owns nothing.
#[derive(Clone, Copy)]
enum Plain {
    Syntax(SyntaxError),
    Types(TypeError),
    NoMemoryInCheck,
    Trace(TraceError),
    Illegal(usize),
    ChoicesNotUnderstood,
    NoLeaf(usize),
    NotLaidOut,
    CannotWriteOutput,
    NoMemory,
}

/// Returns the failure.
fn failure_of(failure: Plain) -> Failure {
    match failure {
        Plain::Syntax(error) => Failure::Syntax(error),
        Plain::Types(error) => Failure::Types(error),
        Plain::NoMemoryInCheck => Failure::NoMemoryInCheck,
        Plain::Trace(error) => Failure::Trace(error),
        Plain::Illegal(event) => Failure::Illegal(event),
        Plain::ChoicesNotUnderstood => Failure::ChoicesNotUnderstood,
        Plain::NoLeaf(choice) => Failure::NoLeaf(choice),
        Plain::NotLaidOut => Failure::NotLaidOut,
        Plain::CannotWriteOutput => Failure::CannotWriteOutput,
        Plain::NoMemory => Failure::NoMemory,
    }
}

/// Returns an owned copy of a text.
fn owned(rt: &impl Abort, alloc: Global, text: &str) -> String {
    String::from_str(alloc, text).expect(rt, "memory")
}

/// Asserts that the line of a failure is this one, and that its `Display` is the same.
fn tells(rt: &impl Abort, alloc: Global, failure: &Failure, want: &str) {
    let mut line = Vec::new(alloc);
    emit_message(&mut line, failure).expect(rt, "memory");
    let shown = format!(in alloc; "{failure}").expect(rt, "memory");
    let wanted = format!(in alloc; "{want}\n").expect(rt, "memory");
    assert!(rt; shown.as_str() == want, "shown: {shown}\nwant: {want}");
    assert!(rt; line.as_slice() == wanted.as_bytes(), "not the line {want}");
}

#[test]
fn lines_without_names(rt: HostRuntime) {
    let alloc = rt.alloc();
    for (failure, want) in PLAIN {
        tells(&rt, alloc, &failure_of(*failure), want);
    }
}

/// The failures with a name, and their lines.
const NAMED: &[(Named, &str, &str)] = &[
    (Named::CannotRead, "a.afx", "cannot read a.afx"),
    (
        Named::CannotRead,
        "\u{1b}[1m\u{7f}\n\u{e4}",
        "cannot read \\x1b[1m\\x7f\\x0a\u{e4}",
    ),
    (Named::NotUtf8, "a.afx", "not UTF-8 a.afx"),
    (Named::NotUtf8, "\t", "not UTF-8 \\x09"),
    (
        Named::NotUtf8,
        "\u{80}\u{9b}1m\u{9f}\u{a0}",
        "not UTF-8 \\x80\\x9b1m\\x9f\u{a0}",
    ),
    (Named::CannotWrite, "-", "cannot write -"),
    (Named::CannotWrite, "a\u{1b}.svg", "cannot write a\\x1b.svg"),
    (Named::UnknownArray, "z", "N3 z"),
    (Named::UnknownArray, "b\nc\u{1b}", "N3 b\\x0ac\\x1b"),
    (Named::UnknownArray, "\u{9b}", "N3 \\x9b"),
    (Named::WrongLength, "a", "N4 a"),
    (Named::WrongElement, "a", "N5 a"),
];

/// A failure with a name.
#[derive(Clone, Copy)]
enum Named {
    CannotRead,
    NotUtf8,
    CannotWrite,
    UnknownArray,
    WrongLength,
    WrongElement,
}

/// Returns the failure with this name.
fn failure_named(failure: Named, name: String) -> Failure {
    match failure {
        Named::CannotRead => Failure::CannotRead { name },
        Named::NotUtf8 => Failure::NotUtf8 { name },
        Named::CannotWrite => Failure::CannotWrite { name },
        Named::UnknownArray => Failure::Input(InputError::UnknownArray { name }),
        Named::WrongLength => Failure::Input(InputError::WrongLength { name }),
        Named::WrongElement => Failure::Input(InputError::WrongElement { name }),
    }
}

#[test]
fn lines_with_names(rt: HostRuntime) {
    let alloc = rt.alloc();
    for (failure, name, want) in NAMED {
        let failure = failure_named(*failure, owned(&rt, alloc, name));
        tells(&rt, alloc, &failure, want);
    }
}

#[test]
fn lines_of_inputs_and_races(rt: HostRuntime) {
    let alloc = rt.alloc();
    tells(&rt, alloc, &Failure::Input(InputError::NotJson), "N1");
    tells(&rt, alloc, &Failure::Input(InputError::NotAnObject), "N2");
    tells(
        &rt,
        alloc,
        &Failure::Input(InputError::WrongNumberOfLists),
        "N4",
    );
    tells(&rt, alloc, &Failure::Input(InputError::OutOfMemory), "N6");
    let racy = "main { array a: int[1]; async { a[0] = 1; } skip; print a[0]; }";
    match accepted_of(&rt, alloc, racy) {
        Ok(_accepted) => assert!(rt; false),
        Err(race) => tells(&rt, alloc, &race, "C1 race in main: 2 write a, 4 read a"),
    }
}

#[test]
fn lines_of_runs(rt: HostRuntime) {
    let alloc = rt.alloc();
    tells(&rt, alloc, &Failure::Run(RunError::OutOfMemory), "E1");
    tells(&rt, alloc, &Failure::Run(RunError::Unlogged), "E5");
}

#[test]
fn line_of_an_empty_slot(rt: HostRuntime) {
    let alloc = rt.alloc();
    let table = ScopeTable::<u64>::new(alloc);
    match table.find(0) {
        Err(FindError::NoScope(cause)) => {
            tells(&rt, alloc, &Failure::Run(RunError::NoScope(cause)), "E4");
        }
        _ => assert!(rt; false, "a scope in a new scope table"),
    }
}

#[test]
fn line_of_a_run_that_nobody_reports(rt: HostRuntime) {
    let alloc = rt.alloc();
    match reported::<u64>(None, None, 2) {
        Ok(_) => assert!(rt; false, "an outcome that nobody reported"),
        Err(error) => tells(&rt, alloc, &Failure::Run(error), "E4"),
    }
}

#[test]
fn line_of_a_scope_that_is_given_too_much(rt: HostRuntime) {
    let alloc = rt.alloc();
    let (mut inner, weight) = Inner::<Brand>::open(alloc, 8);
    let (_, more) = Inner::<Brand>::open(alloc, 9);
    weight.forfeit();
    match inner.replenish(more) {
        Ok(weight) => {
            weight.forfeit();
            assert!(rt; false, "a scope of weight 8 took a weight of 9");
        }
        Err(late) => {
            let Late { reason, back } = late;
            back.forfeit();
            match reason {
                Reason::NotDue(cause) => {
                    tells(&rt, alloc, &Failure::Run(RunError::NotDue(cause)), "E4");
                }
                Reason::IssuedTooOften(_) => assert!(rt; false, "another reason"),
            }
        }
    }
}

#[test]
fn line_of_too_many_tasks(rt: HostRuntime) {
    let alloc = rt.alloc();
    let (tickets, mut seats) = Tickets::new(alloc, 1).expect(&rt, "memory");
    let mut seat = seats.pop().expect(&rt, "a seat");
    let ticket = tickets.draw(&mut seat);
    tells(
        &rt,
        alloc,
        &Failure::Run(RunError::TooManyTasks(ticket)),
        "E2",
    );
}
