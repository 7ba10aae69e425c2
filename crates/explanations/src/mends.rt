//! Why two sections overlap, and how to fix the race.

use crate::elements::Elements;
use crate::names::{is_piece, other_side, part_below, procedure_name, procedure_of, section_name};
use crate::starts::{Division, are_alike, first_division, is_direct, starts_in_turns};
use excerpts::statements::PlacedStatements;
use race_checker::race::Race;
use sections::id::SectionId;
use std::alloc::AllocError;
use types::code::{Procedure, Program};
use witness::crossing::RunsTogether;
use witness::sharing::Sharing;
use witness::step::{Rule, WayStep};
use witness::witness::Witness;

/// Adds that no finish waits for the task.
pub fn push_unfinished(told: &mut String, witness: &Witness) -> Result<(), AllocError> {
    let begun = begun_label(&witness.pending);
    match witness.meeting {
        RunsTogether::Turns => {
            let around = if starts_in_turns(witness) {
                "`parts`"
            } else {
                "loop"
            };
            write!(told, "  No finish inside the {around} encloses {begun}.\n")
        }
        RunsTogether::Follows => {
            let second = first_label(&witness.later);
            write!(
                told,
                "  No finish around {begun} ends before {second}, so the task may still be running.\n"
            )
        }
    }
}

/// Adds why the sections of a race overlap.
pub fn push_sharing(
    told: &mut String,
    code: &Program,
    race: Race,
    sharing: Sharing,
    elements: Elements,
) -> Result<(), AllocError> {
    let procedure = procedure_of(code, race.procedure);
    let first = section_name(procedure, race.first.section);
    let second = section_name(procedure, race.second.section);
    match sharing {
        Sharing::Same => push_same(told, first, elements),
        Sharing::FirstIsPart => write!(told, "  {first} is a part of {second}. {WHOLE}"),
        Sharing::SecondIsPart => write!(told, "  {second} is a part of {first}. {WHOLE}"),
        Sharing::OfSplits { section } => {
            let common = section_name(procedure, section);
            let (origins, known) = if has_piece(procedure, race, section) {
                ("statements that divide", PIECES)
            } else {
                ("splits of", SIDES)
            };
            write!(
                told,
                "  {first} and {second} come from different {origins} {common}, so they may overlap. {known}"
            )
        }
    }
}

const WHOLE: &str = "The check compares whole sections and ignores indices.\n";

const SIDES: &str = "Only the two sides of one split are known not to overlap.\n";

const PIECES: &str =
    "Only the sides of one split, and the pieces of different turns, are known not to overlap.\n";

/// Returns whether one section of a race lies in a piece of this one.
fn has_piece(procedure: &Procedure, race: Race, section: SectionId) -> bool {
    is_piece(
        procedure,
        part_below(procedure, race.first.section, section),
    ) || is_piece(
        procedure,
        part_below(procedure, race.second.section, section),
    )
}

/// Adds that both access one section, or even one element of it.
fn push_same(told: &mut String, name: &str, elements: Elements) -> Result<(), AllocError> {
    write!(told, "  Both access the section {name}. ")?;
    match elements {
        Elements::Only => told.push_str("It has one element.\n"),
        Elements::Same(index) => write!(told, "Both use its element {index}.\n"),
        _ => told.push_str(WHOLE),
    }
}

/// Names for the sides of a new split.
#[derive(Clone, Copy)]
struct Sides {
    left: &'static str,
    right: &'static str,
}

/// The names that are suggested for sides, the first of which the procedure doesn't use yet.
const SIDE_NAMES: [Sides; 4] = [
    Sides {
        left: "l",
        right: "r",
    },
    Sides {
        left: "left",
        right: "right",
    },
    Sides {
        left: "low",
        right: "high",
    },
    Sides {
        left: "first",
        right: "second",
    },
];

/// The names that are suggested for a piece, the first of which the procedure doesn't use yet.
const PIECE_NAMES: [&'static str; 3] = ["p", "piece", "part"];

/// Returns names for the sides of a new split that the text of a procedure doesn't contain.
fn free_sides(statements: &PlacedStatements<'_>, procedure: &str) -> Sides {
    for sides in SIDE_NAMES {
        if !statements.has_name(procedure, sides.left)
            && !statements.has_name(procedure, sides.right)
        {
            return sides;
        }
    }
    SIDE_NAMES[0]
}

/// Returns a name for the pieces of a new `parts` that the text of a procedure doesn't contain.
fn free_piece(statements: &PlacedStatements<'_>, procedure: &str) -> &'static str {
    for piece in PIECE_NAMES {
        if !statements.has_name(procedure, piece) {
            return piece;
        }
    }
    PIECE_NAMES[0]
}

/// How to fix a race in such a way that the accesses still run in parallel.
#[derive(Clone, Copy)]
enum Advice<'c> {
    /// There is no such way: one access needs what the other one did.
    Order,
    /// The iterations of a loop are probably rounds.
    Rounds,
    /// Only one of two `if`s is meant to run.
    Else,
    /// Each task of a loop gets a part that is split off.
    Tiles,
    /// Each task of a loop gets a piece of this section.
    Pieces {
        name: &'c str,
        piece: &'c str,
    },
    /// Each half of a recursion gets a part of this section.
    Halves {
        name: &'c str,
        sides: Sides,
    },
    /// The two elements of this section, of which the larger index is this, go to two parts.
    Between {
        name: &'c str,
        index: u64,
        sides: Sides,
    },
    /// The task or the call that uses `whole` gets `other`, the side of a split next to `side`.
    OtherSide {
        whole: &'c str,
        other: &'c str,
        side: &'c str,
    },
    /// This section is split only once.
    OneSplit(&'c str),
    /// The block of a `parts` uses its piece instead of another section.
    Piece {
        whole: &'c str,
        piece: &'c str,
    },
    /// The block of a `parts` uses its piece instead of another section that it reads, or reads from
    /// a second array.
    PieceOrOld {
        whole: &'c str,
        piece: &'c str,
    },
    /// Sections are divided in the same way, with a task for each part of all of them.
    Alike,
    /// Each task gets an element of its own for its result.
    Results,
}

/// Returns how to fix a race in parallel.
fn advice_of<'c>(
    code: &'c Program,
    statements: &'c PlacedStatements<'_>,
    race: Race,
    witness: &Witness,
    elements: Elements,
) -> Advice<'c> {
    let procedure = procedure_of(code, race.procedure);
    if let Some(advice) = piece_of(procedure, race) {
        return if starts_in_turns(witness) {
            advice
        } else {
            Advice::Order
        };
    }
    if let Sharing::OfSplits { section } = witness.sharing {
        return if has_piece(procedure, race, section) {
            Advice::Order
        } else {
            Advice::OneSplit(section_name(procedure, section))
        };
    }
    let name = section_name(procedure, race.first.section);
    let is_alike = are_alike(witness);
    let sides = free_sides(statements, procedure_name(code, race.procedure));
    if let Elements::Different(_, index) = elements {
        if is_alike || is_direct(witness) {
            return Advice::Between { name, index, sides };
        }
    }
    if starts_in_turns(witness) {
        return advice_for_turns(statements, race, witness, name, elements);
    }
    if matches!(witness.meeting, RunsTogether::Turns) {
        let piece = free_piece(statements, procedure_name(code, race.procedure));
        return advice_for_loop(witness, Advice::Pieces { name, piece }, elements);
    }
    if is_alike || writes_directly(race, witness) {
        if let Some(advice) = other_side_of(procedure, statements, race, witness) {
            return advice;
        }
    }
    let is_root = other_side(procedure, race.first.section).is_none();
    match (is_alike, is_root && elements.is_one()) {
        (true, true) => Advice::Results,
        (true, false) => Advice::Halves { name, sides },
        (false, _) if are_both_ifs(statements, witness) => Advice::Else,
        (false, _) => Advice::Order,
    }
}

/// Returns the advice to use the piece of a `parts`, if one section of the race is a piece. It helps
/// only if the accesses are in two turns: two accesses to one piece in one turn are a race, too.
fn piece_of<'c>(procedure: &'c Procedure, race: Race) -> Option<Advice<'c>> {
    let (first, second) = (race.first.section, race.second.section);
    if first == second {
        return None;
    }
    let (piece, whole, is_written) = if is_piece(procedure, first) {
        (first, second, race.second.write)
    } else if is_piece(procedure, second) {
        (second, first, race.first.write)
    } else {
        return None;
    };
    let whole = section_name(procedure, whole);
    let piece = section_name(procedure, piece);
    Some(if is_written {
        Advice::Piece { whole, piece }
    } else {
        Advice::PieceOrOld { whole, piece }
    })
}

/// Returns how to fix a race between turns of a `parts` that access a section, which isn't its piece.
fn advice_for_turns<'c>(
    statements: &'c PlacedStatements<'_>,
    race: Race,
    witness: &Witness,
    name: &'c str,
    elements: Elements,
) -> Advice<'c> {
    if elements.is_one() {
        return Advice::Results;
    }
    match statements.piece_of(first_label(&witness.pending), name) {
        Some(piece) if race.first.write && race.second.write => {
            Advice::Piece { whole: name, piece }
        }
        Some(piece) => Advice::PieceOrOld { whole: name, piece },
        None => Advice::Alike,
    }
}

/// Returns how to fix a race between iterations of a loop that access a section, of which `pieces`
/// advises to take pieces.
fn advice_for_loop<'c>(witness: &Witness, pieces: Advice<'c>, elements: Elements) -> Advice<'c> {
    match (are_alike(witness), elements.is_one()) {
        (true, true) => Advice::Results,
        (true, false) => match first_division(&witness.pending) {
            Some(Division::Split) => Advice::Tiles,
            Some(Division::Parts) => Advice::Order,
            None => pieces,
        },
        (false, true) => Advice::Order,
        (false, false) => Advice::Rounds,
    }
}

/// Returns the advice to use the other side of a split: if one section of the race is a side and a
/// part of the other section, or if both are one side, and the other side is not used.
fn other_side_of<'c>(
    procedure: &'c Procedure,
    statements: &PlacedStatements<'_>,
    race: Race,
    witness: &Witness,
) -> Option<Advice<'c>> {
    let (side, whole) = match witness.sharing {
        Sharing::SecondIsPart => (race.second.section, race.first.section),
        _ => (race.first.section, race.second.section),
    };
    let other = section_name(procedure, other_side(procedure, side)?);
    let is_same = matches!(witness.sharing, Sharing::Same);
    if is_same && statements.uses_side(first_label(&witness.later), other) {
        return None;
    }
    Some(Advice::OtherSide {
        whole: section_name(procedure, whole),
        other,
        side: section_name(procedure, side),
    })
}

/// Returns whether the later access of a race is a write, made without a task or a call.
fn writes_directly(race: Race, witness: &Witness) -> bool {
    let later = if witness.first_pends {
        race.second
    } else {
        race.first
    };
    later.write && is_direct(witness)
}

/// Returns whether both ways of a race start at an `if`.
fn are_both_ifs(statements: &PlacedStatements<'_>, witness: &Witness) -> bool {
    statements.is_if(first_label(&witness.pending)) && statements.is_if(first_label(&witness.later))
}

/// Adds how to fix the race.
pub fn push_mend(
    told: &mut String,
    code: &Program,
    statements: &PlacedStatements<'_>,
    race: Race,
    witness: &Witness,
    elements: Elements,
) -> Result<(), AllocError> {
    let advice = advice_of(code, statements, race, witness, elements);
    match advice {
        Advice::Order | Advice::Rounds => {
            told.push_str("help: put ")?;
            push_finish(told, statements, witness)?;
            push_advice(told, advice)
        }
        _ => {
            push_advice(told, advice)?;
            told.push_str("help: or put ")?;
            push_finish(told, statements, witness)
        }
    }
}

/// Adds how the accesses can still run in parallel.
fn push_advice(told: &mut String, advice: Advice<'_>) -> Result<(), AllocError> {
    match advice {
        Advice::Order => Ok(()),
        Advice::Rounds => told.push_str(ROUNDS),
        Advice::Else => told.push_str(ELSE),
        Advice::Tiles => told.push_str(TILES),
        Advice::Alike => told.push_str(ALIKE),
        Advice::Results => told.push_str(RESULTS),
        Advice::Pieces { name, piece } => push_pieces(told, name, piece),
        Advice::Halves { name, sides } => push_halves(told, name, sides),
        Advice::Between { name, index, sides } => push_between(told, name, index, sides),
        Advice::OtherSide { whole, other, side } => { push_other_side(told, whole, other, side) }
        Advice::Piece { whole, piece } => push_piece(told, whole, piece),
        Advice::PieceOrOld { whole, piece } => push_piece_or_old(told, whole, piece),
        Advice::OneSplit(name) => write!(
            told,
            "help: split {name} only once, and then one of its sides; see `afx explain middle_part`.\n"
        ),
    }
}

/// Adds to use the piece of a `parts` instead of another section.
fn push_piece(told: &mut String, whole: &str, piece: &str) -> Result<(), AllocError> {
    write!(
        told,
        "help: use {piece} instead of {whole}: each turn has its own piece.\n"
    )
}

/// Adds to use the piece of a `parts` instead of another section, or to read from a second array.
fn push_piece_or_old(told: &mut String, whole: &str, piece: &str) -> Result<(), AllocError> {
    push_piece(told, whole, piece)?;
    told.push_str(OLD)
}

const OLD: &str =
    "help: or read elements of other pieces from a second array; see `afx explain turned_names`.\n";

/// Adds a `parts` of a section. Its turn replaces the variable of the loop.
fn push_pieces(told: &mut String, name: &str, piece: &str) -> Result<(), AllocError> {
    write!(
        told,
        "help: give each task its own piece: `parts {name} by 1 as {piece}, i {{ .. }}`; see `afx explain parallel_loop`.\n"
    )
}

/// Adds a split of a section into halves.
fn push_halves(told: &mut String, name: &str, sides: Sides) -> Result<(), AllocError> {
    let Sides { left, right } = sides;
    write!(
        told,
        "help: give each task its own part: `split {name} at len({name}) / 2 as {left}, {right} {{ .. }}`; see `afx explain split`.\n"
    )
}

/// Adds a split of a section at an index.
fn push_between(told: &mut String, name: &str, index: u64, sides: Sides) -> Result<(), AllocError> {
    let Sides { left, right } = sides;
    write!(
        told,
        "help: give each its own part: `split {name} at {index} as {left}, {right} {{ .. }}`; `{right}[0]` is then `{name}[{index}]`.\n"
    )
}

const ELSE: &str =
    "help: write one `if` with an `else`, if only one of the two is meant to run: conditions are not compared.\n";

const ROUNDS: &str =
    "help: or use `parts` to give each task its own piece; see `afx explain parallel_loop`.\n";

const TILES: &str =
    "help: let a procedure split off a part, start its task and continue with the rest; see `afx explain tiles`.\n";

const ALIKE: &str =
    "help: to write parts of several sections in a task, split them in the same way; see `afx explain cut_alike`.\n";

const RESULTS: &str =
    "help: give each task an element of its own, and read them all after the finish; see `afx explain answers`.\n";

/// Adds which side of a split to use in place of a section.
fn push_other_side(
    told: &mut String,
    whole: &str,
    other: &str,
    side: &str,
) -> Result<(), AllocError> {
    if whole == side {
        return write!(
            told,
            "help: use {other} in one of the two: {side} and {other} are the sides of one split.\n"
        );
    }
    write!(
        told,
        "help: use {other} instead of {whole}: {side} and {other} are the sides of one split.\n"
    )
}

/// Adds which statement to put inside a finish, which gives up the parallelism.
fn push_finish(
    told: &mut String,
    statements: &PlacedStatements<'_>,
    witness: &Witness,
) -> Result<(), AllocError> {
    if starts_in_turns(witness) {
        return told.push_str(BLOCK);
    }
    if matches!(witness.meeting, RunsTogether::Turns) {
        return told.push_str(LOOP);
    }
    let first = first_label(&witness.pending);
    let second = first_label(&witness.later);
    let line = match statements.place(first) {
        Some(place) => place.line,
        None => 0,
    };
    write!(
        told,
        "{first} (line {line}) inside a finish, so that {second} waits for its tasks.\n"
    )
}

const LOOP: &str =
    "the loop's body inside a finish, so that the iterations run one after another.\n";

const BLOCK: &str =
    "the block of the `parts` inside a finish, so that the turns run one after another.\n";

/// Returns the label of the first async on a way, or of its first step.
fn begun_label(way: &[WayStep]) -> u32 {
    for step in way {
        if matches!(step.rule, Rule::Begin) {
            return step.label;
        }
    }
    first_label(way)
}

/// Returns the label of a way's first step.
fn first_label(way: &[WayStep]) -> u32 {
    match way.first() {
        Some(step) => step.label,
        None => 0,
    }
}
