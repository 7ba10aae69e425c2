//! The spans of a trace in the trace event format, which Perfetto and Chrome's tracing page open.

use crate::statements::Statements;
use events::event::Event;
use events::worker_id::WorkerId;
use std::alloc::{AllocError, Global};
use trace_layout::layout::layout_of;
use trace_layout::moves::Birth;
use trace_layout::spells::{Beginning, Spell, SpellEnd};
use types::path::Path;

/// Returns the spans of a list of events. There is one for each spell of a task in its worker's
/// thread, with the number of an event as the time. There are also arrows from a spawn to the
/// child's take, a mark for each steal and pass, and the number of running tasks. A span has the
/// first statement of its spell.
pub fn spans(
    alloc: Global,
    events: &[Event],
    statements: Statements<'_>,
) -> Result<String, AllocError> {
    let layout = layout_of(alloc, events)?;
    let mut text = String::from_str(
        alloc,
        "{\"traceEvents\":[{\"ph\":\"M\",\"name\":\"process_name\",\"pid\":0,\"args\":{\"name\":\"afx\"}}",
    )?;
    for number in 0..layout.lanes(0) {
        push_thread(&mut text, number)?;
    }
    let firsts = statements.first_labels(alloc, &layout.spells)?;
    for (spell, label) in layout.spells.all.iter().zip(firsts.iter()) {
        let rescued = statements.rescued_at(spell.first);
        push_beginning(&mut text, spell, statements.described(*label), rescued)?;
        push_end(&mut text, spell)?;
    }
    for birth in &layout.moves.births {
        push_birth(&mut text, birth)?;
    }
    for (number, event) in events.iter().enumerate() {
        push_instant(&mut text, number, event)?;
    }
    push_counter(&mut text, &layout.in_hands)?;
    text.push_str("]}\n")?;
    Ok(text)
}

/// Adds the name of a worker's thread.
fn push_thread(text: &mut String, number: u32) -> Result<(), AllocError> {
    write!(
        text,
        ",\n{{\"ph\":\"M\",\"name\":\"thread_name\",\"pid\":0,\"tid\":{number},\"args\":{{\"name\":\"worker {number}\"}}}}"
    )
}

/// Adds the start of a spell, with the arrow from its spawn. If a task continues after a rescue, also
/// adds the number of faults that the rescue has dropped.
fn push_beginning(
    text: &mut String,
    spell: &Spell,
    statement: Option<&str>,
    rescued: u64,
) -> Result<(), AllocError> {
    let path = &spell.path;
    let depth = path.turns.len();
    let worker = spell.worker.number();
    let first = spell.first;
    let by = match spell.beginning {
        Beginning::Taken => "take",
        Beginning::Resumed => "resume",
    };
    write!(
        text,
        ",\n{{\"ph\":\"B\",\"name\":\"{path}\",\"cat\":\"depth{depth}\",\"pid\":0,\"tid\":{worker},\"ts\":{first},"
    )?;
    write!(text, "\"args\":{{\"event\":{first},\"by\":\"{by}\"")?;
    if rescued > 0 {
        write!(text, ",\"rescued\":{rescued}")?;
    }
    if let Some(statement) = statement {
        text.push_str(",\"statement\":\"")?;
        push_escaped(text, statement)?;
        text.push('"')?;
    }
    text.push_str("}}")?;
    if depth > 0 && matches!(spell.beginning, Beginning::Taken) {
        return push_arrow(text, "\"f\",\"bp\":\"e\"", spell.worker, first, path);
    }
    Ok(())
}

/// Adds words as they are written in a JSON string.
fn push_escaped(text: &mut String, words: &str) -> Result<(), AllocError> {
    for letter in words.chars() {
        match letter {
            '"' => text.push_str("\\\"")?,
            '\\' => text.push_str("\\\\")?,
            _ if letter.is_control() => text.push(' ')?,
            _ => text.push(letter)?,
        }
    }
    Ok(())
}

/// Adds the end of a spell, after its last event.
fn push_end(text: &mut String, spell: &Spell) -> Result<(), AllocError> {
    let worker = spell.worker.number();
    let last = spell.last;
    let behind = last.saturating_add(1);
    let by = match spell.ending {
        SpellEnd::Parked => "park",
        SpellEnd::Ended => "end",
        SpellEnd::Left | SpellEnd::Going => "nothing",
    };
    write!(
        text,
        ",\n{{\"ph\":\"E\",\"pid\":0,\"tid\":{worker},\"ts\":{behind},"
    )?;
    write!(text, "\"args\":{{\"event\":{last},\"by\":\"{by}\"}}}}")
}

/// Adds the start of the arrow from a spawn.
fn push_birth(text: &mut String, birth: &Birth) -> Result<(), AllocError> {
    push_arrow(text, "\"s\"", birth.worker, birth.at, &birth.child)
}

/// Adds an end of the arrow that leads to a task.
fn push_arrow(
    text: &mut String,
    phase: &str,
    worker: WorkerId,
    at: usize,
    child: &Path,
) -> Result<(), AllocError> {
    let worker = worker.number();
    write!(
        text,
        ",\n{{\"ph\":{phase},\"id\":\"{child}\",\"name\":\"spawn\",\"cat\":\"spawn\","
    )?;
    write!(text, "\"pid\":0,\"tid\":{worker},\"ts\":{at}}}")
}

/// Adds the mark of a steal or a pass.
fn push_instant(text: &mut String, number: usize, event: &Event) -> Result<(), AllocError> {
    match event {
        Event::Steal { worker, from, path } => {
            let worker = worker.number();
            let from = from.number();
            write!(
                text,
                ",\n{{\"ph\":\"i\",\"s\":\"t\",\"name\":\"steal {path} from {from}\","
            )?;
            write!(
                text,
                "\"cat\":\"steal\",\"pid\":0,\"tid\":{worker},\"ts\":{number}}}"
            )
        }
        Event::Pass { scope } => {
            write!(
                text,
                ",\n{{\"ph\":\"i\",\"s\":\"p\",\"name\":\"pass {scope}\","
            )?;
            write!(
                text,
                "\"cat\":\"finish\",\"pid\":0,\"tid\":0,\"ts\":{number}}}"
            )
        }
        _ => Ok(()),
    }
}

/// Adds the number of running tasks, wherever it changes.
fn push_counter(text: &mut String, in_hands: &[usize]) -> Result<(), AllocError> {
    let mut told: usize = 0;
    for (number, count) in in_hands.iter().enumerate() {
        if *count != told {
            push_count(text, number, *count)?;
            told = *count;
        }
    }
    push_count(text, in_hands.len(), 0)
}

/// Adds the number of running tasks from an event on.
fn push_count(text: &mut String, number: usize, count: usize) -> Result<(), AllocError> {
    write!(
        text,
        ",\n{{\"ph\":\"C\",\"name\":\"running tasks\",\"pid\":0,\"ts\":{number},\"args\":{{\"tasks\":{count}}}}}"
    )
}
