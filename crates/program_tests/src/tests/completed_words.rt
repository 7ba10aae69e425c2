//! Completions and the manual name exactly the options that help names.

use crate::tests::compare;
use command_words::words::order_of;
use options::reply::Reply;
use std::alloc::Global;
use std::process::Abort;
use std::rt::HostRuntime;

/// Commands and their options, in order.
const ROWS: &[(&str, &str)] = &[
    (
        "run",
        " input set text steps nest tasks w0 workers trace arrays format explain color",
    ),
    (
        "serial",
        " input set text steps nest arrays progress format explain color",
    ),
    ("check", " list all warn format explain color"),
    ("list", " lines format explain color"),
    ("fmt", " check write format explain color"),
    ("mhp", " accesses by-line format explain color"),
    (
        "cost",
        " input set text steps nest by-line by-procedure format explain color",
    ),
    (
        "bench",
        " input set text steps nest tasks w0 workers format explain color",
    ),
    ("test", " write steps nest tasks w0 workers format"),
    (
        "explore",
        " input set text choices choices-from random all arrays format html explain color",
    ),
    (
        "walk",
        " input set text steps nest w0 workers seed trace arrays explain color",
    ),
    ("inspect", " input set text steps nest"),
    (
        "view",
        " input set text summary by-line svg chrome html upgrade format explain color",
    ),
    ("explain", " list"),
    ("completions", ""),
    ("man", ""),
];

/// A place that lists the options of COMMAND: in the reply to these arguments, between two texts,
/// each option after a mark. At most `a_line` marks per line count, because the text of an option
/// may name another one. `with_help` is whether `--help` comes last there too.
struct Source {
    words: &'static str,
    begin: &'static str,
    end: &'static str,
    mark: &'static str,
    a_line: usize,
    with_help: bool,
}

const SOURCES: &[Source] = &[
    Source {
        words: "COMMAND --help",
        begin: "Options:\n",
        end: "\n\n",
        mark: " --",
        a_line: 1,
        with_help: true,
    },
    Source {
        words: "completions bash",
        begin: "\n    COMMAND) options=",
        end: "\n",
        mark: "--",
        a_line: usize::MAX,
        with_help: true,
    },
    Source {
        words: "completions zsh",
        begin: "\n        COMMAND) _arguments",
        end: ";;",
        mark: "'--",
        a_line: usize::MAX,
        with_help: true,
    },
    Source {
        words: "completions fish",
        begin: "\ncomplete -c afx -n '__fish_seen_subcommand_from COMMAND'",
        end: "Print help",
        mark: " -l ",
        a_line: usize::MAX,
        with_help: true,
    },
    Source {
        words: "man",
        begin: "\n.SS afx COMMAND",
        end: "\n.S",
        mark: "fB--",
        a_line: usize::MAX,
        with_help: false,
    },
];

#[test]
fn each_names_the_options_of_help(rt: HostRuntime) {
    let alloc = rt.alloc();
    for source in SOURCES {
        for (command, options) in ROWS {
            let help = if source.with_help { " help" } else { "" };
            let want = format!(in alloc; "{options}{help}").expect(&rt, "memory");
            let row = format!(in alloc; "{} of {command}", source.words).expect(&rt, "memory");
            let said = options_at(&rt, alloc, source, command);
            compare(&rt, alloc, row.as_str(), said, want.as_str());
        }
    }
}

/// Returns the options of a command at a source, each after a space.
fn options_at(rt: &impl Abort, alloc: Global, source: &Source, command: &str) -> String {
    let reply = reply_to(rt, alloc, &about(rt, alloc, source.words, command));
    let begin = about(rt, alloc, source.begin, command);
    let (_, behind) = reply.split_once(begin.as_str()).expect(rt, "a beginning");
    let (here, _) = behind.split_once(source.end).expect(rt, "an end");
    let mut options = String::new(alloc);
    for line in here.lines() {
        for piece in line.split(source.mark).skip(1).take(source.a_line) {
            options.push(' ').expect(rt, "memory");
            push_name(rt, &mut options, piece);
        }
    }
    options
}

/// Appends the name that a text starts with.
fn push_name(rt: &impl Abort, out: &mut String, text: &str) {
    for c in text.chars() {
        if !c.is_ascii_alphanumeric() && c != '-' {
            return;
        }
        out.push(c).expect(rt, "memory");
    }
}

/// Returns a text, with a command in place of COMMAND.
fn about(rt: &impl Abort, alloc: Global, text: &str, command: &str) -> String {
    text.replace(alloc, "COMMAND", command).expect(rt, "memory")
}

/// Returns the reply to arguments between single spaces, without the backslashes before dashes.
fn reply_to(rt: &impl Abort, alloc: Global, line: &str) -> String {
    let mut words = Vec::new(alloc);
    for word in line.split(' ') {
        words
            .push(String::from_str(alloc, word).expect(rt, "memory"))
            .expect(rt, "memory");
    }
    let text = match order_of(alloc, &words) {
        Ok(_order) => String::new(alloc),
        Err(reply) => told(rt, alloc, reply),
    };
    text.replace(alloc, "\\-", "-").expect(rt, "memory")
}

/// Returns the text of a reply.
fn told(rt: &impl Abort, alloc: Global, reply: Reply) -> String {
    match reply {
        Reply::Said(said) => format!(in alloc; "{said}").expect(rt, "memory"),
        Reply::Page(text) => text,
        Reply::NoPage(line) => line,
    }
}
