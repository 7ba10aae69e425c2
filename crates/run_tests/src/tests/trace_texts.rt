//! Texts of traces, and texts that are not traces.

use std::alloc::Global;
use std::process::Abort;
use trace_text::error::TraceError;
use trace_text::read::read_lines;
use trace_text::table::view;
use trace_text::write::{fits, write_lines};

/// What one worker does in the program with two arrays, with weight 8.
const LINES: &str = "{\"format\":1,\"nest\":100,\"steps\":1000000,\"w0\":8,\"workers\":1}
{\"e\":\"take\",\"path\":\"0\",\"worker\":0}
{\"e\":\"open\",\"path\":\"0\"}
{\"e\":\"spawn\",\"path\":\"0\"}
{\"e\":\"step\",\"path\":\"0\"}
{\"e\":\"park\",\"path\":\"0\"}
{\"e\":\"take\",\"path\":\"0.1\",\"worker\":0}
{\"e\":\"step\",\"path\":\"0.1\"}
{\"e\":\"end\",\"path\":\"0.1\"}
{\"e\":\"pass\",\"number\":1,\"owner\":\"0\"}
{\"e\":\"resume\",\"path\":\"0\",\"worker\":0}
{\"e\":\"step\",\"path\":\"0\"}
{\"e\":\"park\",\"path\":\"0\"}
{\"e\":\"pass\",\"number\":0,\"owner\":\"0\"}
";

const TABLE: &str = "       0 take       0    0
       1 open            0
       2 spawn           0
       3 step            0
       4 park            0
       5 take       0    0.1
       6 step            0.1
       7 end             0.1
       8 pass            0#1
       9 resume     0    0
      10 step            0
      11 park            0
      12 pass            0#0
";

const HEADER: &str = "{\"format\":1,\"nest\":100,\"steps\":1000000,\"w0\":8,\"workers\":1}\n";

/// Lines after a header, and the number of the first wrong one, counted from 2.
const BAD_EVENTS: &[(&str, usize)] = &[
    ("\n", 2),
    ("{}\n", 2),
    ("7\n", 2),
    ("{\"e\":\"step\"}\n", 2),
    ("{\"e\":\"step\",\"path\":\"0\"}", 2),
    ("{\"e\":\"step\",\"path\":\"0\"}\r\n", 2),
    ("{\"e\":\"step\",\"path\":\"0\"}\n\n", 3),
    (
        "{\"e\":\"step\",\"path\":\"0\"}\n{\"path\":\"0\",\"e\":\"step\"}\n",
        3,
    ),
    ("{\"e\":\"step\", \"path\":\"0\"}\n", 2),
    ("{\"e\":\"step\",\"path\":\"0\",\"path\":\"0\"}\n", 2),
    ("{\"e\":\"step\",\"path\":\"0\",\"worker\":0}\n", 2),
    ("{\"e\":\"leap\",\"path\":\"0\"}\n", 2),
    ("{\"e\":\"step\",\"path\":\"\"}\n", 2),
    ("{\"e\":\"step\",\"path\":\"1\"}\n", 2),
    ("{\"e\":\"step\",\"path\":\"00\"}\n", 2),
    ("{\"e\":\"step\",\"path\":\"0.\"}\n", 2),
    ("{\"e\":\"step\",\"path\":\"0.0\"}\n", 2),
    ("{\"e\":\"step\",\"path\":\"0.01\"}\n", 2),
    ("{\"e\":\"step\",\"path\":\"0.+1\"}\n", 2),
    ("{\"e\":\"step\",\"path\":\"0.1.\"}\n", 2),
    ("{\"e\":\"step\",\"path\":\"0..1\"}\n", 2),
    ("{\"e\":\"step\",\"path\":\"0.4294967296\"}\n", 2),
    ("{\"e\":\"step\",\"path\":\"\\u0030\"}\n", 2),
    ("{\"e\":\"take\",\"path\":\"0\",\"worker\":64}\n", 2),
    ("{\"e\":\"take\",\"path\":\"0\",\"worker\":-1}\n", 2),
    ("{\"e\":\"take\",\"path\":\"0\",\"worker\":0.0}\n", 2),
    ("{\"e\":\"take\",\"path\":\"0\",\"worker\":00}\n", 2),
    (
        "{\"e\":\"pass\",\"number\":4294967296,\"owner\":\"0\"}\n",
        2,
    ),
];

/// Texts whose first line is not a header.
const BAD_HEADERS: &[&str] = &[
    "",
    "\n",
    "{\"e\":\"step\",\"path\":\"0\"}\n",
    "{\"format\":1,\"nest\":100,\"steps\":1000000,\"w0\":8,\"workers\":1}",
    "{\"format\":3,\"nest\":100,\"steps\":1000000,\"w0\":8,\"workers\":1}\n",
    "{\"format\":1,\"nest\":1001,\"steps\":1000000,\"w0\":8,\"workers\":1}\n",
    "{\"format\":1,\"nest\":100,\"steps\":0,\"w0\":8,\"workers\":1}\n",
    "{\"format\":1,\"nest\":100,\"steps\":1000000001,\"w0\":8,\"workers\":1}\n",
    "{\"format\":1,\"nest\":100,\"steps\":1000000,\"w0\":0,\"workers\":1}\n",
    "{\"format\":1,\"nest\":100,\"steps\":1000000,\"w0\":4294967297,\"workers\":1}\n",
    "{\"format\":1,\"nest\":100,\"steps\":1000000,\"w0\":8,\"workers\":0}\n",
    "{\"format\":1,\"nest\":100,\"steps\":1000000,\"w0\":8,\"workers\":65}\n",
    "{\"format\":1, \"nest\":100,\"steps\":1000000,\"w0\":8,\"workers\":1}\n",
    "{\"nest\":100,\"format\":1,\"steps\":1000000,\"w0\":8,\"workers\":1}\n",
    "{\"format\":1,\"nest\":100,\"steps\":1000000,\"w0\":8,\"workers\":1} \n",
];

/// The first line of a trace in format 2.
const HEADER_TWO: &str = "{\"format\":2,\"nest\":100,\"steps\":1000000,\"w0\":8,\"workers\":1}\n";

/// Lines with a number of faults, and whether they are lines of format 2. None is one of format 1.
const COUNTED: &[(&str, bool)] = &[
    (
        "{\"e\":\"resume\",\"faults\":0,\"path\":\"0\",\"worker\":0}\n",
        true,
    ),
    (
        "{\"e\":\"resume\",\"faults\":4294967295,\"path\":\"0.1\",\"worker\":63}\n",
        true,
    ),
    (
        "{\"e\":\"resume\",\"faults\":4294967296,\"path\":\"0\",\"worker\":0}\n",
        false,
    ),
    (
        "{\"e\":\"resume\",\"faults\":00,\"path\":\"0\",\"worker\":0}\n",
        false,
    ),
    (
        "{\"e\":\"resume\",\"faults\":-0,\"path\":\"0\",\"worker\":0}\n",
        false,
    ),
    (
        "{\"e\":\"resume\",\"path\":\"0\",\"faults\":0,\"worker\":0}\n",
        false,
    ),
    (
        "{\"e\":\"take\",\"faults\":0,\"path\":\"0\",\"worker\":0}\n",
        false,
    ),
];

/// Lines of events in the widest range.
const WIDEST: &[&str] = &[
    "{\"e\":\"steal\",\"from\":0,\"path\":\"0.1.4294967295\",\"worker\":63}\n",
    "{\"e\":\"replenish\",\"path\":\"0.12.3\"}\n",
    "{\"e\":\"pass\",\"number\":4294967295,\"owner\":\"0.10\"}\n",
    "{\"e\":\"pass\",\"number\":0,\"owner\":\"0.10\"}\n",
];

/// Returns the formatted trace of a text, or what is wrong with the text.
fn told(rt: &impl Abort, alloc: Global, text: &str) -> String {
    match read_lines(alloc, text) {
        Ok((header, events)) => {
            assert!(rt; fits(&header, &events), "its own format doesn't fit");
            write_lines(alloc, &header, &events).expect(rt, "memory")
        }
        Err(error) => format!(in alloc; "{error}").expect(rt, "memory"),
    }
}

#[test]
fn lines_are_read_and_written_again(rt: HostRuntime) {
    let alloc = rt.alloc();
    assert_eq!(rt; told(&rt, alloc, LINES).as_str(), LINES);
    assert_eq!(rt; told(&rt, alloc, HEADER).as_str(), HEADER);
    for line in WIDEST {
        let mut text = String::from_str(alloc, HEADER).expect(&rt, "memory");
        text.push_str(line).expect(&rt, "memory");
        assert_eq!(rt; told(&rt, alloc, text.as_str()).as_str(), text.as_str());
    }
}

#[test]
fn the_table_has_a_line_for_each_event(rt: HostRuntime) {
    let alloc = rt.alloc();
    let (_, events) = read_lines(alloc, LINES).expect(&rt, "a trace");
    let table = view(alloc, &events).expect(&rt, "memory");
    assert_eq!(rt; table.as_str(), TABLE);
}

#[test]
fn a_trace_that_was_cut_tells_where(rt: HostRuntime) {
    let alloc = rt.alloc();
    let bytes = LINES.as_bytes();
    for length in 0..bytes.len() {
        let text = std::str::from_utf8(&bytes[..length]).expect(&rt, "a text");
        let line = text.matches('\n').count() + 1;
        if line > 1 && text.ends_with('\n') {
            assert_eq!(rt; told(&rt, alloc, text).as_str(), text);
        } else {
            let error = read_lines(alloc, text).err();
            assert_eq!(rt; error, Some(TraceError::NotALine(line)), "{text}");
        }
    }
}

#[test]
fn only_one_spelling_is_read(rt: HostRuntime) {
    let alloc = rt.alloc();
    for (events, number) in BAD_EVENTS {
        let mut text = String::from_str(alloc, HEADER).expect(&rt, "memory");
        text.push_str(events).expect(&rt, "memory");
        let error = read_lines(alloc, text.as_str()).err();
        assert_eq!(rt; error, Some(TraceError::NotALine(*number)), "{events}");
    }
    for text in BAD_HEADERS {
        let error = read_lines(alloc, text).err();
        assert_eq!(rt; error, Some(TraceError::NotALine(1)), "{text}");
    }
}

#[test]
fn a_resume_has_a_number_in_format_two_only(rt: HostRuntime) {
    let alloc = rt.alloc();
    assert_eq!(rt; told(&rt, alloc, HEADER_TWO).as_str(), HEADER_TWO);
    for (line, is_right) in COUNTED {
        for header in [HEADER, HEADER_TWO] {
            let mut text = String::from_str(alloc, header).expect(&rt, "memory");
            text.push_str(line).expect(&rt, "memory");
            let want = if *is_right && header == HEADER_TWO {
                text.as_str()
            } else {
                "J1 line 2"
            };
            assert_eq!(rt; told(&rt, alloc, text.as_str()).as_str(), want);
        }
    }
}
