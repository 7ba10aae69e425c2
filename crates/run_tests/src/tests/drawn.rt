//! Pictures of traces.

use events::event::Event;
use serde_json::Value;
use std::alloc::Global;
use std::process::Abort;
use trace_pictures::chrome::spans;
use trace_pictures::statements::Statements;
use trace_pictures::timeline::draw;
use trace_text::header::Header;
use trace_text::read::read_lines;

/// What two workers do in the program with two arrays.
const TWO_WORKERS: &str = "{\"format\":1,\"nest\":100,\"steps\":1000000,\"w0\":8,\"workers\":2}
{\"e\":\"take\",\"path\":\"0\",\"worker\":0}
{\"e\":\"open\",\"path\":\"0\"}
{\"e\":\"spawn\",\"path\":\"0\"}
{\"e\":\"steal\",\"from\":0,\"path\":\"0.1\",\"worker\":1}
{\"e\":\"take\",\"path\":\"0.1\",\"worker\":1}
{\"e\":\"step\",\"path\":\"0\"}
{\"e\":\"step\",\"path\":\"0.1\"}
{\"e\":\"park\",\"path\":\"0\"}
{\"e\":\"end\",\"path\":\"0.1\"}
{\"e\":\"pass\",\"number\":1,\"owner\":\"0\"}
{\"e\":\"resume\",\"path\":\"0\",\"worker\":1}
{\"e\":\"step\",\"path\":\"0\"}
{\"e\":\"park\",\"path\":\"0\"}
{\"e\":\"pass\",\"number\":0,\"owner\":\"0\"}
";

/// Lines of its picture, each of which the description of the picture requires.
const LINES_OF_ITS_PICTURE: &[&str] = &[
    "<text class=\"heading\" x=\"96\" y=\"24\">a &lt;b&gt; &amp; &quot;c&quot;</text>\n",
    "2 workers · 14 events · 2 tasks · 2 finish scopes · 1 steal · work 5 steps · span 4 steps · parallelism 1.25<",
    ">worker 1</text>\n",
    ">event</text>\n",
    "<rect class=\"p0\" x=\"96\" y=\"90\" width=\"112\" height=\"30\"><title>task 0, events 0 to 7, 5 by the task itself</title></rect>\n",
    "<rect class=\"p1\" x=\"152\" y=\"164\" width=\"70\" height=\"30\"><title>task 0.1, events 4 to 8, 3 by the task itself</title></rect>\n",
    "<rect class=\"p0\" x=\"236\" y=\"164\" width=\"42\" height=\"30\"><title>task 0, events 10 to 12, 3 by the task itself</title></rect>\n",
    "<title>2 spawn 0</title>",
    "<line class=\"steal\" x1=\"145\" y1=\"126\" x2=\"145\" y2=\"161\"/>\n",
    "<line class=\"wait\" x1=\"201\" y1=\"266\" x2=\"236\" y2=\"266\"/>\n",
    ">finish 0#1</text>\n",
    ">depth 1</text>\n",
    "</svg>\n",
];

/// Lines that no run produces: tasks that are taken twice or never, ends of nothing, workers that
/// the run doesn't have.
const NO_RUN: &str = "{\"format\":1,\"nest\":100,\"steps\":1000000,\"w0\":8,\"workers\":2}
{\"e\":\"end\",\"path\":\"0.7\"}
{\"e\":\"spawn\",\"path\":\"0.7\"}
{\"e\":\"take\",\"path\":\"0\",\"worker\":3}
{\"e\":\"take\",\"path\":\"0.1\",\"worker\":3}
{\"e\":\"resume\",\"path\":\"0\",\"worker\":1}
{\"e\":\"take\",\"path\":\"0\",\"worker\":2}
{\"e\":\"steal\",\"from\":63,\"path\":\"0\",\"worker\":63}
{\"e\":\"pass\",\"number\":4294967295,\"owner\":\"0.9\"}
{\"e\":\"park\",\"path\":\"0\"}
{\"e\":\"park\",\"path\":\"0\"}
{\"e\":\"pass\",\"number\":0,\"owner\":\"0\"}
{\"e\":\"open\",\"path\":\"0\"}
";

/// Returns the spans of events whose statements aren't known.
fn bare_spans(rt: &impl Abort, alloc: Global, events: &[Event]) -> String {
    let unknown = Statements {
        labels: &[],
        descriptions: &[],
        rescued: &[],
    };
    spans(alloc, events, unknown).expect(rt, "memory")
}

/// Returns the picture of a trace whose statements aren't known.
fn bare_picture(
    rt: &impl Abort,
    alloc: Global,
    heading: &str,
    header: &Header,
    events: &[Event],
) -> String {
    let unknown = Statements {
        labels: &[],
        descriptions: &[],
        rescued: &[],
    };
    draw(alloc, heading, header, events, unknown).expect(rt, "memory")
}

/// Parses a trace.
fn trace(rt: &impl Abort, alloc: Global, text: &str) -> (Header, Vec<Event>) {
    read_lines(alloc, text).expect(rt, "a trace")
}

/// Returns the spans of a text, in the order of the file: `0B0 0E8 1B4 ..` are worker, phase and
/// time.
fn told_spans(rt: &impl Abort, alloc: Global, text: &str) -> String {
    let value = Value::from_str(alloc, text).expect(rt, "JSON");
    let events = value
        .get("traceEvents")
        .and_then(Value::as_array)
        .expect(rt, "events");
    let mut told = String::new(alloc);
    for event in events {
        let phase = event
            .get("ph")
            .and_then(Value::as_str)
            .expect(rt, "a phase");
        if phase == "B" || phase == "E" {
            let worker = event
                .get("tid")
                .and_then(Value::as_u64)
                .expect(rt, "a worker");
            let time = event.get("ts").and_then(Value::as_u64).expect(rt, "a time");
            write!(told, "{worker}{phase}{time} ").expect(rt, "memory");
        }
    }
    told
}

/// Compares the spans of events with the expected ones.
fn compare_spans(rt: &impl Abort, alloc: Global, events: &[Event], want: &str) {
    let text = bare_spans(rt, alloc, events);
    let told = told_spans(rt, alloc, text.as_str());
    assert_eq!(rt; told.as_str(), want);
}

#[test]
fn a_picture_has_its_bars_arrows_and_brackets(rt: HostRuntime) {
    let alloc = rt.alloc();
    let (header, events) = trace(&rt, alloc, TWO_WORKERS);
    let picture = bare_picture(&rt, alloc, "a <b> & \"c\"", &header, &events);
    for line in LINES_OF_ITS_PICTURE {
        assert!(rt; picture.as_str().contains(*line), "{line}");
    }
}

/// The statements of the program with two arrays, by their labels.
const DESCRIPTIONS: &[&str] = &[
    "",
    "4:3 label 1  finish { .. }",
    "5:5 label 2  async { .. }",
    "6:7 label 3  a[0] = 7;",
    "8:5 label 4  b[0] = \"8\";",
    "10:3 label 5  print a[0], b[0];",
];

/// The labels of its statements at the events of two workers.
const LABELS: &[u32] = &[0, 1, 2, 0, 0, 4, 3, 0, 0, 0, 0, 5, 0, 0];

#[test]
fn tooltips_and_spans_have_statements(rt: HostRuntime) {
    let alloc = rt.alloc();
    let (header, events) = trace(&rt, alloc, TWO_WORKERS);
    let mut descriptions = Vec::new(alloc);
    for description in DESCRIPTIONS {
        let description = String::from_str(alloc, *description).expect(&rt, "memory");
        descriptions.push(description).expect(&rt, "memory");
    }
    let statements = Statements {
        labels: LABELS,
        descriptions: &descriptions,
        rescued: &[],
    };
    let picture = draw(alloc, "", &header, &events, statements).expect(&rt, "memory");
    for line in [
        "<title>2 spawn 0, at 5:5 label 2  async { .. }</title>",
        "<title>5 step 0, at 8:5 label 4  b[0] = &quot;8&quot;;</title>",
        "<title>task 0, events 0 to 7, 5 by the task itself, from 4:3 label 1  finish { .. }</title>",
        "<title>task 0.1, events 4 to 8, 3 by the task itself, from 6:7 label 3  a[0] = 7;</title>",
        "<title>task 0, events 10 to 12, 3 by the task itself, from 10:3 label 5  print a[0], b[0];</title>",
    ] {
        assert!(rt; picture.as_str().contains(line), "{line}");
    }
    let text = spans(alloc, &events, statements).expect(&rt, "memory");
    let taken = "\"args\":{\"event\":4,\"by\":\"take\",\"statement\":\"6:7 label 3  a[0] = 7;\"}}";
    assert!(rt; text.as_str().contains(taken));
}

/// The number of faults that a rescue has dropped, at the open of its finish and at the resume.
const RESCUED: &[u64] = &[0, 2, 0, 0, 0, 0, 0, 0, 0, 0, 2, 0, 0, 0];

#[test]
fn a_rescued_finish_is_marked(rt: HostRuntime) {
    let alloc = rt.alloc();
    let (header, events) = trace(&rt, alloc, TWO_WORKERS);
    let statements = Statements {
        labels: &[],
        descriptions: &[],
        rescued: RESCUED,
    };
    let picture = draw(alloc, "", &header, &events, statements).expect(&rt, "memory");
    for line in [
        ">finish 0#1, 2 faults rescued</text>\n",
        "<circle class=\"rescue\" cx=\"236\" cy=\"266\" r=\"3\"/>\n",
        ">rescue</text>\n",
    ] {
        assert!(rt; picture.as_str().contains(line), "{line}");
    }
    let text = spans(alloc, &events, statements).expect(&rt, "memory");
    assert!(rt;
        text.as_str()
            .contains("\"args\":{\"event\":10,\"by\":\"resume\",\"rescued\":2}}")
    );
    let unmarked = bare_picture(&rt, alloc, "", &header, &events);
    assert!(rt; !unmarked.as_str().contains("rescue\""));
}

/// Returns the number of rectangles of a class in a picture.
fn rectangles(picture: &str, class: &str) -> usize {
    picture.matches(class).count()
}

#[test]
fn as_many_cells_are_underlined_as_the_span_says(rt: HostRuntime) {
    let alloc = rt.alloc();
    let (header, events) = trace(&rt, alloc, TWO_WORKERS);
    let picture = bare_picture(&rt, alloc, "", &header, &events);
    // The legend has one more.
    assert_eq!(rt; rectangles(picture.as_str(), "<rect class=\"chain\""), 5);
    assert_eq!(rt; rectangles(picture.as_str(), "<circle class=\"back\""), 2);
}

#[test]
fn spans_nest(rt: HostRuntime) {
    let alloc = rt.alloc();
    let (_, events) = trace(&rt, alloc, TWO_WORKERS);
    compare_spans(&rt, alloc, &events, "0B0 0E8 1B4 1E9 1B10 1E13 ");
}

#[test]
fn arrows_lead_from_spawns_to_takes(rt: HostRuntime) {
    let alloc = rt.alloc();
    let (_, events) = trace(&rt, alloc, TWO_WORKERS);
    let text = bare_spans(&rt, alloc, &events);
    let spawn =
        "{\"ph\":\"s\",\"id\":\"0.1\",\"name\":\"spawn\",\"cat\":\"spawn\",\"pid\":0,\"tid\":0,\"ts\":2}";
    let take =
        "{\"ph\":\"f\",\"bp\":\"e\",\"id\":\"0.1\",\"name\":\"spawn\",\"cat\":\"spawn\",\"pid\":0,\"tid\":1,\"ts\":4}";
    assert!(rt; text.as_str().contains(spawn));
    assert!(rt; text.as_str().contains(take));
}

#[test]
fn no_events_have_a_picture(rt: HostRuntime) {
    let alloc = rt.alloc();
    let (header, _) = trace(&rt, alloc, TWO_WORKERS);
    let picture = bare_picture(&rt, alloc, "", &header, &[]);
    assert!(rt;
        picture.as_str().contains("2 workers · 0 events · 1 task · 1 finish scope · 0 steals")
    );
    assert!(rt; picture.as_str().ends_with("</svg>\n"));
    compare_spans(&rt, alloc, &[], "");
}

#[test]
fn events_of_no_run_have_a_picture(rt: HostRuntime) {
    let alloc = rt.alloc();
    let (header, events) = trace(&rt, alloc, NO_RUN);
    let picture = bare_picture(&rt, alloc, "no run", &header, &events);
    assert!(rt; picture.as_str().contains(">worker 63</text>"));
    assert!(rt; picture.as_str().ends_with("</svg>\n"));
    compare_spans(&rt, alloc, &events, "3B2 3E3 3B3 3E12 1B4 1E12 2B5 2E9 ");
}
