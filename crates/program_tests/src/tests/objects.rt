//! The answers of commands as JSON.

use crate::tests::{lists_of, typed};
use commands::programs::accepted_of;
use effects::summaries::summarize;
use failures::failure::Failure;
use json_answers::failed::refusal_line;
use json_answers::found::FoundRace;
use json_answers::outcomes::outcome_object;
use json_answers::programs::{accepted_object, pairs_object};
use json_answers::races::race_object;
use json_answers::reason::Reason;
use json_answers::refusals::refusal_object;
use json_answers::refused_program::RefusedProgram;
use parallel_relation::pairs::may_run_together;
use race_checker::check::{Refused, check};
use serde_json::Value;
use statement_places::statement_places;
use std::alloc::Global;
use std::process::Abort;
use std::rt::HostRuntime;
use syntax::TextPlace;
use types::check::type_check;
use types::child_number::ChildNumber;
use types::fault::{Fault, FaultKind};
use types::input::Input;
use types::laws::typed_programs_are_sound;
use types::outcome::Outcome;
use types::path::Path;
use types::typed::Typed;
use witness::witness::witness_of;

/// Its labels: 1 at 4:3, 2 at 5:3, 3 at 5:11, 4 at 6:3.
const PROGRAM: &str = "main {
  array z: int[2];
  array a: byte[1];
  print 1, -2;
  async { z[0] = 7; }
  a[0] = 256;
}
";

/// A race of 1 or 2, in `fill`, with 4.
const RACY: &str = "proc fill(mut s: int) {
  s[0] = 1;
}
main {
  array a: int[1];
  async { fill(a); }
  a[0] = 2;
}
";

/// Returns the positions at which its statements start.
fn places_of(rt: &impl Abort, alloc: Global, text: &str) -> Vec<TextPlace> {
    if text.len() > 1_048_576 {
        return Vec::new(alloc);
    }
    statement_places(alloc, text).expect(rt, "tokens")
}

/// Returns an outcome with the minimum and the maximum number, a byte, two lines, and two faults.
fn ended(rt: &impl Abort, alloc: Global) -> Outcome {
    let child = Path::root(alloc).child(ChildNumber::after(0));
    let first = Fault {
        path: child.expect(rt, "memory"),
        label: 3,
        kind: FaultKind::Raised(-7),
    };
    let second = Fault {
        path: Path::root(alloc),
        label: 4,
        kind: FaultKind::OutOfElement,
    };
    Outcome::Ended {
        arrays: lists_of(rt, alloc, &[&[i64::MIN, i64::MAX], &[255]]),
        lines: lists_of(rt, alloc, &[&[1, -2], &[]]),
        faults: vec![in alloc; first, second].expect(rt, "memory"),
    }
}

/// Compares the object of an outcome of a program with the expected one.
fn compare_outcome(
    rt: &impl Abort,
    alloc: Global,
    typed: &Typed,
    places: &[TextPlace],
    outcome: &Outcome,
    want: &str,
) {
    let told = outcome_object(alloc, &typed.code().arrays, places, outcome);
    assert_eq!(rt; told.expect(rt, "memory").as_str(), want);
}

#[test]
fn outcomes_are_told(rt: HostRuntime) {
    let alloc = rt.alloc();
    let typed = typed(&rt, alloc, PROGRAM);
    let places = places_of(&rt, alloc, PROGRAM);
    let wanted = "{\"arrays\":{\"a\":[255],\"z\":[-9223372036854775808,9223372036854775807]},\
        \"faults\":[{\"column\":11,\"kind\":\"F6\",\"label\":3,\"line\":5,\"number\":-7,\"path\":\"0.1\"},\
        {\"column\":3,\"kind\":\"F4\",\"label\":4,\"line\":6,\"number\":null,\"path\":\"0\"}],\
        \"lines\":[[1,-2],[]],\"status\":2,\"stopped\":false}\n";
    let outcome = ended(&rt, alloc);
    compare_outcome(&rt, alloc, &typed, &places, &outcome, wanted);
    let wanted = "{\"status\":3,\"stopped\":true}\n";
    compare_outcome(&rt, alloc, &typed, &places, &Outcome::Stopped, wanted);
}

#[test]
fn told_arrays_are_an_input(rt: HostRuntime) {
    let alloc = rt.alloc();
    let typed = typed(&rt, alloc, PROGRAM);
    let outcome = ended(&rt, alloc);
    let told = outcome_object(alloc, &typed.code().arrays, &[], &outcome).expect(&rt, "memory");
    let object = Value::from_str(alloc, told.as_str()).expect(&rt, "an object");
    let arrays = object.get("arrays").expect(&rt, "arrays").to_string(alloc);
    let arrays = arrays.expect(&rt, "memory");
    let input = Input::from_json(alloc, &typed, arrays.as_str()).expect(&rt, "an input");
    match &outcome {
        Outcome::Ended { arrays, .. } => assert!(rt; input.arrays == *arrays),
        Outcome::Stopped => assert!(rt; false),
    }
}

#[test]
fn programs_are_told(rt: HostRuntime) {
    let alloc = rt.alloc();
    let typed = typed(&rt, alloc, RACY);
    let told = accepted_object(alloc, typed.code()).expect(&rt, "memory");
    let wanted = "{\"accepted\":true,\"labels\":4,\"procedures\":1,\"status\":0}\n";
    assert_eq!(rt; told.as_str(), wanted);
    typed_programs_are_sound(&typed);
    let summaries = summarize(alloc, &typed).expect(&rt, "memory");
    let pairs = may_run_together(alloc, &typed, &summaries).expect(&rt, "memory");
    let told = pairs_object(alloc, pairs.list()).expect(&rt, "memory");
    assert_eq!(rt; told.as_str(), "{\"pairs\":[[1,4],[3,4]],\"status\":0}\n");
}

#[test]
fn races_are_told(rt: HostRuntime) {
    let alloc = rt.alloc();
    let typed = typed(&rt, alloc, RACY);
    typed_programs_are_sound(&typed);
    let places = places_of(&rt, alloc, RACY);
    match check(&rt, alloc, typed) {
        Err(Refused::Race { race, typed }) => {
            let witness = witness_of(alloc, &typed, race).expect(&rt, "memory");
            let witness = witness.expect(&rt, "a witness");
            let explanation = "\nr.afx:2:3: C1: about\n1 writes s:\nhelp: use a finish.\n";
            let reason = Reason::of(alloc, "r.afx", explanation).expect(&rt, "memory");
            let found = FoundRace {
                places: &places,
                code: typed.code(),
                race,
                witness: &witness,
                reason: &reason,
            };
            let told = race_object(alloc, "r.afx", found).expect(&rt, "memory");
            let wanted = "{\"code\":\"C1\",\"column\":3,\"file\":\"r.afx\",\
                \"help\":[\"use a finish.\"],\"label\":1,\"line\":2,\"message\":\"C1 race in main: 1 write a, 4 write a\",\
                \"race\":{\"first\":{\"column\":3,\"kind\":\"write\",\"label\":1,\"line\":2,\
                \"section\":\"a\"},\"procedure\":\"main\",\"second\":{\"column\":3,\
                \"kind\":\"write\",\"label\":4,\"line\":7,\"section\":\"a\"},\
                \"witness\":{\"first\":[\
                {\"calls\":null,\"column\":3,\"kind\":\"async\",\"label\":2,\"line\":6,\
                \"procedure\":\"main\",\"section\":\"a\"},\
                {\"calls\":\"fill\",\"column\":11,\"kind\":\"call\",\"label\":3,\"line\":6,\
                \"procedure\":\"main\",\"section\":\"a\"},\
                {\"calls\":null,\"column\":3,\"kind\":\"write\",\"label\":1,\"line\":2,\
                \"procedure\":\"fill\",\"section\":\"s\"}],\
                \"meeting\":\"follows\",\"pending\":\"first\",\"second\":[\
                {\"calls\":null,\"column\":3,\"kind\":\"write\",\"label\":4,\"line\":7,\
                \"procedure\":\"main\",\"section\":\"a\"}],\
                \"sharing\":{\"kind\":\"same\",\"section\":null}}},\
                \"reason\":\"1 writes s:\",\"status\":1}\n";
            assert_eq!(rt; told.as_str(), wanted);
        }
        Err(_other) => assert!(rt; false),
        Ok(_accepted) => assert!(rt; false),
    }
}

/// The object of a race has all of it, even if the text isn't there any more: it isn't parsed or
/// checked again.
#[test]
fn races_are_told_without_their_text(rt: HostRuntime) {
    let alloc = rt.alloc();
    let refused = RefusedProgram {
        file: "r.afx",
        text: "",
        explanation: "",
    };
    match accepted_of(&rt, alloc, RACY) {
        Ok(_accepted) => assert!(rt; false),
        Err(failure) => {
            let told = refusal_line(alloc, refused, &failure).expect(&rt, "memory");
            let wanted = "{\"code\":\"C1\",\"column\":null,\"file\":\"r.afx\",\"help\":[],\
                \"label\":1,\"line\":null,\"message\":\"C1 race in main: 1 write a, 4 write a\",\
                \"race\":{\"first\":{\"column\":null,\"kind\":\"write\",\"label\":1,\"line\":null,\
                \"section\":\"a\"},\"procedure\":\"main\",\"second\":{\"column\":null,\
                \"kind\":\"write\",\"label\":4,\"line\":null,\"section\":\"a\"},\
                \"witness\":{\"first\":[\
                {\"calls\":null,\"column\":null,\"kind\":\"async\",\"label\":2,\"line\":null,\
                \"procedure\":\"main\",\"section\":\"a\"},\
                {\"calls\":\"fill\",\"column\":null,\"kind\":\"call\",\"label\":3,\"line\":null,\
                \"procedure\":\"main\",\"section\":\"a\"},\
                {\"calls\":null,\"column\":null,\"kind\":\"write\",\"label\":1,\"line\":null,\
                \"procedure\":\"fill\",\"section\":\"s\"}],\
                \"meeting\":\"follows\",\"pending\":\"first\",\"second\":[\
                {\"calls\":null,\"column\":null,\"kind\":\"write\",\"label\":4,\"line\":null,\
                \"procedure\":\"main\",\"section\":\"a\"}],\
                \"sharing\":{\"kind\":\"same\",\"section\":null}}},\
                \"reason\":null,\"status\":1}\n";
            assert_eq!(rt; told.as_str(), wanted);
        }
    }
}

/// What is known of a failure: the file of the program, the positions of its statements, and the
/// explanation.
#[derive(Clone, Copy)]
struct Told<'t> {
    file: &'t str,
    places: &'t [TextPlace],
    explanation: &'t str,
}

/// Compares the object of a failure with the expected one.
fn compare_told(rt: &impl Abort, alloc: Global, known: Told<'_>, failure: &Failure, want: &str) {
    let Told { file, places, .. } = known;
    let reason = Reason::of(alloc, file, known.explanation).expect(rt, "memory");
    let told = refusal_object(alloc, file, places, failure, &reason).expect(rt, "memory");
    assert_eq!(rt; told.as_str(), want);
}

#[test]
fn refusals_are_told(rt: HostRuntime) {
    let alloc = rt.alloc();
    let text = "main { var x = 1; async { x = 2; } }";
    let places = places_of(&rt, alloc, text);
    let program = syntax::parse(alloc, text).expect(&rt, "a program");
    match type_check(alloc, program) {
        Err(error) => {
            let wanted = "{\"array\":null,\"code\":\"Y5\",\"column\":27,\"file\":\"d.afx\",\
                \"help\":[\"use another name.\"],\"label\":3,\"line\":1,\
                \"message\":\"Y5 at label 3\",\"reason\":\"Two\\nlines.\",\"status\":1}\n";
            let failure = Failure::Types(error);
            let explanation = "\nd.afx:9:9: Y5: about\n     9 | text\n       |   ^\nTwo\nlines.\n\
                help: use another name.\n";
            let known = Told {
                file: "d.afx",
                places: &places,
                explanation,
            };
            compare_told(&rt, alloc, known, &failure, wanted);
        }
        Ok(_) => assert!(rt; false),
    }
    let wanted = "{\"array\":null,\"code\":null,\"column\":null,\"file\":\"a\\\"b.afx\",\
        \"help\":[],\"label\":null,\"line\":null,\"message\":\"cannot read a\\\"b.afx\",\
        \"reason\":null,\"status\":1}\n";
    let failure = Failure::cannot_read(alloc, "a\"b.afx");
    let known = Told {
        file: "a\"b.afx",
        places: &[],
        explanation: "",
    };
    compare_told(&rt, alloc, known, &failure, wanted);
}

#[test]
fn errors_of_texts_and_inputs_are_told(rt: HostRuntime) {
    let alloc = rt.alloc();
    match syntax::parse(alloc, "main { skip }") {
        Err(error) => {
            let wanted = "{\"array\":null,\"code\":\"S2\",\"column\":13,\"file\":\"-\",\
                \"help\":[],\"label\":null,\"line\":1,\"message\":\"S2 at 1:13\",\
                \"reason\":null,\"status\":1}\n";
            let failure = Failure::Syntax(error);
            let known = Told {
                file: "-",
                places: &[],
                explanation: "",
            };
            compare_told(&rt, alloc, known, &failure, wanted);
        }
        Ok(_) => assert!(rt; false),
    }
    let typed = typed(&rt, alloc, PROGRAM);
    match Input::from_json(alloc, &typed, "{\"q\": []}") {
        Err(error) => {
            let wanted = "{\"array\":\"q\",\"code\":\"N3\",\"column\":7,\"file\":\"p.afx\",\
                \"help\":[\"one.\",\"two.\"],\"label\":null,\"line\":2,\"message\":\"N3 q\",\
                \"reason\":null,\"status\":1}\n";
            let failure = Failure::Input(error);
            let known = Told {
                file: "p.afx",
                places: &[],
                explanation: "\np.afx:2:7: N3: about\nhelp: one.\nhelp: two.\n",
            };
            compare_told(&rt, alloc, known, &failure, wanted);
        }
        Ok(_) => assert!(rt; false),
    }
}
