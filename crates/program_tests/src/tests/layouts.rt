//! Formatted texts, and texts that are not programs.

use crate::tests::compare;
use layout::laid_out;
use std::alloc::Global;
use std::process::Abort;
use syntax::parse;

/// The name of a row, a text, and the formatted text.
const TEXTS: &[(&str, &str, &str)] = &[
    ("nothing", "", ""),
    ("blanks", " \n\t\r\n", ""),
    (
        "one_line",
        "main{skip;print 1;}",
        "main {\n  skip;\n  print 1;\n}\n",
    ),
    (
        "comment_on_its_own_line",
        "main {\n// first\nskip;\n      // last\n}",
        "main {\n  // first\n  skip;\n  // last\n}\n",
    ),
    (
        "comment_behind_code",
        "main { // opens  \n skip;// does nothing\t\r\n}   // closes",
        "main { // opens\n  skip; // does nothing\n} // closes\n",
    ),
    ("comments_alone", "\n\n// a\n\n\n\n//b", "// a\n\n//b\n"),
    (
        "one_empty_line_of_many",
        "main {\n\n\n skip;\n\n\n\n skip;\n\n\n}\n\n\n",
        "main {\n  skip;\n\n  skip;\n}\n",
    ),
    (
        "empty_line_round_a_comment",
        "main {\n\n// a\n\nskip;\n\n// b\n\n}",
        "main {\n  // a\n\n  skip;\n\n  // b\n}\n",
    ),
    (
        "statement_of_two_lines",
        "main { print 1,\n  2; x\n=\n3; }",
        "main {\n  print 1, 2;\n  x = 3;\n}\n",
    ),
    (
        "comment_inside_a_statement",
        "main { print 1, // one\n 2\n// two\n; }",
        "main {\n  print 1, // one\n      2\n      // two\n      ;\n}\n",
    ),
    (
        "comment_before_a_brace",
        "main {\nwhile a < b // while\n{ skip; } }",
        "main {\n  while a < b // while\n  {\n    skip;\n  }\n}\n",
    ),
    (
        "comment_before_else",
        "main { if a { skip; } // then\n else { skip; }\n if a { }\n\n//or\n\nelse { } }",
        "main {\n  if a {\n    skip;\n  } // then\n  else {\n    skip;\n  }\n  if a {\n  }\n\n  //or\n\n  else {\n  }\n}\n",
    ),
    (
        "else_behind_a_line_feed",
        "main { if a { }\n\n else { } }",
        "main {\n  if a {\n  } else {\n  }\n}\n",
    ),
    (
        "spaces_of_expressions",
        "main { a [ 0 ]=- 1*( b[a]-len( a ) )%007; if not a<1 and b==2 or true{} }",
        "main {\n  a[0] = -1 * (b[a] - len(a)) % 007;\n  if not a < 1 and b == 2 or true {\n  }\n}\n",
    ),
    (
        "procedures",
        "proc f ( mut a :int ,read b: byte,n:int ) { g(a , n) ; }\n\n\nproc g(read a: int, n: int) {}main{array a:int [8] ;}",
        "proc f(mut a: int, read b: byte, n: int) {\n  g(a, n);\n}\n\nproc g(read a: int, n: int) {\n}\nmain {\n  array a: int[8];\n}\n",
    ),
    (
        "tasks",
        "main{finish{split s at 1 as l,r{async{}}}}",
        "main {\n  finish {\n    split s at 1 as l, r {\n      async {\n      }\n    }\n  }\n}\n",
    ),
    (
        "other_alphabets",
        "main { // \u{e9}\u{1f600}!  \n}",
        "main { // \u{e9}\u{1f600}!\n}\n",
    ),
];

/// A text that is not a program, and why.
const REFUSED: &[(&str, &str)] = &[
    ("main { ! }", "S1 at 1:8"),
    ("main { skip }", "S2 at 1:13"),
    ("main { print 9223372036854775808; }", "S3 at 1:14"),
    ("// a\n}", "S2 at 2:1"),
];

/// Returns the formatted text, or why it is not a program.
fn told(rt: &impl Abort, alloc: Global, text: &str) -> String {
    match parse(alloc, text) {
        Ok(_program) => laid_out(alloc, text).expect(rt, "memory"),
        Err(error) => format!(in alloc; "{error}").expect(rt, "memory"),
    }
}

#[test]
fn texts_are_laid_out_and_stay_so(rt: HostRuntime) {
    let alloc = rt.alloc();
    for (name, text, want) in TEXTS {
        compare(&rt, alloc, name, told(&rt, alloc, text), want);
        compare(&rt, alloc, name, told(&rt, alloc, want), want);
    }
}

#[test]
fn what_is_no_program_is_refused(rt: HostRuntime) {
    let alloc = rt.alloc();
    for (text, want) in REFUSED {
        compare(&rt, alloc, text, told(&rt, alloc, text), want);
    }
}
