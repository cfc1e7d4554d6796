// Where the program finds a text that no task goes on with. The places are worked out by hand.

use crate::memory::refuses;
use ep_lex::tokens;
use std::alloc::Global;
use std::process::Abort;
use std::test::Fail;

const COIN: [&str; 12] = [
    "task coin;",
    "objects { ann, bob : agent; }",
    "fluents { heads; }",
    "init {",
    "  world u { heads }",
    "  world v { }",
    "  designated { u }",
    "  links all all;",
    "}",
    "action peek(a : agent) { sense heads by { a }; }",
    "action twice { event e pre true { } event f pre true { } designated { e, f } links all all; }",
    "goal (knows ann heads and not knows bob heads);",
];

// The number of tokens on each of these lines.
const COIN_TOKENS: [u32; 12] = [3, 9, 5, 2, 5, 4, 4, 4, 1, 16, 26, 12];

const LETTER: [&str; 11] = [
    "task letter;",
    "objects { ann, bob, cat : agent; }",
    "fluents { pass; }",
    "init {",
    "  vary { pass }",
    "  law true;",
    "  sees { ann } { pass }",
    "  designated pass;",
    "}",
    "action whisper(a : agent, b : agent) distinct { private knows a pass to { a, b }; }",
    "goal (knows bob pass and not knows cat pass and knows ann knows bob pass);",
];

const LETTER_TOKENS: [u32; 11] = [3, 11, 5, 2, 4, 3, 7, 3, 1, 25, 18];

// The lines, with another text in place of the one with this number.
fn text_of(alloc: Global, lines: &[&str], other: usize, line: &str) -> Result<String, Fail> {
    let mut text = String::new(alloc);
    for (number, kept) in lines.iter().enumerate() {
        let line = if number + 1 == other { line } else { *kept };
        text.push_str(line)?;
        text.push_str("\n")?;
    }
    Ok(text)
}

// The line on which a token stands.
fn line_of(counts: &[u32], token: u32) -> u32 {
    let mut left = token;
    let mut line = 1;
    for count in counts {
        if left < *count {
            return line;
        }
        left -= *count;
        line = line.saturating_add(1);
    }
    line
}

// The text cut before a token.
fn refuses_cut(
    rt: &impl Abort,
    alloc: Global,
    text: &str,
    start: u32,
    cause: &str,
) -> Result<(), Fail> {
    let end = start as usize;
    assert!(rt; end <= text.len());
    refuses(rt, alloc, &text.as_bytes()[..end], cause)
}

fn refuses_cuts(
    rt: &impl Abort,
    alloc: Global,
    lines: &[&str],
    counts: &[u32],
    total: u32,
) -> Result<(), Fail> {
    let text = text_of(alloc, lines, 0, "")?;
    assert!(rt; text.len() <= 1_048_576);
    let found = tokens(alloc, text.as_bytes())?;
    assert_eq!(rt; found.count(), total);
    for token in 0..found.count() {
        let cause = format!(in alloc; "syntax at token {token}, line {}", line_of(counts, token))?;
        refuses_cut(rt, alloc, &text, found.token(token).start, &cause)?;
    }
    Ok(())
}

#[test]
fn cuts_are_refused_where_they_end(rt: HostRuntime) -> Result<(), Fail> {
    refuses_cuts(&rt, rt.alloc(), &COIN, &COIN_TOKENS, 91)?;
    refuses_cuts(&rt, rt.alloc(), &LETTER, &LETTER_TOKENS, 82)?;
    Ok(())
}

const WRONG_IN_COIN: [(usize, &str, u32); 16] = [
    (1, "task not;", 1),
    (2, "objects { ann bob : agent; }", 6),
    (2, "objects { : agent; }", 5),
    (2, "objects { ann, : agent; }", 7),
    (3, "fluents { heads(); }", 16),
    (5, "  world u { heads, }", 24),
    (7, "  designated { }", 30),
    (8, "  links all { u v };", 36),
    (10, "action peek(a : agent) { sense heads to { a }; }", 47),
    (10, "action peek() { sense heads by all; }", 40),
    (10, "action peek distinct { sense heads by all; }", 39),
    (
        12,
        "goal (knows ann heads and not knows bob heads or true);",
        89,
    ),
    (12, "goal (ann = );", 83),
    (12, "goal ((ann) = bob);", 84),
    (12, "goal true; goal true;", 82),
    (12, "goal not;", 81),
];

const WRONG_IN_LETTER: [(usize, &str, u32); 6] = [
    (5, "  facts { pass }", 21),
    (6, "  law;", 26),
    (7, "  sees { ann } pass", 32),
    (8, "  designated { pass }", 36),
    (
        10,
        "action whisper(a, b : agent) distinct { private pass to all; }",
        43,
    ),
    (10, "action whisper { private pass by all; }", 44),
];

fn refuses_wrong(
    rt: &impl Abort,
    alloc: Global,
    lines: &[&str],
    rows: &[(usize, &str, u32)],
) -> Result<(), Fail> {
    for (number, line, token) in rows {
        let text = text_of(alloc, lines, *number, line)?;
        let cause = format!(in alloc; "syntax at token {token}, line {number}")?;
        refuses(rt, alloc, text.as_bytes(), &cause)?;
    }
    Ok(())
}

#[test]
fn wrong_tokens_are_refused_where_they_stand(rt: HostRuntime) -> Result<(), Fail> {
    refuses_wrong(&rt, rt.alloc(), &COIN, &WRONG_IN_COIN)?;
    refuses_wrong(&rt, rt.alloc(), &LETTER, &WRONG_IN_LETTER)?;
    Ok(())
}
