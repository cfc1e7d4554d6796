//! Tokens, their places and lines, and bytes that stand in none.

use crate::reading::tokens_of;
use ep_lex::{LexError, TokenKind, TokenList};
use std::alloc::{AllocError, Global};
use std::process::Abort;
use std::test::Fail;

// A letter, a start, a length and a line for each token, and the line of the end.
fn shown(alloc: Global, found: &TokenList) -> Result<String, AllocError> {
    let mut text = String::new(alloc);
    for i in 0..found.count() {
        let token = found.token(i);
        let kind = match token.kind {
            TokenKind::Word => "w",
            TokenKind::Number => "n",
            TokenKind::Mark => "m",
        };
        let line = found.line(i);
        text = format!(in alloc; "{text}{kind}{}+{}/{line} ", token.start, token.len)?;
    }
    format!(in alloc; "{text}/{}", found.line(found.count()))
}

#[test]
fn tokens_with_places_and_lines(rt: HostRuntime) -> Result<(), Fail> {
    let rows: [(&[u8], &str); 14] = [
        (b"", "/1"),
        (b":=", "m0+2/1 /1"),
        (b": =", "m0+1/1 m2+1/1 /1"),
        (b"a->_b", "w0+1/1 m1+2/1 w3+2/1 /1"),
        (&[b'a'; 64], "w0+64/1 /1"),
        (b"a9 123456789", "w0+2/1 n3+9/1 /1"),
        (b"9a", "n0+1/1 w1+1/1 /1"),
        (b"a#b", "w0+1/1 /1"),
        (b"#\xff\xfe\nB", "w4+1/2 /2"),
        (b"a\r\n\tz", "w0+1/1 w4+1/2 /2"),
        (b"a # x\n\n b\n", "w0+1/1 w8+1/3 /4"),
        (b"#\n#", "/2"),
        (b"{#}\n}", "m0+1/1 m4+1/2 /2"),
        (b"Z_z(0)\n", "w0+3/1 m3+1/1 n4+1/1 m5+1/1 /2"),
    ];
    for (bytes, wanted) in rows {
        let found = tokens_of(&rt, rt.alloc(), bytes)?;
        assert_eq!(rt; shown(rt.alloc(), &found)?.as_str(), wanted);
    }
    Ok(())
}

#[test]
fn places_of_stray_bytes(rt: HostRuntime) {
    let rows: [(&[u8], u32); 8] = [
        (b"-", 0),
        (b"a - > b", 2),
        (&[b'_'; 65], 64),
        (b"x 1234567890", 11),
        (b"a \xff", 2),
        (b"# ok\n!", 5),
        (b"a\x0bb", 1),
        (b"A\0", 1),
    ];
    for (bytes, at) in rows {
        let error = tokens_of(&rt, rt.alloc(), bytes).err();
        assert_eq!(rt; error, Some(LexError::Stray { at }));
    }
}

fn check_pair(rt: &impl Abort, alloc: Global, first: &str, second: &str) -> Result<(), Fail> {
    let text = format!(in alloc; "{first}{second}")?;
    let found = tokens_of(rt, alloc, text.as_bytes())?;
    let joined = first == ":" && second == "=";
    assert_eq!(rt; found.count(), if joined { 1 } else { 2 });
    if !joined {
        assert_eq!(rt; found.token(0).len as usize, first.len());
    }
    Ok(())
}

#[test]
fn every_mark_beside_every_mark(rt: HostRuntime) -> Result<(), Fail> {
    let marks = [":=", "->", "{", "}", "(", ")", ",", ";", ":", "<", "="];
    for first in marks {
        for second in marks {
            check_pair(&rt, rt.alloc(), first, second)?;
        }
    }
    Ok(())
}

#[test]
fn most_tokens_and_one_more(rt: HostRuntime) -> Result<(), Fail> {
    let mut bytes = vec![in rt.alloc(); b';'; 262_144]?;
    bytes.resize(1_048_575, b'\n')?;
    let found = tokens_of(&rt, rt.alloc(), &bytes)?;
    assert_eq!(rt; found.count(), 262_144);
    assert_eq!(rt; found.line(262_144), 786_432);
    for (last, error) in [
        (b'a', LexError::TooManyTokens),
        (b'-', LexError::Stray { at: 1_048_575 }),
    ] {
        bytes.push(last)?;
        assert_eq!(rt; tokens_of(&rt, rt.alloc(), &bytes).err(), Some(error));
        bytes.truncate(1_048_575);
    }
    Ok(())
}
