//! Printed names, and tables of them.

use ep_base::{List, OutOfMemory, Text};
use ep_name::{NameTable, print_name};
use std::alloc::{AllocError, Global};
use std::process::Abort;
use std::test::Fail;

fn text(alloc: Global, ascii: &str) -> Result<Text, AllocError> {
    let bytes: Vec<u8> = ascii.bytes().map(|b| b % 128).collect(alloc)?;
    Ok(Text::from_vec(bytes))
}

fn texts(alloc: Global, names: &[&str]) -> Result<List<Text>, OutOfMemory> {
    let mut texts = List::new(alloc);
    for name in names {
        texts.push(text(alloc, name)?)?;
    }
    Ok(texts)
}

// A declared name, the numbers of its objects, and the printed name.
#[test]
fn names_with_objects(rt: HostRuntime) -> Result<(), Fail> {
    let rows: [(&str, &[u32], &str); 6] = [
        ("look", &[], "look"),
        ("look", &[0], "look(ann)"),
        ("swap", &[0, 0], "swap(ann,ann)"),
        ("give", &[2, 0, 1], "give(coin,ann,bob)"),
        ("a-b_c", &[3], "a-b_c(x)"),
        ("six", &[3, 3, 3, 3, 3, 1], "six(x,x,x,x,x,bob)"),
    ];
    let alloc = rt.alloc();
    let names = texts(alloc, &["ann", "bob", "coin", "x"])?;
    let names = names.as_slice();
    for (name, objects, want) in rows {
        assert!(rt;
            objects
                .iter()
                .all(|object| (*object as usize) < names.len())
        );
        let found = print_name(alloc, &text(alloc, name)?, names, objects)?;
        assert_eq!(rt; found.as_slice(), want.as_bytes());
    }
    Ok(())
}

fn push(rt: &impl Abort, table: &mut NameTable, text: Text) -> Result<(), OutOfMemory> {
    assert!(rt; table.len() < 1024);
    assert_eq!(rt; table.place(text.as_slice()), None);
    table.push(text)
}

const PUSHED: [&str; 5] = [
    "swap(ann,bob)",
    "swap(bob,ann)",
    "swap",
    "look(ann)",
    "lookann",
];

const OTHERS: [&str; 6] = [
    "",
    "look",
    "look(ann",
    "look(ann))",
    "Swap",
    "swap(ann,bob) ",
];

// Texts in the order of the pushes, each found at its place; a beginning of one, one with more behind it, and the empty
// text are none of them.
fn check_places(rt: &impl Abort, table: &NameTable) {
    assert_eq!(rt; table.len(), 5);
    for (place, name) in (0u32..5).zip(&PUSHED) {
        assert_eq!(rt; table.place(name.as_bytes()), Some(place));
        assert!(rt; place < table.len());
        assert_eq!(rt; table.text(place).as_slice(), name.as_bytes());
    }
    for name in OTHERS {
        assert_eq!(rt; table.place(name.as_bytes()), None, "{name}");
    }
}

#[test]
fn places_of_texts(rt: HostRuntime) -> Result<(), Fail> {
    let mut table = NameTable::new(rt.alloc());
    for name in PUSHED {
        push(&rt, &mut table, text(rt.alloc(), name)?)?;
    }
    check_places(&rt, &table);
    Ok(())
}

#[test]
fn a_thousand_texts(rt: HostRuntime) -> Result<(), Fail> {
    let alloc = rt.alloc();
    let mut table = NameTable::new(alloc);
    for n in 0..1024u32 {
        let name = format!(in alloc; "act{n}")?;
        push(&rt, &mut table, text(alloc, name.as_str())?)?;
    }
    assert_eq!(rt; table.len(), 1024);
    assert_eq!(rt; table.place(b"act1023"), Some(1023));
    assert_eq!(rt; table.place(b"act1024"), None);
    Ok(())
}
