//! Typed tasks, and formulas of them.

use crate::reading::{discard_formula, discard_typed, formula_tree, typed_task};
use ep_types::{TypeError, TypeFault, Typed, check_formula};
use std::alloc::Global;
use std::process::Abort;
use std::test::Fail;

pub const HEAD: &str = "task t; types { child < agent; pet < object; } \
    objects { ann : agent; kid : child; rex : pet; } fluents { p; wet(child); likes(agent, object); }";

const TYPED: &str =
    "init { vary { p } facts { wet(kid) } law (p or wet(kid)); sees { kid } { p } designated p; } \
    action go(a : agent, b : object) distinct { sense likes(a, b) by { a }; } \
    goal (forall (a : child) wet(a) and exists (a : agent) knows a likes(kid, rex));";

// Subtypes, a parameter again behind its formula, and a fact that is not varied.
fn typed(rt: &impl Abort, alloc: Global) -> Result<Typed, Fail> {
    let text = format!(in alloc; "{HEAD}{TYPED}")?;
    typed_task(rt, alloc, text.as_bytes())
}

fn check_typed(rt: &impl Abort, task: &Typed) {
    assert_eq!(rt; task.tree().name.text.as_slice(), b"t".as_slice());
    assert_eq!(rt; task.object_count(), 3);
    assert!(rt; task.is_below(b"child", b"object") && !task.is_below(b"agent", b"child"));
}

#[test]
fn a_typed_task(rt: HostRuntime) -> Result<(), Fail> {
    let task = typed(&rt, rt.alloc())?;
    check_typed(&rt, &task);
    discard_typed(task);
    Ok(())
}

fn check_words(
    rt: &impl Abort,
    alloc: Global,
    task: &Typed,
    words: &str,
    fault: Option<TypeFault>,
) -> Result<(), Fail> {
    let formula = formula_tree(rt, alloc, words.as_bytes())?;
    let error = check_formula(alloc, task, &formula).err();
    discard_formula(formula);
    let wanted = fault.map(|fault| TypeError::At { fault, token: 1 });
    assert_eq!(rt; error, wanted, "{words}");
    Ok(())
}

fn check_formulas(rt: &impl Abort, alloc: Global, task: &Typed) -> Result<(), Fail> {
    let rows: [(&str, Option<TypeFault>); 3] = [
        ("knows kid p", None),
        ("knows carl p", Some(TypeFault::Unknown)),
        ("knows rex p", Some(TypeFault::NotAgent)),
    ];
    for (words, fault) in rows {
        check_words(rt, alloc, task, words, fault)?;
    }
    Ok(())
}

#[test]
fn formulas_by_themselves(rt: HostRuntime) -> Result<(), Fail> {
    let task = typed(&rt, rt.alloc())?;
    let told = check_formulas(&rt, rt.alloc(), &task);
    discard_typed(task);
    told
}
