//! Layouts of tasks.

use crate::reading::task_tree;
use ep_base::Text;
use ep_layout::print_task;
use std::alloc::Global;
use std::process::Abort;
use std::test::Fail;

const COIN: &str = "task coin; objects { ann, bob : agent; } fluents { heads; } \
    init { world u { heads } world v { } designated { u } links all all; }";

const COIN_LAYOUT: &str = "task coin ;
objects { ann , bob : agent ;
}
fluents { heads ;
}
init {
world u { heads }
world v { }
designated { u }
links all all ;
}
goal knows ann heads ;
";

const TOLL: &str = "task toll; frames s5; objects { ann : agent; } fluents { mid; } \
    init { world o { } designated { o } } action fly cost 10 { assign when true { mid := true; } } \
    action walk(a : agent) distinct cost 100 { announce mid; } goal mid;";

const TOLL_LAYOUT: &str = "task toll ;
frames s5 ;
objects { ann : agent ;
}
fluents { mid ;
}
init {
world o { }
designated { o } }
action fly cost 10 { assign when true { mid := true ;
} }
action walk ( a : agent ) distinct cost 100 { announce mid ;
}
goal mid ;
";

// What stands behind the head of the coin tasks.
const COIN_TAILS: [&str; 4] = [
    "goal knows ann heads;",
    "action peek(a : agent) { sense heads by { a }; } \
        action twice { event e pre true { } event f pre true { } designated { e, f } links all all; } \
        goal (knows ann heads and not knows bob heads);",
    "action both { private heads to { ann, bob }; } action only { private heads to { ann }; } \
        goal common all heads;",
    "action say { announce heads; } goal heads;",
];

const TASKS: [&str; 6] = [
    "task far; objects { ann : agent; } fluents { } init { world o { } designated { o } links all same; } \
        action three { event a pre true { } event b pre true { } event c pre true { } \
        designated { a } links all { a -> b, b -> c }; } goal true;",
    "task swap_task; objects { ann : agent; } fluents { p; q; } init { world o { p } designated { o } } \
        action swap { assign when true { p := q; q := p; } } goal (q and not p);",
    "task kinds; types { child < agent; } objects { ann : agent; kid : child; } fluents { wet(child); } \
        init { world o { wet(kid) } designated { o } } action look(a : agent) { sense wet(kid) by { a }; } \
        action dry(c : child) { assign when wet(c) { wet(c) := false; } } goal not wet(kid);",
    "task letter; objects { ann, bob, cat : agent; } fluents { pass; } \
        init { vary { pass } law true; sees { ann } { pass } designated pass; } \
        action whisper(a : agent, b : agent) distinct { private knows a pass to { a, b }; } \
        goal (knows bob pass and not knows cat pass and knows ann knows bob pass);",
    "task pair; objects { ann, bob : agent; } fluents { has(agent); } \
        init { world o { has(ann) } designated { o } } \
        action swap(a : agent, b : agent) distinct { assign when true { has(a) := has(b); has(b) := has(a); } } \
        goal has(bob);",
    "task mixed; objects { ann : agent; } fluents { p; q; } \
        init { vary { } facts { p } law ((p) or q or false); designated p; } \
        goal forall (a : agent) exists (b : agent, c : agent) ((a = b) and common { } p);",
];

fn layout(rt: &impl Abort, alloc: Global, bytes: &[u8]) -> Result<Text, Fail> {
    let tree = task_tree(rt, alloc, bytes)?;
    Ok(print_task(alloc, &tree)?)
}

#[test]
fn layout_of_coin(rt: HostRuntime) -> Result<(), Fail> {
    let text = format!(in rt.alloc(); "{COIN} {}", COIN_TAILS[0])?;
    let text = layout(&rt, rt.alloc(), text.as_bytes())?;
    assert_eq!(rt; text.as_slice(), COIN_LAYOUT.as_bytes());
    Ok(())
}

#[test]
fn layout_with_costs_and_frames(rt: HostRuntime) -> Result<(), Fail> {
    let text = layout(&rt, rt.alloc(), TOLL.as_bytes())?;
    assert_eq!(rt; text.as_slice(), TOLL_LAYOUT.as_bytes());
    Ok(())
}

// A layout is its own layout.
fn check_again(rt: &impl Abort, alloc: Global, text: &str) -> Result<(), Fail> {
    let first = layout(rt, alloc, text.as_bytes())?;
    let second = layout(rt, alloc, first.as_slice())?;
    assert_eq!(rt; first.as_slice(), second.as_slice());
    Ok(())
}

#[test]
fn layouts_are_read_again(rt: HostRuntime) -> Result<(), Fail> {
    for tail in COIN_TAILS {
        let text = format!(in rt.alloc(); "{COIN}{tail}")?;
        check_again(&rt, rt.alloc(), text.as_str())?;
    }
    check_again(&rt, rt.alloc(), TOLL)?;
    for text in TASKS {
        check_again(&rt, rt.alloc(), text)?;
    }
    Ok(())
}
