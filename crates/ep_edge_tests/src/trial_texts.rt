//! The text of a trial.

use ep_base::Text;
use ep_layout::print_task;
use ep_lex::tokens;
use ep_syntax::read_task;
use ep_tree::TaskTree;
use ep_trial::trial_text;
use std::alloc::Global;
use std::process::Abort;
use std::test::Fail;

const ONE: &str = "task muddy ;\n\
    types { child < agent ;\n\
    }\n\
    objects { c1 : child ;\n\
    }\n\
    fluents { muddy ( child ) ;\n\
    }\n\
    init {\n\
    vary { muddy ( c1 ) }\n\
    law true ;\n\
    sees { c1 } { }\n\
    designated forall ( c : child ) muddy ( c ) ;\n\
    }\n\
    action father { announce exists ( c : child ) muddy ( c ) ;\n\
    }\n\
    action ask { announce forall ( c : child ) ( not knows c muddy ( c ) and not knows c not muddy ( c ) ) ;\n\
    }\n\
    goal forall ( c : child ) knows c muddy ( c ) ;\n";

const THREE: &str = "task muddy ;\n\
    types { child < agent ;\n\
    }\n\
    objects { c1 , c2 , c3 : child ;\n\
    }\n\
    fluents { muddy ( child ) ;\n\
    }\n\
    init {\n\
    vary { muddy ( c1 ) , muddy ( c2 ) , muddy ( c3 ) }\n\
    law true ;\n\
    sees { c1 } { muddy ( c2 ) , muddy ( c3 ) }\n\
    sees { c2 } { muddy ( c1 ) , muddy ( c3 ) }\n\
    sees { c3 } { muddy ( c1 ) , muddy ( c2 ) }\n\
    designated forall ( c : child ) muddy ( c ) ;\n\
    }\n\
    action father { announce exists ( c : child ) muddy ( c ) ;\n\
    }\n\
    action ask { announce forall ( c : child ) ( not knows c muddy ( c ) and not knows c not muddy ( c ) ) ;\n\
    }\n\
    goal forall ( c : child ) knows c muddy ( c ) ;\n";

#[test]
fn the_text_for_one_child_and_for_three(rt: HostRuntime) -> Result<(), Fail> {
    for (children, want) in [(1, ONE), (3, THREE)] {
        let text = trial_text(rt.alloc(), children)?;
        assert_eq!(rt; text.as_slice(), want.as_bytes(), "for {children}");
    }
    Ok(())
}

// Frees a tree in a function of its own, so that no test's proof has its many parts.
fn discard(_tree: TaskTree) {}

// The layout of the task that the bytes write.
fn layout(rt: &impl Abort, alloc: Global, bytes: &[u8]) -> Result<Text, Fail> {
    assert!(rt; bytes.len() <= 1_048_576);
    let found = tokens(alloc, bytes)?;
    let tree = read_task(alloc, bytes, &found)?;
    let printed = print_task(alloc, &tree);
    discard(tree);
    Ok(printed?)
}

#[test]
fn texts_of_trials_are_layouts_of_tasks(rt: HostRuntime) -> Result<(), Fail> {
    for children in [1, 2, 3, 4, 5, 6, 7, 8] {
        let text = trial_text(rt.alloc(), children)?;
        let layout = layout(&rt, rt.alloc(), text.as_slice())?;
        assert_eq!(rt; layout.as_slice(), text.as_slice(), "for {children}");
    }
    Ok(())
}
