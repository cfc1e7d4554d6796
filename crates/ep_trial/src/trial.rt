//! The text of the puzzle.

ghost use Rattle.std.specs.Prelude.{◌≡◌, ◌++◌, IfOk, OnOk, map};
ghost use Rattle.ep_base.specs.Texts.{line, lines};
ghost use Rattle.ep_trial.specs.TrialText as spec;
ghost use Rattle.ep_trial.specs.TrialText.{listed};

use crate::children::{everyone, others};
use ep_base::{OutOfMemory, Text, TextBuilder};
use std::alloc::Global;

fn push_child(text: &mut TextBuilder, child: u32) -> Result<(), OutOfMemory>
    ensures { OnOk result (text.new ≡ text.old ++ spec.child child) }
{
    text.push("c")?;
    text.push_number(child)
}

#[tactic(auto, unfolding(crate::specs::TrialText::muddy))]
fn push_atom(text: &mut TextBuilder, child: u32) -> Result<(), OutOfMemory>
    ensures { OnOk result (text.new ≡ text.old ++ spec.muddy child) }
{
    text.push("muddy ( ")?;
    push_child(text, child)?;
    text.push(" )")
}

#[tactic(auto, unfolding(crate::specs::TrialText::listed))]
fn push_children(text: &mut TextBuilder, children: &[u32]) -> Result<(), OutOfMemory>
    ensures { OnOk result (text.new ≡ text.old ++ listed spec.child children.now) }
{
    let [first, more @ ..] = children else {
        return Ok(());
    };
    text.push(" ")?;
    push_child(text, *first)?;
    for child in more {
        text.push(" , ")?;
        push_child(text, *child)?;
    }
    Ok(())
}

#[tactic(auto, unfolding(crate::specs::TrialText::listed))]
fn push_atoms(text: &mut TextBuilder, children: &[u32]) -> Result<(), OutOfMemory>
    ensures { OnOk result (text.new ≡ text.old ++ listed spec.muddy children.now) }
{
    let [first, more @ ..] = children else {
        return Ok(());
    };
    text.push(" ")?;
    push_atom(text, *first)?;
    for child in more {
        text.push(" , ")?;
        push_atom(text, *child)?;
    }
    Ok(())
}

fn push_declarations(text: &mut TextBuilder, children: &[u32]) -> Result<(), OutOfMemory>
    ensures { OnOk result (text.new ≡ text.old ++ lines (spec.declaration_lines children.now)) }
{
    text.push("task muddy ;\ntypes { child < agent ;\n}\nobjects {")?;
    push_children(text, children)?;
    text.push(" : child ;\n}\nfluents { muddy ( child ) ;\n}\n")?;
    Ok(())
}

#[tactic(auto, unfolding(crate::specs::TrialText::sees_line))]
fn push_sees_line(
    alloc: Global,
    text: &mut TextBuilder,
    children: &[u32],
    own: u32,
) -> Result<(), OutOfMemory>
    ensures { OnOk result (text.new ≡ text.old ++ line (spec.sees_line children.now own)) }
{
    let others = others(alloc, children, own)?;
    text.push("sees { ")?;
    push_child(text, own)?;
    text.push(" } {")?;
    push_atoms(text, &others)?;
    text.push(" }\n")
}

fn push_sees_lines(
    alloc: Global,
    text: &mut TextBuilder,
    children: &[u32],
) -> Result<(), OutOfMemory>
    ensures { OnOk result (text.new ≡ text.old ++ lines (map (spec.sees_line children.now) children.now)) }
{
    for child in children {
        push_sees_line(alloc, text, children, *child)?;
    }
    Ok(())
}

fn push_initial(alloc: Global, text: &mut TextBuilder, children: &[u32]) -> Result<(), OutOfMemory>
    ensures { OnOk result (text.new ≡ text.old ++ lines (spec.initial_lines children.now)) }
{
    text.push("init {\nvary {")?;
    push_atoms(text, children)?;
    text.push(" }\nlaw true ;\n")?;
    push_sees_lines(alloc, text, children)?;
    text.push("designated forall ( c : child ) muddy ( c ) ;\n}\n")?;
    Ok(())
}

#[tactic(auto, unfolding(crate::specs::TrialText::action_lines))]
fn push_actions(text: &mut TextBuilder) -> Result<(), OutOfMemory>
    ensures { OnOk result (text.new ≡ text.old ++ lines spec.action_lines) }
{
    text.push(
        "action father { announce exists ( c : child ) muddy ( c ) ;\n}\n\
        action ask { announce forall ( c : child ) ( not knows c muddy ( c ) and not knows c not muddy ( c ) ) ;\n}\n\
        goal forall ( c : child ) knows c muddy ( c ) ;\n",
    )
}

/// The text of the muddy children puzzle as a task, for so many children, all of them muddy: each child sees the others and
/// not itself, the father announces that some child is muddy, and the question announces that no child knows whether it is.
/// The source is van Ditmarsch, van der Hoek and Kooi, *Dynamic Epistemic Logic*.
pub fn trial_text(alloc: Global, children: u32) -> Result<Text, OutOfMemory>
    ensures { IfOk result (λ text. text ≡ spec.trial_text children) }
{
    let children = everyone(alloc, children)?;
    let mut text = TextBuilder::new(alloc);
    push_declarations(&mut text, &children)?;
    push_initial(alloc, &mut text, &children)?;
    push_actions(&mut text)?;
    Ok(text.finish())
}
