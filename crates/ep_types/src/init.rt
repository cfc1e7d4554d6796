//! Initial states.

ghost use Rattle.std.specs.Prelude.{◌≡◌, ◌++◌, OnOk, IfOk};
ghost use Rattle.ep_types.specs.Atoms.{IsSetOf};
ghost use Rattle.ep_types.specs.Faults.{IsJudged};
ghost use Rattle.ep_types.specs.Names.{names_of};
ghost use Rattle.ep_types.specs.Places.{scope, objective, both, each};
ghost use Rattle.ep_types.specs.Tasks as spec;
ghost use Rattle.ep_types.specs.Uses.{fact_uses};

use crate::atoms::AtomSet;
use crate::fault::TypeError;
use crate::formula::check_formula_in;
use crate::judge::{check_fact, check_group, check_new_name};
use crate::links::{check_atoms, check_ends};
use crate::scope::{Declared, Frame};
use crate::table::Table;
use ep_base::List;
use ep_tree::{AtomTree, FormulaTree, InitTree, LinkTree, Name, SeesTree, WorldTree};
use std::alloc::{AllocError, Global};

/// Checks worlds, and adds them to those before.
fn check_worlds(
    alloc: Global,
    names: &Declared,
    frame: &Frame,
    before: &mut Table<()>,
    list: &[WorldTree],
) -> Result<(), TypeError>
    ensures judged { IsJudged (spec.world_uses (names_of before.old) list.now (scope names.now frame.now)) result }
    ensures after { OnOk result (names_of before.new ≡ names_of before.old ++ spec.world_names list.now) }
{
    for entry in list {
        check_new_name(before, &entry.name)?;
        check_atoms(names, frame, entry.atoms.as_slice())?;
        before.add(alloc, entry.name.text.as_slice(), ())?;
    }
    Ok(())
}

/// Worlds behind those before, the designated ones and the links.
fn check_worlds_and_links(
    alloc: Global,
    names: &Declared,
    frame: &Frame,
    before: &mut Table<()>,
    list: &List<WorldTree>,
    chosen: &List<Name>,
    links: &List<LinkTree>,
) -> Result<(), TypeError>
    ensures { IsJudged (both (spec.world_uses (names_of before.old) list.now (scope names.now frame.now)) (spec.ends_uses (names_of before.old ++ spec.world_names list.now) chosen.now links.now (scope names.now frame.now))) result }
{
    check_worlds(alloc, names, frame, before, list.as_slice())?;
    check_ends(names, frame, before, chosen.as_slice(), links.as_slice())
}

fn check_explicit(
    alloc: Global,
    names: &Declared,
    frame: &Frame,
    list: &List<WorldTree>,
    chosen: &List<Name>,
    links: &List<LinkTree>,
) -> Result<(), TypeError>
    ensures { IsJudged (spec.explicit_uses list.now chosen.now links.now (scope names.now frame.now)) result }
{
    let mut before = Table::new(alloc);
    check_worlds_and_links(alloc, names, frame, &mut before, list, chosen, links)
}

/// The varied atoms.
fn collect_varied(alloc: Global, list: &[AtomTree]) -> Result<AtomSet, AllocError>
    ensures { IfOk result (IsSetOf list.now) }
{
    let mut set = AtomSet::new(alloc);
    for entry in list {
        set.add(alloc, entry)?;
    }
    Ok(set)
}

/// Checks facts, none of which is in a set.
fn check_facts_apart(
    alloc: Global,
    names: &Declared,
    frame: &Frame,
    set: &AtomSet,
    list: &[AtomTree],
) -> Result<(), TypeError>
    ensures { IsJudged (each (λ a. fact_uses set.now a (scope names.now frame.now)) list.now) result }
{
    for entry in list {
        check_fact(alloc, names, frame, set, entry)?;
    }
    Ok(())
}

/// Checks facts, none of which is to be varied.
fn check_facts(
    alloc: Global,
    names: &Declared,
    frame: &Frame,
    vary: &[AtomTree],
    list: &[AtomTree],
) -> Result<(), TypeError>
    ensures { IsJudged (spec.facts_uses vary.now list.now (scope names.now frame.now)) result }
{
    let set = collect_varied(alloc, vary)?;
    check_facts_apart(alloc, names, frame, &set, list)
}

/// Checks who sees what.
fn check_sees(names: &Declared, frame: &Frame, list: &[SeesTree]) -> Result<(), TypeError>
    ensures { IsJudged (spec.sees_uses list.now (scope names.now frame.now)) result }
{
    for entry in list {
        check_group(names, frame, &entry.group)?;
        check_atoms(names, frame, entry.atoms.as_slice())?;
    }
    Ok(())
}

/// The varied atoms, and the facts.
fn check_given(
    alloc: Global,
    names: &Declared,
    frame: &Frame,
    vary: &List<AtomTree>,
    known: &Option<List<AtomTree>>,
) -> Result<(), TypeError>
    ensures { IsJudged (spec.given_uses vary.now known.now (scope names.now frame.now)) result }
{
    check_atoms(names, frame, vary.as_slice())?;
    match known {
        None => Ok(()),
        Some(list) => check_facts(alloc, names, frame, vary.as_slice(), list.as_slice()),
    }
}

/// The law, who sees what, and the formula of the designated worlds.
fn check_law(
    alloc: Global,
    names: &Declared,
    frame: &mut Frame,
    first: &FormulaTree,
    seen: &List<SeesTree>,
    chosen: &FormulaTree,
) -> Result<(), TypeError>
    ensures { IsJudged (spec.law_uses first.now seen.now chosen.now (scope names.now frame.old)) result }
{
    check_formula_in(alloc, names, frame, first)?;
    check_sees(names, frame, seen.as_slice())?;
    check_formula_in(alloc, names, frame, chosen)
}

fn check_init_in(
    alloc: Global,
    names: &Declared,
    frame: &mut Frame,
    tree: &InitTree,
) -> Result<(), TypeError>
    ensures { IsJudged (spec.init_uses tree.now (scope names.now frame.old)) result }
{
    match tree {
        InitTree::Explicit {
            worlds: list,
            designated: chosen,
            links,
        } => check_explicit(alloc, names, frame, list, chosen, links),
        InitTree::Lawful {
            vary,
            facts: known,
            law: first,
            sees: seen,
            designated: chosen,
        } => {
            check_given(alloc, names, frame, vary, known)?;
            check_law(alloc, names, frame, first, seen, chosen)
        }
    }
}

pub fn check_init(alloc: Global, names: &Declared, tree: &InitTree) -> Result<(), TypeError>
    ensures { IsJudged (spec.init_uses tree.now (objective names.now)) result }
{
    let mut frame = Frame::new(alloc, false);
    check_init_in(alloc, names, &mut frame, tree)
}
