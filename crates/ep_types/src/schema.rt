//! Schemas.

ghost use Rattle.std.specs.Prelude.{◌≡◌, ◌++◌, [], OnOk};
ghost use Rattle.ep_types.specs.Faults.{IsJudged};
ghost use Rattle.ep_types.specs.Names.{names_of};
ghost use Rattle.ep_types.specs.Places.{scope, closed, both};
ghost use Rattle.ep_types.specs.Tasks as spec;

use crate::fault::TypeError;
use crate::formula::{bring_into_force, check_formula_in};
use crate::judge::{check_atom, check_group, check_new_name};
use crate::links::check_ends;
use crate::scope::{Declared, Frame};
use crate::table::Table;
use ep_base::List;
use ep_tree::{BodyTree, EventTree, FormulaTree, GroupTree, LinkTree, Name, SchemaTree, SetTree};
use std::alloc::Global;

/// Checks assignments. The parameters in force stay.
fn check_sets(
    alloc: Global,
    names: &Declared,
    frame: &mut Frame,
    list: &[SetTree],
) -> Result<(), TypeError>
    ensures judged { IsJudged (spec.sets_uses list.now (scope names.now frame.old)) result }
    ensures kept { OnOk result (frame.new ≡ frame.old) }
{
    for entry in list {
        check_atom(names, frame, &entry.atom)?;
        check_formula_in(alloc, names, frame, &entry.value)?;
    }
    Ok(())
}

/// A condition, and the assignments under it.
fn check_effect(
    alloc: Global,
    names: &Declared,
    frame: &mut Frame,
    condition: &FormulaTree,
    list: &List<SetTree>,
) -> Result<(), TypeError>
    ensures judged { IsJudged (spec.effect_uses condition.now list.now (scope names.now frame.old)) result }
    ensures kept { OnOk result (frame.new ≡ frame.old) }
{
    check_formula_in(alloc, names, frame, condition)?;
    check_sets(alloc, names, frame, list.as_slice())
}

/// Checks events, and adds them to those before.
fn check_events(
    alloc: Global,
    names: &Declared,
    frame: &mut Frame,
    before: &mut Table<()>,
    list: &[EventTree],
) -> Result<(), TypeError>
    ensures judged { IsJudged (spec.event_uses (names_of before.old) list.now (scope names.now frame.old)) result }
    ensures kept { OnOk result (frame.new ≡ frame.old) }
    ensures after { OnOk result (names_of before.new ≡ names_of before.old ++ spec.event_names list.now) }
{
    for entry in list {
        check_new_name(before, &entry.name)?;
        check_effect(alloc, names, frame, &entry.pre, &entry.sets)?;
        before.add(alloc, entry.name.text.as_slice(), ())?;
    }
    Ok(())
}

/// Events behind those before, the designated ones and the links.
fn check_events_and_links(
    alloc: Global,
    names: &Declared,
    frame: &mut Frame,
    before: &mut Table<()>,
    list: &List<EventTree>,
    chosen: &List<Name>,
    links: &List<LinkTree>,
) -> Result<(), TypeError>
    ensures { IsJudged (both (spec.event_uses (names_of before.old) list.now (scope names.now frame.old)) (spec.ends_uses (names_of before.old ++ spec.event_names list.now) chosen.now links.now (scope names.now frame.old))) result }
{
    check_events(alloc, names, frame, before, list.as_slice())?;
    check_ends(names, frame, before, chosen.as_slice(), links.as_slice())
}

fn check_general(
    alloc: Global,
    names: &Declared,
    frame: &mut Frame,
    list: &List<EventTree>,
    chosen: &List<Name>,
    links: &List<LinkTree>,
) -> Result<(), TypeError>
    ensures { IsJudged (spec.general_uses list.now chosen.now links.now (scope names.now frame.old)) result }
{
    let mut before = Table::new(alloc);
    check_events_and_links(alloc, names, frame, &mut before, list, chosen, links)
}

/// What is told or found out, and the group.
fn check_told(
    alloc: Global,
    names: &Declared,
    frame: &mut Frame,
    what: &FormulaTree,
    who: &GroupTree,
) -> Result<(), TypeError>
    ensures { IsJudged (spec.told_uses what.now who.now (scope names.now frame.old)) result }
{
    check_formula_in(alloc, names, frame, what)?;
    check_group(names, frame, who)?;
    Ok(())
}

fn check_body(
    alloc: Global,
    names: &Declared,
    frame: &mut Frame,
    tree: &BodyTree,
) -> Result<(), TypeError>
    ensures { IsJudged (spec.body_uses tree.now (scope names.now frame.old)) result }
{
    match tree {
        BodyTree::Announce { what } => check_formula_in(alloc, names, frame, what),
        BodyTree::Private { what, group: who } => check_told(alloc, names, frame, what, who),
        BodyTree::Sense { what, group: who } => check_told(alloc, names, frame, what, who),
        BodyTree::Assign { guard, sets: list } => check_effect(alloc, names, frame, guard, list),
        BodyTree::Events {
            events: list,
            designated: chosen,
            links,
        } => check_general(alloc, names, frame, list, chosen, links),
    }
}

/// The parameters and the body of a schema.
fn check_params_and_body(
    alloc: Global,
    names: &Declared,
    frame: &mut Frame,
    tree: &SchemaTree,
) -> Result<(), TypeError>
    ensures { IsJudged (spec.inner_uses tree.now (scope names.now frame.old)) result }
{
    bring_into_force(alloc, names, frame, tree.params.as_slice())?;
    check_body(alloc, names, frame, &tree.body)
}

fn check_schema(alloc: Global, names: &Declared, tree: &SchemaTree) -> Result<(), TypeError>
    ensures { IsJudged (spec.inner_uses tree.now (closed names.now)) result }
{
    let mut frame = Frame::new(alloc, true);
    check_params_and_body(alloc, names, &mut frame, tree)
}

/// Checks schemas behind those before.
fn check_schemas_behind(
    alloc: Global,
    names: &Declared,
    before: &mut Table<()>,
    list: &[SchemaTree],
) -> Result<(), TypeError>
    ensures { IsJudged (spec.schema_uses (names_of before.old) list.now names.now) result }
{
    for entry in list {
        check_new_name(before, &entry.name)?;
        check_schema(alloc, names, entry)?;
        before.add(alloc, entry.name.text.as_slice(), ())?;
    }
    Ok(())
}

pub fn check_schemas(alloc: Global, names: &Declared, list: &[SchemaTree]) -> Result<(), TypeError>
    ensures { IsJudged (spec.schema_uses [] list.now names.now) result }
{
    let mut before = Table::new(alloc);
    check_schemas_behind(alloc, names, &mut before, list)
}
