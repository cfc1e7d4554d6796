//! Tasks: declarations in file order, and what follows them.

ghost use Rattle.std.specs.Prelude.{◌≡◌, [], IfOk, OnOk, unwrap_or};
ghost use Rattle.ep_types.specs.Atoms.{texts};
ghost use Rattle.ep_types.specs.Faults.{IsJudged};
ghost use Rattle.ep_types.specs.Places.{closed};
ghost use Rattle.ep_types.specs.Tasks as spec;
ghost use Rattle.ep_types.specs.Uses.{formula_uses};

use crate::fault::TypeError;
use crate::formula::check_formula_in;
use crate::init::check_init;
use crate::judge::{check_new_name, check_new_type, check_param_type, check_used_type};
use crate::schema::check_schemas;
use crate::scope::{Declared, Frame};
use crate::table::{Table, copy_text};
use crate::types::Types;
use ep_base::List;
use ep_tree::{FluentTree, FormulaTree, Name, ObjectTree, TaskTree, TypeTree};
use std::alloc::{AllocError, Global};

/// The names that are declared from the start.
fn make_start(alloc: Global) -> Result<Declared, AllocError>
    ensures { IfOk result (λ names. names ≡ spec.start) }
{
    let types = Types::start(alloc)?;
    Ok(Declared {
        types,
        objects: Table::new(alloc),
        fluents: Table::new(alloc),
    })
}

fn declare_types(alloc: Global, names: &mut Declared, list: &[TypeTree]) -> Result<(), TypeError>
    ensures judged { IsJudged (spec.type_uses names.old list.now) result }
    ensures after { OnOk result (names.new ≡ spec.after_types names.old list.now) }
{
    for entry in list {
        check_new_type(&names.types, &entry.name)?;
        check_used_type(&names.types, &entry.parent)?;
        let parent = entry.parent.text.as_slice();
        names.types.add(alloc, entry.name.text.as_slice(), parent)?;
    }
    Ok(())
}

/// Objects of one type.
fn declare_alike(
    alloc: Global,
    names: &mut Declared,
    kind: &Name,
    list: &[Name],
) -> Result<(), TypeError>
    ensures judged { IsJudged (spec.name_uses names.old kind.now.text list.now) result }
    ensures after { OnOk result (names.new ≡ spec.with_objects names.old kind.now.text list.now) }
{
    for name in list {
        check_new_name(&names.objects, name)?;
        let copy = copy_text(alloc, &kind.text)?;
        names.objects.add(alloc, name.text.as_slice(), copy)?;
    }
    Ok(())
}

fn declare_objects(
    alloc: Global,
    names: &mut Declared,
    list: &[ObjectTree],
) -> Result<(), TypeError>
    ensures judged { IsJudged (spec.object_uses names.old list.now) result }
    ensures after { OnOk result (names.new ≡ spec.after_objects names.old list.now) }
{
    for entry in list {
        declare_alike(alloc, names, &entry.kind, entry.names.as_slice())?;
        check_used_type(&names.types, &entry.kind)?;
    }
    Ok(())
}

/// The parameter types of a fluent.
fn check_kinds(types: &Types, list: &[Name]) -> Result<(), TypeError>
    ensures { IsJudged (spec.kind_uses types.now 0 list.now) result }
{
    for (number, kind) in list.iter().enumerate() {
        check_param_type(types, number, kind)?;
    }
    Ok(())
}

fn copy_texts(alloc: Global, list: &[Name]) -> Result<List<List<u8>>, AllocError>
    ensures { IfOk result (λ copies. copies ≡ texts list.now) }
{
    let mut copies = Vec::new(alloc);
    for name in list {
        copies.push(copy_text(alloc, &name.text)?)?;
    }
    Ok(List::from_vec(copies))
}

fn declare_fluents(
    alloc: Global,
    names: &mut Declared,
    list: &[FluentTree],
) -> Result<(), TypeError>
    ensures judged { IsJudged (spec.fluent_uses names.old list.now) result }
    ensures after { OnOk result (names.new ≡ spec.after_fluents names.old list.now) }
{
    for entry in list {
        check_new_name(&names.fluents, &entry.name)?;
        check_kinds(&names.types, entry.kinds.as_slice())?;
        let copies = copy_texts(alloc, entry.kinds.as_slice())?;
        names
            .fluents
            .add(alloc, entry.name.text.as_slice(), copies)?;
    }
    Ok(())
}

fn declare_types_of(
    alloc: Global,
    names: &mut Declared,
    list: &Option<List<TypeTree>>,
) -> Result<(), TypeError>
    ensures judged { IsJudged (spec.type_uses names.old (unwrap_or list.now [])) result }
    ensures after { OnOk result (names.new ≡ spec.after_types names.old (unwrap_or list.now [])) }
{
    match list {
        None => Ok(()),
        Some(entries) => declare_types(alloc, names, entries.as_slice()),
    }
}

/// Checks the declarations of a task, and makes them.
fn declare(alloc: Global, names: &mut Declared, tree: &TaskTree) -> Result<(), TypeError>
    ensures judged { IsJudged (spec.declaration_uses names.old tree.now) result }
    ensures after { OnOk result (names.new ≡ spec.declarations_from names.old tree.now) }
{
    declare_types_of(alloc, names, &tree.types)?;
    declare_objects(alloc, names, tree.objects.as_slice())?;
    declare_fluents(alloc, names, tree.fluents.as_slice())?;
    Ok(())
}

/// A formula where no parameter is in force.
pub fn check_closed_formula(
    alloc: Global,
    names: &Declared,
    tree: &FormulaTree,
) -> Result<(), TypeError>
    ensures { IsJudged (formula_uses tree.now (closed names.now)) result }
{
    let mut frame = Frame::new(alloc, true);
    check_formula_in(alloc, names, &mut frame, tree)
}

/// The initial state, the schemas and the goal.
fn check_rest(alloc: Global, names: &Declared, tree: &TaskTree) -> Result<(), TypeError>
    ensures { IsJudged (spec.rest_uses names.now tree.now) result }
{
    check_init(alloc, names, &tree.init)?;
    check_schemas(alloc, names, tree.schemas.as_slice())?;
    check_closed_formula(alloc, names, &tree.goal)
}

/// Checks a task behind names that are declared.
fn check_task_from(alloc: Global, names: &mut Declared, tree: &TaskTree) -> Result<(), TypeError>
    ensures judged { IsJudged (spec.task_uses_from names.old tree.now) result }
    ensures after { OnOk result (names.new ≡ spec.declarations_from names.old tree.now) }
{
    declare(alloc, names, tree)?;
    check_rest(alloc, names, tree)
}

/// Checks a task, and gives the names that it declares.
pub fn check_task(alloc: Global, tree: &TaskTree) -> Result<Declared, TypeError>
    ensures judged { IsJudged (spec.task_uses tree.now) result }
    ensures declared { IfOk result (λ names. names ≡ spec.declarations tree.now) }
{
    let mut names = make_start(alloc)?;
    check_task_from(alloc, &mut names, tree)?;
    Ok(names)
}
