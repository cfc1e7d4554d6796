//! The fault at one token, and at the names of a list. Nothing here takes memory.

ghost use Rattle.std.specs.Prelude.{◌≡◌, length};
ghost use Rattle.ep_base.specs.Refusals.{told};
ghost use Rattle.ep_types.specs.Faults.{first_error, IsJudged};
ghost use Rattle.ep_types.specs.Names.{names_of};
ghost use Rattle.ep_types.specs.Places.{at, scope, NewName, NewParam, ParamType, UsedName, UsedObject, Argument, Agent, Knowledge};
ghost use Rattle.ep_types.specs.Uses.{agent_uses, group_uses, argument_uses, atom_uses, fact_uses};

use crate::atoms::AtomSet;
use crate::fault::{TypeError, TypeFault};
use crate::scope::{Declared, Frame, find_type};
use crate::table::Table;
use crate::types::Types;
use ep_base::List;
use ep_binding::MOST_PARAMETERS;
use ep_tree::{AtomTree, GroupTree, Name};
use std::alloc::Global;

/// A fault at a name.
pub fn report_at(fault: TypeFault, name: &Name) -> Result<(), TypeError>
    ensures { result ≡ Err (TypeError.At fault name.now.token) }
{
    Err(TypeError::At {
        fault,
        token: name.token,
    })
}

/// A declared object, fluent, schema, world or event.
pub fn check_new_name<V: Drop>(list: &Table<V>, name: &Name) -> Result<(), TypeError>
    ensures { result ≡ told (first_error (at name.now.token (NewName name.now.text (names_of list.now)))) }
{
    if list.has(name.text.as_slice()) {
        return report_at(TypeFault::Duplicate, name);
    }
    Ok(())
}

/// A declared type.
pub fn check_new_type(types: &Types, name: &Name) -> Result<(), TypeError>
    ensures { result ≡ told (first_error (at name.now.token (NewName name.now.text (names_of types.now)))) }
{
    if types.has(name.text.as_slice()) {
        return report_at(TypeFault::Duplicate, name);
    }
    Ok(())
}

/// A used type.
pub fn check_used_type(types: &Types, name: &Name) -> Result<(), TypeError>
    ensures { result ≡ told (first_error (at name.now.token (UsedName name.now.text (names_of types.now)))) }
{
    if types.has(name.text.as_slice()) {
        return Ok(());
    }
    report_at(TypeFault::Unknown, name)
}

/// A used world or event.
pub fn check_used_name(list: &Table<()>, name: &Name) -> Result<(), TypeError>
    ensures { result ≡ told (first_error (at name.now.token (UsedName name.now.text (names_of list.now)))) }
{
    if list.has(name.text.as_slice()) {
        return Ok(());
    }
    report_at(TypeFault::Unknown, name)
}

/// A parameter with its number in its list.
pub fn check_new_param(
    names: &Declared,
    frame: &Frame,
    number: usize,
    name: &Name,
) -> Result<(), TypeError>
    ensures { result ≡ told (first_error (at name.now.token (NewParam number name.now.text (scope names.now frame.now)))) }
{
    if number == MOST_PARAMETERS {
        return report_at(TypeFault::TooManyParameters, name);
    }
    match find_type(names, frame, name.text.as_slice()) {
        Some(_) => report_at(TypeFault::Duplicate, name),
        None => Ok(()),
    }
}

/// A parameter type of a fluent with its number in its list.
pub fn check_param_type(types: &Types, number: usize, name: &Name) -> Result<(), TypeError>
    ensures { result ≡ told (first_error (at name.now.token (ParamType number name.now.text (names_of types.now)))) }
{
    if number == MOST_PARAMETERS {
        return report_at(TypeFault::TooManyParameters, name);
    }
    if types.has(name.text.as_slice()) {
        return Ok(());
    }
    report_at(TypeFault::Unknown, name)
}

/// A parameter or an object in an equality.
pub fn check_used_object(names: &Declared, frame: &Frame, name: &Name) -> Result<(), TypeError>
    ensures { result ≡ told (first_error (at name.now.token (UsedObject name.now.text (scope names.now frame.now)))) }
{
    match find_type(names, frame, name.text.as_slice()) {
        Some(_) => Ok(()),
        None => report_at(TypeFault::Unknown, name),
    }
}

/// An argument with the type at its place.
pub fn check_argument(
    names: &Declared,
    frame: &Frame,
    name: &Name,
    wanted: &[u8],
) -> Result<(), TypeError>
    ensures { result ≡ told (first_error (at name.now.token (Argument name.now.text wanted.now (scope names.now frame.now)))) }
{
    match find_type(names, frame, name.text.as_slice()) {
        None => report_at(TypeFault::Unknown, name),
        Some(kind) => {
            if names.types.is_below(kind.as_slice(), wanted) {
                Ok(())
            } else {
                report_at(TypeFault::WrongType, name)
            }
        }
    }
}

/// A name after `knows` or in a group.
pub fn check_agent(names: &Declared, frame: &Frame, name: &Name) -> Result<(), TypeError>
    ensures { result ≡ told (first_error (at name.now.token (Agent name.now.text (scope names.now frame.now)))) }
{
    match find_type(names, frame, name.text.as_slice()) {
        None => report_at(TypeFault::Unknown, name),
        Some(kind) => {
            if names.types.is_below(kind.as_slice(), b"agent") {
                Ok(())
            } else {
                report_at(TypeFault::NotAgent, name)
            }
        }
    }
}

/// `knows` or `common`.
pub fn check_knowledge(frame: &Frame, token: u32) -> Result<(), TypeError>
    ensures { result ≡ told (first_error (at token (Knowledge frame.now.knowledge))) }
{
    if frame.knowledge {
        return Ok(());
    }
    Err(TypeError::At {
        fault: TypeFault::NotObjective,
        token,
    })
}

/// The names after `knows` or in a group.
fn check_agents(names: &Declared, frame: &Frame, members: &[Name]) -> Result<(), TypeError>
    ensures { result ≡ told (first_error (agent_uses members.now (scope names.now frame.now))) }
{
    for member in members {
        check_agent(names, frame, member)?;
    }
    Ok(())
}

pub fn check_group(names: &Declared, frame: &Frame, tree: &GroupTree) -> Result<(), TypeError>
    ensures { result ≡ told (first_error (group_uses tree.now (scope names.now frame.now))) }
{
    match tree {
        GroupTree::All { .. } => Ok(()),
        GroupTree::Members {
            token,
            names: members,
        } => {
            let members = members.as_slice();
            if members.is_empty() {
                return Err(TypeError::At {
                    fault: TypeFault::EmptyGroup,
                    token: *token,
                });
            }
            check_agents(names, frame, members)
        }
    }
}

/// The arguments of an atom, whose fluent has these types.
pub fn check_arguments(
    names: &Declared,
    frame: &Frame,
    args: &[Name],
    kinds: &[List<u8>],
) -> Result<(), TypeError>
    requires { length args.now ≡ length kinds.now }
    ensures { result ≡ told (first_error (argument_uses args.now kinds.now (scope names.now frame.now))) }
{
    for (i, name) in args.iter().enumerate() {
        check_argument(names, frame, name, kinds[i].as_slice())?;
    }
    Ok(())
}

pub fn check_atom(names: &Declared, frame: &Frame, tree: &AtomTree) -> Result<(), TypeError>
    ensures { result ≡ told (first_error (atom_uses tree.now (scope names.now frame.now))) }
{
    let args = tree.args.as_slice();
    match names.fluents.get(tree.name.text.as_slice()) {
        None => report_at(TypeFault::Unknown, &tree.name),
        Some(kinds) => {
            let kinds = kinds.as_slice();
            if args.len() != kinds.len() {
                return report_at(TypeFault::WrongArity, &tree.name);
            }
            check_arguments(names, frame, args, kinds)
        }
    }
}

/// An atom of the facts, which is not to be varied.
pub fn check_fact(
    alloc: Global,
    names: &Declared,
    frame: &Frame,
    varied: &AtomSet,
    tree: &AtomTree,
) -> Result<(), TypeError>
    ensures { IsJudged (fact_uses varied.now tree.now (scope names.now frame.now)) result }
{
    if varied.has(alloc, tree)? {
        return report_at(TypeFault::Duplicate, &tree.name);
    }
    check_atom(names, frame, tree)
}
