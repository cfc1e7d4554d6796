//! Readers of what stands before the initial state of a task.

ghost use Rattle.std.specs.Prelude.{◌≡◌};
ghost use Rattle.ep_reader.specs.Gives.{Gives};
ghost use Rattle.ep_syntax.specs.TaskReading as reading;

use crate::atom::parse_arguments;
use crate::language::TaskLanguage;
use ep_base::List;
use ep_reader::{Parse, Reader, SyntaxError, parse_braced_each, parse_listed};
use ep_tree::{FluentTree, ObjectTree, Terminal, TypeTree};
use std::alloc::Global;

/// Whether the relations are to be equivalences, as `frames s5;` says.
#[tactic(auto, unfolding(crate::specs::TaskReading::frames))]
pub fn parse_frames(reader: &mut Reader) -> Result<bool, SyntaxError>
    ensures { Gives reading.frames reader.old result reader.new }
{
    if reader.sees(Terminal::Frames) {
        reader.expect(Terminal::Frames)?;
        reader.expect(Terminal::S5)?;
        reader.expect(Terminal::Semicolon)?;
        Ok(true)
    } else {
        Ok(false)
    }
}

impl Parse<TaskLanguage> for TypeTree {
    ghost use Rattle.ep_tree.specs.Terminals.{is_name};
    ghost use Rattle.ep_syntax.specs.TaskReading.{type_entry};

    ghost starts = { is_name };

    ghost reads = { type_entry };

    fn begins(reader: &Reader) -> bool {
        reader.sees_name()
    }

    #[tactic(auto, unfolding(crate::specs::TaskReading::type_entry))]
    fn parse(reader: &mut Reader, alloc: Global) -> Result<TypeTree, SyntaxError> {
        let name = reader.expect_name(alloc)?;
        reader.expect(Terminal::Less)?;
        let parent = reader.expect_name(alloc)?;
        reader.expect(Terminal::Semicolon)?;
        Ok(TypeTree { name, parent })
    }
}

/// The part `types`, if it is written.
#[tactic(auto, unfolding(crate::specs::TaskReading::types))]
pub fn parse_types(
    reader: &mut Reader,
    alloc: Global,
) -> Result<Option<List<TypeTree>>, SyntaxError>
    ensures { Gives reading.types reader.old result reader.new }
{
    if reader.sees(Terminal::Types) {
        reader.expect(Terminal::Types)?;
        let types = parse_braced_each(reader, alloc)?;
        Ok(Some(types))
    } else {
        Ok(None)
    }
}

impl Parse<TaskLanguage> for ObjectTree {
    ghost use Rattle.ep_tree.specs.Terminals.{is_name};
    ghost use Rattle.ep_syntax.specs.TaskReading.{object_entry};

    ghost starts = { is_name };

    ghost reads = { object_entry };

    fn begins(reader: &Reader) -> bool {
        reader.sees_name()
    }

    #[tactic(auto, unfolding(crate::specs::TaskReading::object_entry))]
    fn parse(reader: &mut Reader, alloc: Global) -> Result<ObjectTree, SyntaxError> {
        let names = parse_listed(reader, alloc)?;
        reader.expect(Terminal::Colon)?;
        let kind = reader.expect_name(alloc)?;
        reader.expect(Terminal::Semicolon)?;
        Ok(ObjectTree { names, kind })
    }
}

#[tactic(auto, unfolding(crate::specs::TaskReading::objects))]
pub fn parse_objects(reader: &mut Reader, alloc: Global) -> Result<List<ObjectTree>, SyntaxError>
    ensures { Gives reading.objects reader.old result reader.new }
{
    reader.expect(Terminal::Objects)?;
    parse_braced_each(reader, alloc)
}

impl Parse<TaskLanguage> for FluentTree {
    ghost use Rattle.ep_tree.specs.Terminals.{is_name};
    ghost use Rattle.ep_syntax.specs.TaskReading.{fluent_entry};

    ghost starts = { is_name };

    ghost reads = { fluent_entry };

    fn begins(reader: &Reader) -> bool {
        reader.sees_name()
    }

    #[tactic(auto, unfolding(crate::specs::TaskReading::fluent_entry))]
    fn parse(reader: &mut Reader, alloc: Global) -> Result<FluentTree, SyntaxError> {
        let name = reader.expect_name(alloc)?;
        let kinds = parse_arguments(reader, alloc)?;
        reader.expect(Terminal::Semicolon)?;
        Ok(FluentTree { name, kinds })
    }
}

#[tactic(auto, unfolding(crate::specs::TaskReading::fluents))]
pub fn parse_fluents(reader: &mut Reader, alloc: Global) -> Result<List<FluentTree>, SyntaxError>
    ensures { Gives reading.fluents reader.old result reader.new }
{
    reader.expect(Terminal::Fluents)?;
    parse_braced_each(reader, alloc)
}
