//! The reader of tasks.

use crate::declarations::{parse_fluents, parse_frames, parse_objects, parse_types};
use crate::initial::{parse_init, parse_statement};
use crate::language::TaskLanguage;
use ep_reader::{Parse, Reader, SyntaxError, parse_each};
use ep_tree::{TaskTree, Terminal};
use std::alloc::Global;

impl Parse<TaskLanguage> for TaskTree {
    ghost use Rattle.ep_tree.specs.Terminals.{is};
    ghost use Rattle.ep_syntax.specs.TaskReading.{task};
    ghost use Rattle.ep_tree.specs.declared.terminal.Terminal.TheVariants as the;

    ghost starts = { is the.Task };

    ghost reads = { task };

    fn begins(reader: &Reader) -> bool {
        reader.sees(Terminal::Task)
    }

    #[tactic(auto, unfolding(crate::specs::TaskReading::task, crate::specs::TaskReading::declarations))]
    fn parse(reader: &mut Reader, alloc: Global) -> Result<TaskTree, SyntaxError> {
        reader.expect(Terminal::Task)?;
        let name = reader.expect_name(alloc)?;
        reader.expect(Terminal::Semicolon)?;
        let s5 = parse_frames(reader)?;
        let types = parse_types(reader, alloc)?;
        let objects = parse_objects(reader, alloc)?;
        let fluents = parse_fluents(reader, alloc)?;
        let init = parse_init(reader, alloc)?;
        let schemas = parse_each(reader, alloc)?;
        let goal = parse_statement(reader, alloc, Terminal::Goal)?;
        Ok(TaskTree {
            name,
            s5,
            types,
            objects,
            fluents,
            init,
            schemas,
            goal,
        })
    }
}
