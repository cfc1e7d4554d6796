//! The readers of plan files.

ghost use Rattle.std.specs.Prelude.{◌≡◌};
ghost use Rattle.ep_reader.specs.Gives.{Gives};
ghost use Rattle.ep_syntax.specs.PlanReading as reading;

use crate::atom::parse_arguments;
use crate::language::TaskLanguage;
use ep_reader::{Parse, Reader, SyntaxError, parse_each};
use ep_tree::{CallTree, Name, PlanTree, Terminal};
use std::alloc::Global;

impl Parse<TaskLanguage> for CallTree {
    ghost use Rattle.ep_tree.specs.Terminals.{is_name};
    ghost use Rattle.ep_syntax.specs.PlanReading.{call};

    ghost starts = { is_name };

    ghost reads = { call };

    fn begins(reader: &Reader) -> bool {
        reader.sees_name()
    }

    #[tactic(auto, unfolding(crate::specs::PlanReading::call))]
    fn parse(reader: &mut Reader, alloc: Global) -> Result<CallTree, SyntaxError> {
        let name = reader.expect_name(alloc)?;
        let args = parse_arguments(reader, alloc)?;
        Ok(CallTree { name, args })
    }
}

// `version 'task' NAME`
fn parse_title(reader: &mut Reader, alloc: Global, version: Terminal) -> Result<Name, SyntaxError>
    ensures { Gives (reading.title version) reader.old result reader.new }
{
    reader.expect(version)?;
    reader.expect(Terminal::Task)?;
    reader.expect_name(alloc)
}

// What stands between `plan` and `actions`: the task, and its plan's cost in a file of version 2.
#[tactic(auto, unfolding(crate::specs::PlanReading::heading))]
fn parse_heading(reader: &mut Reader, alloc: Global) -> Result<(Name, Option<u32>), SyntaxError>
    ensures { Gives reading.heading reader.old result reader.new }
{
    if reader.sees(Terminal::One) {
        let task = parse_title(reader, alloc, Terminal::One)?;
        Ok((task, None))
    } else {
        let task = parse_title(reader, alloc, Terminal::Two)?;
        reader.expect(Terminal::Cost)?;
        let cost = reader.expect_count()?;
        Ok((task, Some(cost)))
    }
}

impl Parse<TaskLanguage> for PlanTree {
    ghost use Rattle.ep_tree.specs.Terminals.{is};
    ghost use Rattle.ep_syntax.specs.PlanReading.{plan};
    ghost use Rattle.ep_tree.specs.declared.terminal.Terminal.TheVariants as the;

    ghost starts = { is the.Plan };

    ghost reads = { plan };

    fn begins(reader: &Reader) -> bool {
        reader.sees(Terminal::Plan)
    }

    #[tactic(auto, unfolding(crate::specs::PlanReading::plan))]
    fn parse(reader: &mut Reader, alloc: Global) -> Result<PlanTree, SyntaxError> {
        reader.expect(Terminal::Plan)?;
        let (task, cost) = parse_heading(reader, alloc)?;
        reader.expect(Terminal::Actions)?;
        let count = reader.expect_count()?;
        let calls = parse_each(reader, alloc)?;
        reader.expect(Terminal::End)?;
        Ok(PlanTree {
            task,
            cost,
            count,
            calls,
        })
    }
}
