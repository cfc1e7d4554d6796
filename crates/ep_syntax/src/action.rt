//! Readers of the actions of a task.

ghost use Rattle.std.specs.Prelude.{◌≡◌};
ghost use Rattle.ep_reader.specs.Gives.{Gives};
ghost use Rattle.ep_syntax.specs.TaskReading as reading;

use crate::atom::{parse_group, parse_params};
use crate::initial::{parse_designated, parse_statement};
use crate::language::TaskLanguage;
use ep_base::List;
use ep_bounds::MOST_COST;
use ep_reader::{Parse, Reader, SyntaxError, parse_braced_each, parse_each, parse_some_each};
use ep_tree::{
    AtomTree, BodyTree, EventTree, FormulaTree, ParamTree, SchemaTree, SetTree, Terminal,
};
use std::alloc::Global;

impl Parse<TaskLanguage> for SetTree {
    ghost use Rattle.ep_tree.specs.Terminals.{is_name};
    ghost use Rattle.ep_syntax.specs.TaskReading.{set};

    ghost starts = { is_name };

    ghost reads = { set };

    fn begins(reader: &Reader) -> bool {
        reader.sees_name()
    }

    #[tactic(auto, unfolding(crate::specs::TaskReading::set))]
    fn parse(reader: &mut Reader, alloc: Global) -> Result<SetTree, SyntaxError> {
        let atom = AtomTree::parse(reader, alloc)?;
        reader.expect(Terminal::Becomes)?;
        let value = FormulaTree::parse(reader, alloc)?;
        reader.expect(Terminal::Semicolon)?;
        Ok(SetTree { atom, value })
    }
}

impl Parse<TaskLanguage> for EventTree {
    ghost use Rattle.ep_tree.specs.Terminals.{is};
    ghost use Rattle.ep_syntax.specs.TaskReading.{event};
    ghost use Rattle.ep_tree.specs.declared.terminal.Terminal.TheVariants as the;

    ghost starts = { is the.Event };

    ghost reads = { event };

    fn begins(reader: &Reader) -> bool {
        reader.sees(Terminal::Event)
    }

    #[tactic(auto, unfolding(crate::specs::TaskReading::event))]
    fn parse(reader: &mut Reader, alloc: Global) -> Result<EventTree, SyntaxError> {
        reader.expect(Terminal::Event)?;
        let name = reader.expect_name(alloc)?;
        reader.expect(Terminal::Pre)?;
        let pre = FormulaTree::parse(reader, alloc)?;
        let sets = parse_braced_each(reader, alloc)?;
        Ok(EventTree { name, pre, sets })
    }
}

#[tactic(auto, unfolding(crate::specs::TaskReading::private_message))]
fn parse_private_message(reader: &mut Reader, alloc: Global) -> Result<BodyTree, SyntaxError>
    ensures { Gives reading.private_message reader.old result reader.new }
{
    reader.expect(Terminal::Private)?;
    let what = FormulaTree::parse(reader, alloc)?;
    reader.expect(Terminal::To)?;
    let group = parse_group(reader, alloc)?;
    reader.expect(Terminal::Semicolon)?;
    Ok(BodyTree::Private { what, group })
}

#[tactic(auto, unfolding(crate::specs::TaskReading::sensing))]
fn parse_sensing(reader: &mut Reader, alloc: Global) -> Result<BodyTree, SyntaxError>
    ensures { Gives reading.sensing reader.old result reader.new }
{
    reader.expect(Terminal::Sense)?;
    let what = FormulaTree::parse(reader, alloc)?;
    reader.expect(Terminal::By)?;
    let group = parse_group(reader, alloc)?;
    reader.expect(Terminal::Semicolon)?;
    Ok(BodyTree::Sense { what, group })
}

#[tactic(auto, unfolding(crate::specs::TaskReading::assignment))]
fn parse_assignment(reader: &mut Reader, alloc: Global) -> Result<BodyTree, SyntaxError>
    ensures { Gives reading.assignment reader.old result reader.new }
{
    reader.expect(Terminal::Assign)?;
    reader.expect(Terminal::When)?;
    let guard = FormulaTree::parse(reader, alloc)?;
    let sets = parse_braced_each(reader, alloc)?;
    Ok(BodyTree::Assign { guard, sets })
}

#[tactic(auto, unfolding(crate::specs::TaskReading::events))]
fn parse_events(reader: &mut Reader, alloc: Global) -> Result<BodyTree, SyntaxError>
    ensures { Gives reading.events reader.old result reader.new }
{
    let events = parse_some_each(reader, alloc)?;
    let designated = parse_designated(reader, alloc)?;
    let links = parse_each(reader, alloc)?;
    Ok(BodyTree::Events {
        events,
        designated,
        links,
    })
}

#[tactic(auto, unfolding(crate::specs::TaskReading::body))]
fn parse_body(reader: &mut Reader, alloc: Global) -> Result<BodyTree, SyntaxError>
    ensures { Gives reading.body reader.old result reader.new }
{
    if reader.sees(Terminal::Announce) {
        let what = parse_statement(reader, alloc, Terminal::Announce)?;
        Ok(BodyTree::Announce { what })
    } else if reader.sees(Terminal::Private) {
        parse_private_message(reader, alloc)
    } else if reader.sees(Terminal::Sense) {
        parse_sensing(reader, alloc)
    } else if reader.sees(Terminal::Assign) {
        parse_assignment(reader, alloc)
    } else {
        parse_events(reader, alloc)
    }
}

#[tactic(auto, unfolding(crate::specs::TaskReading::distinct))]
fn parse_distinct(reader: &mut Reader) -> Result<bool, SyntaxError>
    ensures { Gives reading.distinct reader.old result reader.new }
{
    if reader.sees(Terminal::Distinct) {
        reader.expect(Terminal::Distinct)?;
        Ok(true)
    } else {
        Ok(false)
    }
}

// The parameters, and whether their values are to be distinct.
#[tactic(auto, unfolding(crate::specs::TaskReading::signature))]
fn parse_signature(
    reader: &mut Reader,
    alloc: Global,
) -> Result<(List<ParamTree>, bool), SyntaxError>
    ensures { Gives reading.signature reader.old result reader.new }
{
    if reader.sees(Terminal::OpenParen) {
        let params = parse_params(reader, alloc)?;
        let distinct = parse_distinct(reader)?;
        Ok((params, distinct))
    } else {
        Ok((List::new(alloc), false))
    }
}

// The stated cost, if there is one.
#[tactic(auto, unfolding(crate::specs::TaskReading::cost))]
fn parse_cost(reader: &mut Reader) -> Result<Option<u32>, SyntaxError>
    ensures { Gives reading.cost reader.old result reader.new }
{
    if reader.sees(Terminal::Cost) {
        reader.expect(Terminal::Cost)?;
        let cost = reader.expect_count_within(1, MOST_COST)?;
        Ok(Some(cost))
    } else {
        Ok(None)
    }
}

impl Parse<TaskLanguage> for SchemaTree {
    ghost use Rattle.ep_tree.specs.Terminals.{is};
    ghost use Rattle.ep_syntax.specs.TaskReading.{schema};
    ghost use Rattle.ep_tree.specs.declared.terminal.Terminal.TheVariants as the;

    ghost starts = { is the.Action };

    ghost reads = { schema };

    fn begins(reader: &Reader) -> bool {
        reader.sees(Terminal::Action)
    }

    #[tactic(auto, unfolding(crate::specs::TaskReading::schema))]
    fn parse(reader: &mut Reader, alloc: Global) -> Result<SchemaTree, SyntaxError> {
        reader.expect(Terminal::Action)?;
        let name = reader.expect_name(alloc)?;
        let (params, distinct) = parse_signature(reader, alloc)?;
        let cost = parse_cost(reader)?;
        reader.expect(Terminal::OpenBrace)?;
        let body = parse_body(reader, alloc)?;
        reader.expect(Terminal::CloseBrace)?;
        Ok(SchemaTree {
            name,
            params,
            distinct,
            cost,
            body,
        })
    }
}
