//! Readers of the initial state of a task.

ghost use Rattle.std.specs.Prelude.{◌≡◌};
ghost use Rattle.ep_reader.specs.Gives.{Gives};
ghost use Rattle.ep_syntax.specs.TaskReading as reading;
ghost use Rattle.ep_reader.specs.Reading.{each, within};
ghost use Rattle.ep_tree.specs.declared.terminal.Terminal.TheVariants as the;

use crate::atom::parse_group;
use crate::language::TaskLanguage;
use ep_base::List;
use ep_reader::{
    Parse, Reader, SyntaxError, parse_braced_listed, parse_each, parse_listed, parse_some_each,
};
use ep_tree::{
    AtomTree, FormulaTree, InitTree, LinkTree, Name, PairTree, PairsTree, SeesTree, Terminal,
    WorldTree,
};
use std::alloc::Global;

/// `left formula ';'`
pub fn parse_statement(
    reader: &mut Reader,
    alloc: Global,
    left: Terminal,
) -> Result<FormulaTree, SyntaxError>
    ensures { Gives (reading.statement left) reader.old result reader.new }
{
    reader.expect(left)?;
    let formula = FormulaTree::parse(reader, alloc)?;
    reader.expect(Terminal::Semicolon)?;
    Ok(formula)
}

impl Parse<TaskLanguage> for PairTree {
    ghost use Rattle.ep_tree.specs.Terminals.{is_name};
    ghost use Rattle.ep_syntax.specs.TaskReading.{pair};

    ghost starts = { is_name };

    ghost reads = { pair };

    fn begins(reader: &Reader) -> bool {
        reader.sees_name()
    }

    #[tactic(auto, unfolding(crate::specs::TaskReading::pair))]
    fn parse(reader: &mut Reader, alloc: Global) -> Result<PairTree, SyntaxError> {
        let from = reader.expect_name(alloc)?;
        reader.expect(Terminal::Arrow)?;
        let to = reader.expect_name(alloc)?;
        Ok(PairTree { from, to })
    }
}

#[tactic(auto, unfolding(crate::specs::TaskReading::pairs))]
fn parse_pairs(reader: &mut Reader, alloc: Global) -> Result<PairsTree, SyntaxError>
    ensures { Gives reading.pairs reader.old result reader.new }
{
    if reader.sees(Terminal::All) {
        reader.expect(Terminal::All)?;
        Ok(PairsTree::All)
    } else if reader.sees(Terminal::Same) {
        reader.expect(Terminal::Same)?;
        Ok(PairsTree::Same)
    } else {
        let pairs = parse_braced_listed(reader, alloc)?;
        Ok(PairsTree::Listed(pairs))
    }
}

impl Parse<TaskLanguage> for LinkTree {
    ghost use Rattle.ep_tree.specs.Terminals.{is};
    ghost use Rattle.ep_syntax.specs.TaskReading.{link};
    ghost use Rattle.ep_tree.specs.declared.terminal.Terminal.TheVariants as the;

    ghost starts = { is the.Links };

    ghost reads = { link };

    fn begins(reader: &Reader) -> bool {
        reader.sees(Terminal::Links)
    }

    #[tactic(auto, unfolding(crate::specs::TaskReading::link))]
    fn parse(reader: &mut Reader, alloc: Global) -> Result<LinkTree, SyntaxError> {
        reader.expect(Terminal::Links)?;
        let group = parse_group(reader, alloc)?;
        let pairs = parse_pairs(reader, alloc)?;
        reader.expect(Terminal::Semicolon)?;
        Ok(LinkTree { group, pairs })
    }
}

/// `'designated' '{' names '}'`
#[tactic(auto, unfolding(crate::specs::TaskReading::designated))]
pub fn parse_designated(reader: &mut Reader, alloc: Global) -> Result<List<Name>, SyntaxError>
    ensures { Gives reading.designated reader.old result reader.new }
{
    reader.expect(Terminal::Designated)?;
    reader.expect(Terminal::OpenBrace)?;
    let names = parse_listed(reader, alloc)?;
    reader.expect(Terminal::CloseBrace)?;
    Ok(names)
}

impl Parse<TaskLanguage> for WorldTree {
    ghost use Rattle.ep_tree.specs.Terminals.{is};
    ghost use Rattle.ep_syntax.specs.TaskReading.{world};
    ghost use Rattle.ep_tree.specs.declared.terminal.Terminal.TheVariants as the;

    ghost starts = { is the.World };

    ghost reads = { world };

    fn begins(reader: &Reader) -> bool {
        reader.sees(Terminal::World)
    }

    #[tactic(auto, unfolding(crate::specs::TaskReading::world))]
    fn parse(reader: &mut Reader, alloc: Global) -> Result<WorldTree, SyntaxError> {
        reader.expect(Terminal::World)?;
        let name = reader.expect_name(alloc)?;
        let atoms = parse_braced_listed(reader, alloc)?;
        Ok(WorldTree { name, atoms })
    }
}

#[tactic(auto, unfolding(crate::specs::TaskReading::explicit))]
fn parse_explicit(reader: &mut Reader, alloc: Global) -> Result<InitTree, SyntaxError>
    ensures { Gives reading.explicit reader.old result reader.new }
{
    let worlds = parse_some_each(reader, alloc)?;
    let designated = parse_designated(reader, alloc)?;
    let links = parse_each(reader, alloc)?;
    Ok(InitTree::Explicit {
        worlds,
        designated,
        links,
    })
}

#[tactic(auto, unfolding(crate::specs::TaskReading::facts))]
fn parse_facts(reader: &mut Reader, alloc: Global) -> Result<Option<List<AtomTree>>, SyntaxError>
    ensures { Gives reading.facts reader.old result reader.new }
{
    if reader.sees(Terminal::Facts) {
        reader.expect(Terminal::Facts)?;
        let facts = parse_braced_listed(reader, alloc)?;
        Ok(Some(facts))
    } else {
        Ok(None)
    }
}

impl Parse<TaskLanguage> for SeesTree {
    ghost use Rattle.ep_tree.specs.Terminals.{is};
    ghost use Rattle.ep_syntax.specs.TaskReading.{sees};
    ghost use Rattle.ep_tree.specs.declared.terminal.Terminal.TheVariants as the;

    ghost starts = { is the.Sees };

    ghost reads = { sees };

    fn begins(reader: &Reader) -> bool {
        reader.sees(Terminal::Sees)
    }

    #[tactic(auto, unfolding(crate::specs::TaskReading::sees))]
    fn parse(reader: &mut Reader, alloc: Global) -> Result<SeesTree, SyntaxError> {
        reader.expect(Terminal::Sees)?;
        let group = parse_group(reader, alloc)?;
        let atoms = parse_braced_listed(reader, alloc)?;
        Ok(SeesTree { group, atoms })
    }
}

#[tactic(auto, unfolding(crate::specs::TaskReading::lawful))]
fn parse_lawful(reader: &mut Reader, alloc: Global) -> Result<InitTree, SyntaxError>
    ensures { Gives reading.lawful reader.old result reader.new }
{
    reader.expect(Terminal::Vary)?;
    let vary = parse_braced_listed(reader, alloc)?;
    let facts = parse_facts(reader, alloc)?;
    let law = parse_statement(reader, alloc, Terminal::Law)?;
    let sees = parse_each(reader, alloc)?;
    let designated = parse_statement(reader, alloc, Terminal::Designated)?;
    Ok(InitTree::Lawful {
        vary,
        facts,
        law,
        sees,
        designated,
    })
}

#[tactic(auto, unfolding(crate::specs::TaskReading::init_items))]
fn parse_init_items(reader: &mut Reader, alloc: Global) -> Result<InitTree, SyntaxError>
    ensures { Gives reading.init_items reader.old result reader.new }
{
    if reader.sees(Terminal::Vary) {
        parse_lawful(reader, alloc)
    } else {
        parse_explicit(reader, alloc)
    }
}

#[tactic(auto, unfolding(crate::specs::TaskReading::init))]
pub fn parse_init(reader: &mut Reader, alloc: Global) -> Result<InitTree, SyntaxError>
    ensures { Gives reading.init reader.old result reader.new }
{
    reader.expect(Terminal::Init)?;
    reader.expect(Terminal::OpenBrace)?;
    let init = parse_init_items(reader, alloc)?;
    reader.expect(Terminal::CloseBrace)?;
    Ok(init)
}
