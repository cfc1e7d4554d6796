//! Readers of names, atoms, groups and parameters.

ghost use Rattle.std.specs.Prelude.{◌≡◌};
ghost use Rattle.ep_syntax.specs.FormulaReading as reading;
ghost use Rattle.ep_reader.specs.Gives.{Gives};

use crate::language::TaskLanguage;
use ep_base::List;
use ep_reader::{Parse, Reader, SyntaxError, parse_any_listed, parse_listed};
use ep_tree::{AtomTree, GroupTree, Name, ParamTree, Terminal};
use std::alloc::Global;

impl Parse<TaskLanguage> for Name {
    ghost use Rattle.ep_reader.specs.Reading.{name};
    ghost use Rattle.ep_tree.specs.Terminals.{is_name};

    ghost starts = { is_name };

    ghost reads = { name };

    fn begins(reader: &Reader) -> bool {
        reader.sees_name()
    }

    fn parse(reader: &mut Reader, alloc: Global) -> Result<Name, SyntaxError> {
        reader.expect_name(alloc)
    }
}

/// Nothing, or names in parentheses.
#[tactic(auto, unfolding(crate::specs::FormulaReading::arguments))]
pub fn parse_arguments(reader: &mut Reader, alloc: Global) -> Result<List<Name>, SyntaxError>
    ensures { Gives reading.arguments reader.old result reader.new }
{
    if reader.sees(Terminal::OpenParen) {
        reader.expect(Terminal::OpenParen)?;
        let names = parse_listed(reader, alloc)?;
        reader.expect(Terminal::CloseParen)?;
        Ok(names)
    } else {
        Ok(List::new(alloc))
    }
}

impl Parse<TaskLanguage> for AtomTree {
    ghost use Rattle.ep_syntax.specs.FormulaReading.{atom};
    ghost use Rattle.ep_tree.specs.Terminals.{is_name};

    ghost starts = { is_name };

    ghost reads = { atom };

    fn begins(reader: &Reader) -> bool {
        reader.sees_name()
    }

    #[tactic(auto, unfolding(crate::specs::FormulaReading::atom))]
    fn parse(reader: &mut Reader, alloc: Global) -> Result<AtomTree, SyntaxError> {
        let name = reader.expect_name(alloc)?;
        let args = parse_arguments(reader, alloc)?;
        Ok(AtomTree { name, args })
    }
}

#[tactic(auto, unfolding(crate::specs::FormulaReading::group))]
pub fn parse_group(reader: &mut Reader, alloc: Global) -> Result<GroupTree, SyntaxError>
    ensures { Gives reading.group reader.old result reader.new }
{
    if reader.sees(Terminal::All) {
        let token = reader.expect(Terminal::All)?;
        Ok(GroupTree::All { token })
    } else {
        let token = reader.expect(Terminal::OpenBrace)?;
        let names = parse_any_listed(reader, alloc)?;
        reader.expect(Terminal::CloseBrace)?;
        Ok(GroupTree::Members { token, names })
    }
}

impl Parse<TaskLanguage> for ParamTree {
    ghost use Rattle.ep_syntax.specs.FormulaReading.{param};
    ghost use Rattle.ep_tree.specs.Terminals.{is_name};

    ghost starts = { is_name };

    ghost reads = { param };

    fn begins(reader: &Reader) -> bool {
        reader.sees_name()
    }

    #[tactic(auto, unfolding(crate::specs::FormulaReading::param))]
    fn parse(reader: &mut Reader, alloc: Global) -> Result<ParamTree, SyntaxError> {
        let name = reader.expect_name(alloc)?;
        reader.expect(Terminal::Colon)?;
        let kind = reader.expect_name(alloc)?;
        Ok(ParamTree { name, kind })
    }
}

/// Parameters in parentheses.
#[tactic(auto, unfolding(crate::specs::FormulaReading::params))]
pub fn parse_params(reader: &mut Reader, alloc: Global) -> Result<List<ParamTree>, SyntaxError>
    ensures { Gives reading.params reader.old result reader.new }
{
    reader.expect(Terminal::OpenParen)?;
    let params = parse_listed(reader, alloc)?;
    reader.expect(Terminal::CloseParen)?;
    Ok(params)
}
