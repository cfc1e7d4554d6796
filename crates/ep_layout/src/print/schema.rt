//! Action schemas.

ghost use Rattle.std.specs.Prelude.{◌≡◌, [], ◌∷◌, ◌++◌, OnOk};
ghost use Rattle.ep_tree.specs.Marks.{fixed};
ghost use Rattle.ep_layout.specs.Printing.{written};
ghost use Rattle.ep_tree.specs.Spelling as spell;
ghost use Rattle.ep_tree.specs.declared.terminal.Terminal.TheVariants as the;

use crate::print::init::{print_relations, print_sentence};
use crate::print::{Print, print_between, print_block, print_each};
use crate::printer::Printer;
use ep_base::OutOfMemory;
use ep_tree::{
    BodyTree, EventTree, FormulaTree, GroupTree, ParamTree, SchemaTree, SetTree, Terminal,
};

impl Print for SetTree {
    ghost use Rattle.ep_tree.specs.Spelling.{set};

    ghost marks = { set };

    #[tactic(auto, using(crate::proofs::PrintedLemmas::printed))]
    fn print(&self, printer: &mut Printer) -> Result<(), OutOfMemory> {
        self.atom.print(printer)?;
        printer.write_terminal(Terminal::Becomes)?;
        self.value.print(printer)?;
        printer.write_terminal(Terminal::Semicolon)
    }
}

impl Print for EventTree {
    ghost use Rattle.ep_tree.specs.Spelling.{event};

    ghost marks = { event };

    #[tactic(auto, using(crate::proofs::PrintedLemmas::printed))]
    fn print(&self, printer: &mut Printer) -> Result<(), OutOfMemory> {
        printer.write_terminal(Terminal::Event)?;
        printer.write_name(&self.name)?;
        printer.write_terminal(Terminal::Pre)?;
        self.pre.print(printer)?;
        print_block(self.sets.as_slice(), printer)
    }
}

// `private formula to group;` or `sense formula by group;`
#[tactic(auto, using(crate::proofs::PrintedLemmas::printed))]
fn print_news(
    word: Terminal,
    what: &FormulaTree,
    joint: Terminal,
    group: &GroupTree,
    printer: &mut Printer,
) -> Result<(), OutOfMemory>
    ensures { OnOk result (printer.new ≡ written printer.old
        (fixed word ∷ (spell.formula what.now ++ (fixed joint ∷ (spell.group group.now ++ fixed the.Semicolon ∷ []))))) }
{
    printer.write_terminal(word)?;
    what.print(printer)?;
    printer.write_terminal(joint)?;
    group.print(printer)?;
    printer.write_terminal(Terminal::Semicolon)
}

impl Print for BodyTree {
    ghost use Rattle.ep_tree.specs.Spelling.{body};

    ghost marks = { body };

    #[tactic(auto, using(crate::proofs::PrintedLemmas::printed))]
    fn print(&self, printer: &mut Printer) -> Result<(), OutOfMemory> {
        match self {
            BodyTree::Announce { what } => print_sentence(Terminal::Announce, what, printer),
            BodyTree::Private { what, group } => {
                print_news(Terminal::Private, what, Terminal::To, group, printer)
            }
            BodyTree::Sense { what, group } => {
                print_news(Terminal::Sense, what, Terminal::By, group, printer)
            }
            BodyTree::Assign { guard, sets } => {
                printer.write_terminal(Terminal::Assign)?;
                printer.write_terminal(Terminal::When)?;
                guard.print(printer)?;
                print_block(sets.as_slice(), printer)
            }
            BodyTree::Events {
                events,
                designated,
                links,
            } => {
                print_each(events.as_slice(), printer)?;
                print_relations(designated.as_slice(), links.as_slice(), printer)
            }
        }
    }
}

// Nothing, or parameters in parentheses and then perhaps `distinct`.
#[tactic(auto, using(crate::proofs::PrintedLemmas::printed))]
fn print_signature(
    params: &[ParamTree],
    distinct: bool,
    printer: &mut Printer,
) -> Result<(), OutOfMemory>
    ensures { OnOk result (printer.new ≡ written printer.old (spell.signature params.now distinct)) }
{
    if params.is_empty() {
        return Ok(());
    }
    printer.write_terminal(Terminal::OpenParen)?;
    print_between(params, Terminal::Comma, printer)?;
    printer.write_terminal(Terminal::CloseParen)?;
    if distinct {
        printer.write_terminal(Terminal::Distinct)?;
    }
    Ok(())
}

fn print_cost(cost: Option<u32>, printer: &mut Printer) -> Result<(), OutOfMemory>
    ensures { OnOk result (printer.new ≡ written printer.old (spell.cost cost)) }
{
    match cost {
        Some(cost) => {
            printer.write_terminal(Terminal::Cost)?;
            printer.write_count(cost)
        }
        None => Ok(()),
    }
}

impl Print for SchemaTree {
    ghost use Rattle.ep_tree.specs.Spelling.{schema};

    ghost marks = { schema };

    #[tactic(auto, using(crate::proofs::PrintedLemmas::printed))]
    fn print(&self, printer: &mut Printer) -> Result<(), OutOfMemory> {
        printer.write_terminal(Terminal::Action)?;
        printer.write_name(&self.name)?;
        print_signature(self.params.as_slice(), self.distinct, printer)?;
        print_cost(self.cost, printer)?;
        printer.write_terminal(Terminal::OpenBrace)?;
        self.body.print(printer)?;
        printer.write_terminal(Terminal::CloseBrace)
    }
}
