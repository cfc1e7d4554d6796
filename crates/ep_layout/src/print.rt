//! The tokens of trees, written in turn.

ghost use Rattle.std.specs.Prelude.{◌≡◌, map, OnOk};
ghost use Rattle.std.specs.List.{flat_map};
ghost use Rattle.ep_layout.specs.Printing.{written};
ghost use Rattle.ep_tree.specs.Spelling as spell;
ghost use Rattle.ep_tree.specs.declared.terminal.Terminal.TheVariants as the;

mod atom;
mod formula;
mod init;
mod schema;
mod task;

use crate::printer::Printer;
use ep_base::OutOfMemory;
use ep_tree::Terminal;
pub use task::print_task;

/// A value whose tokens can be written.
pub trait Print {
    ghost use Rattle.std.specs.Prelude.{◌≡◌, List, OnOk};
    ghost use Rattle.ep_tree.specs.Marks.{Mark};
    ghost use Rattle.ep_layout.specs.Printing.{written};

    ghost marks: { Self → List Mark };

    fn print(&self, printer: &mut Printer) -> Result<(), OutOfMemory>
        ensures { OnOk result (printer.new ≡ written printer.old (marks self.now)) };
}

/// The items, one behind another.
pub fn print_each<T: Print>(items: &[T], printer: &mut Printer) -> Result<(), OutOfMemory>
    ensures { OnOk result (printer.new ≡ written printer.old (flat_map T.marks items.now)) }
{
    for item in items {
        item.print(printer)?;
    }
    Ok(())
}

// The items, each behind the terminal.
fn print_behind<T: Print>(
    items: &[T],
    terminal: Terminal,
    printer: &mut Printer,
) -> Result<(), OutOfMemory>
    ensures { OnOk result (printer.new ≡ written printer.old (spell.behind terminal (map T.marks items.now))) }
{
    for item in items {
        printer.write_terminal(terminal)?;
        item.print(printer)?;
    }
    Ok(())
}

/// The items, with the terminal between neighbours.
#[tactic(auto, using(crate::proofs::PrintedLemmas::printed))]
pub fn print_between<T: Print>(
    items: &[T],
    terminal: Terminal,
    printer: &mut Printer,
) -> Result<(), OutOfMemory>
    ensures { OnOk result (printer.new ≡ written printer.old (spell.between terminal (map T.marks items.now))) }
{
    match items.split_first() {
        Some((first, rest)) => {
            first.print(printer)?;
            print_behind(rest, terminal, printer)
        }
        None => Ok(()),
    }
}

/// The items in braces, one behind another.
#[tactic(auto, using(crate::proofs::PrintedLemmas::printed))]
pub fn print_block<T: Print>(items: &[T], printer: &mut Printer) -> Result<(), OutOfMemory>
    ensures { OnOk result (printer.new ≡ written printer.old (spell.braced (flat_map T.marks items.now))) }
{
    printer.write_terminal(Terminal::OpenBrace)?;
    print_each(items, printer)?;
    printer.write_terminal(Terminal::CloseBrace)
}

/// The items in braces, with commas between them.
#[tactic(auto, using(crate::proofs::PrintedLemmas::printed))]
pub fn print_listed<T: Print>(items: &[T], printer: &mut Printer) -> Result<(), OutOfMemory>
    ensures { OnOk result (printer.new ≡ written printer.old (spell.braced (spell.between the.Comma (map T.marks items.now)))) }
{
    printer.write_terminal(Terminal::OpenBrace)?;
    print_between(items, Terminal::Comma, printer)?;
    printer.write_terminal(Terminal::CloseBrace)
}
