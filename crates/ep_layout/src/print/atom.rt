//! Names, atoms, groups and parameters.

ghost use Rattle.std.specs.Prelude.{◌≡◌, OnOk};
ghost use Rattle.ep_layout.specs.Printing.{written};
ghost use Rattle.ep_tree.specs.Spelling as spell;

use crate::print::{Print, print_between, print_listed};
use crate::printer::Printer;
use ep_base::OutOfMemory;
use ep_tree::{AtomTree, GroupTree, Name, ParamTree, Terminal};

impl Print for Name {
    ghost use Rattle.std.specs.Prelude.{[], ◌∷◌};
    ghost use Rattle.ep_tree.specs.Marks.{named};

    ghost marks = { λ n. named n ∷ [] };

    fn print(&self, printer: &mut Printer) -> Result<(), OutOfMemory> {
        printer.write_name(self)
    }
}

/// Nothing, or names in parentheses.
#[tactic(auto, using(crate::proofs::PrintedLemmas::printed))]
pub fn print_arguments(names: &[Name], printer: &mut Printer) -> Result<(), OutOfMemory>
    ensures { OnOk result (printer.new ≡ written printer.old (spell.arguments names.now)) }
{
    if names.is_empty() {
        return Ok(());
    }
    printer.write_terminal(Terminal::OpenParen)?;
    print_between(names, Terminal::Comma, printer)?;
    printer.write_terminal(Terminal::CloseParen)
}

impl Print for AtomTree {
    ghost use Rattle.std.specs.Prelude.{None};
    ghost use Rattle.ep_tree.specs.Spelling.{atom};

    ghost marks = { λ a. atom None a };

    fn print(&self, printer: &mut Printer) -> Result<(), OutOfMemory> {
        printer.write_name(&self.name)?;
        print_arguments(self.args.as_slice(), printer)
    }
}

impl Print for GroupTree {
    ghost use Rattle.ep_tree.specs.Spelling.{group};

    ghost marks = { group };

    #[tactic(auto, using(crate::proofs::PrintedLemmas::printed))]
    fn print(&self, printer: &mut Printer) -> Result<(), OutOfMemory> {
        match self {
            GroupTree::All { .. } => printer.write_terminal(Terminal::All),
            GroupTree::Members { names, .. } => print_listed(names.as_slice(), printer),
        }
    }
}

impl Print for ParamTree {
    ghost use Rattle.ep_tree.specs.Spelling.{param};

    ghost marks = { param };

    fn print(&self, printer: &mut Printer) -> Result<(), OutOfMemory> {
        printer.write_name(&self.name)?;
        printer.write_terminal(Terminal::Colon)?;
        printer.write_name(&self.kind)
    }
}
