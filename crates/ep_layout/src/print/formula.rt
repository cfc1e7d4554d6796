//! Formulas. A formula is spelled alike at each nesting.

ghost use Rattle.std.specs.Prelude.{◌≡◌, ℕ, [], ◌∷◌, ◌++◌, map, OnOk};
ghost use Rattle.ep_tree.specs.Marks.{fixed, named};
ghost use Rattle.ep_layout.specs.Printing.{written};
ghost use Rattle.ep_tree.specs.Spelling as spell;
ghost use Rattle.ep_tree.specs.declared.terminal.Terminal.TheVariants as the;

use crate::print::{Print, print_between};
use crate::printer::Printer;
use ep_base::OutOfMemory;
use ep_tree::{FormulaTree, Name, ParamTree, Terminal};

#[tactic(auto, using(crate::proofs::PrintedLemmas::printed))]
fn print_params(params: &[ParamTree], printer: &mut Printer) -> Result<(), OutOfMemory>
    ensures { OnOk result (printer.new ≡ written printer.old
        (fixed the.OpenParen ∷ (spell.params params.now ++ fixed the.CloseParen ∷ []))) }
{
    printer.write_terminal(Terminal::OpenParen)?;
    print_between(params, Terminal::Comma, printer)?;
    printer.write_terminal(Terminal::CloseParen)
}

fn print_equality(left: &Name, right: &Name, printer: &mut Printer) -> Result<(), OutOfMemory>
    ensures { OnOk result (printer.new ≡ written printer.old
        (fixed the.OpenParen ∷ named left.now ∷ fixed the.Equals ∷ named right.now ∷ fixed the.CloseParen ∷ [])) }
{
    printer.write_terminal(Terminal::OpenParen)?;
    printer.write_name(left)?;
    printer.write_terminal(Terminal::Equals)?;
    printer.write_name(right)?;
    printer.write_terminal(Terminal::CloseParen)
}

#[cycle(print_formula)]
#[tactic(auto, using(crate::proofs::PrintedLemmas::printed))]
fn print_parts(
    parts: &[FormulaTree],
    terminal: Terminal,
    printer: &mut Printer,
) -> Result<(), OutOfMemory>
    ensures { OnOk result ((k : ℕ) → printer.new ≡ written printer.old (spell.between terminal (map (λ p. spell.formula_at p k) parts.now))) }
{
    let Some((first, rest)) = parts.split_first() else {
        return Ok(());
    };
    print_formula(first, printer)?;
    for part in rest {
        printer.write_terminal(terminal)?;
        print_formula(part, printer)?;
    }
    Ok(())
}

#[cycle(print_formula)]
#[tactic(auto, using(crate::proofs::PrintedLemmas::printed))]
fn print_formula(formula: &FormulaTree, printer: &mut Printer) -> Result<(), OutOfMemory>
    ensures { OnOk result ((k : ℕ) → printer.new ≡ written printer.old (spell.formula_at formula.now k)) }
{
    match formula {
        FormulaTree::True { .. } => printer.write_terminal(Terminal::True),
        FormulaTree::False { .. } => printer.write_terminal(Terminal::False),
        FormulaTree::Atom { atom } => atom.print(printer),
        FormulaTree::Not { inner, .. } => {
            printer.write_terminal(Terminal::Not)?;
            print_formula(inner.get(), printer)
        }
        FormulaTree::Knows { agent, inner, .. } => {
            printer.write_terminal(Terminal::Knows)?;
            printer.write_name(agent)?;
            print_formula(inner.get(), printer)
        }
        FormulaTree::Common { group, inner, .. } => {
            printer.write_terminal(Terminal::Common)?;
            group.print(printer)?;
            print_formula(inner.get(), printer)
        }
        FormulaTree::Forall { params, inner, .. } => {
            printer.write_terminal(Terminal::Forall)?;
            print_params(params.as_slice(), printer)?;
            print_formula(inner.get(), printer)
        }
        FormulaTree::Exists { params, inner, .. } => {
            printer.write_terminal(Terminal::Exists)?;
            print_params(params.as_slice(), printer)?;
            print_formula(inner.get(), printer)
        }
        FormulaTree::Equal { left, right, .. } => print_equality(left, right, printer),
        FormulaTree::Paren { inner, .. } => {
            printer.write_terminal(Terminal::OpenParen)?;
            print_formula(inner.get(), printer)?;
            printer.write_terminal(Terminal::CloseParen)
        }
        FormulaTree::And { parts, .. } => {
            printer.write_terminal(Terminal::OpenParen)?;
            print_parts(parts.as_slice(), Terminal::And, printer)?;
            printer.write_terminal(Terminal::CloseParen)
        }
        FormulaTree::Or { parts, .. } => {
            printer.write_terminal(Terminal::OpenParen)?;
            print_parts(parts.as_slice(), Terminal::Or, printer)?;
            printer.write_terminal(Terminal::CloseParen)
        }
    }
}

impl Print for FormulaTree {
    ghost use Rattle.ep_tree.specs.Spelling.{formula};

    ghost marks = { formula };

    fn print(&self, printer: &mut Printer) -> Result<(), OutOfMemory> {
        print_formula(self, printer)
    }
}
