//! Whole tasks.

ghost use Rattle.std.specs.Prelude.{◌≡◌, [], ◌∷◌, ◌++◌, OnOk, IfOk};
ghost use Rattle.ep_tree.specs.Formed.{IsFormedTask};
ghost use Rattle.ep_layout.specs.Layout.{layout_of};
ghost use Rattle.ep_tree.specs.Marks.{fixed, named, IsShallow};
ghost use Rattle.ep_layout.specs.Printing.{written};
ghost use Rattle.ep_tree.specs.Spelling as spell;
ghost use Rattle.ep_tree.specs.declared.terminal.Terminal.TheVariants as the;

use crate::print::atom::print_arguments;
use crate::print::init::print_sentence;
use crate::print::{Print, print_between, print_block, print_each};
use crate::printer::Printer;
use ep_base::{List, OutOfMemory, Text};
use ep_tree::{FluentTree, ObjectTree, TaskTree, Terminal, TypeTree};
use std::alloc::Global;

impl Print for TypeTree {
    ghost use Rattle.ep_tree.specs.Spelling.{type_entry};

    ghost marks = { type_entry };

    fn print(&self, printer: &mut Printer) -> Result<(), OutOfMemory> {
        printer.write_name(&self.name)?;
        printer.write_terminal(Terminal::Less)?;
        printer.write_name(&self.parent)?;
        printer.write_terminal(Terminal::Semicolon)
    }
}

impl Print for ObjectTree {
    ghost use Rattle.ep_tree.specs.Spelling.{object_entry};

    ghost marks = { object_entry };

    #[tactic(auto, using(crate::proofs::PrintedLemmas::printed))]
    fn print(&self, printer: &mut Printer) -> Result<(), OutOfMemory> {
        print_between(self.names.as_slice(), Terminal::Comma, printer)?;
        printer.write_terminal(Terminal::Colon)?;
        printer.write_name(&self.kind)?;
        printer.write_terminal(Terminal::Semicolon)
    }
}

impl Print for FluentTree {
    ghost use Rattle.ep_tree.specs.Spelling.{fluent_entry};

    ghost marks = { fluent_entry };

    #[tactic(auto, using(crate::proofs::PrintedLemmas::printed))]
    fn print(&self, printer: &mut Printer) -> Result<(), OutOfMemory> {
        printer.write_name(&self.name)?;
        print_arguments(self.kinds.as_slice(), printer)?;
        printer.write_terminal(Terminal::Semicolon)
    }
}

fn print_frames(s5: bool, printer: &mut Printer) -> Result<(), OutOfMemory>
    ensures { OnOk result (printer.new ≡ written printer.old (spell.frames s5)) }
{
    if s5 {
        printer.write_terminal(Terminal::Frames)?;
        printer.write_terminal(Terminal::S5)?;
        printer.write_terminal(Terminal::Semicolon)?;
    }
    Ok(())
}

fn print_types(types: &Option<List<TypeTree>>, printer: &mut Printer) -> Result<(), OutOfMemory>
    ensures { OnOk result (printer.new ≡ written printer.old (spell.types types.now)) }
{
    match types {
        Some(types) => {
            printer.write_terminal(Terminal::Types)?;
            print_block(types.as_slice(), printer)
        }
        None => Ok(()),
    }
}

// What stands before the initial state.
#[tactic(auto, using(crate::proofs::PrintedLemmas::printed))]
fn print_head(tree: &TaskTree, printer: &mut Printer) -> Result<(), OutOfMemory>
    ensures { OnOk result (printer.new ≡ written printer.old (fixed the.Task ∷ named tree.now.name ∷ fixed the.Semicolon ∷
        (spell.frames tree.now.s5 ++ (spell.types tree.now.types ++ (spell.objects tree.now.objects ++ spell.fluents tree.now.fluents))))) }
{
    printer.write_terminal(Terminal::Task)?;
    printer.write_name(&tree.name)?;
    printer.write_terminal(Terminal::Semicolon)?;
    print_frames(tree.s5, printer)?;
    print_types(&tree.types, printer)?;
    printer.write_terminal(Terminal::Objects)?;
    print_block(tree.objects.as_slice(), printer)?;
    printer.write_terminal(Terminal::Fluents)?;
    print_block(tree.fluents.as_slice(), printer)
}

impl Print for TaskTree {
    ghost use Rattle.ep_tree.specs.Spelling.{task};

    ghost marks = { task };

    #[tactic(auto, using(crate::proofs::PrintedLemmas::printed))]
    fn print(&self, printer: &mut Printer) -> Result<(), OutOfMemory> {
        print_head(self, printer)?;
        self.init.print(printer)?;
        print_each(self.schemas.as_slice(), printer)?;
        print_sentence(Terminal::Goal, &self.goal, printer)
    }
}

/// The layout of a task, as it is written: its tokens in order, between neighbours a line feed where the first is `;` or
/// the second is a word that begins a line, and a space elsewhere, and a line feed at the end. The layout is this
/// project's own.
pub fn print_task(alloc: Global, tree: &TaskTree) -> Result<Text, OutOfMemory>
    requires formed { IsFormedTask tree.now }
    requires shallow { IsShallow (spell.task tree.now) }
    ensures { IfOk result (λ text. text ≡ layout_of tree.now) }
{
    let mut printer = Printer::new(alloc);
    tree.print(&mut printer)?;
    printer.finish()
}
