//! The initial state.

ghost use Rattle.std.specs.Prelude.{◌≡◌, [], ◌∷◌, ◌++◌, OnOk};
ghost use Rattle.std.specs.List.{flat_map};
ghost use Rattle.ep_tree.specs.Marks.{fixed};
ghost use Rattle.ep_layout.specs.Printing.{written};
ghost use Rattle.ep_tree.specs.Spelling as spell;
ghost use Rattle.ep_tree.specs.declared.terminal.Terminal.TheVariants as the;

use crate::print::{Print, print_each, print_listed};
use crate::printer::Printer;
use ep_base::{List, OutOfMemory};
use ep_tree::{
    AtomTree, FormulaTree, InitTree, LinkTree, Name, PairTree, PairsTree, SeesTree, Terminal,
    WorldTree,
};

impl Print for PairTree {
    ghost use Rattle.ep_tree.specs.Spelling.{pair};

    ghost marks = { pair };

    fn print(&self, printer: &mut Printer) -> Result<(), OutOfMemory> {
        printer.write_name(&self.from)?;
        printer.write_terminal(Terminal::Arrow)?;
        printer.write_name(&self.to)
    }
}

impl Print for PairsTree {
    ghost use Rattle.ep_tree.specs.Spelling.{pairs};

    ghost marks = { pairs };

    fn print(&self, printer: &mut Printer) -> Result<(), OutOfMemory> {
        match self {
            PairsTree::All => printer.write_terminal(Terminal::All),
            PairsTree::Same => printer.write_terminal(Terminal::Same),
            PairsTree::Listed(pairs) => print_listed(pairs.as_slice(), printer),
        }
    }
}

impl Print for LinkTree {
    ghost use Rattle.ep_tree.specs.Spelling.{link};

    ghost marks = { link };

    #[tactic(auto, using(crate::proofs::PrintedLemmas::printed))]
    fn print(&self, printer: &mut Printer) -> Result<(), OutOfMemory> {
        printer.write_terminal(Terminal::Links)?;
        self.group.print(printer)?;
        self.pairs.print(printer)?;
        printer.write_terminal(Terminal::Semicolon)
    }
}

impl Print for WorldTree {
    ghost use Rattle.ep_tree.specs.Spelling.{world};

    ghost marks = { world };

    fn print(&self, printer: &mut Printer) -> Result<(), OutOfMemory> {
        printer.write_terminal(Terminal::World)?;
        printer.write_name(&self.name)?;
        print_listed(self.atoms.as_slice(), printer)
    }
}

impl Print for SeesTree {
    ghost use Rattle.ep_tree.specs.Spelling.{sees};

    ghost marks = { sees };

    #[tactic(auto, using(crate::proofs::PrintedLemmas::printed))]
    fn print(&self, printer: &mut Printer) -> Result<(), OutOfMemory> {
        printer.write_terminal(Terminal::Sees)?;
        self.group.print(printer)?;
        print_listed(self.atoms.as_slice(), printer)
    }
}

fn print_designated(names: &[Name], printer: &mut Printer) -> Result<(), OutOfMemory>
    ensures { OnOk result (printer.new ≡ written printer.old (spell.designated names.now)) }
{
    printer.write_terminal(Terminal::Designated)?;
    print_listed(names, printer)
}

/// The designated worlds or events, and the links.
#[tactic(auto, using(crate::proofs::PrintedLemmas::printed))]
pub fn print_relations(
    names: &[Name],
    links: &[LinkTree],
    printer: &mut Printer,
) -> Result<(), OutOfMemory>
    ensures { OnOk result (printer.new ≡ written printer.old (spell.designated names.now ++ flat_map spell.link links.now)) }
{
    print_designated(names, printer)?;
    print_each(links, printer)
}

fn print_facts(facts: &Option<List<AtomTree>>, printer: &mut Printer) -> Result<(), OutOfMemory>
    ensures { OnOk result (printer.new ≡ written printer.old (spell.facts facts.now)) }
{
    match facts {
        Some(atoms) => {
            printer.write_terminal(Terminal::Facts)?;
            print_listed(atoms.as_slice(), printer)
        }
        None => Ok(()),
    }
}

/// A word, and a formula behind it with a semicolon.
#[tactic(auto, using(crate::proofs::PrintedLemmas::printed))]
pub fn print_sentence(
    word: Terminal,
    formula: &FormulaTree,
    printer: &mut Printer,
) -> Result<(), OutOfMemory>
    ensures { OnOk result (printer.new ≡ written printer.old (fixed word ∷ (spell.formula formula.now ++ fixed the.Semicolon ∷ []))) }
{
    printer.write_terminal(word)?;
    formula.print(printer)?;
    printer.write_terminal(Terminal::Semicolon)
}

/// The atoms that vary, the facts and the law.
#[tactic(auto, using(crate::proofs::PrintedLemmas::printed))]
fn print_varied(
    vary: &[AtomTree],
    facts: &Option<List<AtomTree>>,
    law: &FormulaTree,
    printer: &mut Printer,
) -> Result<(), OutOfMemory>
    ensures { OnOk result (printer.new ≡ written printer.old (fixed the.Vary ∷ (spell.braced (spell.atoms vary.now) ++ (spell.facts facts.now ++ (fixed the.Law ∷ (spell.formula law.now ++ fixed the.Semicolon ∷ [])))))) }
{
    printer.write_terminal(Terminal::Vary)?;
    print_listed(vary, printer)?;
    print_facts(facts, printer)?;
    print_sentence(Terminal::Law, law, printer)
}

/// Who sees what, and the formula that designates.
#[tactic(auto, using(crate::proofs::PrintedLemmas::printed))]
fn print_seen(
    sees: &[SeesTree],
    designated: &FormulaTree,
    printer: &mut Printer,
) -> Result<(), OutOfMemory>
    ensures { OnOk result (printer.new ≡ written printer.old (flat_map spell.sees sees.now ++ (fixed the.Designated ∷ (spell.formula designated.now ++ fixed the.Semicolon ∷ [])))) }
{
    print_each(sees, printer)?;
    print_sentence(Terminal::Designated, designated, printer)
}

#[tactic(auto, using(crate::proofs::PrintedLemmas::printed))]
fn print_items(init: &InitTree, printer: &mut Printer) -> Result<(), OutOfMemory>
    ensures { OnOk result (printer.new ≡ written printer.old (spell.init_items init.now)) }
{
    match init {
        InitTree::Explicit {
            worlds,
            designated,
            links,
        } => {
            print_each(worlds.as_slice(), printer)?;
            print_relations(designated.as_slice(), links.as_slice(), printer)
        }
        InitTree::Lawful {
            vary,
            facts,
            law,
            sees,
            designated,
        } => {
            print_varied(vary.as_slice(), facts, law, printer)?;
            print_seen(sees.as_slice(), designated, printer)
        }
    }
}

impl Print for InitTree {
    ghost use Rattle.ep_tree.specs.Spelling.{init};

    ghost marks = { init };

    #[tactic(auto, using(crate::proofs::PrintedLemmas::printed))]
    fn print(&self, printer: &mut Printer) -> Result<(), OutOfMemory> {
        printer.write_terminal(Terminal::Init)?;
        printer.write_terminal(Terminal::OpenBrace)?;
        print_items(self, printer)?;
        printer.write_terminal(Terminal::CloseBrace)
    }
}
