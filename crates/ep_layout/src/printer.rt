//! Tokens, written with one blank or one line feed between neighbours.

ghost use Rattle.std.specs.Prelude.{◌≡◌, ◌<◌, [], ◌++◌, All, OnOk, IfOk};
ghost use Rattle.std.specs.Fmt.{decimal};
ghost use Rattle.ep_base.specs.Texts.{line};
ghost use Rattle.ep_layout.specs.Layout.{starts_line};
ghost use Rattle.ep_layout.specs.Printing as printing;
ghost use Rattle.ep_layout.specs.Printing.{gap_behind, write};
ghost use Rattle.ep_tree.specs.Terminals.{text_of};

use ep_base::{OutOfMemory, Text, TextBuilder};
use ep_tree::{Name, Terminal};
use std::alloc::Global;
use std::marker::Model;

/// What stands before the next token.
#[derive(Clone, Copy)]
pub enum Last {
    Nothing,
    Semicolon,
    Other,
}

/// The text so far, and what stands before the next token.
#[derive(Drop)]
pub struct Printer {
    alloc: Global,
    text: TextBuilder,
    last: Last,
}

impl Model for Printer {
    ghost use Rattle.ep_layout.specs.Printing.{Printed};

    ghost Value = { Printed };

    ghost view = { λ p. record { bytes = p.text; last = p.last } };
}

const LINE_STARTS: [Terminal; 15] = [
    Terminal::Frames,
    Terminal::Types,
    Terminal::Objects,
    Terminal::Fluents,
    Terminal::Init,
    Terminal::World,
    Terminal::Vary,
    Terminal::Facts,
    Terminal::Law,
    Terminal::Sees,
    Terminal::Designated,
    Terminal::Links,
    Terminal::Action,
    Terminal::Event,
    Terminal::Goal,
];

fn is_line_start(token: &[u8]) -> bool
    ensures { result ≡ starts_line token.now }
{
    LINE_STARTS.iter().any(|start| start.is(token))
}

fn last_of(token: &[u8]) -> Last
    ensures { result ≡ printing.last_of token.now }
{
    if Terminal::Semicolon.is(token) {
        Last::Semicolon
    } else {
        Last::Other
    }
}

impl Printer {
    ghost use Rattle.ep_layout.specs.declared.printer.Last.TheVariants.{Nothing};

    pub fn new(alloc: Global) -> Printer
        ensures { result ≡ record { bytes = []; last = Nothing } }
    {
        Printer {
            alloc,
            text: TextBuilder::new(alloc),
            last: Last::Nothing,
        }
    }

    fn write_gap(&mut self, token: &[u8]) -> Result<(), OutOfMemory>
        ensures { OnOk result (self.new ≡ record self.old { bytes = self.old.bytes ++ gap_behind self.old.last token.now }) }
    {
        match self.last {
            Last::Nothing => Ok(()),
            Last::Semicolon => self.text.push("\n"),
            Last::Other if is_line_start(token) => self.text.push("\n"),
            Last::Other => self.text.push(" "),
        }
    }

    #[tactic(auto, unfolding(crate::specs::Printing::write))]
    fn write_token(&mut self, token: &[u8]) -> Result<(), OutOfMemory>
        requires { All (λ b. b < 128) token.now }
        ensures { OnOk result (self.new ≡ write self.old token.now) }
    {
        self.write_gap(token)?;
        self.text.push_bytes(token)?;
        self.last = last_of(token);
        Ok(())
    }

    pub fn write_terminal(&mut self, terminal: Terminal) -> Result<(), OutOfMemory>
        ensures { OnOk result (self.new ≡ write self.old (text_of terminal)) }
    {
        self.write_token(terminal.text())
    }

    pub fn write_name(&mut self, name: &Name) -> Result<(), OutOfMemory>
        ensures { OnOk result (self.new ≡ write self.old name.now.text) }
    {
        self.write_token(name.text.as_slice())
    }

    /// A number in decimal.
    pub fn write_count(&mut self, count: u32) -> Result<(), OutOfMemory>
        ensures { OnOk result (self.new ≡ write self.old (decimal count)) }
    {
        let digits = format!(in self.alloc; "{count}")?;
        self.write_token(digits.as_bytes())
    }

    /// The text, with a line feed at its end.
    pub fn finish(self) -> Result<Text, OutOfMemory>
        ensures { IfOk result (λ text. text ≡ line self.bytes) }
    {
        let Printer {
            alloc: _,
            text,
            last: _,
        } = self;
        let mut text = text;
        text.push("\n")?;
        Ok(text.finish())
    }
}
