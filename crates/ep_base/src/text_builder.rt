//! Texts that are made piece by piece.

ghost use Rattle.std.specs.Prelude.{◌≡◌, ◌<◌, [], ◌++◌, All, IsTrue, OnOk, OnErr};
ghost use Rattle.std.specs.Fmt.{decimal};
ghost use Rattle.std.specs.Char.{is_ascii};
ghost use Rattle.std.specs.List.{list_all};

use crate::memory::OutOfMemory;
use crate::text::Text;
use std::alloc::Global;
use std::marker::Model;

/// ASCII text to which pieces are added at the end, which contracts see as its bytes.
#[derive(Drop)]
pub struct TextBuilder {
    bytes: Vec<u8>,
    alloc: Global,
}

impl Model for TextBuilder {
    ghost use Rattle.std.specs.Prelude.{ℕ, List, ◌<◌, All};

    ghost Value = { List ℕ };

    ghost view = { λ t. t.bytes.items };

    ghost invariant = { λ t. All (λ b. b < 128) t.bytes.items };
}

impl TextBuilder {
    /// The empty text, whose later pieces use this allocator.
    pub fn new(alloc: Global) -> TextBuilder
        ensures { result ≡ [] }
    {
        TextBuilder {
            bytes: Vec::new(alloc),
            alloc,
        }
    }

    /// Adds ASCII bytes.
    pub fn push_bytes(&mut self, piece: &[u8]) -> Result<(), OutOfMemory>
        requires { All (λ b. b < 128) piece.now }
        ensures ok { OnOk result (self.new ≡ self.old ++ piece.now) }
        ensures err { OnErr result (self.new ≡ self.old) }
    {
        self.bytes.extend_from_slice(piece)?;
        Ok(())
    }

    pub fn push(&mut self, piece: &str) -> Result<(), OutOfMemory>
        requires { IsTrue (list_all is_ascii piece.now) }
        ensures ok { OnOk result (self.new ≡ self.old ++ piece.now) }
        ensures err { OnErr result (self.new ≡ self.old) }
    {
        self.push_bytes(piece.as_bytes())
    }

    pub fn push_text(&mut self, text: &Text) -> Result<(), OutOfMemory>
        ensures ok { OnOk result (self.new ≡ self.old ++ text.now) }
        ensures err { OnErr result (self.new ≡ self.old) }
    {
        self.push_bytes(text.as_slice())
    }

    /// Adds a number in decimal.
    pub fn push_number(&mut self, number: u32) -> Result<(), OutOfMemory>
        ensures ok { OnOk result (self.new ≡ self.old ++ decimal number) }
        ensures err { OnErr result (self.new ≡ self.old) }
    {
        let digits = format!(in self.alloc; "{number}")?;
        self.push(digits.as_str())
    }

    /// The whole text.
    pub fn finish(self) -> Text
        ensures { result ≡ self }
    {
        Text::from_vec(self.bytes)
    }
}
