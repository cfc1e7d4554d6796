//! Values that each begin in one way, lists of them, and whole texts.

ghost use Rattle.std.specs.Prelude.{◌≡◌, ◌∷◌};
ghost use Rattle.ep_lex.specs.Tokens.{AreTokens, spellings};
ghost use Rattle.ep_reader.specs.Gives.{Gives, Says};
ghost use Rattle.ep_reader.specs.Reading.{each, some_each, listed, any_listed, behind_key, braced, whole};
ghost use Rattle.ep_tree.specs.declared.terminal.Terminal.TheVariants as the;

use crate::error::SyntaxError;
use crate::reader::Reader;
use ep_base::List;
use ep_lex::TokenList;
use ep_tree::Terminal;
use std::alloc::Global;

/// A value of the language `L`, which is read from its first token on. `L` is a type of the crate that has the readers
/// of the language: its trees may stand in a crate below, where they are made without a reader.
pub trait Parse<L>: Drop {
    ghost use Rattle.std.specs.Prelude.{Bool};
    ghost use Rattle.ep_reader.specs.Reading.{Reader as ReaderOf, Token, heads};

    ghost starts: { Token → Bool };

    ghost reads: { ReaderOf Self };

    /// Whether the next token may begin a value.
    fn begins(reader: &Reader) -> bool
        ensures { result ≡ heads starts reader.now.1 };

    /// Reads a value, from the next token on.
    fn parse(reader: &mut Reader, alloc: Global) -> Result<Self, SyntaxError>
        ensures { Gives reads reader.old result reader.new };
}

/// `{ item }`
pub fn parse_each<L, T: Parse<L>>(
    reader: &mut Reader,
    alloc: Global,
) -> Result<List<T>, SyntaxError>
    ensures { Gives (each T.starts T.reads) reader.old result reader.new }
{
    let mut items = List::new(alloc);
    for _ in 0..reader.tokens_left() {
        if !T::begins(reader) {
            break;
        }
        let item = T::parse(reader, alloc)?;
        items.push(item)?;
    }
    Ok(items)
}

fn parse_behind_comma<L, T: Parse<L>>(reader: &mut Reader, alloc: Global) -> Result<T, SyntaxError>
    ensures { Gives (behind_key the.Comma T.reads) reader.old result reader.new }
{
    reader.expect(Terminal::Comma)?;
    T::parse(reader, alloc)
}

/// `item { ',' item }`
pub fn parse_listed<L, T: Parse<L>>(
    reader: &mut Reader,
    alloc: Global,
) -> Result<List<T>, SyntaxError>
    ensures { Gives (listed the.Comma T.reads) reader.old result reader.new }
{
    let first = T::parse(reader, alloc)?;
    let mut items = List::new(alloc);
    items.push(first)?;
    for _ in 0..reader.tokens_left() {
        if !reader.sees(Terminal::Comma) {
            break;
        }
        let item = parse_behind_comma(reader, alloc)?;
        items.push(item)?;
    }
    Ok(items)
}

/// `[ item { ',' item } ]`
pub fn parse_any_listed<L, T: Parse<L>>(
    reader: &mut Reader,
    alloc: Global,
) -> Result<List<T>, SyntaxError>
    ensures { Gives (any_listed T.starts the.Comma T.reads) reader.old result reader.new }
{
    if T::begins(reader) {
        parse_listed(reader, alloc)
    } else {
        Ok(List::new(alloc))
    }
}

/// `item { item }`
pub fn parse_some_each<L, T: Parse<L>>(
    reader: &mut Reader,
    alloc: Global,
) -> Result<List<T>, SyntaxError>
    ensures { Gives (some_each T.starts T.reads) reader.old result reader.new }
{
    let first = T::parse(reader, alloc)?;
    let mut items = List::new(alloc);
    items.push(first)?;
    for _ in 0..reader.tokens_left() {
        if !T::begins(reader) {
            break;
        }
        let item = T::parse(reader, alloc)?;
        items.push(item)?;
    }
    Ok(items)
}

/// `'{' { item } '}'`
pub fn parse_braced_each<L, T: Parse<L>>(
    reader: &mut Reader,
    alloc: Global,
) -> Result<List<T>, SyntaxError>
    ensures { Gives (braced (each T.starts T.reads)) reader.old result reader.new }
{
    reader.expect(Terminal::OpenBrace)?;
    let items = parse_each(reader, alloc)?;
    reader.expect(Terminal::CloseBrace)?;
    Ok(items)
}

/// `'{' [ item { ',' item } ] '}'`
pub fn parse_braced_listed<L, T: Parse<L>>(
    reader: &mut Reader,
    alloc: Global,
) -> Result<List<T>, SyntaxError>
    ensures { Gives (braced (any_listed T.starts the.Comma T.reads)) reader.old result reader.new }
{
    reader.expect(Terminal::OpenBrace)?;
    let items = parse_any_listed(reader, alloc)?;
    reader.expect(Terminal::CloseBrace)?;
    Ok(items)
}

/// A value, and nothing behind it. The tokens are those of the bytes.
pub fn parse_whole<L, T: Parse<L>>(
    alloc: Global,
    bytes: &[u8],
    tokens: &TokenList,
) -> Result<T, SyntaxError>
    requires { AreTokens bytes.now tokens.now.tokens }
    ensures { Says result (whole T.reads 0 (spellings bytes.now tokens.now.tokens)) }
{
    let mut reader = Reader::new(bytes, tokens);
    let value = T::parse(&mut reader, alloc)?;
    reader.expect_end()?;
    Ok(value)
}
