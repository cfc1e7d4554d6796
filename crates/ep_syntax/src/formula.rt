//! The reader of formulas: descent with two tokens of look-ahead.

ghost use Rattle.std.specs.Prelude.{◌≡◌, ◌≤◌, ◌∷◌, ◌==◌, drop};
ghost use Rattle.ep_syntax.specs.FormulaReading as reading;
ghost use Rattle.ep_reader.specs.Gives.{Gives, Stops};
ghost use Rattle.ep_reader.specs.Reading.{heads, key, name, seq, behind_key, made};
ghost use Rattle.ep_tree.specs.declared.terminal.Terminal.TheVariants as the;

use crate::atom::{parse_group, parse_params};
use crate::language::TaskLanguage;
use ep_base::{Boxed, List};
use ep_reader::{Parse, Reader, SyntaxError};
use ep_tree::{AtomTree, FormulaTree, MOST_NESTING, Terminal};
use std::alloc::Global;

const STARTERS: [Terminal; 8] = [
    Terminal::True,
    Terminal::False,
    Terminal::Not,
    Terminal::Knows,
    Terminal::Common,
    Terminal::Forall,
    Terminal::Exists,
    Terminal::OpenParen,
];

fn starter_of(text: &[u8]) -> Option<Terminal>
    ensures { result ≡ reading.starter_of text.now }
{
    STARTERS.iter().copied().find(|terminal| terminal.is(text))
}

// The next token, if it is a terminal that begins a formula.
fn starter(reader: &Reader) -> Option<Terminal>
    ensures { result ≡ reading.starter reader.now.1 }
{
    match reader.next_text() {
        Some(text) => starter_of(text),
        None => None,
    }
}

fn starts_formula(reader: &Reader) -> bool
    ensures { result ≡ heads reading.starts_formula reader.now.1 }
{
    reader.sees_name() || starter(reader).is_some()
}

fn is_equality(reader: &Reader) -> bool
    ensures { result ≡ reading.is_equality reader.now.1 }
{
    reader.sees_name_at(1) && reader.sees_at(2, Terminal::Equals)
}

fn follows(reader: &Reader) -> bool
    ensures { result ≡ heads reading.follows (drop 2 reader.now.1) }
{
    reader.sees_at(2, Terminal::OpenParen)
        || reader.sees_at(2, Terminal::CloseParen)
        || reader.sees_at(2, Terminal::And)
        || reader.sees_at(2, Terminal::Or)
}

#[tactic(auto, unfolding(crate::specs::FormulaReading::equality))]
fn parse_equality(reader: &mut Reader, alloc: Global) -> Result<FormulaTree, SyntaxError>
    ensures { Gives reading.equality reader.old result reader.new }
{
    let token = reader.expect(Terminal::OpenParen)?;
    let left = reader.expect_name(alloc)?;
    reader.expect(Terminal::Equals)?;
    let right = reader.expect_name(alloc)?;
    reader.expect(Terminal::CloseParen)?;
    Ok(FormulaTree::Equal { token, left, right })
}

// `terminal formula`
#[cycle(formula)]
fn parse_part(
    reader: &mut Reader,
    alloc: Global,
    depth: u32,
    terminal: Terminal,
) -> Result<FormulaTree, SyntaxError>
    ensures { Gives (behind_key terminal (reading.formula depth)) reader.old result reader.new }
{
    reader.expect(terminal)?;
    parse_formula(reader, alloc, depth)
}

// `terminal formula { terminal formula }`, behind a first formula.
#[cycle(formula)]
fn parse_parts(
    reader: &mut Reader,
    alloc: Global,
    depth: u32,
    terminal: Terminal,
    first: FormulaTree,
) -> Result<List<FormulaTree>, SyntaxError>
    ensures { Gives (λ n ts. made (λ xs. first ∷ xs) (reading.some_behind terminal (reading.formula depth) n ts)) reader.old result reader.new }
{
    let mut parts = List::new(alloc);
    parts.push(first)?;
    let second = parse_part(reader, alloc, depth, terminal)?;
    parts.push(second)?;
    for _ in 0..reader.tokens_left() {
        if !reader.sees(terminal) {
            break;
        }
        let next = parse_part(reader, alloc, depth, terminal)?;
        parts.push(next)?;
    }
    Ok(parts)
}

// The same, and the closing parenthesis.
#[cycle(formula)]
fn parse_closed_parts(
    reader: &mut Reader,
    alloc: Global,
    depth: u32,
    terminal: Terminal,
    first: FormulaTree,
) -> Result<List<FormulaTree>, SyntaxError>
    ensures { Gives (λ n ts. made (λ p. first ∷ p.0) (reading.joined terminal (reading.formula depth) n ts)) reader.old result reader.new }
{
    let parts = parse_parts(reader, alloc, depth, terminal, first)?;
    reader.expect(Terminal::CloseParen)?;
    Ok(parts)
}

#[cycle(formula)]
#[tactic(auto, unfolding(crate::specs::FormulaReading::tail))]
fn parse_tail(
    reader: &mut Reader,
    alloc: Global,
    depth: u32,
    token: u32,
    first: FormulaTree,
) -> Result<FormulaTree, SyntaxError>
    ensures { Gives (λ n ts. made (reading.with_tail token first) (reading.tail (reading.formula depth) n ts)) reader.old result reader.new }
{
    if reader.sees(Terminal::And) {
        let parts = parse_closed_parts(reader, alloc, depth, Terminal::And, first)?;
        Ok(FormulaTree::And { token, parts })
    } else if reader.sees(Terminal::Or) {
        let parts = parse_closed_parts(reader, alloc, depth, Terminal::Or, first)?;
        Ok(FormulaTree::Or { token, parts })
    } else {
        reader.expect(Terminal::CloseParen)?;
        let inner = Boxed::new(alloc, first)?;
        Ok(FormulaTree::Paren { token, inner })
    }
}

#[cycle(formula)]
#[tactic(auto, unfolding(crate::specs::FormulaReading::inside))]
fn parse_inside(reader: &mut Reader, alloc: Global, depth: u32) -> Result<FormulaTree, SyntaxError>
    ensures { Gives (reading.inside (reading.formula depth)) reader.old result reader.new }
{
    let token = reader.expect(Terminal::OpenParen)?;
    let first = parse_formula(reader, alloc, depth)?;
    parse_tail(reader, alloc, depth, token, first)
}

// Why no name stands here, behind a parenthesis, where no nesting is left.
fn refusal_of_name(reader: &Reader) -> SyntaxError
    ensures { Stops result (reading.deep_name reader.now.0 reader.now.1) }
{
    let token = reader.place();
    if follows(reader) {
        SyntaxError::TooDeep { token: token + 1 }
    } else {
        SyntaxError::Syntax { token: token + 2 }
    }
}

#[cycle(formula)]
#[tactic(auto, unfolding(crate::specs::FormulaReading::opened))]
fn parse_opened(reader: &mut Reader, alloc: Global, depth: u32) -> Result<FormulaTree, SyntaxError>
    ensures { Gives (reading.opened (depth == 0) (reading.formula depth)) reader.old result reader.new }
{
    if is_equality(reader) {
        parse_equality(reader, alloc)
    } else if depth == 0 && reader.sees_name_at(1) {
        Err(refusal_of_name(reader))
    } else {
        parse_inside(reader, alloc, depth)
    }
}

#[cycle(formula)]
fn parse_negation(
    reader: &mut Reader,
    alloc: Global,
    depth: u32,
) -> Result<FormulaTree, SyntaxError>
    ensures { Gives (λ n ts. made reading.not_of (seq (key the.Not n ts) (reading.formula depth))) reader.old result reader.new }
{
    let token = reader.expect(Terminal::Not)?;
    let inner = parse_formula(reader, alloc, depth)?;
    let inner = Boxed::new(alloc, inner)?;
    Ok(FormulaTree::Not { token, inner })
}

#[cycle(formula)]
fn parse_knowledge(
    reader: &mut Reader,
    alloc: Global,
    depth: u32,
) -> Result<FormulaTree, SyntaxError>
    ensures { Gives (λ n ts. made reading.knows_of (seq (seq (key the.Knows n ts) name) (reading.formula depth))) reader.old result reader.new }
{
    let token = reader.expect(Terminal::Knows)?;
    let agent = reader.expect_name(alloc)?;
    let inner = parse_formula(reader, alloc, depth)?;
    let inner = Boxed::new(alloc, inner)?;
    Ok(FormulaTree::Knows {
        token,
        agent,
        inner,
    })
}

#[cycle(formula)]
fn parse_common_knowledge(
    reader: &mut Reader,
    alloc: Global,
    depth: u32,
) -> Result<FormulaTree, SyntaxError>
    ensures { Gives (λ n ts. made reading.common_of (seq (seq (key the.Common n ts) reading.group) (reading.formula depth))) reader.old result reader.new }
{
    let token = reader.expect(Terminal::Common)?;
    let group = parse_group(reader, alloc)?;
    let inner = parse_formula(reader, alloc, depth)?;
    let inner = Boxed::new(alloc, inner)?;
    Ok(FormulaTree::Common {
        token,
        group,
        inner,
    })
}

#[cycle(formula)]
fn parse_universal(
    reader: &mut Reader,
    alloc: Global,
    depth: u32,
) -> Result<FormulaTree, SyntaxError>
    ensures { Gives (λ n ts. made reading.forall_of (seq (seq (key the.Forall n ts) reading.params) (reading.formula depth))) reader.old result reader.new }
{
    let token = reader.expect(Terminal::Forall)?;
    let params = parse_params(reader, alloc)?;
    let inner = parse_formula(reader, alloc, depth)?;
    let inner = Boxed::new(alloc, inner)?;
    Ok(FormulaTree::Forall {
        token,
        params,
        inner,
    })
}

#[cycle(formula)]
fn parse_existential(
    reader: &mut Reader,
    alloc: Global,
    depth: u32,
) -> Result<FormulaTree, SyntaxError>
    ensures { Gives (λ n ts. made reading.exists_of (seq (seq (key the.Exists n ts) reading.params) (reading.formula depth))) reader.old result reader.new }
{
    let token = reader.expect(Terminal::Exists)?;
    let params = parse_params(reader, alloc)?;
    let inner = parse_formula(reader, alloc, depth)?;
    let inner = Boxed::new(alloc, inner)?;
    Ok(FormulaTree::Exists {
        token,
        params,
        inner,
    })
}

// A formula whose parts have at most so many nestings.
#[cycle(formula)]
#[tactic(auto, unfolding(crate::specs::FormulaReading::by_token))]
fn parse_by_token(
    reader: &mut Reader,
    alloc: Global,
    depth: u32,
) -> Result<FormulaTree, SyntaxError>
    ensures { Gives (reading.by_token (depth == 0) (reading.formula depth)) reader.old result reader.new }
{
    if reader.sees_name() {
        let atom = AtomTree::parse(reader, alloc)?;
        return Ok(FormulaTree::Atom { atom });
    }
    match starter(reader) {
        Some(Terminal::True) => {
            let token = reader.expect(Terminal::True)?;
            Ok(FormulaTree::True { token })
        }
        Some(Terminal::False) => {
            let token = reader.expect(Terminal::False)?;
            Ok(FormulaTree::False { token })
        }
        Some(Terminal::Not) => parse_negation(reader, alloc, depth),
        Some(Terminal::Knows) => parse_knowledge(reader, alloc, depth),
        Some(Terminal::Common) => parse_common_knowledge(reader, alloc, depth),
        Some(Terminal::Forall) => parse_universal(reader, alloc, depth),
        Some(Terminal::Exists) => parse_existential(reader, alloc, depth),
        Some(Terminal::OpenParen) => parse_opened(reader, alloc, depth),
        _ => Err(SyntaxError::Syntax {
            token: reader.place(),
        }),
    }
}

// A formula of so many nestings at most.
#[cycle(formula)]
fn parse_formula(reader: &mut Reader, alloc: Global, depth: u32) -> Result<FormulaTree, SyntaxError>
    ensures { Gives (reading.formula depth) reader.old result reader.new }
{
    let token = reader.place();
    if depth > 0 {
        parse_by_token(reader, alloc, depth - 1)
    } else if starts_formula(reader) {
        Err(SyntaxError::TooDeep { token })
    } else {
        Err(SyntaxError::Syntax { token })
    }
}

impl Parse<TaskLanguage> for FormulaTree {
    ghost use Rattle.ep_syntax.specs.FormulaReading.{outer_formula, starts_formula};

    ghost starts = { starts_formula };

    ghost reads = { outer_formula };

    fn begins(reader: &Reader) -> bool {
        starts_formula(reader)
    }

    fn parse(reader: &mut Reader, alloc: Global) -> Result<FormulaTree, SyntaxError> {
        parse_formula(reader, alloc, MOST_NESTING)
    }
}
