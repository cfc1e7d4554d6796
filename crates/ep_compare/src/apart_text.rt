// The text of a formula that tells two states apart.
ghost use Rattle.std.specs.Prelude.{◌≡◌, ◌++◌, IfOk, IsTrue, OnOk, decimal, length};
ghost use Rattle.std.specs.Char.{is_ascii};
ghost use Rattle.std.specs.List.{flat_map, list_all};
ghost use Rattle.ep_base.specs.Texts.{line, lines};
ghost use Rattle.ep_logic.specs.Numbers.{table};
ghost use Rattle.ep_ground.specs.StateText.{next_number};
ghost use Rattle.ep_apart.specs.Lines.{AreLines, IsLine};
ghost use Rattle.ep_compare.specs.ApartText.{apart_text, knows_text, numbered_line, part_text, placed_text, side_text};

use ep_apart::{Apart, Line, Side};
use ep_base::{OutOfMemory, Text, TextBuilder};
use ep_ground::Task;
use std::alloc::Global;

fn side_word(side: Side) -> &'static str
    ensures value { result.now ≡ side_text side }
    ensures ascii { IsTrue (list_all is_ascii result.now) }
{
    match side {
        Side::First => "first",
        Side::Second => "second",
    }
}

fn push_numbers(text: &mut TextBuilder, numbers: &[u32]) -> Result<(), OutOfMemory>
    ensures { OnOk result (text.new ≡ text.old ++ flat_map next_number numbers.now) }
{
    for number in numbers {
        text.push(" ")?;
        text.push_number(*number)?;
    }
    Ok(())
}

fn push_knows(text: &mut TextBuilder, agent: &Text, number: u32) -> Result<(), OutOfMemory>
    ensures { OnOk result (text.new ≡ text.old ++ knows_text agent.now number) }
{
    text.push("knows ")?;
    text.push_text(agent)?;
    text.push(" ")?;
    text.push_number(number)
}

// What a line says.
fn push_part(
    text: &mut TextBuilder,
    task: &Task,
    line: &Line,
    place: usize,
) -> Result<(), OutOfMemory>
    requires { IsLine (length task.now.agents) (length task.now.atoms) place line.now }
    ensures { OnOk result (text.new ≡ text.old ++ part_text task.now line.now) }
{
    match line {
        Line::True => text.push("true"),
        Line::Atom(atom) => {
            text.push("atom ")?;
            text.push_text(task.atom_name(*atom))
        }
        Line::Not(number) => {
            text.push("not ")?;
            text.push_number(*number)
        }
        Line::And(numbers) => {
            text.push("and")?;
            push_numbers(text, numbers.as_slice())
        }
        Line::Knows(agent, number) => push_knows(text, task.agent_name(*agent), *number),
    }
}

fn push_place(alloc: Global, text: &mut TextBuilder, place: usize) -> Result<(), OutOfMemory>
    ensures { OnOk result (text.new ≡ text.old ++ decimal place) }
{
    let digits = format!(in alloc; "{place}")?;
    text.push(digits.as_str())
}

// A line behind its number.
fn push_line(
    alloc: Global,
    text: &mut TextBuilder,
    task: &Task,
    part: &Line,
    place: usize,
) -> Result<(), OutOfMemory>
    requires { IsLine (length task.now.agents) (length task.now.atoms) place part.now }
    ensures { OnOk result (text.new ≡ text.old ++ line (placed_text task.now part.now place)) }
{
    push_place(alloc, text, place)?;
    text.push(" ")?;
    push_part(text, task, part, place)?;
    text.push("\n")
}

fn push_lines(
    alloc: Global,
    text: &mut TextBuilder,
    task: &Task,
    parts: &[Line],
) -> Result<(), OutOfMemory>
    requires { AreLines (length task.now.agents) (length task.now.atoms) 0 parts.now }
    ensures { OnOk result (text.new ≡ text.old ++ lines (table (numbered_line task.now parts.now) (length parts.now))) }
{
    for place in 0..parts.len() {
        push_line(alloc, text, task, &parts[place], place)?;
    }
    Ok(())
}

/// The side, and each line behind its number.
pub fn print_apart(alloc: Global, task: &Task, apart: &Apart) -> Result<Text, OutOfMemory>
    requires { AreLines (length task.now.agents) (length task.now.atoms) 0 apart.now.lines }
    ensures { IfOk result (λ text. text ≡ apart_text task.now apart.now) }
{
    let mut text = TextBuilder::new(alloc);
    text.push("apart: ")?;
    text.push(side_word(apart.side))?;
    text.push("\n")?;
    push_lines(alloc, &mut text, task, apart.lines.as_slice())?;
    Ok(text.finish())
}
