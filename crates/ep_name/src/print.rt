// Printed names of ground atoms and actions.

ghost use Rattle.std.specs.Prelude.{◌≡◌, ◌<◌, All, IfOk, length};
ghost use Rattle.ep_name.specs.Names.{printed_at, mark_before};

use ep_base::{OutOfMemory, Text};
use std::alloc::Global;

/// The declared name, and where there are objects, their names in parentheses, with `,` between them and no blank.
/// `names` are those of all objects, by number.
pub fn print_name(
    alloc: Global,
    name: &Text,
    names: &[Text],
    objects: &[u32],
) -> Result<Text, OutOfMemory>
    requires { All (λ o. o < length names.now) objects.now }
    ensures { IfOk result (λ text. text ≡ printed_at name.now names.now objects.now) }
{
    let mut text = Vec::from_slice(alloc, name.as_slice())?;
    for (place, object) in objects.iter().enumerate() {
        text.push(mark_before(place))?;
        text.extend_from_slice(names[*object as usize].as_slice())?;
    }
    if !objects.is_empty() {
        text.push(b')')?;
    }
    Ok(Text::from_vec(text))
}

fn mark_before(place: usize) -> u8
    ensures { result ≡ mark_before place }
{
    match place {
        0 => b'(',
        _ => b',',
    }
}
