// Vectors with room, and lists of names.
ghost use Rattle.std.specs.Prelude.{◌≡◌, ◌+◌, ◌≤◌, [], ◌∷◌, ◌++◌, IfOk, OnOk, OnErr, length, vec_len, vec_capacity};

use ep_base::{List, OutOfMemory};
use std::alloc::Global;

// Appends to a vector that has room.
pub fn append(bytes: &mut Vec<u8>, more: &[u8])
    requires { vec_len bytes.old + length more.now ≤ vec_capacity bytes.old }
    ensures items { bytes.new.items ≡ bytes.old.items ++ more.now }
    ensures len { vec_len bytes.new ≡ vec_len bytes.old + length more.now }
    ensures capacity { vec_capacity bytes.old ≤ vec_capacity bytes.new }
{
    bytes.extend_from_slice(more).unwrap();
}

// Keeps the name at the end of the names, and gives a copy of it.
pub fn keep_name(
    alloc: Global,
    names: &mut List<List<u8>>,
    name: &str,
) -> Result<List<u8>, OutOfMemory>
    ensures copy { IfOk result (λ copy. copy ≡ name.now) }
    ensures kept { OnOk result (names.new ≡ names.old ++ name.now ∷ []) }
    ensures err { OnErr result (names.new ≡ names.old) }
{
    let copy = List::from_vec(Vec::from_slice(alloc, name.as_bytes())?);
    names.push(List::from_vec(Vec::from_slice(alloc, name.as_bytes())?))?;
    Ok(copy)
}
