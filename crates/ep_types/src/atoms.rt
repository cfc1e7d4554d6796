//! Sets of atoms.

ghost use Rattle.std.specs.Prelude.{◌≡◌, [], IfOk, OnOk};
ghost use Rattle.ep_types.specs.Atoms.{atom_texts, has_atom, key_texts, with_atom};

use ep_tree::AtomTree;
use indexmap::IndexSet;
use std::alloc::{AllocError, Global};
use std::marker::Model;

/// Atoms, each once. Contracts see each as its fluent and its arguments.
#[derive(Drop)]
pub struct AtomSet {
    keys: IndexSet<Vec<Vec<u8>>>,
}

impl Model for AtomSet {
    ghost use Rattle.std.specs.Prelude.{List, ℕ, map};
    ghost use Rattle.ep_types.specs.Atoms.{key_texts};

    ghost Value = { List (List (List ℕ)) };

    ghost view = { λ s. map key_texts s.keys.keys };
}

/// The texts of an atom, as a key.
fn make_key(alloc: Global, atom: &AtomTree) -> Result<Vec<Vec<u8>>, AllocError>
    ensures { IfOk result (λ key. key_texts key ≡ atom_texts atom.now) }
{
    let mut key = Vec::new(alloc);
    key.push(Vec::from_slice(alloc, atom.name.text.as_slice())?)?;
    for arg in atom.args.as_slice() {
        key.push(Vec::from_slice(alloc, arg.text.as_slice())?)?;
    }
    Ok(key)
}

impl AtomSet {
    pub fn new(alloc: Global) -> AtomSet
        ensures { result ≡ [] }
    {
        AtomSet {
            keys: IndexSet::new(alloc),
        }
    }

    /// Adds an atom, if it is not there.
    pub fn add(&mut self, alloc: Global, atom: &AtomTree) -> Result<(), AllocError>
        ensures { OnOk result (self.new ≡ with_atom self.old (atom_texts atom.now)) }
    {
        let key = make_key(alloc, atom)?;
        self.keys.insert(key)?;
        Ok(())
    }

    /// Whether an atom is there.
    pub fn has(&self, alloc: Global, atom: &AtomTree) -> Result<bool, AllocError>
        ensures { IfOk result (λ is_there. is_there ≡ has_atom (atom_texts atom.now) self.now) }
    {
        let key = make_key(alloc, atom)?;
        Ok(self.keys.contains(&key))
    }
}
