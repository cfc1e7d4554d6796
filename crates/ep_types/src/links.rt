//! Atoms, and the designated names and links behind worlds or events. Nothing here takes memory.

ghost use Rattle.std.specs.Prelude.{◌≡◌};
ghost use Rattle.ep_base.specs.Refusals.{told};
ghost use Rattle.ep_types.specs.Faults.{first_error};
ghost use Rattle.ep_types.specs.Names.{names_of};
ghost use Rattle.ep_types.specs.Places.{scope, each};
ghost use Rattle.ep_types.specs.Tasks as spec;

use crate::fault::TypeError;
use crate::judge::{check_atom, check_group, check_used_name};
use crate::scope::{Declared, Frame};
use crate::table::Table;
use ep_tree::{AtomTree, LinkTree, Name, PairTree, PairsTree};

pub fn check_atoms(names: &Declared, frame: &Frame, list: &[AtomTree]) -> Result<(), TypeError>
    ensures { result ≡ told (first_error (spec.atoms_uses list.now (scope names.now frame.now))) }
{
    for entry in list {
        check_atom(names, frame, entry)?;
    }
    Ok(())
}

/// Names of worlds or events.
fn check_known_names(ends: &Table<()>, list: &[Name]) -> Result<(), TypeError>
    ensures { result ≡ told (first_error (spec.known_uses (names_of ends.now) list.now)) }
{
    for name in list {
        check_used_name(ends, name)?;
    }
    Ok(())
}

fn check_pair(ends: &Table<()>, entry: &PairTree) -> Result<(), TypeError>
    ensures { result ≡ told (first_error (spec.pair_uses (names_of ends.now) entry.now)) }
{
    check_used_name(ends, &entry.from)?;
    check_used_name(ends, &entry.to)
}

fn check_listed(ends: &Table<()>, list: &[PairTree]) -> Result<(), TypeError>
    ensures { result ≡ told (first_error (each (spec.pair_uses (names_of ends.now)) list.now)) }
{
    for entry in list {
        check_pair(ends, entry)?;
    }
    Ok(())
}

fn check_pairs(ends: &Table<()>, tree: &PairsTree) -> Result<(), TypeError>
    ensures { result ≡ told (first_error (spec.pairs_uses (names_of ends.now) tree.now)) }
{
    match tree {
        PairsTree::All => Ok(()),
        PairsTree::Same => Ok(()),
        PairsTree::Listed(list) => check_listed(ends, list.as_slice()),
    }
}

/// Links between worlds or events.
fn check_links(
    names: &Declared,
    frame: &Frame,
    ends: &Table<()>,
    list: &[LinkTree],
) -> Result<(), TypeError>
    ensures { result ≡ told (first_error (spec.links_uses (names_of ends.now) list.now (scope names.now frame.now))) }
{
    for entry in list {
        check_group(names, frame, &entry.group)?;
        check_pairs(ends, &entry.pairs)?;
    }
    Ok(())
}

/// The designated names, and the links, behind worlds or events.
pub fn check_ends(
    names: &Declared,
    frame: &Frame,
    ends: &Table<()>,
    chosen: &[Name],
    list: &[LinkTree],
) -> Result<(), TypeError>
    ensures { result ≡ told (first_error (spec.ends_uses (names_of ends.now) chosen.now list.now (scope names.now frame.now))) }
{
    check_known_names(ends, chosen)?;
    check_links(names, frame, ends, list)
}
