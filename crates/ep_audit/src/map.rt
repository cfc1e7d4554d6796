//! Whether a map of worlds is a bisimulation.

ghost use Rattle.std.specs.Prelude.{◌≡◌, ℕ, ◌<◌, ◌↔◌, true, false, Some, None, All, length, slice_index_or, IsTrue, IfOk};
ghost use Rattle.std.specs.List.{AllByRecursion};
ghost use Rattle.ep_theory.specs.Kripke.{truth_of};
ghost use Rattle.ep_theory.specs.Maps.{Maps};
ghost use Rattle.ep_audit.specs.Related.{Relates, MapsAt};
ghost use Rattle.ep_audit.specs.Shown.{IsBelow, ShowsMap};

use crate::lines::map_fields;
use ep_kripke::State;
use ep_logic::{AgentId, AtomId, Bits, OutOfMemory, WorldId};
use std::alloc::Global;

/// Whether the map is a bisimulation of the states that relates their designated worlds. The time is linear in the
/// links of both and in the worlds for each agent.
pub fn maps(alloc: Global, s: &State, r: &State, map: &[Option<u32>]) -> Result<bool, OutOfMemory>
    requires agents { s.now.agents ≡ r.now.agents }
    requires atoms { s.now.atoms ≡ r.now.atoms }
    requires below { AllByRecursion (IsBelow r.now.worlds) map.now }
    ensures { IfOk result (λ b. IsTrue b ↔ Maps s.now r.now map.now) }
{
    let count = s.worlds();
    let others = r.worlds();
    if map.len() != count as usize {
        return Ok(false);
    }
    for w in 0..count {
        if !maps_from(alloc, s, r, map, w)? {
            return Ok(false);
        }
    }
    let related = answers(alloc, s.designated(), r.designated(), map, others)?;
    Ok(related)
}

// Whether the map is right at a world, if it gives another for it.
fn maps_from(
    alloc: Global,
    s: &State,
    r: &State,
    map: &[Option<u32>],
    w: u32,
) -> Result<bool, OutOfMemory>
    requires agents { s.now.agents ≡ r.now.agents }
    requires atoms { s.now.atoms ≡ r.now.atoms }
    requires long { length map.now ≡ s.now.worlds }
    requires below { AllByRecursion (IsBelow r.now.worlds) map.now }
    requires world { w < s.now.worlds }
    ensures { IfOk result (λ b. IsTrue b ↔ ((v : ℕ) → slice_index_or map.now w None ≡ Some v → MapsAt s.now r.now map.now w v)) }
{
    match map[w as usize] {
        Some(v) => maps_world(alloc, s, r, map, WorldId { n: w }, WorldId { n: v }),
        None => Ok(true),
    }
}

// Whether the worlds have the same truth values, and the map relates their successors by each agent.
fn maps_world(
    alloc: Global,
    s: &State,
    r: &State,
    map: &[Option<u32>],
    w: WorldId,
    v: WorldId,
) -> Result<bool, OutOfMemory>
    requires agents { s.now.agents ≡ r.now.agents }
    requires atoms { s.now.atoms ≡ r.now.atoms }
    requires long { length map.now ≡ s.now.worlds }
    requires world { w.n < s.now.worlds }
    requires target { v.n < r.now.worlds }
    ensures { IfOk result (λ b. IsTrue b ↔ MapsAt s.now r.now map.now w.n v.n) }
{
    if !same_truth(s, r, w, v) {
        return Ok(false);
    }
    let mut from = Vec::new(alloc);
    let mut to = Vec::new(alloc);
    for n in 0..s.agents() {
        let a = AgentId { n };
        s.read_targets(a, w, &mut from)?;
        r.read_targets(a, v, &mut to)?;
        if !answers(alloc, &from, &to, map, r.worlds())? {
            return Ok(false);
        }
    }
    Ok(true)
}

// Whether the worlds have the same truth values.
fn same_truth(s: &State, r: &State, w: WorldId, v: WorldId) -> bool
    requires atoms { s.now.atoms ≡ r.now.atoms }
    requires world { w.n < s.now.worlds }
    requires target { v.n < r.now.worlds }
    ensures { IsTrue result ↔ (truth_of s.now w.n ≡ truth_of r.now v.n) }
{
    let count = s.atoms();
    let _same = r.atoms();
    for n in 0..count {
        let p = AtomId { n };
        if s.holds_atom(w, p) != r.holds_atom(v, p) {
            return false;
        }
    }
    true
}

// Whether the map relates each of the first numbers to one of the second, and each of the second to one of the first.
fn answers(
    alloc: Global,
    from: &[u32],
    to: &[u32],
    map: &[Option<u32>],
    count: u32,
) -> Result<bool, OutOfMemory>
    requires from { All (λ w. w < length map.now) from.now }
    requires to { All (λ v. v < count) to.now }
    ensures { IfOk result (λ b. IsTrue b ↔ Relates map.now from.now to.now) }
{
    let own = Bits::from_places(alloc, count, to)?;
    let mut met = Bits::zeros(alloc, count)?;
    for w in from {
        match map[*w as usize] {
            Some(v) => {
                if v >= count || !own.get(v) {
                    return Ok(false);
                }
                met.set(v, true);
            }
            None => return Ok(false),
        }
    }
    Ok(all_in(&met, to))
}

// Whether the row is true at each of the numbers.
fn all_in(row: &Bits, numbers: &[u32]) -> bool
    requires { All (λ n. n < length row.now) numbers.now }
    ensures { IsTrue result ↔ All (λ n. slice_index_or row.now n false ≡ true) numbers.now }
{
    for n in numbers {
        if !row.get(*n) {
            return false;
        }
    }
    true
}

/// Whether the text is that of a map between the states.
pub fn shows_map(alloc: Global, s: &State, r: &State, text: &[u8]) -> Result<bool, OutOfMemory>
    requires agents { s.now.agents ≡ r.now.agents }
    requires atoms { s.now.atoms ≡ r.now.atoms }
    ensures { IfOk result (λ b. IsTrue b ↔ ShowsMap s.now r.now text.now) }
{
    let count = r.worlds();
    let _worlds = s.worlds();
    match map_fields(alloc, text, count)? {
        Some(map) => maps(alloc, s, r, map.as_slice()),
        None => Ok(false),
    }
}
