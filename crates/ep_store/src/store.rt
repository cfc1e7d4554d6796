// The store.

ghost use Rattle.std.specs.Prelude.{◌≡◌, [], ◌∷◌, ◌++◌, ◌<◌, ◌≤◌, length, None, IfErr, IfOk, OnErr, OnOk};
ghost use Rattle.std.specs.Map.{lookup};
ghost use Rattle.ep_theory.specs.Kripke.{IsState};
ghost use Rattle.ep_bytes.specs.Bytes.{bytes_of};
ghost use Rattle.ep_store.specs.Stored.{Has, Lacks, AreDistinct, MayCome, IsAdded, IsRefused, IsWant, IsPath, toll_sum};
ghost use Rattle.ep_store.specs.Inside.{is_key};

use crate::entry::{Added, Entry, Step, StoreError, improve};
use ep_canon::Canon;
use ep_logic::{List, OutOfMemory, StateId};
use indexmap::IndexMap;
use std::alloc::Global;
use std::marker::Model;

/// Canonical states, each once, in the order in which they were stored, each with the least weight at which it was
/// met. Its keys are the canonical bytes. This project's own.
pub struct Store {
    limit: u32,
    alloc: Global,
    map: IndexMap<Vec<u8>, Entry>,
}

impl Drop for Store {
    fn drop(self) {
        let Store {
            limit: _limit,
            alloc: _alloc,
            map: _map,
        } = self;
    }
}

impl Model for Store {
    ghost use Rattle.ep_store.specs.Stored.{Stored};

    ghost Value = { Stored };

    ghost use Rattle.indexmap.specs.IndexMap.{values};
    ghost use Rattle.ep_store.specs.Inside.{IsStore};

    ghost view = { λ s. record { limit = s.limit; entries = values s.map } };

    ghost invariant = { λ s. IsStore s.limit s.map.entries };
}

impl Store {
    /// A store for at most `limit` states. It takes no memory.
    pub fn new(alloc: Global, limit: u32) -> Store
        ensures { result ≡ record { limit = limit; entries = [] } }
    {
        Store {
            limit,
            alloc,
            map: IndexMap::new(alloc),
        }
    }

    pub fn len(&self) -> u32
        ensures value { result ≡ length self.now.entries }
        ensures room { length self.now.entries ≤ self.now.limit }
        ensures distinct { AreDistinct self.now.entries }
    {
        let _limit = self.limit;
        self.map.len() as u32
    }

    pub fn get(&self, id: StateId) -> &Canon
        requires { id.n < length self.now.entries }
        ensures { Has self.now.entries id.n (λ e. result.now ≡ e.canon) }
    {
        &self.map[id.n as usize].canon
    }

    pub fn weight(&self, id: StateId) -> u32
        requires { id.n < length self.now.entries }
        ensures { Has self.now.entries id.n (λ e. result ≡ e.weight) }
    {
        self.map[id.n as usize].weight
    }

    /// Stores a state that was met at a weight, by a step from an entry, or a lesser weight of a state that is there.
    /// Only the first state comes from no entry. A refusal hands the state back.
    pub fn add(
        &mut self,
        canon: Canon,
        weight: u32,
        from: Option<Step>,
    ) -> Result<Added, StoreError>
        requires { MayCome self.old.entries weight from }
        ensures added { IfOk result (λ r. IsAdded self.old (record { canon = canon; weight = weight; from = from }) r self.new) }
        ensures refused { IfErr result (λ r. IsRefused self.old canon r self.new) }
    {
        let key = match canon.bytes(self.alloc) {
            Ok(bytes) => bytes.into_vec(),
            Err(_error) => return Err(StoreError::OutOfMemory(canon)),
        };
        match self.map.get_index_of(key.as_slice()) {
            Some(at) => {
                let id = StateId { n: at as u32 };
                if improve(&mut self.map[at], weight, from) {
                    Ok(Added::Better(id))
                } else {
                    Ok(Added::Known(id))
                }
            }
            None => self.put(
                key,
                Entry {
                    canon,
                    weight,
                    from,
                },
            ),
        }
    }

    // Puts a state that is not there at the end, where there is room.
    fn put(&mut self, key: Vec<u8>, entry: Entry) -> Result<Added, StoreError>
        requires key { key.items ≡ bytes_of entry.canon }
        requires valid { IsState entry.canon }
        requires absent { Lacks self.old.entries entry.canon }
        requires comes { MayCome self.old.entries entry.weight entry.from }
        ensures added { IfOk result (λ r. IsAdded self.old entry r self.new) }
        ensures refused { IfErr result (λ r. IsRefused self.old entry.canon r self.new) }
    {
        let count = self.map.len();
        if count >= self.limit as usize {
            return Err(StoreError::Full(entry.canon));
        }
        insert(&mut self.map, key, entry)?;
        Ok(Added::New(StateId { n: count as u32 }))
    }

    /// The steps along the parents, from the first entry to this one.
    pub fn path(&self, id: StateId) -> Result<List<Step>, OutOfMemory>
        requires { id.n < length self.now.entries }
        ensures path { IfOk result (IsPath self.now.entries id.n) }
        ensures tolls { IfOk result (λ p. Has self.now.entries id.n (λ e. toll_sum p ≤ e.weight)) }
    {
        let mut path = Vec::new(self.alloc);
        let mut at = id;
        while let Some(step) = self.map[at.n as usize].from {
            path.push(step)?;
            at = step.parent;
        }
        path.reverse();
        Ok(List::from_vec(path))
    }
}

// Puts an entry with a new key at the end.
fn insert(map: &mut IndexMap<Vec<u8>, Entry>, key: Vec<u8>, entry: Entry) -> Result<(), StoreError>
    requires { lookup (is_key key.items) map.old.entries ≡ None }
    ensures ok { OnOk result (map.new.entries ≡ map.old.entries ++ (key, entry) ∷ []) }
    ensures err { IfErr result (IsWant entry.canon) }
    ensures kept { OnErr result (map.new.entries ≡ map.old.entries) }
{
    match map.insert(key, entry) {
        Ok(_old) => Ok(()),
        Err(failed) => {
            let (_key, entry) = failed.value;
            Err(StoreError::OutOfMemory(entry.canon))
        }
    }
}
