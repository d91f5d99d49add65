//! The table of open connections.

ghost use Rattle.std.specs.Prelude.{◌≡◌, ◌+◌, ◌↔◌, None, Some, IsNone, IfSome, IfNone, OnOk, OnErr, IfErr, true, false};
ghost use Rattle.std.specs.Borrow.{sem};
ghost use Rattle.std.specs.Option.{option_copied, option_copied_mut, option_map};
ghost use Rattle.std.specs.FinMap as map;
ghost use Rattle.flow_table.specs.Key.{EndpointPair, key_between};
ghost use Rattle.flow_table.specs.Pair.{is_ipv4_pair};
ghost use Rattle.flow_table.specs.Table.{found, FindsAt};

use crate::endpoint::Endpoint;
use crate::hashing::KeyHashing;
use crate::key::Key;
use crate::pair::Pair;
use indexmap::IndexMap;
use std::alloc::Global;
use std::marker::Model;

/// What is kept for each open connection, by its key, in a box of its own. Contracts see it as a finite map.
/// Every call takes constant time on average. Connections over IPv4 have a list of their own, by shorter keys, so that they are
/// found by fewer comparisons.
#[derive(Drop)]
pub struct FlowTable<T> {
    pairs: IndexMap<Pair, Box<T>, KeyHashing>,
    flows: IndexMap<Key, Box<T>, KeyHashing>,
    alloc: Global,
}

impl<T> Model for FlowTable<T> {
    ghost use Rattle.std.specs.FinMap as map;
    ghost use Rattle.std.specs.Prelude.{◌++◌};
    ghost use Rattle.flow_table.specs.Pair.{IsApart};
    ghost use Rattle.flow_table.specs.Table.{key_cmp, Flows, coded_pair, unboxed};

    ghost Value = { Flows T };

    ghost coded = { map.code coded_pair T.code };

    ghost view = { λ table. map.from_entries (unboxed (table.pairs.entries ++ table.flows.entries)) };

    ghost invariant = { λ table. IsApart table.pairs.entries table.flows.entries };
}

impl<T> FlowTable<T> {
    ghost use Rattle.flow_table.specs.Lends.{LendsFlow};

    /// An empty table, whose hashes have a fixed seed. Keys that were chosen to collide make its calls as
    /// slow as the table is long. It takes no memory.
    pub fn new(alloc: Global) -> FlowTable<T>
        ensures empty { result ≡ map.empty }
        ensures none { (key : EndpointPair) → found result key ≡ None }
    {
        FlowTable {
            pairs: IndexMap::with_hasher(alloc, KeyHashing::fixed()),
            flows: IndexMap::with_hasher(alloc, KeyHashing::fixed()),
            alloc,
        }
    }

    /// An empty table, whose hashes begin with a seed, so that keys collide by chance alone for whoever
    /// doesn't know it. The seed changes no answer. It takes no memory.
    pub fn with_seed(alloc: Global, seed: u64) -> FlowTable<T>
        ensures empty { result ≡ map.empty }
        ensures none { (key : EndpointPair) → found result key ≡ None }
    {
        FlowTable {
            pairs: IndexMap::with_hasher(alloc, KeyHashing::seeded(seed)),
            flows: IndexMap::with_hasher(alloc, KeyHashing::seeded(seed)),
            alloc,
        }
    }

    /// Adds a connection whose key isn't there. Without memory the value comes back, and the table
    /// stays as it was.
    pub fn open(&mut self, key: Key, value: T) -> Result<(), T>
    where
        T: Drop,
        requires absent { found self.old key ≡ None }
        ensures ok { OnOk result (self.new ≡ map.insert self.old key value) }
        ensures found { OnOk result (FindsAt self.old self.new key (Some value)) }
        ensures len { OnOk result (map.len self.new ≡ map.len self.old + 1) }
        ensures err { OnErr result (self.new ≡ self.old) }
        ensures returned { IfErr result (λ back. back ≡ value) }
    {
        let boxed = match Box::new(self.alloc, value) {
            Ok(boxed) => boxed,
            Err(failed) => return Err(failed.value),
        };
        match Pair::of(&key) {
            Some(pair) => match self.pairs.insert(pair, boxed) {
                Ok(_) => Ok(()),
                Err(failed) => {
                    let (_, boxed) = failed.value;
                    Err(Box::into_inner(boxed))
                }
            },
            None => match self.flows.insert(key, boxed) {
                Ok(_) => Ok(()),
                Err(failed) => {
                    let (_, boxed) = failed.value;
                    Err(Box::into_inner(boxed))
                }
            },
        }
    }

    /// The value of a key, where the key is there.
    pub fn get(&self, key: &Key) -> Option<&T>
        ensures value { option_copied result ≡ found self.now key.now }
    {
        match Pair::of(key) {
            Some(pair) => {
                let boxed = self.pairs.get(&pair)?;
                Some(boxed.as_ref())
            }
            None => {
                let boxed = self.flows.get(key)?;
                Some(boxed.as_ref())
            }
        }
    }

    /// The value of a key, to write, where the key is there.
    #[inline(always)]
    pub fn get_mut(&mut self, key: &Key) -> Option<&mut T>
        ensures* writes_back { sem 𝓛 (LendsFlow T.row self.entry key.now result) }
        ensures value { option_copied_mut result ≡ found self.old key.now }
    {
        match Pair::of(key) {
            Some(pair) => self.pair_mut(&pair),
            None => self.flow_mut(key),
        }
    }

    /// The value of the key of two endpoints, in either order, to write, where that key is there. Of two IPv4 endpoints no key
    /// is made.
    #[inline(always)]
    pub fn get_mut_between(&mut self, a: &Endpoint, b: &Endpoint) -> Option<&mut T>
        ensures* writes_back { sem 𝓛 (LendsFlow T.row self.entry (key_between a.now b.now) result) }
        ensures value { option_copied_mut result ≡ found self.old (key_between a.now b.now) }
    {
        match Pair::between(a, b) {
            Some(pair) => self.pair_mut(&pair),
            None => self.flow_mut(&Key::between(*a, *b)),
        }
    }

    // The value of a pair of IPv4 endpoints, to write.
    #[inline(always)]
    fn pair_mut(&mut self, pair: &Pair) -> Option<&mut T>
        requires ipv4 { is_ipv4_pair pair.now ≡ true }
        ensures* writes_back { sem 𝓛 (LendsFlow T.row self.entry pair.now result) }
        ensures value { option_copied_mut result ≡ found self.old pair.now }
    {
        match self.pairs.get_mut(pair) {
            Some(boxed) => Some(boxed.as_mut()),
            None => None,
        }
    }

    // The value of another key, to write.
    #[inline(always)]
    fn flow_mut(&mut self, key: &Key) -> Option<&mut T>
        requires other { is_ipv4_pair key.now ≡ false }
        ensures* writes_back { sem 𝓛 (LendsFlow T.row self.entry key.now result) }
        ensures value { option_copied_mut result ≡ found self.old key.now }
    {
        match self.flows.get_mut(key) {
            Some(boxed) => Some(boxed.as_mut()),
            None => None,
        }
    }

    /// Removes a key with its value, where the key is there. The other connections are not moved
    /// but for one, which takes the free place.
    pub fn close(&mut self, key: &Key) -> Option<T>
        ensures value { result ≡ found self.old key.now }
        ensures removed { self.new ≡ map.remove self.old key.now }
        ensures found { FindsAt self.old self.new key.now None }
        ensures none { IfNone result (self.new ≡ self.old) }
        ensures len { IfSome result (λ _. map.len self.new + 1 ≡ map.len self.old) }
    {
        let boxed = self.remove(key)?;
        Some(Box::into_inner(boxed))
    }

    /// Lets go of a key with its value, where the key is there.
    pub fn forget(&mut self, key: &Key)
    where
        T: Drop,
        ensures removed { self.new ≡ map.remove self.old key.now }
        ensures found { FindsAt self.old self.new key.now None }
    {
        let _ = self.remove(key);
    }

    // Takes the box of a key out of the list where the key belongs.
    #[inline(always)]
    fn remove(&mut self, key: &Key) -> Option<Box<T>>
        ensures value { option_map (λ boxed. boxed.value) result ≡ found self.old key.now }
        ensures removed { self.new ≡ map.remove self.old key.now }
        ensures none { IfNone result (self.new ≡ self.old) }
    {
        match Pair::of(key) {
            Some(pair) => self.pairs.swap_remove(&pair),
            None => self.flows.swap_remove(key),
        }
    }

    /// Removes some connection, where there is one.
    pub fn take_any(&mut self) -> Option<(Key, T)>
        ensures empty { IsNone result ↔ (self.old ≡ map.empty) }
        ensures value { IfSome result (λ flow. found self.old flow.0 ≡ Some flow.1) }
        ensures removed { IfSome result (λ flow. self.new ≡ map.remove self.old flow.0) }
        ensures found { IfSome result (λ flow. FindsAt self.old self.new flow.0 None) }
        ensures none { IfNone result (self.new ≡ self.old) }
        ensures len { IfSome result (λ _. map.len self.new + 1 ≡ map.len self.old) }
    {
        match self.pairs.pop() {
            Some((pair, boxed)) => Some((pair.key(), Box::into_inner(boxed))),
            None => {
                let (key, boxed) = self.flows.pop()?;
                Some((key, Box::into_inner(boxed)))
            }
        }
    }
}
