// What came of calls, by their keys.

ghost use Rattle.std.specs.Prelude.{◌≡◌, ◌≢◌, ◌≤◌, ◌<◌, ◌+◌, ◌⊎◌, ℕ, List, Some, None, option_map, string_bytes, OnOk};
ghost use Rattle.std.specs.HashMap.{hash_map_len};
ghost use Rattle.tl_keys.specs.declared.index.TheConstants.{CAPACITY};

use crate::kept::Kept;
use std::alloc::{AllocError, Global};
use std::collections::HashMap;
use std::mem;

/// How many keys each of the two parts has at most. So many of the latest calls that had a key are remembered at least, and twice as many at most.
pub const CAPACITY: usize = 65_536;

/// What came of calls, by their keys.
///
/// It has two parts. What is remembered goes into the recent one; when that is full, it becomes the earlier one, and what was there is let go. So
/// a call is forgotten only after so many calls with other keys came as one part has.
#[derive(Debug, Drop)]
pub struct KeyIndex {
    recent: HashMap<String, Kept>,
    earlier: HashMap<String, Kept>,
    ghost few: { (hash_map_len recent ≤ CAPACITY) × (hash_map_len earlier ≤ CAPACITY) },
}

impl KeyIndex {
    ghost use Rattle.tl_keys.specs.Keys.{recall, recent_at, Stays, Ages, Remembers};

    /// Nothing is remembered.
    pub fn new(alloc: Global) -> KeyIndex
        ensures { (key : List ℕ) → recall result key ≡ None }
    {
        KeyIndex {
            recent: HashMap::new(alloc),
            earlier: HashMap::new(alloc),
        }
    }

    /// What is remembered under the key.
    pub fn find(&self, key: &str) -> Option<&Kept>
        ensures { option_map (λ k. k.now) result ≡ recall self.now key.now }
    {
        match self.recent.get(key) {
            Some(kept) => Some(kept),
            None => self.earlier.get(key),
        }
    }

    // Lets the recent part become the earlier one, if it is full.
    fn make_room(&mut self, alloc: Global)
        ensures room { hash_map_len self.new.recent < CAPACITY }
        ensures size { hash_map_len self.new.recent ≤ hash_map_len self.old.recent }
        ensures fresh { CAPACITY ≤ hash_map_len self.old.recent → hash_map_len self.new.recent ≡ 0 }
        ensures each { (key : List ℕ) → Stays self.old self.new key ⊎ Ages self.old self.new key }
    {
        if self.recent.len() < CAPACITY {
            return;
        }
        self.earlier = mem::replace(&mut self.recent, HashMap::new(alloc));
    }

    // Puts what came of a call into the recent part, which has room.
    fn put(&mut self, key: String, kept: Kept) -> Result<(), AllocError>
        requires { hash_map_len self.old.recent < CAPACITY }
        ensures here { OnOk result (recent_at self.new (string_bytes key) ≡ Some kept) }
        ensures others { OnOk result ((other : List ℕ) → other ≢ string_bytes key → Stays self.old self.new other) }
        ensures size { OnOk result (hash_map_len self.new.recent ≤ hash_map_len self.old.recent + 1) }
    {
        match self.recent.insert(key, kept) {
            Ok(_) => Ok(()),
            Err(_) => Err(AllocError),
        }
    }

    /// Remembers what came of a call that had the key.
    #[tactic(auto, using(crate::proofs::Remembering::remembers))]
    pub fn remember(&mut self, alloc: Global, key: String, kept: Kept) -> Result<(), AllocError>
        ensures { OnOk result (Remembers self.old self.new (string_bytes key) kept) }
    {
        self.make_room(alloc);
        self.put(key, kept)
    }
}
