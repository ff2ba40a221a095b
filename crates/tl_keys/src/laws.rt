// How long a key is remembered.

ghost use Rattle.std.specs.Prelude.{◌+◌, ℕ, List, IsSome};
ghost use Rattle.tl_keys.specs.declared.index.KeyIndex.{KeyIndex as Index};
ghost use Rattle.tl_keys.specs.declared.index.TheConstants.{CAPACITY as PLACES};
ghost use Rattle.tl_keys.specs.Kept.{KeptValue};
ghost use Rattle.tl_keys.specs.Keys.{recall, Remembers, Lasts};

/// What is remembered under a key is found as long as no more calls with keys are remembered after it than one part has places.
pub fn keys_last()
    ensures here { (old new : Index) (key : List ℕ) (kept : KeptValue) → Remembers old new key kept → Lasts new key PLACES }
    ensures on { (old new : Index) (key other : List ℕ) (kept : KeptValue) (n : ℕ) → Remembers old new key kept → Lasts old other (n + 1) → Lasts new other n }
    ensures found { (index : Index) (key : List ℕ) (n : ℕ) → Lasts index key n → IsSome (recall index key) }
{}
