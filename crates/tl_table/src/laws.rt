// What holds for every table.

ghost use Rattle.std.specs.Prelude.{◌≡◌, ◌<◌, ℕ, List, true};
ghost use Rattle.tl_tree_locking.specs.Actions.{locked};
ghost use Rattle.tl_tree_locking.specs.History.{part_of};
ghost use Rattle.tl_tree_locking.specs.World.{World, IsSound};
ghost use Rattle.tl_table.specs.Across.{LockedIn, FindsAcross};
ghost use Rattle.tl_table.specs.Ends.{EndsBefore};
ghost use Rattle.tl_table.specs.Epochs.{EpochValue};
ghost use Rattle.tl_table.specs.Finding.{FindsWhatWasLeft};
ghost use Rattle.tl_table.specs.Tables.{IsChain};

/// If a call ended before another was admitted, and both locked a node, the later one found there what was left there last
/// since the earlier one freed it: by a call that came between them, or otherwise by the earlier one.
pub fn later_calls_find_writes()
    ensures { (w : World) (a b x : ℕ) → IsSound w → EndsBefore w.past a b → locked (part_of a w.past) x ≡ true
        → locked (part_of b w.past) x ≡ true → FindsWhatWasLeft w.past a b x }
{}

/// The same for two calls of different epochs: the later one found what the earlier one left, or what was left since, in
/// its own epoch, in the later one, or in an epoch between them.
pub fn later_epochs_find_writes()
    ensures { (es : List EpochValue) (n m a b x : ℕ) → IsChain es → n < m → LockedIn es n a x → LockedIn es m b x → FindsAcross es n a m b x }
{}
