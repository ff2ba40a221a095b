// Which volume a store goes on in.

ghost use Rattle.std.specs.Prelude.{◌≡◌, ℕ, Bool, false, MatchOption};
ghost use Rattle.tl_volumes.specs.Volumes.{AreBegunBelow, IsLive};

/// The volume that a store goes on in, where the highest one has that number, and was begun or wasn't: that one, or the one before. None if none was begun.
pub fn live_volume(highest: u32, is_begun: bool) -> Option<u32>
    ensures { (begun : ℕ → Bool) → AreBegunBelow highest begun → begun highest ≡ is_begun
        → MatchOption result ((n : ℕ) → begun n ≡ false) (IsLive begun) }
{
    if is_begun {
        return Some(highest);
    }
    highest.checked_sub(1)
}
