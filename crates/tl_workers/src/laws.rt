// Laws about all sessions of a table.

ghost use Rattle.std.specs.Prelude.{◌≡◌, ◌==◌, ℕ, List, All, Some, slice_get, if◌then◌else◌};
ghost use Rattle.tl_table.specs.Epochs.{EpochValue, owner_of, IsKnown};
ghost use Rattle.tl_table.specs.Tables.{IsChain};
ghost use Rattle.tl_workers.specs.Kept.{SessionValue};
ghost use Rattle.tl_workers.specs.Matching.{Matches};
ghost use Rattle.tl_workers.specs.Sessions.{times_asked, AreAllOf, AskForEachOnce, FindsItsWrites};

/// A session that matches the epochs of a table asked for each of its own calls once, and for no other call. So each call
/// was asked for by exactly one session of the table, once.
pub fn each_call_is_asked_for_once()
    ensures own { (es : List EpochValue) (s : SessionValue) (n c : ℕ) (e : EpochValue) → IsChain es → Matches es s → slice_get es n ≡ Some e
        → IsKnown e c → times_asked n c s ≡ (if owner_of e c == s.number then 1 else 0) }
    ensures all { (es : List EpochValue) (sessions : List SessionValue) → IsChain es → All (Matches es) sessions
        → AreAllOf es sessions → AskForEachOnce es sessions }
{}

/// A session that received a receipt and then asks for a call finds, at each node that both calls lock, what the first
/// call left, or what was left there later. This holds across a seal too.
pub fn sessions_find_their_writes()
    ensures { (es : List EpochValue) (s : SessionValue) → IsChain es → Matches es s → FindsItsWrites es s }
{}
