// What follows from a clean trail, and from clean chains one after another.

ghost use Rattle.std.specs.Prelude.{◌≡◌, ◌<◌, ◌≤◌, ◌++◌, ℕ, List, length, map, Some, None};
ghost use Rattle.tl_tree_locking.specs.Alone.{serial};
ghost use Rattle.tl_tree_locking.specs.Obeys.{Obeys};
ghost use Rattle.tl_tree_locking.specs.Order.{placed, Agrees};
ghost use Rattle.tl_tree_locking.specs.World.{Legal, IsSound, reply_of};
ghost use Rattle.tl_trail.specs.Trails.{TrailValue, IsTrail, found_alone, world_of, meaning_of, call_at};
ghost use Rattle.tl_trail.specs.Clean.{Clean};
ghost use Rattle.tl_audit.specs.Findings.{IsFirstFault};
ghost use Rattle.tl_audit.specs.declared.fault.AuditFault.{AuditFault};
ghost use Rattle.tl_audit.specs.declared.chain.ChainFault.{ChainFault};
ghost use Rattle.tl_audit.specs.Chains.{Before, Nothing, CleanAfter, AreCleanAfter, IsFirstAfter, AreTrails, AreSerial, AreCleanFiles, AreSerialFiles, trails_of, last_after, order_of, numbered_from};

/// What holds for every clean trail, whoever wrote it. Its history is legal over its opening tree: admissions in turn,
/// locks apart, each lock finding the record left last, each call doing what its procedure does. What each call did obeys
/// the tree protocol. Run alone, one after another along the order that its events give, the calls leave the records in the
/// end and give the replies. A clean trail has no first fault.
pub fn clean_trails()
    ensures sound { (t : TrailValue) → IsTrail t → Clean t → IsSound (world_of t) }
    ensures legal { (t : TrailValue) → IsTrail t → Clean t → Legal (world_of t) }
    ensures obeys { (t : TrailValue) (c : ℕ) → IsTrail t → Clean t → c < length t.calls
        → Obeys t.parents (found_alone t c).actions }
    ensures agrees { (t : TrailValue) → IsTrail t → Clean t → Agrees (placed t.parents t.past) t.past }
    ensures tree { (t : TrailValue) → IsTrail t → Clean t
        → (serial (meaning_of t) (placed t.parents t.past) t.opening).tree ≡ t.ends }
    ensures replies { (t : TrailValue) → IsTrail t → Clean t
        → (serial (meaning_of t) (placed t.parents t.past) t.opening).replies
        ≡ map (reply_of (world_of t)) (placed t.parents t.past) }
    ensures told { (t : TrailValue) (c : ℕ) → Clean t → c < length t.calls
        → (call_at t c).reply ≡ Some (reply_of (world_of t) c) }
    ensures faultless { (t : TrailValue) (f : AuditFault) → Clean t → ¬ IsFirstFault t f }
{}

/// Chains one after another, each of which takes over from the last trail before it and is clean, are one clean chain. All calls, run
/// alone along the orders of all their trails joined, from the first tree, leave the records of the last end and give their replies.
pub fn chains_join()
    ensures join { (before : Before) (chains : List (List TrailValue)) → AreCleanAfter before chains → CleanAfter before (trails_of chains) }
    ensures serial { (chains : List (List TrailValue)) → AreTrails (trails_of chains) → AreCleanAfter Nothing chains
        → AreSerial (trails_of chains) (map order_of (trails_of chains)) }
{}

/// A clean chain may be cut anywhere: its pieces are clean, and each takes over from the last trail before it. After trails that are
/// clean, what is wrong first with the rest is what is wrong first with all.
pub fn chains_cut()
    ensures cut { (before : Before) (chains : List (List TrailValue)) → CleanAfter before (trails_of chains) → AreCleanAfter before chains }
    ensures fault { (before : Before) (ts us : List TrailValue) (f : ChainFault) → CleanAfter before ts → IsFirstAfter 0 (last_after before ts) us f
        → IsFirstAfter 0 before (ts ++ us) (numbered_from (length ts) f) }
{}

/// Files one after another, each of which takes over from the last trail of the file before it and is clean: all their calls, run alone
/// along the orders of all their trails, from the first tree, leave the records of the last end and give their replies. The zero records
/// of nodes that were appended between two files come behind the others in between.
pub fn files_are_serial()
    ensures serial { (files : List (List TrailValue)) → AreCleanFiles None files → AreTrails (trails_of files) → AreSerialFiles files }
{}
