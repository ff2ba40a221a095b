// The theory of the tree protocol: what holds for every history, every order and every world.

ghost use Rattle.std.specs.Prelude.{◌≡◌, ◌≢◌, ◌↔◌, ℕ, ◌+◌, ◌<◌, ◌≤◌, true, List, [], ◌∷◌, ◌++◌, length, map, reverse, take, slice_get, Contains, ◌&&◌, ◌==◌, if◌then◌else◌};
ghost use Rattle.tl_tree.specs.Records.{Record, Records};
ghost use Rattle.tl_tree.specs.Shape.{parent, IsTree, Above};
ghost use Rattle.tl_tree_locking.specs.declared.action.Action.{Action};
ghost use Rattle.tl_tree_locking.specs.declared.event.Event.{Event};
ghost use Rattle.tl_tree_locking.specs.Ancestors.{nodes_above};
ghost use Rattle.tl_tree_locking.specs.Actions.{held, locked, locked_any, locks_and_frees, lock_count, free_count, taken, Permitted, EachPermitted, holds_some, may_come};
ghost use Rattle.tl_tree_locking.specs.Obeys.{Obeys, EndsLast};
ghost use Rattle.tl_tree_locking.specs.History.{past_of, part_of, IsOpen, AllDone, InTurn, Apart, FreesBetweenLocks, admits, records_now, IsLegalHistory};
ghost use Rattle.tl_tree_locking.specs.Order.{stands, IsDistinct, put_before, placed, placed_after, Agrees};
ghost use Rattle.tl_tree_locking.specs.Alone.{Outcome, IsAlone, serial};
ghost use Rattle.tl_tree_locking.specs.World.{World, Genuine, Legal, IsSound, IsStuck, IsEnabled, MayTake, Reached, alone_of, next_of, reply_of, done_of, as_found, opening_world, after_admission, after_step};
ghost use Rattle.tl_tree_locking.specs.Epochs.{run_each, joined, joined_replies, left_by, FollowOn, AreAtRest, AgreeEach, placed_each, ReachedEpochs};
ghost use Rattle.tl_tree_locking.specs.Holders.{holder_of};
ghost use Rattle.tl_tree_locking.specs.Placing.{is_call, under_of, coming_calls, held_below, IsLegalNext};

// ---- the order

/// The order that a history gives agrees with it.
pub fn placed_agrees()
    ensures { (parents : List ℕ) (past : List Event) → IsTree parents → IsLegalHistory parents past
        → Agrees (placed parents past) past }
{}

/// The order with one more event follows from the order so far.
pub fn placed_event_by_event()
    ensures none { (parents : List ℕ) → placed parents [] ≡ [] }
    ensures one_more { (parents : List ℕ) (past : List Event) (event : Event)
        → placed parents (event ∷ past) ≡ placed_after parents past event (placed parents past) }
{}

/// A call that may still come to a node holds a node strictly above it.
pub fn may_come_holds()
    ensures holder { (parents : List ℕ) (done : List Action) (x : ℕ) → IsTree parents
        → may_come parents done x ≡ true
        → (y : ℕ) × Above parents y x × (y ≢ x) × (held done y ≡ true) }
    ensures listed { (parents : List ℕ) (done : List Action) (x : ℕ) → may_come parents done x ≡ true
        → holds_some done (nodes_above parents x) ≡ true }
{}

/// The list of the nodes strictly above a node has the nodes that its parents lead to, and not itself.
pub fn nodes_above_listed()
    ensures { (parents : List ℕ) (x y : ℕ) → IsTree parents
        → (Contains (nodes_above parents x) y ↔ (Above parents y x × (y ≢ x))) }
{}

/// Calls run alone, one after another along an order that agrees, leave the records as they are now and give every reply.
pub fn serial_along()
    ensures tree { (w : World) (order : List ℕ) → IsSound w → AllDone w.past → Agrees order w.past
        → (serial w.meanings order w.opening).tree ≡ records_now w.past w.opening }
    ensures replies { (w : World) (order : List ℕ) → IsSound w → AllDone w.past → Agrees order w.past
        → (serial w.meanings order w.opening).replies ≡ map (reply_of w) order }
{}

/// The same over epochs, each of which is at rest and opens with the records that the one before left. All their calls, run
/// alone along the orders joined together, leave the records as they are now and give every reply.
pub fn serial_along_epochs()
    ensures one { (meanings : ℕ → Records → Outcome) (order : List ℕ) (opening : Records)
        → serial meanings order opening ≡ run_each (map meanings order) opening }
    ensures tree { (parents : List ℕ) (opening : Records) (worlds : List World) (orders : List (List ℕ))
        → FollowOn parents opening worlds → AreAtRest worlds → AgreeEach orders worlds
        → (run_each (joined worlds orders) opening).tree ≡ left_by opening worlds }
    ensures replies { (parents : List ℕ) (opening : Records) (worlds : List World) (orders : List (List ℕ))
        → FollowOn parents opening worlds → AreAtRest worlds → AgreeEach orders worlds
        → (run_each (joined worlds orders) opening).replies ≡ joined_replies worlds orders }
{}

// ---- steps

/// While a call is open, some call is enabled. A call is enabled if it may take its next action.
pub fn no_standstill()
    ensures some_enabled { (w : World) (c : ℕ) → IsSound w → IsOpen c w.past → (d : ℕ) × IsEnabled w d }
    ensures may_take { (w : World) (c : ℕ) → IsSound w → IsEnabled w c → (next : Action) × MayTake w c next }
    ensures enabled { (w : World) (c : ℕ) (next : Action) → MayTake w c next → IsEnabled w c }
{}

/// Admissions and steps keep a world sound.
pub fn steps_keep_sound()
    ensures opening { (parents : List ℕ) (opening : Records) (meanings : ℕ → Records → Outcome) → IsTree parents
        → length opening ≡ length parents → IsSound (opening_world parents opening meanings) }
    ensures admission { (w : World) (alone : Records → Outcome) → IsSound w → IsAlone w.parents alone
        → IsSound (after_admission w alone) }
    ensures step { (w : World) (c : ℕ) (next : Action) → IsSound w → MayTake w c next
        → IsSound (after_step w c next) }
{}

/// A step adds its action to what its call has done, and nothing to what other calls have done. A call that was just
/// admitted has done nothing.
pub fn done_grows()
    ensures own { (w : World) (c : ℕ) (next : Action) → IsSound w → MayTake w c next
        → done_of (after_step w c next) c ≡ done_of w c ++ as_found w next ∷ [] }
    ensures others { (w : World) (c d : ℕ) (next : Action) → c ≢ d → done_of (after_step w c next) d ≡ done_of w d }
    ensures admission { (w : World) (alone : Records → Outcome) (d : ℕ) → d < admits w.past
        → done_of (after_admission w alone) d ≡ done_of w d }
    ensures admitted { (w : World) (alone : Records → Outcome) → done_of (after_admission w alone) (admits w.past) ≡ [] }
{}

/// The holder that the history names is the one call that holds the node, and a stuck call waits for it. Only holders of
/// nodes strictly above a node may still come to it. If the node has no holder, a call may lock it.
pub fn holders()
    ensures held { (parents : List ℕ) (past : List Event) (c x : ℕ) → IsLegalHistory parents past
        → ((holder_of past x ≡ Some c) ↔ (held (part_of c past) x ≡ true)) }
    ensures coming { (parents : List ℕ) (past : List Event) (c x : ℕ) → IsTree parents
        → IsLegalHistory parents past → may_come parents (part_of c past) x ≡ true
        → (y : ℕ) × Above parents y x × (y ≢ x) × (holder_of past y ≡ Some c) }
    ensures waits { (w : World) (c : ℕ) (stuck : IsStuck w c) → IsSound w
        → holder_of w.past stuck.node ≡ Some stuck.holder }
    ensures stuck { (w : World) (c x : ℕ) (found : Record) (d : ℕ) → IsSound w → IsOpen c w.past
        → next_of w c ≡ Some (Action.Lock x found) → holder_of w.past x ≡ Some d → IsStuck w c }
    ensures free { (w : World) (c : ℕ) (next : Action) → IsSound w → IsOpen c w.past → next_of w c ≡ Some next
        → ((x : ℕ) (found : Record) → next ≡ Action.Lock x found → holder_of w.past x ≡ None)
        → MayTake w c next }
{}

/// Two numbers per node decide where a call is placed at its first lock: the node's holder, and the last call that locked
/// the node while holding its parent. A call that holds the parent of a node has locked the node if and only if it is that
/// last one. A climb from a node to the root asks each node above once for its holder. It finds each call that may still
/// come to the node once, and no other, and the first one found comes before the others in the order. So the climb may stop
/// there; it may also stop where no node with a lower number is held.
pub fn placing()
    ensures locked { (parents : List ℕ) (past : List Event) (c x : ℕ) → IsTree parents → IsLegalHistory parents past
        → 0 < x → holder_of past (parent parents x) ≡ Some c
        → ((under_of parents past x ≡ Some c) ↔ (locked (part_of c past) x ≡ true)) }
    ensures nodes { (parents : List ℕ) (past : List Event) (c x : ℕ) → IsTree parents → IsLegalHistory parents past
        → ((may_come parents (part_of c past) x ≡ true)
        ↔ ((y : ℕ) × Above parents y x × (0 < y) × (holder_of past (parent parents y) ≡ Some c)
        × (under_of parents past y ≢ Some c))) }
    ensures found { (parents : List ℕ) (past : List Event) (c x : ℕ) → IsTree parents → IsLegalHistory parents past
        → may_come parents (part_of c past) x ≡ stands c (coming_calls parents past x) }
    ensures once { (parents : List ℕ) (past : List Event) (x : ℕ) → IsTree parents → IsLegalHistory parents past
        → IsDistinct (coming_calls parents past x) }
    ensures along { (parents : List ℕ) (past : List Event) (c x : ℕ) (found : Record) (order : List ℕ) → IsTree parents
        → IsLegalHistory parents past
        → placed_after parents past (Event.Lock x c found) order
        ≡ (if stands c order then order else put_before (λ d. stands d (coming_calls parents past x)) c order) }
    ensures first { (parents : List ℕ) (past : List Event) (c x : ℕ) (found : Record) → IsTree parents
        → IsLegalHistory parents past
        → placed parents (Event.Lock x c found ∷ past)
        ≡ (if stands c (placed parents past) then placed parents past
        else put_before (is_call (slice_get (coming_calls parents past x) 0)) c (placed parents past)) }
    ensures stop { (parents : List ℕ) (past : List Event) (x : ℕ) → IsTree parents → held_below x past ≡ 0
        → coming_calls parents past x ≡ [] }
{}

/// The same two numbers per node decide whether one more event keeps a history legal, and an event changes them only at its
/// own node.
pub fn rules_by_holders()
    ensures rules { (parents : List ℕ) (past : List Event) (event : Event) → IsTree parents
        → IsLegalHistory parents past
        → (IsLegalHistory parents (event ∷ past) ↔ IsLegalNext parents past event) }
    ensures lock { (parents : List ℕ) (past : List Event) (c x : ℕ) (found : Record) → IsTree parents
        → IsLegalHistory parents past
        → (Permitted parents (part_of c past) (Action.Lock x found)
        ↔ (locked_any (part_of c past) ≡ true
        → (0 < x) × (holder_of past (parent parents x) ≡ Some c) × (under_of parents past x ≢ Some c))) }
    ensures end { (parents : List ℕ) (past : List Event) (c : ℕ) → IsLegalHistory parents past
        → (Permitted parents (part_of c past) Action.End
        ↔ (lock_count (part_of c past) ≡ free_count (part_of c past))) }
    ensures under { (parents : List ℕ) (past : List Event) (c x : ℕ) (found : Record) → IsTree parents
        → IsLegalHistory parents (Event.Lock x c found ∷ past) → (y : ℕ)
        → under_of parents (Event.Lock x c found ∷ past) y
        ≡ (if (x == y) && locked_any (part_of c past) then Some c else under_of parents past y) }
{}

// ---- the protocol

/// What is permitted action by action obeys the protocol by places; the converse holds if nothing comes after an end. So a
/// call's part of a legal history obeys it, and so do the actions of a call alone, all of them or the first few.
pub fn obeys_by_places()
    ensures permitted { (parents : List ℕ) (done : List Action)
        → (EachPermitted parents done ↔ (Obeys parents (reverse done) × EndsLast (reverse done))) }
    ensures part { (parents : List ℕ) (past : List Event) (c : ℕ) → IsLegalHistory parents past
        → Obeys parents (reverse (part_of c past)) }
    ensures legal { (parents : List ℕ) (past : List Event)
        → ((c : ℕ) → Obeys parents (reverse (part_of c past))) → Apart past → InTurn past
        → IsLegalHistory parents past }
    ensures alone { (parents : List ℕ) (alone : Records → Outcome) (t : Records) → IsAlone parents alone
        → length t ≡ length parents → Obeys parents (alone t).actions }
    ensures so_far { (parents : List ℕ) (alone : Records → Outcome) (t : Records) (k : ℕ) → IsAlone parents alone
        → length t ≡ length parents → Obeys parents (take k (alone t).actions) }
{}

/// A call locks no more nodes than there are, and frees no more than it locks.
pub fn locks_counted()
    ensures locks { (parents : List ℕ) (done : List Action) (nodes : ℕ) → EachPermitted parents done
        → ((x : ℕ) → locked done x ≡ true → x < nodes) → lock_count done ≤ nodes }
    ensures world { (w : World) (c : ℕ) → IsSound w → lock_count (part_of c w.past) ≤ length w.parents }
    ensures frees { (parents : List ℕ) (done : List Action) → EachPermitted parents done
        → free_count done ≤ lock_count done }
{}

// ---- histories and worlds

/// The history of a sound world is legal.
pub fn sound_history()
    ensures { (w : World) → IsSound w → IsLegalHistory w.parents w.past }
{}

/// Each node is locked only while nobody holds it, if and only if between any two locks of one node there is a free of it
/// by the call that locked it first. Here the earliest event comes first.
pub fn apart_by_places()
    ensures { (events : List Event) → (Apart (past_of events) ↔ FreesBetweenLocks events) }
{}

/// A genuine call's locks and frees are those of its first actions alone.
pub fn genuine_locks_and_frees()
    ensures { (alone : Records → Outcome) (opening : Records) (past : List Event) (c k : ℕ)
        → Genuine alone opening past c k
        → locks_and_frees (part_of c past) ≡ locks_and_frees (taken k (alone_of alone opening past c).actions []) }
{}

/// Whatever admissions and steps come: the world is legal, and each call obeys the protocol; some call can step while one
/// is open; once all are done, the records and the replies are those of the calls run alone, one after another along the
/// order that the history gives.
pub fn headline()
    ensures legal { (parents : List ℕ) (opening : Records) (w : World) → IsTree parents
        → length opening ≡ length parents → Reached parents opening w → Legal w }
    ensures obeys { (parents : List ℕ) (opening : Records) (w : World) (c : ℕ) → IsTree parents
        → length opening ≡ length parents → Reached parents opening w → c < admits w.past
        → Obeys parents (take (w.counts c) (alone_of (w.meanings c) opening w.past c).actions) }
    ensures goes_on { (parents : List ℕ) (opening : Records) (w : World) (c : ℕ) → IsTree parents
        → length opening ≡ length parents → Reached parents opening w → IsOpen c w.past
        → (d : ℕ) × (next : Action) × MayTake w d next }
    ensures tree { (parents : List ℕ) (opening : Records) (w : World) → IsTree parents
        → length opening ≡ length parents → Reached parents opening w → AllDone w.past
        → (serial w.meanings (placed parents w.past) opening).tree ≡ records_now w.past opening }
    ensures replies { (parents : List ℕ) (opening : Records) (w : World) → IsTree parents
        → length opening ≡ length parents → Reached parents opening w → AllDone w.past
        → (serial w.meanings (placed parents w.past) opening).replies ≡ map (reply_of w) (placed parents w.past) }
{}

/// The same with seals among the steps. What `headline` says of a world holds for each epoch. Once all calls are done, the
/// calls of all epochs, run alone along the orders joined together, leave the records as they are now and give every reply.
pub fn headline_of_epochs()
    ensures legal { (parents : List ℕ) (opening : Records) (sealed : List World) (w : World) → IsTree parents
        → length opening ≡ length parents → ReachedEpochs parents opening sealed w → Legal w }
    ensures follow { (parents : List ℕ) (opening : Records) (sealed : List World) (w : World) → IsTree parents
        → length opening ≡ length parents → ReachedEpochs parents opening sealed w
        → FollowOn parents opening (sealed ++ w ∷ []) × AreAtRest sealed }
    ensures obeys { (parents : List ℕ) (opening : Records) (sealed : List World) (w : World) (c : ℕ) → IsTree parents
        → length opening ≡ length parents → ReachedEpochs parents opening sealed w → c < admits w.past
        → Obeys parents (take (w.counts c) (alone_of (w.meanings c) w.opening w.past c).actions) }
    ensures goes_on { (parents : List ℕ) (opening : Records) (sealed : List World) (w : World) (c : ℕ) → IsTree parents
        → length opening ≡ length parents → ReachedEpochs parents opening sealed w → IsOpen c w.past
        → (d : ℕ) × (next : Action) × MayTake w d next }
    ensures tree { (parents : List ℕ) (opening : Records) (sealed : List World) (w : World) → IsTree parents
        → length opening ≡ length parents → ReachedEpochs parents opening sealed w → AllDone w.past
        → (run_each (joined (sealed ++ w ∷ []) (placed_each (sealed ++ w ∷ []))) opening).tree ≡ records_now w.past w.opening }
    ensures replies { (parents : List ℕ) (opening : Records) (sealed : List World) (w : World) → IsTree parents
        → length opening ≡ length parents → ReachedEpochs parents opening sealed w → AllDone w.past
        → (run_each (joined (sealed ++ w ∷ []) (placed_each (sealed ++ w ∷ []))) opening).replies
        ≡ joined_replies (sealed ++ w ∷ []) (placed_each (sealed ++ w ∷ [])) }
{}
