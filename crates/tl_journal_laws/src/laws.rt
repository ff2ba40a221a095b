// What follows of what a journal takes over.

ghost use Rattle.std.specs.Prelude.{◌≡◌, ◌++◌, ◌∷◌, ◌<◌, ◌^◌, ℕ, pos, Bool, List, [], All, length, map, true, false};
ghost use Rattle.tl_core.specs.Cores.{CoreValue, opened_after};
ghost use Rattle.tl_core.specs.Reached.{IsReached};
ghost use Rattle.tl_json.specs.Procedures.{AreAccepted};
ghost use Rattle.tl_ledger.specs.Contents.{Contents};
ghost use Rattle.tl_ledger.specs.News.{after_news, IsMarked};
ghost use Rattle.tl_news.specs.declared.news.EpochNews.{EpochNews as Came};
ghost use Rattle.tl_news.specs.News.{news_value, HasAccepted, IsWhole, news_behind, news_through, end_of};
ghost use Rattle.tl_pending.specs.declared.pending.Pending.{Pending};
ghost use Rattle.tl_pending.specs.Pendings.{Adds, AddsAll, IsEmpty, Replaces, Grows};
ghost use Rattle.tl_procedures.specs.Names.{Named, AreKnown, replaced};
ghost use Rattle.tl_store_laws.specs.Growing.{IsLedgerOf, widened};
ghost use Rattle.tl_recover.specs.Later.{Later};
ghost use Rattle.tl_journal_laws.specs.Unstored.{AreFew, IsPendingOf, IsPendingBehind, AreLater, core_after, over_cores, core_of};
ghost use Rattle.tl_store_history.specs.History.{PastEpoch, HasHistory};
ghost use Rattle.tl_tree.specs.Trees.{TreeValue};
ghost use Rattle.tl_table.specs.Epochs.{EpochValue, seen};
ghost use Rattle.tl_table.specs.Tables.{IsNext};
ghost use Rattle.tl_tree_locking.specs.History.{AllDone, records_now};

/// Where a store has the rows of a core, and nothing is pending, it has those of the core once what is pending is stored.
pub fn pending_begins()
    ensures { (c : Contents) (v : CoreValue) (p : Pending) → IsLedgerOf c v → IsMarked c p.rows → p.records.items ≡ v.opening → IsEmpty p.news → IsPendingOf c p v }
{}

/// Where a store once has the rows of a core, when what is pending is stored, and what came of the core since is added, it has those of the core as it
/// is then; and those of the core that takes over, if the epoch is over.
pub fn pending_grows()
    ensures open { (c : Contents) (v w : CoreValue) (number : ℕ) (owners : List ℕ) (came : Came) (old new : Pending) → IsPendingOf c old v → Later v w → IsReached w
        → length owners ≡ length w.calls → AreFew new.rows → HasAccepted came → Adds came old new
        → news_value came ≡ news_behind (end_of v) number w owners false → IsPendingOf c new w }
    ensures over { (c : Contents) (v w : CoreValue) (number : ℕ) (owners : List ℕ) (came : Came) (old new : Pending) → IsPendingOf c old v → Later v w → IsReached w
        → length owners ≡ length w.calls → AreFew new.rows → HasAccepted came → Adds came old new
        → news_value came ≡ news_behind (end_of v) number w owners true → IsPendingOf c new (opened_after w).seen }
{}

/// The same of all epochs that a table has had since it was read, the last of which may be over.
pub fn pending_grows_through()
    ensures { (c : Contents) (over : Bool) (epochs : List Came) (unread : List EpochValue) (current : EpochValue) (v : CoreValue) (old new : Pending) → IsPendingOf c old v
        → AreLater v unread current → All IsWhole (unread ++ current ∷ []) → map news_value epochs ≡ news_through over (end_of v) unread current → All HasAccepted epochs → AddsAll epochs old new → AreFew new.rows
        → IsPendingOf c new (core_after over (seen current)) }
{}

/// Where procedures took the place of others before any call, what is pending leads to the core with them.
pub fn pending_is_replaced()
    ensures { (c : Contents) (v : CoreValue) (others : List Named) (old new : Pending) → IsPendingOf c old v → v.calls ≡ [] → v.past ≡ [] → AreKnown v.procedures others
        → AreAccepted others → Replaces others old new → new.rows.procedures < 2 ^ 62 → IsPendingOf c new (record v { procedures = replaced v.procedures others }) }
{}

/// Where nodes were appended before any call, what is pending leads to the core with them.
pub fn pending_is_widened()
    ensures { (c : Contents) (v : CoreValue) (added : List ℕ) (old new : Pending) → IsPendingOf c old v → v.calls ≡ [] → Grows (map pos added) old new → new.rows.nodes < 2 ^ 62
        → IsPendingOf c new (widened v added) }
{}

/// Once what was pending is stored, the store has the rows of the core, and what comes next leads on from them.
pub fn pending_is_stored()
    ensures now { (c : Contents) (v : CoreValue) (p : Pending) → IsPendingOf c p v → IsLedgerOf (after_news c p.news) v }
    ensures next { (c : Contents) (v : CoreValue) (old new : Pending) → IsPendingOf c old v → IsEmpty new.news → new ≡ record old { news = new.news }
        → IsPendingOf (after_news c old.news) new v }
{}

/// An epoch that comes after another is that of the core that takes over from it, at a later time.
pub fn next_is_later()
    ensures { (n : ℕ) (one next : EpochValue) → IsNext n (seen one).parents (records_now (seen one).past (seen one).opening) (seen one).procedures next → Later (opened_after (seen one)).seen (seen next) }
{}

/// Where a store has a history with the rows of a core behind it, and nothing is pending, it has that once what is pending is stored; and once it is stored, what comes next leads on
/// from there.
pub fn history_is_pending()
    ensures begins { (c : Contents) (t : TreeValue) (es : List PastEpoch) (v : CoreValue) (p : Pending) → HasHistory c t es v → IsMarked c p.rows → p.records.items ≡ v.opening → IsEmpty p.news
        → IsPendingBehind c p t es v }
    ensures stored { (c : Contents) (t : TreeValue) (es : List PastEpoch) (v : CoreValue) (old new : Pending) → IsPendingBehind c old t es v → IsEmpty new.news → new ≡ record old { news = new.news }
        → IsPendingBehind (after_news c old.news) new t es v }
{}

/// Where what came of a table's epochs since it was read last is added, of which each that is over is at rest, the history has those epochs more.
pub fn pending_history_grows()
    ensures { (c : Contents) (t : TreeValue) (es : List PastEpoch) (over : Bool) (epochs : List Came) (unread : List EpochValue) (current : EpochValue) (v : CoreValue) (old new : Pending)
        → IsPendingBehind c old t es v → AreLater v unread current → All IsWhole (unread ++ current ∷ []) → All (λ (w : CoreValue). AllDone w.past) (over_cores over unread current)
        → map news_value epochs ≡ news_through over (end_of v) unread current → All HasAccepted epochs → AddsAll epochs old new → AreFew new.rows
        → (more : List PastEpoch) × (map core_of more ≡ over_cores over unread current) × IsPendingBehind c new t (es ++ more) (core_after over (seen current)) }
{}

/// Where procedures took the place of others, or nodes were appended, before any call, the history is the same.
pub fn pending_history_stays()
    ensures replaced { (c : Contents) (t : TreeValue) (es : List PastEpoch) (v : CoreValue) (others : List Named) (old new : Pending) → IsPendingBehind c old t es v → v.calls ≡ [] → v.past ≡ []
        → AreKnown v.procedures others → AreAccepted others → Replaces others old new → new.rows.procedures < 2 ^ 62
        → IsPendingBehind c new t es (record v { procedures = replaced v.procedures others }) }
    ensures widened { (c : Contents) (t : TreeValue) (es : List PastEpoch) (v : CoreValue) (added : List ℕ) (old new : Pending) → IsPendingBehind c old t es v → v.calls ≡ [] → v.past ≡ []
        → Grows (map pos added) old new → new.rows.nodes < 2 ^ 62 → old.rows.seals < 2 ^ 62 → IsPendingBehind c new t es (widened v added) }
{}
