// What follows of a store that has the rows of all its sealed epochs.

ghost use Rattle.std.specs.Prelude.{◌≡◌, ℕ, pos, List, [], ◌∷◌, ◌++◌, All, length, map};
ghost use Rattle.tl_compare.specs.Epochs.{AreEpochRows, AreOfEpoch, AreWholeRows};
ghost use Rattle.tl_compare.specs.declared.reading.EpochRows.{EpochRows as ReadRows};
ghost use Rattle.tl_core.specs.Cores.{CoreValue, opened, opened_after};
ghost use Rattle.tl_core.specs.Reached.{IsReached};
ghost use Rattle.tl_ledger.specs.Contents.{Contents, no_contents};
ghost use Rattle.tl_ledger.specs.News.{after_news, after_founding};
ghost use Rattle.tl_ledger.specs.declared.founding.Founding.{Founding as First};
ghost use Rattle.tl_ledger.specs.declared.news.News.{News as Came};
ghost use Rattle.tl_ledger.specs.declared.rows.NodeRow.{NodeRow};
ghost use Rattle.tl_ledger.specs.declared.schema.TheConstants.{SEAL as SEALS};
ghost use Rattle.tl_procedures.specs.Names.{Named, replaced};
ghost use Rattle.tl_recover.specs.Later.{Later};
ghost use Rattle.tl_rows.specs.Batches.{batch_of};
ghost use Rattle.tl_rows.specs.Rows.{parent_in, fields_in, IsTurnRow};
ghost use Rattle.tl_store.specs.Closing.{IsClosing};
ghost use Rattle.tl_store.specs.Recovered.{IsRebuilt, IsMadeAgain};
ghost use Rattle.tl_store.specs.Stored.{AreStored};
ghost use Rattle.tl_store.specs.declared.stored.Stored.{Stored as Rows};
ghost use Rattle.tl_store_laws.specs.Growing.{IsNewsOf, IsReplacingNewsOf, IsWideningNewsOf, widened};
ghost use Rattle.tl_store_history.specs.Sealed.{IsOf, HasNodes, CountsOn, HasSealed};
ghost use Rattle.tl_store_history.specs.History.{PastEpoch, TakesOver, parents_after, records_after, AreSerial, HasEpoch, IsHistoryOf, HasHistory, AreReplied, EndsEpoch};
ghost use Rattle.tl_tree.specs.Trees.{TreeValue};
ghost use Rattle.tl_tree_locking.specs.History.{AllDone};

/// All calls of all sealed epochs, run alone one after another along their orders, from the first tree on, with the nodes appended between epochs as they were, leave
/// the records that the last of these epochs left, and each gives the reply that it gave.
pub fn history_is_serial()
    ensures { (c : Contents) (t : TreeValue) (es : List PastEpoch) → IsHistoryOf c t es → AreSerial t.records es }
{}

/// The first contents of a store have no sealed epochs.
pub fn history_begins()
    ensures { (t : TreeValue) (first : First) → map fields_in first.records.items ≡ t.records → IsHistoryOf (after_founding no_contents first) t [] }
{}

/// An epoch whose rows were read back and found to be those of a core's calls is there, and stays there whatever is stored behind it.
pub fn epochs_are_kept()
    ensures compared { (c : Contents) (n : ℕ) (rows : ReadRows) (v : CoreValue) → AreEpochRows c n rows → AreOfEpoch rows v → HasEpoch c n v }
    ensures stay { (c : Contents) (n : ℕ) (v : CoreValue) (news : Came) → HasEpoch c n v → HasEpoch (after_news c news) n v }
{}

/// If these rows have the forms that this program writes, and the nodes that were there are the core's, it is an epoch of a history.
pub fn epochs_are_sealed()
    ensures { (c : Contents) (n : ℕ) (rows : ReadRows) (v : CoreValue) (nodes : List NodeRow) → AreEpochRows c n rows → AreOfEpoch rows v → AreWholeRows rows v → HasNodes c n nodes
        → map parent_in nodes ≡ map pos v.parents → CountsOn c n → IsReached v → AllDone v.past → HasSealed c n v }
{}

/// What is stored behind the last seal leaves the history as it is; with a seal more, it has the epoch more that begins with what the last one left.
pub fn history_goes_on()
    ensures same { (c : Contents) (t : TreeValue) (es : List PastEpoch) (news : Came) → IsHistoryOf c t es → news.seals.items ≡ [] → All (IsOf (length (c SEALS))) news.nodes.items
        → IsHistoryOf (after_news c news) t es }
    ensures sealed { (c : Contents) (t : TreeValue) (es : List PastEpoch) (e : PastEpoch) (news : Came) → IsHistoryOf c t es → length news.seals.items ≡ 1 → All (IsOf (length (c SEALS))) news.nodes.items
        → TakesOver (parents_after t.parents es) (records_after t.records es) e → HasSealed (after_news c news) (length es) e.core → IsHistoryOf (after_news c news) t (es ++ e ∷ []) }
{}

/// The first contents of a store have a history without epochs, and behind it the core of that tree.
pub fn history_is_founded()
    ensures { (t : TreeValue) (limit : ℕ) (first : First) → map parent_in first.nodes.items ≡ map pos t.parents → All (IsOf 0) first.nodes.items → map fields_in first.records.items ≡ t.records
        → first.procedures.items ≡ [] → HasHistory (after_founding no_contents first) t [] (opened t [] limit).seen }
{}

/// Where rows are added that say what came of the core up to a later one, with the replies of the calls that ended, the history is the same, and behind it stand the rows of the later core.
pub fn history_grows()
    ensures { (c : Contents) (t : TreeValue) (es : List PastEpoch) (v w : CoreValue) (news : Came) → HasHistory c t es v → Later v w → IsReached w → IsNewsOf (length (c SEALS)) v w (batch_of news)
        → AreReplied v w news.replies.items → HasHistory (after_news c news) t es w }
{}

/// Where the news also has the seal of the core's epoch, the history has one epoch more, that of the core at its end, and behind it stand the rows of the core that takes over.
pub fn history_is_sealed()
    ensures { (c : Contents) (t : TreeValue) (es : List PastEpoch) (v w : CoreValue) (news : Came) → HasHistory c t es v → Later v w → IsReached w → AllDone w.past → EndsEpoch c v w (batch_of news)
        → (e : PastEpoch) × (e.core ≡ w) × HasHistory (after_news c news) t (es ++ e ∷ []) (opened_after w).seen }
{}

/// Where a start takes a core's calls again and lets them end, what closes their epoch seals it, if each row of turns has two bytes for each of some; and where no call was stored,
/// nothing is, and the history stays.
pub fn history_is_taken_up()
    ensures closed { (c : Contents) (rows : Rows) (t : TreeValue) (es : List PastEpoch) (v w : CoreValue) (news : Came) → HasHistory c t es v → IsMadeAgain v w → IsReached w → IsRebuilt rows w → AreStored c rows
        → IsClosing rows w news → All (IsTurnRow (pos (length (c SEALS)))) news.turns.items → (e : PastEpoch) × (e.core ≡ w) × HasHistory (after_news c news) t (es ++ e ∷ []) (opened_after w).seen }
    ensures kept { (c : Contents) (t : TreeValue) (es : List PastEpoch) (v w : CoreValue) → HasHistory c t es v → IsReached v → IsReached w → IsMadeAgain v w → w.calls ≡ [] → HasHistory c t es (opened_after w).seen }
{}

/// Where procedures took the place of others before any call, the history is the same.
pub fn history_is_replaced()
    ensures { (c : Contents) (t : TreeValue) (es : List PastEpoch) (v : CoreValue) (others : List Named) (news : Came) → HasHistory c t es v → v.calls ≡ [] → v.past ≡ [] → IsReplacingNewsOf v others (batch_of news)
        → HasHistory (after_news c news) t es (record v { procedures = replaced v.procedures others }) }
{}

/// Where nodes were appended before any call of the epoch that isn't sealed, the history is the same.
pub fn history_is_widened()
    ensures { (c : Contents) (t : TreeValue) (es : List PastEpoch) (v : CoreValue) (added : List ℕ) (news : Came) → HasHistory c t es v → v.calls ≡ [] → v.past ≡ [] → IsWideningNewsOf v added (batch_of news)
        → All (IsOf (length (c SEALS))) news.nodes.items → HasHistory (after_news c news) t es (widened v added) }
{}
