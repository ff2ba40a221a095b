// What follows of the rows that are added to a store.

ghost use Rattle.tl_core.specs.Cores.{CoreValue};
ghost use Rattle.tl_core.specs.Reached.{IsReached};
ghost use Rattle.tl_ledger.specs.declared.news.News.{News as Came};
ghost use Rattle.tl_ledger.specs.Contents.{Contents, no_contents};
ghost use Rattle.tl_ledger.specs.News.{after_news, after_founding};
ghost use Rattle.tl_store.specs.Recovered.{IsStoreOf, IsMadeAgain};
ghost use Rattle.tl_store.specs.declared.stored.Stored.{Stored as Rows};
ghost use Rattle.tl_store.specs.Stored.{AreStored, IsReadable};
ghost use Rattle.tl_store.specs.Closing.{IsClosing};
ghost use Rattle.tl_rows.specs.Batches.{Batch, batch_of, joined, after_batch};
ghost use Rattle.tl_recover.specs.Later.{Later};
ghost use Rattle.tl_store_laws.specs.Growing.{IsNewsOf, IsLastNewsOf, IsReplacingNewsOf, IsWideningNewsOf, widened, IsLedgerOf};
ghost use Rattle.std.specs.Prelude.{◌≡◌, ◌<◌, ◌≤◌, ◌^◌, ◌++◌, ℕ, ℤ, pos, List, [], All, length, map};
ghost use Rattle.tl_tree.specs.Records.{Records};
ghost use Rattle.tl_tree.specs.Trees.{TreeValue};
ghost use Rattle.tl_ledger.specs.declared.founding.Founding.{Founding as First};
ghost use Rattle.tl_rows.specs.Rows.{parent_in, fields_in};
ghost use Rattle.tl_machine.specs.Turns.{LentValue};
ghost use Rattle.tl_procedures.specs.Names.{Named, AreKnown, latest, replaced};
ghost use Rattle.tl_core.specs.declared.stepped.Stepped.{Stepped as Stepping};
ghost use Rattle.tl_core.specs.declared.fault.CoreFault.{CoreFault as Fault};
ghost use Rattle.tl_core.specs.declared.followed.TurnOutcome.{TurnOutcome as Outcome};
ghost use Rattle.tl_core.specs.Cores.{CoreState, opened, opened_after};
ghost use Rattle.tl_core.specs.Entries.{Admits, StepsTo};
ghost use Rattle.tl_core.specs.Followed.{Proceeds, Submits};
ghost use Rattle.std.specs.Prelude.{Result as Answer};
ghost use Rattle.tl_ledger.specs.declared.rows.ChangedRecord.{ChangedRecord as Change};
ghost use Rattle.tl_ledger.specs.News.{fields_columns, new_columns, with_changes};
ghost use Rattle.tl_rows.specs.Changes.{Leads};
ghost use Rattle.tl_ledger.specs.declared.schema.TheConstants.{SEAL as SEALS, RECORD as RECORDS, NAME as NAMES};
ghost use Rattle.tl_width.specs.Fields.{field_count};

/// Where a store's rows are those of a core, and rows are added that say what came of it up to a later core, the rows are those of the later core.
pub fn rows_grow()
    ensures { (c : Contents) (v w : CoreValue) (news : Came) → IsLedgerOf c v → Later v w → IsReached w → IsNewsOf (length (c SEALS)) v w (batch_of news)
        → IsLedgerOf (after_news c news) w }
{}

/// What is read of such a store are the rows of the core, from which it is made again.
pub fn rows_are_read()
    ensures { (c : Contents) (v : CoreValue) → IsLedgerOf c v → IsStoreOf c v }
{}

/// Whatever is done to a core leads to a later one: procedures that are added, a call that is admitted, a step, and a turn, also one whose instructions were done
/// elsewhere.
pub fn cores_go_on()
    ensures same { (v : CoreValue) → Later v v }
    ensures again { (u v w : CoreValue) → Later u v → Later v w → Later u w }
    ensures procedures { (v : CoreValue) (more : List Named) → Later v (record v { procedures = v.procedures ++ more }) }
    ensures admits { (before after : CoreState) (name : List ℕ) (args : List ℤ) (n : ℕ) → Admits before name args n after → Later before.seen after.seen }
    ensures steps { (before after : CoreState) (c : ℕ) (answer : Answer Stepping Fault) → StepsTo before c answer after → Later before.seen after.seen }
    ensures proceeds { (before after : CoreState) (c : ℕ) (s : Stepping) → Proceeds before c s after → Later before.seen after.seen }
    ensures submits { (before after : CoreState) (c : ℕ) (lent after_it : LentValue) (o : Outcome) → Submits before c lent after_it o after → Later before.seen after.seen }
{}

/// Procedures that are put behind all others, each under the name of one of them, take the places of those.
pub fn latest_are_replaced()
    ensures { (all others : List Named) → AreKnown (latest [] all) others → latest [] (all ++ others) ≡ replaced (latest [] all) others }
{}

/// Changes that lead from some records to as many others lead from the rows of the former to those of the latter.
pub fn changes_lead()
    ensures { (before now : Records) (changes : List Change) → length before ≡ length now → Leads before now changes
        → with_changes (map fields_columns before) changes ≡ map fields_columns now }
{}

/// Where the news also has the seal of the core's epoch, the rows are those of the core that takes over.
pub fn rows_are_sealed()
    ensures { (c : Contents) (v w : CoreValue) (news : Came) → IsLedgerOf c v → Later v w → IsReached w → IsLastNewsOf c v w (batch_of news)
        → IsLedgerOf (after_news c news) (opened_after w).seen }
{}

/// Where procedures took the place of others before any call, the rows are those of the core with them.
pub fn rows_are_replaced()
    ensures { (c : Contents) (v : CoreValue) (others : List Named) (news : Came) → IsLedgerOf c v → v.calls ≡ [] → v.past ≡ [] → IsReplacingNewsOf v others (batch_of news)
        → IsLedgerOf (after_news c news) (record v { procedures = replaced v.procedures others }) }
{}

/// Where nodes were appended before any call, the rows are those of the core with them.
pub fn rows_are_widened()
    ensures { (c : Contents) (v : CoreValue) (added : List ℕ) (news : Came) → IsLedgerOf c v → v.calls ≡ [] → IsWideningNewsOf v added (batch_of news)
        → IsLedgerOf (after_news c news) (widened v added) }
{}

/// What is so of rows that are added one after another is so of all of them added at once.
pub fn rows_are_joined()
    ensures { (c : Contents) (a b : Batch) (v : CoreValue) → All (λ (x : Change). x.node < length (c RECORDS ++ map new_columns a.nodes)) a.records
        → IsLedgerOf (after_batch (after_batch c a) b) v → IsLedgerOf (after_batch c (joined a b)) v }
{}

/// Where a core's calls were taken again and let to their ends, what closes their epoch leaves the rows of the core that takes over.
pub fn rows_are_closed()
    ensures { (c : Contents) (rows : Rows) (v w : CoreValue) (news : Came) → IsLedgerOf c v → Later v w → w.procedures ≡ v.procedures → IsReached w → AreStored c rows → IsClosing rows w news
        → IsLedgerOf (after_news c news) (opened_after w).seen }
{}

/// Where a core without calls was made again, the store has the rows of the core that takes over.
pub fn rows_are_kept()
    ensures { (c : Contents) (v w : CoreValue) → IsLedgerOf c v → IsMadeAgain v w → IsReached v → IsReached w → w.calls ≡ [] → IsLedgerOf c (opened_after w).seen }
{}

/// Contents that have the rows of a core can be read, where its records have all fields and no table has more than 2^62 rows.
pub fn rows_are_readable()
    ensures { (c : Contents) (v : CoreValue) → IsLedgerOf c v → IsReached v → All (λ fields. length fields ≡ field_count) v.opening → ((t : ℕ) → t < NAMES → length (c t) ≤ 2 ^ 62) → IsReadable c }
{}

/// The first contents of a store are the rows of a core of that tree, without procedures and calls.
pub fn rows_are_founded()
    ensures { (t : TreeValue) (limit : ℕ) (first : First) → map parent_in first.nodes.items ≡ map pos t.parents → map fields_in first.records.items ≡ t.records → first.procedures.items ≡ []
        → IsLedgerOf (after_founding no_contents first) (opened t [] limit).seen }
{}
