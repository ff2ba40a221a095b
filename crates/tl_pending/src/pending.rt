// What came and isn't stored yet.

ghost use Rattle.std.specs.Prelude.{◌≡◌, ◌↔◌, ◌++◌, ◌∷◌, [], ◌==◌, Any, not, filter, IsTrue, option_map, option_copied, string_bytes, pos, List, map, replicate, true, false, Some, None, if◌then◌else◌, IfOk, OnOk};
ghost use Rattle.tl_width.specs.Fields.{field_count};
ghost use Rattle.tl_ledger.specs.declared.rows.ChangedRecord.{ChangedRecord};
ghost use Rattle.tl_keys.specs.Keys.{recall};
ghost use Rattle.tl_news.specs.News.{asked};
ghost use Rattle.tl_pending.specs.Claims.{key_of, LearnsUnder, Learns, kept_of};
ghost use Rattle.tl_rows.specs.Changes.{Leads};
ghost use Rattle.tl_rows.specs.Rows.{named_form, procedure_form, turn_form, reply_form};
ghost use Rattle.tl_pending.specs.Pendings.{column, more, added, counted, seal_after, new_form, admitted_in, admitted_at, admitted_from, turn_forms, answer_form, node_of, start, Appends, Adds, AddsAll, Replaces, Grows, IsEmpty};

use crate::claims;
use crate::claims::{Claimed, key_of};
use std::alloc::{AllocError, Global};
use std::mem;
use tl_keys::{Kept, KeyIndex};
use tl_ledger::{
    CallRow, ChangedRecord, Marks, News, NodeRow, ProcedureRow, ReplyRow, SealRow, TurnRow,
};
use tl_news::{Answer, EpochNews, Mark, NewCall, NewProcedure, TableNews};
use tl_procedures::Procedures;
use tl_rows::{call_row, changed, procedure_row, reply_row, turn_row};
use tl_tree::{FIELD_COUNT, Record};

/// No news.
pub fn no_news(alloc: Global) -> News
    ensures { IsEmpty result }
{
    News {
        nodes: Vec::new(alloc),
        procedures: Vec::new(alloc),
        calls: Vec::new(alloc),
        turns: Vec::new(alloc),
        replies: Vec::new(alloc),
        seals: Vec::new(alloc),
        records: Vec::new(alloc),
    }
}

// Whether there is no news.
fn is_empty(news: &News) -> bool
    ensures { IsTrue result ↔ IsEmpty news.now }
{
    news.nodes.is_empty()
        && news.procedures.is_empty()
        && news.calls.is_empty()
        && news.turns.is_empty()
        && news.replies.is_empty()
        && news.seals.is_empty()
        && news.records.is_empty()
}

// So many rows more. No store has as many rows as there are numbers.
fn more(rows: u64, count: usize) -> u64
    ensures { result ≡ more rows count }
{
    rows.saturating_add(count as u64)
}

// A number as a column.
fn column(number: u64) -> i64
    ensures { result ≡ column number }
{
    match i64::try_from(number) {
        Ok(column) => column,
        Err(_) => i64::MAX,
    }
}

// How many rows there are once what came of an epoch is stored, but for its seal.
fn counted(rows: &Marks, came: &EpochNews) -> Marks
    ensures { result ≡ counted came.now rows.now }
{
    Marks {
        nodes: rows.nodes,
        procedures: more(rows.procedures, came.procedures.len()),
        calls: more(rows.calls, came.calls.len()),
        turns: more(rows.turns, came.turns.len().min(1)),
        replies: more(rows.replies, came.answers.len()),
        seals: rows.seals,
    }
}

// The seal after so many rows.
fn seal_after(rows: &Marks) -> SealRow
    ensures { result ≡ seal_after rows.now }
{
    SealRow {
        procedures: column(rows.procedures),
        calls: column(rows.calls),
        turns: column(rows.turns),
        replies: column(rows.replies),
    }
}

// Adds the rows of procedures.
fn push_procedures(
    alloc: Global,
    rows: &mut Vec<ProcedureRow>,
    procedures: &[NewProcedure],
) -> Result<(), AllocError>
    ensures { OnOk result (Appends procedure_form (map new_form procedures.now) rows.old.items rows.new.items) }
{
    for new in procedures {
        rows.push(procedure_row(alloc, new.name.as_str(), &new.procedure)?)?;
    }
    Ok(())
}

// Adds the rows of all these procedures.
#[tactic(auto, using(std::proofs::lemmas::List::take_all))]
fn push_all(
    alloc: Global,
    rows: &mut Vec<ProcedureRow>,
    others: &Procedures,
) -> Result<(), AllocError>
    ensures { OnOk result (Appends procedure_form (map named_form others.now) rows.old.items rows.new.items) }
{
    for number in 0..others.len() as u32 {
        rows.push(procedure_row(alloc, others.name(number), others.get(number))?)?;
    }
    Ok(())
}

// The row of a call, which has that number, and the key that its session has claimed.
fn new_row(
    alloc: Global,
    claims: &[Claimed],
    epoch: i64,
    number: u64,
    call: &NewCall,
) -> Result<CallRow, AllocError>
    ensures { IfOk result (λ row. admitted_in row ≡ admitted_at claims.now epoch number (asked call.now)) }
{
    let (name, args) = (call.request.name.as_str(), call.request.args.as_slice());
    let key = key_of(claims, call.session);
    call_row(alloc, epoch, column(number), name, args, key)
}

// Adds the rows of calls, numbered from the first one on.
#[tactic(auto, using(crate::proofs::CallLemmas::request_more))]
fn push_calls(
    alloc: Global,
    rows: &mut Vec<CallRow>,
    claims: &[Claimed],
    epoch: i64,
    first: usize,
    calls: &[NewCall],
) -> Result<(), AllocError>
    ensures { OnOk result (Appends admitted_in (admitted_from claims.now epoch first (map asked calls.now)) rows.old.items rows.new.items) }
{
    for index in 0..calls.len() {
        let number = more(first as u64, index);
        rows.push(new_row(alloc, claims, epoch, number, &calls[index])?)?;
    }
    Ok(())
}

// Adds the turns that calls took, in one row. Where none were taken there is no row.
fn push_turns(
    alloc: Global,
    rows: &mut Vec<TurnRow>,
    epoch: i64,
    turns: &[u32],
) -> Result<(), AllocError>
    ensures { OnOk result (Appends turn_form (turn_forms epoch turns.now) rows.old.items rows.new.items) }
{
    if turns.is_empty() {
        return Ok(());
    }
    rows.push(turn_row(alloc, epoch, turns)?)?;
    Ok(())
}

// Adds the rows of replies.
fn push_replies(
    alloc: Global,
    rows: &mut Vec<ReplyRow>,
    epoch: i64,
    answers: &[Answer],
) -> Result<(), AllocError>
    ensures { OnOk result (Appends reply_form (map (answer_form epoch) answers.now) rows.old.items rows.new.items) }
{
    for answer in answers {
        let call = i64::from(answer.call);
        rows.push(reply_row(alloc, epoch, call, answer.reply.values())?)?;
    }
    Ok(())
}

// Remembers what came of a call under the key that its session has claimed, if it has claimed one.
fn learn_one(
    alloc: Global,
    index: &mut KeyIndex,
    claims: &[Claimed],
    epoch: i64,
    answer: &Answer,
) -> Result<(), AllocError>
    ensures { OnOk result (LearnsUnder (key_of claims.now answer.now.session) (kept_of epoch answer.now) index.old index.new) }
{
    let Some(key) = key_of(claims, answer.session) else {
        return Ok(());
    };
    let key = String::from_str(alloc, key)?;
    let kept = Kept::new(alloc, epoch, i64::from(answer.call), answer.reply.values())?;
    index.remember(alloc, key, kept)
}

// Remembers what came of these calls under the keys that their sessions have claimed.
#[tactic(auto, using(crate::proofs::AddedLemmas::learns_next))]
fn learn(
    alloc: Global,
    index: &mut KeyIndex,
    claims: &[Claimed],
    epoch: i64,
    answers: &[Answer],
) -> Result<(), AllocError>
    ensures { OnOk result (Learns claims.now epoch answers.now index.old index.new) }
{
    for answer in answers {
        learn_one(alloc, index, claims, epoch, answer)?;
    }
    Ok(())
}

// Adds the changes that lead from the records before to those now.
fn push_changes(
    alloc: Global,
    rows: &mut Vec<ChangedRecord>,
    before: &[Record],
    now: &[Record],
) -> Result<(), AllocError>
    ensures { OnOk result ((changes : List ChangedRecord) × Leads before.now now.now changes × (rows.new.items ≡ rows.old.items ++ changes)) }
{
    let mut changes = changed(alloc, before, now)?;
    rows.append(&mut changes)
}

// Adds the rows of nodes of these parents.
fn push_nodes(rows: &mut Vec<NodeRow>, epoch: i64, parents: &[i64]) -> Result<(), AllocError>
    ensures { OnOk result (rows.new.items ≡ rows.old.items ++ map (node_of epoch) parents.now) }
{
    for parent in parents {
        rows.push(NodeRow {
            parent: *parent,
            epoch,
        })?;
    }
    Ok(())
}

// Adds so many records of zeros.
#[tactic(auto, using(crate::proofs::AddedLemmas::zeros_more))]
fn push_zeros(records: &mut Vec<Record>, count: usize) -> Result<(), AllocError>
    ensures { OnOk result (records.new.items ≡ records.old.items ++ replicate count (replicate field_count (pos 0))) }
{
    for added in 0..count {
        records.push([0; FIELD_COUNT])?;
    }
    Ok(())
}

/// What came and isn't stored yet, as rows, and how far the engine's table was read.
#[derive(Debug, Drop)]
pub struct Pending {
    mark: Mark,
    news: News,
    // How many epochs the volumes before the live one have.
    before: u64,
    // How many rows the live volume has once all of this is stored. An epoch's number there is how many seals there are before its own.
    rows: Marks,
    // The records at the last seal, these news among them.
    records: Vec<Record>,
    // A session whose call with a key is under way has claimed the key. It asks for one call only until it lets go of the key, so all that comes
    // meanwhile of a call of its is of that one.
    claims: Vec<Claimed>,
    // What came of calls that had a key. All of it is stored, or among these news.
    index: KeyIndex,
    // Memory was refused for something that came, so not all of it is here.
    is_lost: bool,
}

impl Pending {
    /// Nothing, where volumes with so many epochs stand before the live one, so many rows are stored in that, these are the records at the last seal,
    /// the engine's table begins with so many procedures, and this came of calls that had a key.
    pub fn new(
        alloc: Global,
        before: u64,
        rows: Marks,
        records: Vec<Record>,
        procedures: usize,
        index: KeyIndex,
    ) -> Pending
        ensures news { IsEmpty result.news }
        ensures claims { result.claims.items ≡ [] }
        ensures others { result ≡ record { mark = start procedures; news = result.news; before = before; rows = rows; records = records; claims = result.claims; index = index; is_lost = false } }
    {
        Pending {
            mark: Mark::start(procedures),
            news: no_news(alloc),
            before,
            rows,
            records,
            claims: Vec::new(alloc),
            index,
            is_lost: false,
        }
    }

    /// How far the engine's table was read.
    pub fn mark(&self) -> Mark
        ensures { result ≡ self.now.mark }
    {
        self.mark
    }

    /// How many epochs the volumes before the live one have.
    pub fn before(&self) -> u64
        ensures { result ≡ self.now.before }
    {
        self.before
    }

    /// How many rows the live volume has once all that came is stored. `None` if some of it was lost.
    pub fn wanted(&self) -> Option<Marks>
        ensures { result ≡ (if self.now.is_lost then None else Some self.now.rows) }
    {
        if self.is_lost { None } else { Some(self.rows) }
    }

    /// Something that came was lost.
    pub fn lose(&mut self)
        ensures { self.new ≡ record self.old { is_lost = true } }
    {
        self.is_lost = true;
    }

    /// Takes all that came out. `None` if some of it was lost.
    pub fn take(&mut self, alloc: Global) -> Option<News>
        ensures taken { result ≡ (if self.old.is_lost then None else Some self.old.news) }
        ensures left { self.old.is_lost ≡ false → IsEmpty self.new.news }
        ensures others { self.new ≡ record self.old { news = self.new.news } }
    {
        if self.is_lost {
            return None;
        }
        Some(mem::replace(&mut self.news, no_news(alloc)))
    }

    /// What comes from now on is of the next volume, which has so many rows. False, and nothing is changed, if something isn't stored, or was lost.
    pub fn turn_over(&mut self, rows: Marks) -> bool
        ensures turned { result ≡ true → IsEmpty self.old.news × (self.old.is_lost ≡ false)
            × (self.new ≡ record self.old { before = added self.old.before self.old.rows.seals; rows = rows }) }
        ensures same { result ≡ false → self.new ≡ self.old }
        ensures unstored { result ≡ false → IsEmpty self.old.news → self.old.is_lost ≡ true }
    {
        if self.is_lost || !is_empty(&self.news) {
            return false;
        }
        self.before = self.before.saturating_add(self.rows.seals);
        self.rows = rows;
        true
    }

    /// Whether a session has claimed the key.
    pub fn is_claimed(&self, key: &str) -> bool
        ensures { IsTrue result ↔ Any (λ c. c.key ≡ key.now) self.now.claims.items }
    {
        claims::is_claimed(self.claims.as_slice(), key)
    }

    /// What came of the call that had the key, if one had it.
    pub fn find(&self, alloc: Global, key: &str) -> Result<Option<Kept>, AllocError>
        ensures { IfOk result (λ found. found ≡ recall self.now.index key.now) }
    {
        match self.index.find(key) {
            Some(kept) => Ok(Some(kept.copy(alloc)?)),
            None => Ok(None),
        }
    }

    /// The session claims the key for the call that it asks for next: whatever else it has asked for was taken over.
    pub fn claim(&mut self, alloc: Global, session: u32, key: &str) -> Result<(), AllocError>
        ensures claimed { OnOk result (self.new.claims.items ≡ self.old.claims.items ++ record { session = session; key = key.now } ∷ []) }
        ensures others { self.new ≡ record self.old { claims = self.new.claims } }
    {
        claims::claim(alloc, &mut self.claims, session, key)
    }

    /// The session lets go of the key that it has claimed.
    pub fn release(&mut self, session: u32)
        ensures released { self.new.claims.items ≡ filter (λ c. not (c.session == session)) self.old.claims.items }
        ensures others { self.new ≡ record self.old { claims = self.new.claims } }
    {
        claims::release(&mut self.claims, session);
    }

    /// Takes over what came of an engine's table. If memory is refused, only part of it may have been taken over.
    pub fn add(&mut self, alloc: Global, came: TableNews) -> Result<(), AllocError>
        ensures { OnOk result ((last : Pending) × AddsAll came.epochs.items self.old last × (self.new ≡ record last { mark = came.mark })) }
    {
        let TableNews { epochs, mark } = came;
        self.add_all(alloc, epochs)?;
        self.mark = mark;
        Ok(())
    }

    // What came of epochs, one after another.
    #[tactic(auto, using(crate::proofs::AddedLemmas::adds_more))]
    fn add_all(&mut self, alloc: Global, epochs: Vec<EpochNews>) -> Result<(), AllocError>
        ensures { OnOk result (AddsAll epochs.items self.old self.new) }
    {
        for epoch in epochs {
            self.add_epoch(alloc, epoch)?;
        }
        Ok(())
    }

    // What came of one epoch. Its number in the volume is how many seals there are before its own.
    fn add_epoch(&mut self, alloc: Global, came: EpochNews) -> Result<(), AllocError>
        ensures { OnOk result (Adds came self.old self.new) }
    {
        let epoch = column(self.rows.seals);
        // Among all volumes.
        let number = column(self.before.saturating_add(self.rows.seals));
        // Counted before what came is taken apart. If memory is refused below, nobody reads the counts any more.
        self.rows = counted(&self.rows, &came);
        let EpochNews {
            epoch: _,
            procedures,
            first_call,
            calls,
            turns,
            answers,
            records,
        } = came;
        let claims = self.claims.as_slice();
        learn(alloc, &mut self.index, claims, number, answers.as_slice())?;
        let news = &mut self.news;
        push_procedures(alloc, &mut news.procedures, procedures.as_slice())?;
        push_calls(
            alloc,
            &mut news.calls,
            claims,
            epoch,
            first_call,
            calls.as_slice(),
        )?;
        push_turns(alloc, &mut news.turns, epoch, turns.as_slice())?;
        push_replies(alloc, &mut news.replies, epoch, answers.as_slice())?;
        let Some(records) = records else {
            return Ok(());
        };
        let before = self.records.as_slice();
        push_changes(alloc, &mut news.records, before, records.as_slice())?;
        news.seals.push(seal_after(&self.rows))?;
        self.rows.seals = more(self.rows.seals, 1);
        self.records = records;
        Ok(())
    }

    /// Takes over that these procedures were put in the place of those with their names. If memory is refused, only part of it may have been
    /// taken over.
    pub fn replace(&mut self, alloc: Global, others: &Procedures) -> Result<(), AllocError>
        ensures { OnOk result (Replaces others.now self.old self.new) }
    {
        push_all(alloc, &mut self.news.procedures, others)?;
        self.rows.procedures = more(self.rows.procedures, others.len());
        Ok(())
    }

    /// Takes over that nodes of these parents were appended, with zeros as their records. If memory is refused, only part of it may have
    /// been taken over.
    pub fn grow(&mut self, parents: &[i64]) -> Result<(), AllocError>
        ensures { OnOk result (Grows parents.now self.old self.new) }
    {
        push_nodes(&mut self.news.nodes, column(self.rows.seals), parents)?;
        push_zeros(&mut self.records, parents.len())?;
        self.rows.nodes = more(self.rows.nodes, parents.len());
        Ok(())
    }

    /// What came and was never stored.
    pub fn into_news(self) -> News
        ensures { result ≡ self.news }
    {
        let Pending {
            mark: _,
            news,
            before: _,
            rows: _,
            records: _,
            claims: _,
            index: _,
            is_lost: _,
        } = self;
        news
    }
}
