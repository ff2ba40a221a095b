//! The trails of a store, as an auditor reads them.

use crate::files::{files, opened, stored};
use crate::seen::field_of;
use crate::steps::{all_news, first};
use std::alloc::Global;
use std::slice;
use std::test::Fail;
use tl_audit::{Silent, audit_chain_after};
use tl_export::{ExportFault, TrailTaker, export};
use tl_ledger::{ChangedRecord, News, NodeRow, RecordRow, ReplyRow};
use tl_rows::reply_row;
use tl_serial_order::Order;
use tl_store::StoreFault;
use tl_trail::{Trail, read_trail, write_trail};

// The texts of trails.
#[derive(Drop)]
struct Texts {
    texts: Vec<String>,
}

impl TrailTaker for Texts {
    ghost taken = { λ _ _. Unit {0} };

    fn take(&mut self, alloc: Global, trail: &Trail, _order: &Order) -> Result<(), ExportFault> {
        match write_trail(alloc, trail) {
            Ok(text) => Ok(self.texts.push(text)?),
            Err(_) => Err(ExportFault::Untaken),
        }
    }
}

// What comes of the export of a store in which all of this was committed, and the texts of the trails that were handed over.
fn exported(alloc: Global, all: &[News]) -> Result<(Result<(), ExportFault>, Texts), Fail> {
    let first = first(alloc)?;
    let files = files(alloc, u64::MAX, u64::MAX);
    let Some(run) = stored(alloc, files, &first, all)? else {
        return Err("not stored".into());
    };
    let mut rested = opened(alloc, run.files)?;
    let mut texts = Texts {
        texts: Vec::new(alloc),
    };
    let came = export(alloc, &mut rested.store, &mut texts);
    Ok((came, texts))
}

// The trail of this text, which is clean and takes over from the one before.
fn audited(alloc: Global, before: Option<&Trail>, text: &str) -> Result<Trail, Fail> {
    let trail = read_trail(alloc, text, 16)?;
    match audit_chain_after(alloc, before, slice::from_ref(&trail), &mut Silent) {
        Ok(_) => Ok(trail),
        Err(fault) => Err(fault.into()),
    }
}

#[test]
fn an_auditor_finds_the_trails_clean(rt: HostRuntime) -> Result<(), Fail> {
    let alloc = rt.alloc();
    let all = all_news(alloc)?;
    let (came, Texts { texts }) = exported(alloc, all.as_slice())?;
    assert_eq!(rt; came, Ok(()));
    assert!(rt; texts.len() == 2);
    let sealed = audited(alloc, None, &texts[0])?;
    let last = audited(alloc, Some(&sealed), &texts[1])?;
    assert_eq!(rt; (sealed.calls(), field_of(sealed.ends(), 1)), (2, 22));
    assert_eq!(rt; (last.calls(), field_of(last.ends(), 3)), (1, 4));
    Ok(())
}

// A node below the root, which is there from the first epoch on.
fn node_before_all_calls(alloc: Global) -> Result<News, Fail> {
    let mut news = news_with(alloc, Vec::new(alloc), Vec::new(alloc));
    news.nodes.push(NodeRow {
        parent: 0,
        epoch: 0,
    })?;
    Ok(news)
}

#[test]
fn a_node_that_came_before_all_calls_has_zeros(rt: HostRuntime) -> Result<(), Fail> {
    let alloc = rt.alloc();
    let mut all = Vec::new(alloc);
    all.push(node_before_all_calls(alloc)?)?;
    for news in all_news(alloc)? {
        all.push(news)?;
    }
    let (came, Texts { texts }) = exported(alloc, all.as_slice())?;
    assert_eq!(rt; came, Ok(()));
    assert!(rt; texts.len() == 2);
    let sealed = audited(alloc, None, &texts[0])?;
    let last = audited(alloc, Some(&sealed), &texts[1])?;
    assert_eq!(rt; (sealed.ends().len(), field_of(sealed.ends(), 3)), (4, 0));
    assert_eq!(rt; (last.ends().len(), field_of(last.ends(), 3)), (5, 4));
    Ok(())
}

// These records and replies.
fn news_with(alloc: Global, records: Vec<ChangedRecord>, replies: Vec<ReplyRow>) -> News {
    News {
        nodes: Vec::new(alloc),
        procedures: Vec::new(alloc),
        calls: Vec::new(alloc),
        turns: Vec::new(alloc),
        replies,
        seals: Vec::new(alloc),
        records,
    }
}

#[test]
fn another_record_is_found(rt: HostRuntime) -> Result<(), Fail> {
    let alloc = rt.alloc();
    let mut records = Vec::new(alloc);
    records.push(ChangedRecord {
        node: 1,
        row: RecordRow {
            fields: [23, 0, 0, 0, 0, 0, 0, 0],
        },
    })?;
    let mut all = all_news(alloc)?;
    all.push(news_with(alloc, records, Vec::new(alloc)))?;
    let (came, _) = exported(alloc, all.as_slice())?;
    assert_eq!(rt; came, Err(ExportFault::WrongRecord { node: 1 }));
    Ok(())
}

#[test]
fn another_reply_is_found(rt: HostRuntime) -> Result<(), Fail> {
    let alloc = rt.alloc();
    let mut replies = Vec::new(alloc);
    replies.push(reply_row(alloc, 1, 0, &[5])?)?;
    let mut all = all_news(alloc)?;
    all.push(news_with(alloc, Vec::new(alloc), replies))?;
    let (came, _) = exported(alloc, all.as_slice())?;
    assert_eq!(rt;
        came,
        Err(ExportFault::Store(StoreFault::WrongReply { call: 0 }))
    );
    Ok(())
}
