//! What comes to a store, commit after commit, and what is found in it then.

ghost use Rattle.std.specs.Prelude.{◌≡◌, length, IfOk};

use crate::seen::Seen;
use std::alloc::Global;
use std::test::Fail;
use tl_ledger::{ChangedRecord, Founding, News, NodeRow, RecordRow, SealRow};
use tl_rows::{call_row, node_rows, procedure_row, record_rows, reply_row, turn_row};
use tl_test_data::{ADD, FORK, procedure_of, tree_of};

/// A root with two children, and a procedure.
pub fn first(alloc: Global) -> Result<Founding, Fail>
    ensures { IfOk result (λ f. length f.records.items ≡ length f.nodes.items) }
{
    let tree = tree_of(alloc, FORK)?;
    let add = procedure_of(alloc, ADD)?;
    let mut procedures = Vec::new(alloc);
    procedures.push(procedure_row(alloc, "add", &add)?)?;
    let nodes = node_rows(alloc, tree.shape(), 0)?;
    let records = record_rows(alloc, tree.records())?;
    if records.len() != nodes.len() {
        return Err("not a record for each node".into());
    }
    Ok(Founding {
        nodes,
        records,
        procedures,
    })
}

/// What comes with a commit: the parent of a node that is appended; a call's number, node and summand; the calls of turns; calls and their replies; and
/// whether the epoch is sealed.
struct Step {
    epoch: i64,
    parent: Option<i64>,
    call: Option<(i64, &'static [i64])>,
    turns: &'static [u32],
    replies: &'static [(i64, i64)],
    seals: bool,
}

/// Two calls that overlap, a seal, and a call of a node that was appended then. Each call is admitted, locks a node, frees it and ends.
const STEPS: [Step; 5] = [
    Step {
        epoch: 0,
        parent: None,
        call: Some((0, &[1, 5])),
        turns: &[0, 0],
        replies: &[],
        seals: false,
    },
    Step {
        epoch: 0,
        parent: None,
        call: Some((1, &[1, 7])),
        turns: &[1, 0, 0, 1],
        replies: &[(0, 15)],
        seals: false,
    },
    Step {
        epoch: 0,
        parent: None,
        call: None,
        turns: &[1, 1],
        replies: &[(1, 22)],
        seals: true,
    },
    Step {
        epoch: 1,
        parent: Some(1),
        call: Some((0, &[3, 4])),
        turns: &[0],
        replies: &[],
        seals: false,
    },
    Step {
        epoch: 1,
        parent: None,
        call: None,
        turns: &[0, 0, 0],
        replies: &[(0, 4)],
        seals: false,
    },
];

fn news_of(alloc: Global, step: &Step) -> Result<News, Fail> {
    let mut news = News {
        nodes: Vec::new(alloc),
        procedures: Vec::new(alloc),
        calls: Vec::new(alloc),
        turns: Vec::new(alloc),
        replies: Vec::new(alloc),
        seals: Vec::new(alloc),
        records: Vec::new(alloc),
    };
    if let Some(parent) = step.parent {
        news.nodes.push(NodeRow {
            parent,
            epoch: step.epoch,
        })?;
    }
    if let Some((number, args)) = &step.call {
        news.calls
            .push(call_row(alloc, step.epoch, *number, "add", args, None)?)?;
    }
    news.turns.push(turn_row(alloc, step.epoch, step.turns)?)?;
    for (call, reply) in step.replies {
        news.replies
            .push(reply_row(alloc, step.epoch, *call, &[*reply])?)?;
    }
    if step.seals {
        news.seals.push(SealRow {
            procedures: 1,
            calls: 2,
            turns: 3,
            replies: 2,
        })?;
        news.records.push(ChangedRecord {
            node: 1,
            row: RecordRow {
                fields: [22, 0, 0, 0, 0, 0, 0, 0],
            },
        })?;
    }
    Ok(news)
}

/// What comes, commit after commit, behind the first contents.
pub fn all_news(alloc: Global) -> Result<Vec<News>, Fail> {
    let mut all = Vec::new(alloc);
    for step in &STEPS {
        all.push(news_of(alloc, step)?)?;
    }
    Ok(all)
}

/// What is found after so many commits: how many nodes, calls, turns, replies and seals are stored; of the core made again its stored turns, its calls, the
/// field 0 of nodes 1 and 3 and the last call's reply; and of what the store gets then the turns, replies and records. Nothing is made of a store without
/// nodes.
pub const FOUND: [Option<Seen>; 7] = [
    None,
    Some(Seen {
        rows: (3, 0, 0, 0, 0),
        turns: 0,
        calls: 0,
        fields: (10, 0),
        reply: None,
        late: (0, 0, 0),
    }),
    Some(Seen {
        rows: (3, 1, 1, 0, 0),
        turns: 2,
        calls: 1,
        fields: (15, 0),
        reply: Some(15),
        late: (1, 1, 1),
    }),
    Some(Seen {
        rows: (3, 2, 2, 1, 0),
        turns: 6,
        calls: 2,
        fields: (22, 0),
        reply: Some(22),
        late: (1, 1, 1),
    }),
    Some(Seen {
        rows: (3, 2, 3, 2, 1),
        turns: 0,
        calls: 0,
        fields: (22, 0),
        reply: None,
        late: (0, 0, 0),
    }),
    Some(Seen {
        rows: (4, 3, 4, 2, 1),
        turns: 1,
        calls: 1,
        fields: (22, 4),
        reply: Some(4),
        late: (1, 1, 1),
    }),
    Some(Seen {
        rows: (4, 3, 5, 3, 1),
        turns: 4,
        calls: 1,
        fields: (22, 4),
        reply: Some(4),
        late: (0, 0, 1),
    }),
];
