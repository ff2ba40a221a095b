// What a follower asks for.

ghost use Rattle.std.specs.Prelude.{◌≡◌, ◌≢◌, option_map, IfOk, IfErr};
ghost use Rattle.serde_json.specs.View.{view};
ghost use Rattle.tl_server.specs.Following.{position_view, position_of, number_of, if_any, holds_of, follow_view, follow_of};
ghost use Rattle.tl_server.specs.Requests.{IsRead, IsUnread};
ghost use Rattle.tl_server.specs.declared.fault.LineFault.TheVariants.{Memory};
ghost use Rattle.tl_server.specs.declared.follow.FollowRefusal.TheVariants as following;

use crate::fault::LineFault;
use crate::request::{has_members, text_at, value_of_line};
use arrayvec::ArrayVec;
use serde_json::Value;
use std::alloc::{AllocError, Global};
use thiserror::Error;
use tl_tokens::Scratch;

/// How many tables of a store grow: nodes, procedures, calls, turns, replies and seals.
pub const TABLES: usize = 6;

/// How many milliseconds a follower may have the server wait.
pub const MAX_WAIT: u64 = 1_000;

/// A place in what is stored.
#[derive(Clone, Copy, Debug, PartialEq, Eq)]
pub struct Position {
    /// The number of the volume; 0 of a store in one file.
    pub volume: u64,
    /// How many rows of each table of that volume that grows are before it.
    pub rows: [u64; TABLES],
}

/// What a follower asks for: what is stored behind a position.
#[derive(Clone, Copy, Debug)]
pub struct Follow {
    /// All before this position is where the follower keeps it. `None` if it has nothing, and begins with the first volume that there is.
    pub from: Option<Position>,
    /// The records that it has are those of the last seal before so many seals.
    pub records: Option<u64>,
    /// For how many milliseconds the answer waits where nothing is behind the position yet.
    pub wait: u64,
    /// Whether it holds what is before its position for good, so that answers to callers may wait for it.
    pub holds: bool,
}

/// Why a follower gets no rows.
#[derive(Clone, Copy, Debug, PartialEq, Eq, Error)]
pub enum FollowRefusal {
    /// 901: the server stores nothing.
    #[error("the server stores nothing")]
    NoStore,
    /// 1021: the position isn't one of the store.
    #[error("the position isn't one of the store")]
    NotThere,
    /// 1003 and the table: the store has a row of another form.
    #[error("table {table} of the store has a row of another form")]
    BadRow { table: u32 },
    /// 1011: the store fails. The server ends, and says why.
    #[error("the store fails, and the server ends")]
    Broken,
    /// 1090: memory was refused.
    #[error("out of memory")]
    Memory,
}

impl From<AllocError> for FollowRefusal {
    ghost from_gives = { λ _ e. e ≡ following.Memory };

    fn from(_refused: AllocError) -> FollowRefusal {
        FollowRefusal::Memory
    }
}

impl FollowRefusal {
    ghost use Rattle.tl_server.specs.Following.{follow_numbers_of};

    /// Its numbers.
    pub fn numbers(&self) -> ArrayVec<u64, 3>
        ensures { result.items ≡ follow_numbers_of self.now }
    {
        let mut numbers = ArrayVec::new();
        numbers.push(match self {
            FollowRefusal::NoStore => 901,
            FollowRefusal::NotThere => 1021,
            FollowRefusal::BadRow { .. } => 1003,
            FollowRefusal::Broken => 1011,
            FollowRefusal::Memory => 1090,
        });
        if let FollowRefusal::BadRow { table } = self {
            numbers.push(u64::from(*table));
        }
        numbers
    }
}

// The position of a list of seven numbers.
fn position_of_value(value: &Value) -> Option<Position>
    ensures { option_map position_view result ≡ position_of (view value.now) }
{
    let [volume, nodes, procedures, calls, turns, replies, seals] = value.as_array()?.as_slice()
    else {
        return None;
    };
    Some(Position {
        volume: volume.as_u64()?,
        rows: [
            nodes.as_u64()?,
            procedures.as_u64()?,
            calls.as_u64()?,
            turns.as_u64()?,
            replies.as_u64()?,
            seals.as_u64()?,
        ],
    })
}

// A position, or null.
fn position_if_any(value: &Value) -> Option<Option<Position>>
    ensures { option_map (option_map position_view) result ≡ if_any position_of (view value.now) }
{
    if value.is_null() {
        return Some(None);
    }
    Some(Some(position_of_value(value)?))
}

// A number, or null.
fn number_if_any(value: &Value) -> Option<Option<u64>>
    ensures { result ≡ if_any number_of (view value.now) }
{
    if value.is_null() {
        return Some(None);
    }
    Some(Some(value.as_u64()?))
}

// Whether a follower with that `op` holds what is before its position.
fn holds_of_op(op: &str) -> Option<bool>
    ensures { result ≡ holds_of op.now }
{
    match op {
        "follow" => Some(false),
        "hold" => Some(true),
        _ => None,
    }
}

// `{"from":[v,n,..],"op":"follow","records":r,"wait":w}`, with seven numbers, or null where the follower has nothing; `r` is null where it has no records.
fn follow_of_value(value: &Value) -> Option<Follow>
    ensures { option_map follow_view result ≡ follow_of (view value.now) }
{
    if !has_members(value, 4) {
        return None;
    }
    let holds = holds_of_op(text_at(value, "op")?)?;
    Some(Follow {
        from: position_if_any(value.get("from")?)?,
        records: number_if_any(value.get("records")?)?,
        wait: value.get("wait")?.as_u64()?.min(MAX_WAIT),
        holds,
    })
}

/// What a line asks for, without its LF. 902, 903 or 901 if it is no such line; 990 if memory is refused.
pub(crate) fn read_follow_with(
    alloc: Global,
    line: &[u8],
    scratch: &mut Scratch,
) -> Result<Follow, LineFault>
    ensures ok { IfOk result (λ f. IsRead follow_of line.now (follow_view f)) }
    ensures fault { IfErr result (λ e. e ≢ Memory → IsUnread follow_of line.now e) }
{
    let value = value_of_line(alloc, line, scratch)?;
    match follow_of_value(&value) {
        Some(follow) => Ok(follow),
        None => Err(LineFault::NotRequest),
    }
}
