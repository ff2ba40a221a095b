// The tables of a store, by number.

ghost use Rattle.std.specs.Prelude.{◌≡◌, map, replicate};
ghost use Rattle.sqlite_trees.specs.declared.schema.Object.{Object as Listed};

use sqlite_trees::schema::Object;
use sqlite_trees::store::Shape;

/// The nodes, each with its parent, and the epoch at whose beginning it was there first.
pub const NODE: u32 = 0;

/// The record of each node at the last seal.
pub const RECORD: u32 = 1;

/// The procedures, in the order in which they were registered.
pub const PROCEDURE: u32 = 2;

/// The calls, in the order in which they were admitted.
pub const CALL: u32 = 3;

/// The turns of calls, a row for each commit.
pub const TURN: u32 = 4;

/// The replies, in the order in which they were given.
pub const REPLY: u32 = 5;

/// The seals: of each epoch that was sealed, how many rows the four tables before this one had then.
pub const SEAL: u32 = 6;

/// The record of each node before any call.
pub const OPENING: u32 = 7;

/// The names of nodes, each under its node's number. Only clients read and write them. The rows of the tables before this one are numbered from 0.
pub const NAME: u32 = 8;

/// How many tables there are.
pub const TABLES: usize = 9;

fn table<'a>(name: &'a str, sql: &'a str) -> Object<'a>
    ensures { result.shape ≡ Shape.Table }
{
    Object {
        shape: Shape::Table,
        kind: "table",
        name,
        table: name,
        reals: 0,
        sql: Some(sql),
    }
}

/// The tables, as they are listed in the file.
pub fn tables() -> [Object<'static>; TABLES]
    ensures { map (λ (object : Listed). object.shape) result ≡ replicate TABLES Shape.Table }
{
    [
        table(
            "node",
            "CREATE TABLE node(number INTEGER PRIMARY KEY, parent INTEGER NOT NULL, epoch INTEGER NOT NULL)",
        ),
        table(
            "record",
            "CREATE TABLE record(node INTEGER PRIMARY KEY, f0 INTEGER NOT NULL, f1 INTEGER NOT NULL, f2 INTEGER NOT NULL, f3 INTEGER NOT NULL, f4 INTEGER NOT NULL, f5 INTEGER NOT NULL, f6 INTEGER NOT NULL, f7 INTEGER NOT NULL)",
        ),
        table(
            "procedure",
            "CREATE TABLE procedure(number INTEGER PRIMARY KEY, name TEXT NOT NULL, container BLOB NOT NULL)",
        ),
        table(
            "call",
            "CREATE TABLE call(id INTEGER PRIMARY KEY, epoch INTEGER NOT NULL, number INTEGER NOT NULL, procedure TEXT NOT NULL, arguments TEXT NOT NULL, key TEXT)",
        ),
        table(
            "turn",
            "CREATE TABLE turn(id INTEGER PRIMARY KEY, epoch INTEGER NOT NULL, calls BLOB NOT NULL)",
        ),
        table(
            "reply",
            "CREATE TABLE reply(id INTEGER PRIMARY KEY, epoch INTEGER NOT NULL, call INTEGER NOT NULL, reply TEXT NOT NULL)",
        ),
        table(
            "seal",
            "CREATE TABLE seal(epoch INTEGER PRIMARY KEY, procedures INTEGER NOT NULL, calls INTEGER NOT NULL, turns INTEGER NOT NULL, replies INTEGER NOT NULL)",
        ),
        table(
            "opening",
            "CREATE TABLE opening(node INTEGER PRIMARY KEY, f0 INTEGER NOT NULL, f1 INTEGER NOT NULL, f2 INTEGER NOT NULL, f3 INTEGER NOT NULL, f4 INTEGER NOT NULL, f5 INTEGER NOT NULL, f6 INTEGER NOT NULL, f7 INTEGER NOT NULL)",
        ),
        table(
            "name",
            "CREATE TABLE name(node INTEGER PRIMARY KEY, path TEXT NOT NULL)",
        ),
    ]
}
