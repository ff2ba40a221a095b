// What the command line says of a store.

use crate::command_line::mode_of;
use clap::ArgMatches;

// After how many calls a store in a folder goes on in a new volume, if the command line doesn't say.
const VOLUME: u32 = 1_048_576;

// How many closed volumes a start looks through for keys, if the command line doesn't say.
const KEYS: u16 = 16;

/// The store of a server, and the files that it comes from and goes to.
#[derive(Clone, Copy, Debug)]
pub struct StoreFiles<'a> {
    /// Its file, or the folder of its volumes.
    pub store: &'a str,
    /// The tree that it is made of.
    pub tree: Option<&'a str>,
    /// The folder of its copies.
    pub copies: Option<&'a str>,
    /// The permissions of a file of it that is made.
    pub mode: Option<u32>,
    /// After how many calls a store in a folder goes on in a new volume.
    pub calls: u32,
    /// How many closed volumes a start looks through for keys.
    pub keys: u16,
    /// Where the tree is saved in the end.
    pub save: Option<&'a str>,
}

/// What these words say of a store. `None` if they name none.
pub(crate) fn store_files<'a>(words: &ArgMatches<'a>) -> Option<StoreFiles<'a>> {
    Some(StoreFiles {
        store: words.get_str("store")?,
        tree: words.get_str("tree"),
        copies: words.get_str("snapshots"),
        mode: mode_of(words).ok()?,
        calls: words.get_one("volume").unwrap_or(VOLUME),
        keys: words.get_one("keys").unwrap_or(KEYS),
        save: words.get_str("save"),
    })
}
