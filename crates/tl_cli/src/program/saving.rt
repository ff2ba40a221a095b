// A tree that is saved in a file.

use crate::failure::Failure;
use crate::program::Program;
use crate::{CliFault, tree_file};
use std::fs;
use std::rt::Files;
use tl_tree::Tree;

impl<'a, R: Files + Print + Eprint + AllocGlobal> Program<'a, R> {
    /// Writes a tree to a file, if one is named. It is written next to the file and then renamed, so that the file never has a
    /// part of a tree.
    pub(crate) fn save<'p>(&self, path: Option<&'p str>, tree: &Tree) -> Result<(), Failure<'p>> {
        let Some(path) = path else {
            return Ok(());
        };
        let text = tree_file(self.rt.alloc(), tree)?;
        let part = format!(in self.rt.alloc(); "{path}.part")?;
        let written = fs::write(self.rt, part.as_str(), text.as_bytes());
        match written.and_then(|()| fs::rename(self.rt, part.as_str(), path)) {
            Ok(()) => Ok(()),
            Err(reason) => Err(Failure::Unwritable { path, reason }),
        }
    }

    /// Saves the tree of a server that has ended, if a file is named for it. If it can't be saved, the server's lines are printed all
    /// the same, since they may be all that is left of the tree.
    pub(crate) fn save_last<'p>(
        &self,
        path: Option<&'p str>,
        tree: &Tree,
        lines: &str,
    ) -> Result<(), Failure<'p>> {
        let Err(failure) = self.save(path, tree) else {
            return Ok(());
        };
        match self.rt.print(lines) {
            Ok(()) => Err(failure),
            Err(_) => Err(Failure::Refused(CliFault::Unwritable)),
        }
    }
}
