// The command `serve` with a store.

use crate::archive::{Finish, Trails};
use crate::failure::Failure;
use crate::program::Program;
use crate::{CliFault, tree_of_file};
use std::fs;
use std::net::{Net, TcpListener, TcpStream};
use std::rt::Files;
use std::sync::Wait;
use std::thread::Threads;
use std::time::Clock;
use tl_arguments::{Sealing, ServeOptions, StoreFiles};
use tl_file_journal::{End, StoreOptions, StoreRefusal, Stored};
use tl_generations::Succession;
use tl_server::{Keeper, Storage, Texts};
use tl_store_commands::Retaken;
use tl_tree::Tree;

impl<'a, R> Program<'a, R>
where
    R: Files
        + Print
        + Eprint
        + AllocGlobal
        + Net<Listener = TcpListener, Stream = TcpStream>
        + Threads
        + Wait
        + Clock
        + Clone
        + Drop
        + Sync,
{
    // The tree to make the store of, if one is named. 31 and the tree's faults; 1008 if none is named and there is no store.
    fn tree_for<'p>(
        &self,
        store: &'p str,
        tree: Option<&'p str>,
    ) -> Result<Option<Tree>, Failure<'p>> {
        match tree {
            Some(path) => Ok(Some(self.read_tree(path)?)),
            None if fs::metadata(self.rt, store).is_ok_and(|file| file.len() > 0) => Ok(None),
            None => Err(Failure::Unstored(StoreRefusal::NoTree)),
        }
    }

    fn read_tree<'p>(&self, path: &'p str) -> Result<Tree, Failure<'p>> {
        let file = self.read_file(path)?;
        match tree_of_file(self.rt.alloc(), &file, self.nodes) {
            Ok(tree) => Ok(tree),
            Err(fault) => Err(self.misread(path, &file, CliFault::Tree(fault))),
        }
    }

    // Says to people what was taken again.
    fn show_retaken(&self, store: &str, retaken: Option<Retaken>) {
        let Some(
            Retaken {
                epoch,
                calls,
                ended,
            },
        ) = retaken
        else {
            return;
        };
        if calls > 0 {
            let _shown = eprintln!(self.rt;
                "treedb: {store}: {calls} calls of epoch {epoch} taken again, {ended} of them ended now"
            );
        }
    }

    /// What `serve` prints of a server with a store, once all connections have ended, or once it was asked to stop. If something couldn't be
    /// stored, it is that fault.
    pub(crate) fn serve_store<'p, K, F, J, O>(
        &self,
        files: StoreFiles<'p>,
        options: ServeOptions<'p>,
        procedures: &[&'p str],
        archive: F,
        opens: O,
    ) -> Result<String, Failure<'p>>
    where
        K: Keeper + Texts + Finish + Send + Drop,
        F: FnOnce(Trails, Succession, u32) -> K + Drop,
        J: Storage + End + Sync + Drop,
        O: FnOnce(StoreOptions<'_>, Option<Tree>) -> Result<Stored<J>, StoreRefusal> + Drop,
        requires archive { F.IsAlwaysCallable archive }
        requires opens { O.IsAlwaysCallable opens }
    {
        let Sealing::Itself(lasting) = options.sealing else {
            // The command line takes no store with the other kind.
            return Err(Failure::Refused(CliFault::Memory));
        };
        let trails = self.trails_of(lasting)?;
        let store = StoreOptions {
            path: files.store,
            copies: files.copies,
            mode: files.mode,
            calls: u64::from(files.calls),
            keys: files.keys,
        };
        let tree = self.tree_for(store.path, files.tree)?;
        let Stored { opening, retaken } = opens(store, tree)?;
        self.show_retaken(store.path, retaken);
        self.serve_opened(
            opening, trails, options, lasting, procedures, files.save, archive,
        )
    }
}
