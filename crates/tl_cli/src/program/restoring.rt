// The command `export` of the tree as it was after an epoch.

use crate::CliFault;
use crate::failure::Failure;
use crate::program::Program;
use crate::tree_after::TreeAfter;
use std::rt::Files;
use tl_file_export::Epochs;
use tl_store_file::FileFault;

/// Where the epoch of a store is.
#[derive(Drop)]
struct EpochPlace {
    /// The file of the store, or of the volume.
    path: String,
    /// Its number there.
    number: u64,
    /// Whether a later volume goes on from that one.
    is_closed: bool,
}

impl<'a, R: Files + Print + Eprint + AllocGlobal + Clone + Drop> Program<'a, R> {
    // Where that epoch is, in a file, or in the last of these volumes of a folder that doesn't begin behind it. 1023 if all of them do.
    fn place_of(
        &self,
        store: &str,
        volumes: &[u64],
        epoch: u64,
    ) -> Result<EpochPlace, Failure<'static>> {
        let alloc = self.rt.alloc();
        let Some(highest) = volumes.last().copied() else {
            return Ok(EpochPlace {
                path: String::from_str(alloc, store)?,
                number: epoch,
                is_closed: false,
            });
        };
        let mut place = Err(Failure::NoEpoch { epoch });
        for volume in volumes.iter().copied() {
            let Some(number) = epoch.checked_sub(volume) else {
                break;
            };
            place = Ok(EpochPlace {
                path: self.volume_path(store, volume)?,
                number,
                is_closed: volume < highest,
            });
        }
        place
    }

    /// What `export` prints, once the tree as it was after that epoch is written into a file. Of a store in volumes only the one that has the epoch is read. 1023 if there is
    /// no such epoch.
    pub(crate) fn restore<'p, E, X>(
        &self,
        store: &'p str,
        file: &'p str,
        epoch: u32,
        opens: X,
    ) -> Result<String, Failure<'p>>
    where
        E: Epochs + Drop,
        X: Fn(&str) -> Result<E, FileFault> + Drop,
        requires { X.IsAlwaysCallable opens }
    {
        let (alloc, epoch) = (self.rt.alloc(), u64::from(epoch));
        let volumes = self.volumes_of(store)?;
        let place = self.place_of(store, volumes.as_slice(), epoch)?;
        let opened = if volumes.is_empty() {
            self.open_epochs(store, opens)
        } else {
            self.open_closed(
                place.path.as_str(),
                store,
                epoch.saturating_sub(place.number),
                opens,
            )
        };
        let mut opened = opened?;
        let kept = match opened.export(alloc, TreeAfter::new(place.number)) {
            Ok(kept) => kept,
            Err(fault) => return Err(Failure::Unexported(fault)),
        };
        let Some(tree) = kept.into_tree(place.is_closed) else {
            return Err(Failure::NoEpoch { epoch });
        };
        self.save(Some(file), &tree)?;
        let nodes = tree.shape().node_count();
        Ok(format!(in alloc; "{{\"epoch\":{epoch},\"nodes\":{nodes}}}\n")?)
    }

    // Opens a volume of a folder, which has to be the file that the folder's list has, if it is listed.
    fn open_closed<E, X>(
        &self,
        path: &str,
        folder: &str,
        volume: u64,
        opens: X,
    ) -> Result<E, Failure<'static>>
    where
        E: Epochs + Drop,
        X: Fn(&str) -> Result<E, FileFault> + Drop,
        requires { X.IsAlwaysCallable opens }
    {
        let list = self.sums_of(folder)?;
        self.check_sum(path, list.as_str(), volume)?;
        match opens(path) {
            Ok(epochs) => Ok(epochs),
            Err(fault) => Err(Failure::from(fault)),
        }
    }
}
