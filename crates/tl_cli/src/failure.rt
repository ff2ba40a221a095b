// Why the program has nothing to print.

use std::alloc::{AllocError, AllocFailed};
use std::{fmt, io};
use tl_commands::CliFault;
use tl_export::ExportFault;
use tl_file_journal::StoreRefusal;
use tl_language_commands::LanguageFault;
use tl_server::{Address, CopyRefusal, VolumeRefusal};
use tl_store::StoreFault;
use tl_store_file::FileFault;

/// The fault of a command, or of a command on a text of the procedure language; a store that can't be used, exported, copied, or go on in a new volume; a file that can't be read or
/// written, with the system's reason; a port or a socket that can't be opened; or a server that isn't there.
#[derive(Drop)]
pub enum Failure<'a> {
    Refused(CliFault),
    RefusedText(LanguageFault),
    Unstored(StoreRefusal),
    Unexported(ExportFault),
    Uncopied(CopyRefusal),
    Unturned(VolumeRefusal),
    Unreadable {
        path: &'a str,
        reason: io::Error,
    },
    Unwritable {
        path: &'a str,
        reason: io::Error,
    },
    /// A volume of a store isn't the file that the folder's list has, or doesn't go on where the one before it ends.
    Unjoined {
        volume: u64,
    },
    NotOpened {
        address: Address<'a>,
    },
    NoServer {
        control: Address<'a>,
        reason: io::Error,
    },
    /// A server's refusal: its line, with its LF.
    /// The store has no epoch of that number.
    NoEpoch {
        epoch: u64,
    },
    Unheeded {
        answer: String,
    },
}

/// A fault whose numbers stand for a failure on standard output.
#[derive(Clone, Copy)]
pub enum Fault {
    Command(CliFault),
    Text(LanguageFault),
    Store(StoreRefusal),
    /// 1007: a record of a store isn't that of the calls taken again.
    Record(ExportFault),
    /// A server makes no copy of its store.
    Copy(CopyRefusal),
    /// A server's store goes on in no new volume.
    Volume(VolumeRefusal),
    /// 1020, and the volume that doesn't go on from the one before it.
    Seam { volume: u64 },
    /// 1023, and the epoch that the store doesn't have.
    Epoch { epoch: u64 },
    /// A server refuses: the numbers are in its answer.
    Answered,
}

// The fault that stands for one of an export.
fn of_export(fault: ExportFault) -> Fault {
    match fault {
        ExportFault::Store(fault) => Fault::Store(StoreRefusal::Store(fault)),
        ExportFault::Unclean(fault) => Fault::Command(CliFault::Chain(fault)),
        ExportFault::Untaken => Fault::Command(CliFault::Unwritable),
        ExportFault::WrongRecord { .. } => Fault::Record(fault),
    }
}

impl Failure<'_> {
    /// The fault whose numbers stand for the failure on standard output.
    pub fn fault(&self) -> Fault {
        match self {
            Failure::Refused(fault) => Fault::Command(*fault),
            Failure::RefusedText(fault) => Fault::Text(*fault),
            Failure::Unstored(refusal) => Fault::Store(*refusal),
            Failure::Unexported(fault) => of_export(*fault),
            Failure::Uncopied(refusal) => Fault::Copy(*refusal),
            Failure::Unturned(refusal) => Fault::Volume(*refusal),
            Failure::Unreadable { .. } => Fault::Command(CliFault::Unreadable),
            Failure::Unwritable { .. } => Fault::Command(CliFault::Unwritable),
            Failure::Unjoined { volume } => Fault::Seam { volume: *volume },
            Failure::NoEpoch { epoch } => Fault::Epoch { epoch: *epoch },
            Failure::Unheeded { .. } => Fault::Answered,
            Failure::NotOpened { .. } | Failure::NoServer { .. } => {
                Fault::Command(CliFault::NoPort)
            }
        }
    }

    /// The program's exit status.
    pub fn status(&self) -> u8 {
        match self.fault() {
            Fault::Command(fault) => fault.status(),
            Fault::Text(fault) => fault.status(),
            Fault::Store(refusal) => refusal.status(),
            Fault::Record(_) | Fault::Seam { .. } | Fault::Epoch { .. } | Fault::Answered => 1,
            Fault::Copy(refusal) => refusal.status(),
            Fault::Volume(refusal) => refusal.status(),
        }
    }
}

impl From<StoreRefusal> for Failure<'_> {
    fn from(refusal: StoreRefusal) -> Self {
        Failure::Unstored(refusal)
    }
}

impl From<StoreFault> for Failure<'_> {
    fn from(fault: StoreFault) -> Self {
        Failure::Unstored(StoreRefusal::Store(fault))
    }
}

impl From<FileFault> for Failure<'_> {
    fn from(fault: FileFault) -> Self {
        Failure::Unstored(StoreRefusal::File(fault))
    }
}

impl From<CliFault> for Failure<'_> {
    fn from(fault: CliFault) -> Self {
        Failure::Refused(fault)
    }
}

impl From<AllocError> for Failure<'_> {
    fn from(_refused: AllocError) -> Self {
        Failure::Refused(CliFault::Memory)
    }
}

impl<T: Drop> From<AllocFailed<T>> for Failure<'_> {
    fn from(_refused: AllocFailed<T>) -> Self {
        Failure::Refused(CliFault::Memory)
    }
}

impl fmt::Display for Failure<'_> {
    fn fmt<W: fmt::Write>(&self, f: &mut fmt::Formatter<W>) -> fmt::Result {
        match self {
            Failure::Refused(fault) => write!(f, "{fault}"),
            Failure::RefusedText(fault) => write!(f, "{fault}"),
            Failure::Unstored(refusal) => write!(f, "{refusal}"),
            Failure::Unexported(fault) => write!(f, "{fault}"),
            Failure::Uncopied(refusal) => write!(f, "{refusal}"),
            Failure::Unturned(refusal) => write!(f, "{refusal}"),
            Failure::Unreadable { path, reason } => write!(f, "{path} can't be read: {reason}"),
            Failure::Unwritable { path, reason } => write!(f, "{path} can't be written: {reason}"),
            Failure::Unjoined { volume } => write!(
                f,
                "the volume {volume} isn't the one that the folder's list has, or doesn't go on where the one before it ends"
            ),
            Failure::NoEpoch { epoch } => write!(f, "the store has no epoch {epoch}"),
            Failure::Unheeded { .. } => {
                write!(
                    f,
                    "the server refuses that; treedb explain says what its number means"
                )
            }
            Failure::NotOpened { address } => match address {
                Address::Port(port) => write!(f, "the port {port} can't be opened"),
                Address::Socket(path) => write!(f, "the socket {path} can't be opened"),
            },
            Failure::NoServer { control, reason } => match control {
                Address::Port(port) => {
                    write!(f, "no server answers on the control port {port}: {reason}")
                }
                Address::Socket(path) => {
                    write!(
                        f,
                        "no server answers on the control socket {path}: {reason}"
                    )
                }
            },
        }
    }
}
