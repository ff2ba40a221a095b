// Why a store's file isn't opened.

ghost use Rattle.std.specs.Prelude.{◌≡◌};
ghost use Rattle.tl_store_file.specs.Faults.{numbers_of, hindrance_number, fault_of_name};

use arrayvec::ArrayVec;
use sqlite_trees::error::StoreError;
use thiserror::Error;

/// What keeps a store's file from being opened.
#[derive(Clone, Copy, Debug, PartialEq, Eq, Error)]
pub enum Hindrance {
    /// 1: the rights on the file, or on its folder.
    #[error("permission is denied")]
    Permission,
    /// 2: there is no such folder.
    #[error("there is no such folder")]
    NoFolder,
    /// 3: it is a folder, a link, a device or a pipe, or it has a second name.
    #[error("it is no regular file, or it has a second name")]
    NotRegular,
    /// 4: SQLite left a rollback journal beside it, or something else has the journal's name.
    #[error("a rollback journal is beside it: open it with sqlite3 first")]
    Journal,
    /// 5: the file system has no locks.
    #[error("its file system has no locks")]
    NoLocks,
    /// 6: what the system says else.
    #[error("the system refuses it")]
    Other,
}

/// Why a store's file isn't opened or made.
#[derive(Clone, Copy, Debug, PartialEq, Eq, Error)]
pub enum FileFault {
    /// 1001, and what keeps it from being opened: 1 to 6.
    #[error("the store's file can't be opened: {0}")]
    Unopened(Hindrance),
    /// 1002: another program has the store open.
    #[error("another program has the store open")]
    Busy,
    /// 1003 and 9: it is no store of treedb, since it has other tables.
    #[error("the file is no store of treedb")]
    NotStore,
    /// 1018, and the form of the file: a newer program made it.
    #[error("a newer version of treedb made the store: its form is {0}")]
    Newer(u32),
    /// 1011: the disk failed.
    #[error("the store's disk failed")]
    DiskFailed,
    /// 1012: the disk is full.
    #[error("the store's disk is full")]
    DiskFull,
    /// 1013: the file is damaged: a page isn't what was written.
    #[error("the store's file is damaged")]
    Damaged,
    /// 1090: memory was refused.
    #[error("out of memory")]
    Memory,
}

impl Hindrance {
    fn number(self) -> u64
        ensures { result ≡ hindrance_number self }
    {
        match self {
            Hindrance::Permission => 1,
            Hindrance::NoFolder => 2,
            Hindrance::NotRegular => 3,
            Hindrance::Journal => 4,
            Hindrance::NoLocks => 5,
            Hindrance::Other => 6,
        }
    }
}

impl FileFault {
    /// The fault's number; behind 1001 that of what keeps the file from being opened, 9 behind 1003, for the list of tables, and behind 1018 the form.
    pub fn numbers(&self) -> ArrayVec<u64, 2>
        ensures { result.items ≡ numbers_of self.now }
    {
        let (number, more) = match self {
            FileFault::Unopened(hindrance) => (1001, Some(hindrance.number())),
            FileFault::Busy => (1002, None),
            FileFault::NotStore => (1003, Some(9)),
            FileFault::Newer(form) => (1018, Some(u64::from(*form))),
            FileFault::DiskFailed => (1011, None),
            FileFault::DiskFull => (1012, None),
            FileFault::Damaged => (1013, None),
            FileFault::Memory => (1090, None),
        };
        let mut numbers = ArrayVec::new();
        numbers.push(number);
        if let Some(more) = more {
            numbers.push(more);
        }
        numbers
    }

    /// The fault that a failure of the disk is.
    pub fn of_disk(name: StoreError) -> FileFault
        ensures { result ≡ fault_of_name name }
    {
        match name {
            StoreError::OutOfMemory => FileFault::Memory,
            StoreError::Full => FileFault::DiskFull,
            StoreError::Corrupt => FileFault::Damaged,
            StoreError::Io | StoreError::Broken | StoreError::Unstorable => FileFault::DiskFailed,
        }
    }
}
