// Why a line isn't a request, and why a server stops.

ghost use Rattle.std.specs.Prelude.{◌≡◌};
ghost use Rattle.tl_server.specs.declared.fault.LineFault.TheVariants.{Memory};
ghost use Rattle.tl_server.specs.declared.fault.ListenFault.TheVariants as listening;

use arrayvec::ArrayVec;
use std::alloc::AllocError;
use thiserror::Error;

/// Why a line isn't read as a request.
#[derive(Clone, Copy, Debug, PartialEq, Eq, Error)]
pub enum LineFault {
    /// 901: it is none of the requests.
    #[error("not a request")]
    NotRequest,
    /// 902: it has more than 65,536 bytes.
    #[error("the line has more than 65,536 bytes")]
    TooLong,
    /// 903: it isn't UTF-8.
    #[error("not UTF-8")]
    NotUtf8,
    /// 990: memory was refused.
    #[error("out of memory")]
    Memory,
}

impl LineFault {
    ghost use Rattle.tl_server.specs.Faults.{numbers_of};

    /// The fault's number.
    pub fn numbers(&self) -> ArrayVec<u64, 3>
        ensures { result.items ≡ numbers_of self.now }
    {
        let mut numbers = ArrayVec::new();
        numbers.push(match self {
            LineFault::NotRequest => 901,
            LineFault::TooLong => 902,
            LineFault::NotUtf8 => 903,
            LineFault::Memory => 990,
        });
        numbers
    }
}

impl From<AllocError> for LineFault {
    ghost from_gives = { λ _ e. e ≡ Memory };

    fn from(_refused: AllocError) -> LineFault {
        LineFault::Memory
    }
}

/// Why a call with a key isn't run.
#[derive(Clone, Copy, Debug, PartialEq, Eq, Error)]
pub enum KeyFault {
    /// 1015: the server keeps no store, so it would forget the key at its end.
    #[error("the server keeps no store, and so no keys")]
    NoStore,
}

impl KeyFault {
    ghost use Rattle.tl_server.specs.Faults.{key_numbers_of};

    /// The fault's number.
    pub fn numbers(&self) -> ArrayVec<u64, 3>
        ensures { result.items ≡ key_numbers_of self.now }
    {
        let mut numbers = ArrayVec::new();
        numbers.push(match self {
            KeyFault::NoStore => 1015,
        });
        numbers
    }
}

/// Why a server stops.
#[derive(Clone, Copy, Debug, PartialEq, Eq, Error)]
pub enum ServeFault {
    /// 911: the source failed.
    #[error("the requests can't be read")]
    ReadFailed,
    /// 912: the sink failed.
    #[error("the answers can't be written")]
    WriteFailed,
    /// 990: memory was refused.
    #[error("out of memory")]
    Memory,
}

impl ServeFault {
    ghost use Rattle.tl_server.specs.Faults.{serve_numbers_of};

    /// The fault's number.
    pub fn numbers(&self) -> ArrayVec<u64, 3>
        ensures { result.items ≡ serve_numbers_of self.now }
    {
        let mut numbers = ArrayVec::new();
        numbers.push(match self {
            ServeFault::ReadFailed => 911,
            ServeFault::WriteFailed => 912,
            ServeFault::Memory => 990,
        });
        numbers
    }
}

/// Why a request by which a client rules isn't carried out.
#[derive(Clone, Copy, Debug, PartialEq, Eq, Error)]
pub enum RulingFault {
    /// 1101: the server is frozen. Only its control registers and replaces procedures, appends nodes and seals epochs.
    #[error("the server is frozen: only its control registers, replaces, appends and seals")]
    Frozen,
}

impl RulingFault {
    ghost use Rattle.tl_server.specs.Faults.{ruling_numbers_of};

    /// The fault's number.
    pub fn numbers(&self) -> ArrayVec<u64, 3>
        ensures { result.items ≡ ruling_numbers_of self.now }
    {
        let mut numbers = ArrayVec::new();
        numbers.push(match self {
            RulingFault::Frozen => 1101,
        });
        numbers
    }
}

/// Why no connection is served.
#[derive(Clone, Copy, Debug, PartialEq, Eq, Error)]
pub enum ListenFault {
    /// 33: the port can't be opened.
    #[error("the port can't be opened")]
    NoPort,
    /// 990: memory was refused.
    #[error("out of memory")]
    Memory,
}

impl ListenFault {
    ghost use Rattle.tl_server.specs.Faults.{listen_numbers_of};

    /// The fault's number.
    pub fn numbers(&self) -> ArrayVec<u64, 3>
        ensures { result.items ≡ listen_numbers_of self.now }
    {
        let mut numbers = ArrayVec::new();
        numbers.push(match self {
            ListenFault::NoPort => 33,
            ListenFault::Memory => 990,
        });
        numbers
    }
}

impl From<AllocError> for ListenFault {
    ghost from_gives = { λ _ e. e ≡ listening.Memory };

    fn from(_refused: AllocError) -> ListenFault {
        ListenFault::Memory
    }
}
