// Why a server writes no copy of what it stores.

use crate::volume::VolumeRefusal;
use arrayvec::ArrayVec;
use thiserror::Error;

/// Why a server writes no copy of what it stores.
#[derive(Clone, Copy, Debug, PartialEq, Eq, Error)]
pub enum CopyRefusal {
    /// 901: it stores nothing, or was given no folder for copies.
    #[error("the server makes no copies")]
    NoCopies,
    /// 1010: a copy can't have that name, or there is a file of that name.
    #[error("a copy's name is 1 to 64 ASCII letters, digits, _ or -, and then .db, and no file has it yet")]
    BadName,
    /// 32: the copy's file can't be written.
    #[error("the copy's file can't be written")]
    Unwritten,
    /// 1014: the copy has other counts than the store.
    #[error("the copy has other counts than the store")]
    OtherCounts,
    /// 1011: the store itself fails. The server ends, and says why.
    #[error("the store fails, and the server ends")]
    Broken,
    /// 1090: memory was refused.
    #[error("out of memory")]
    Memory,
}

/// All of them.
const REFUSALS: [CopyRefusal; 6] = [
    CopyRefusal::NoCopies,
    CopyRefusal::BadName,
    CopyRefusal::Unwritten,
    CopyRefusal::OtherCounts,
    CopyRefusal::Broken,
    CopyRefusal::Memory,
];

impl CopyRefusal {
    ghost use Rattle.std.specs.Prelude.{◌≡◌, ◌≢◌, [], ◌∷◌, None, IfSome};
    ghost use Rattle.tl_server.specs.Faults.{copy_number, copy_status, uncopied};

    /// Why there is no copy where a store goes on in no new volume.
    pub(crate) fn of_volume(refusal: VolumeRefusal) -> CopyRefusal
        ensures { result ≡ uncopied refusal }
    {
        match refusal {
            VolumeRefusal::NoVolumes => CopyRefusal::NoCopies,
            VolumeRefusal::Unwritten => CopyRefusal::Unwritten,
            VolumeRefusal::OtherLeft => CopyRefusal::OtherCounts,
            VolumeRefusal::Broken => CopyRefusal::Broken,
            VolumeRefusal::Memory => CopyRefusal::Memory,
        }
    }

    /// Its number.
    pub fn number(&self) -> u64
        ensures { result ≡ copy_number self.now }
    {
        match self {
            CopyRefusal::NoCopies => 901,
            CopyRefusal::BadName => 1010,
            CopyRefusal::Unwritten => 32,
            CopyRefusal::OtherCounts => 1014,
            CopyRefusal::Broken => 1011,
            CopyRefusal::Memory => 1090,
        }
    }

    /// The number, as the first of at most three.
    pub fn numbers(&self) -> ArrayVec<u64, 3>
        ensures { result.items ≡ copy_number self.now ∷ [] }
    {
        let mut numbers = ArrayVec::new();
        numbers.push(self.number());
        numbers
    }

    /// The exit status: 3 if a file or a disk failed, 4 if memory was refused, else 1.
    pub fn status(&self) -> u8
        ensures { result ≡ copy_status self.now }
    {
        match self {
            CopyRefusal::Unwritten | CopyRefusal::Broken => 3,
            CopyRefusal::Memory => 4,
            CopyRefusal::NoCopies | CopyRefusal::BadName | CopyRefusal::OtherCounts => 1,
        }
    }

    /// The one with that number, if there is one.
    pub(crate) fn of_number(number: u64) -> Option<CopyRefusal>
        ensures one { IfSome result (λ refusal. copy_number refusal ≡ number) }
        ensures none { result ≡ None → (refusal : CopyRefusal) → copy_number refusal ≢ number }
    {
        REFUSALS
            .iter()
            .copied()
            .find(|refusal| refusal.number() == number)
    }
}
