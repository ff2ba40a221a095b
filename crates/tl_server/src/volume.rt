// Why a server goes on in no new volume of its store.

use arrayvec::ArrayVec;
use thiserror::Error;

/// Why a server goes on in no new volume of its store.
#[derive(Clone, Copy, Debug, PartialEq, Eq, Error)]
pub enum VolumeRefusal {
    /// 901: it stores nothing, or its store is one file.
    #[error("the server's store has no volumes")]
    NoVolumes,
    /// 32: the next volume's file can't be made or written. The server goes on in the volume that it has.
    #[error("the next volume can't be written")]
    Unwritten,
    /// 1014: the live volume isn't what was run.
    #[error("the live volume isn't what was run")]
    OtherLeft,
    /// 1011: the store itself fails. The server ends, and says why.
    #[error("the store fails, and the server ends")]
    Broken,
    /// 1090: memory was refused.
    #[error("out of memory")]
    Memory,
}

/// All of them.
const REFUSALS: [VolumeRefusal; 5] = [
    VolumeRefusal::NoVolumes,
    VolumeRefusal::Unwritten,
    VolumeRefusal::OtherLeft,
    VolumeRefusal::Broken,
    VolumeRefusal::Memory,
];

impl VolumeRefusal {
    ghost use Rattle.std.specs.Prelude.{◌≡◌, ◌≢◌, [], ◌∷◌, None, IfSome};
    ghost use Rattle.tl_server.specs.Faults.{volume_number, volume_status};

    /// Its number.
    pub fn number(&self) -> u64
        ensures { result ≡ volume_number self.now }
    {
        match self {
            VolumeRefusal::NoVolumes => 901,
            VolumeRefusal::Unwritten => 32,
            VolumeRefusal::OtherLeft => 1014,
            VolumeRefusal::Broken => 1011,
            VolumeRefusal::Memory => 1090,
        }
    }

    /// The number, as the first of at most three.
    pub fn numbers(&self) -> ArrayVec<u64, 3>
        ensures { result.items ≡ volume_number self.now ∷ [] }
    {
        let mut numbers = ArrayVec::new();
        numbers.push(self.number());
        numbers
    }

    /// The exit status: 3 if a file or a disk failed, 4 if memory was refused, else 1.
    pub fn status(&self) -> u8
        ensures { result ≡ volume_status self.now }
    {
        match self {
            VolumeRefusal::Unwritten | VolumeRefusal::Broken => 3,
            VolumeRefusal::Memory => 4,
            VolumeRefusal::NoVolumes | VolumeRefusal::OtherLeft => 1,
        }
    }

    /// The one with that number, if there is one.
    pub(crate) fn of_number(number: u64) -> Option<VolumeRefusal>
        ensures one { IfSome result (λ refusal. volume_number refusal ≡ number) }
        ensures none { result ≡ None → (refusal : VolumeRefusal) → volume_number refusal ≢ number }
    {
        REFUSALS
            .iter()
            .copied()
            .find(|refusal| refusal.number() == number)
    }
}
