// Who knows the files of what is stored.

use crate::copying::CopyRefusal;
use crate::follow::{Follow, FollowRefusal};
use crate::journal::{Journal, NoJournal};
use crate::volume::VolumeRefusal;
use std::alloc::Global;
use std::sync::Wait;
use std::time::Clock;
use tl_generations::Legacy;

/// A journal that knows its files: it begins volumes, copies what is stored, and gives it to followers.
pub trait Storage: Journal {
    /// The number of the live volume of what it stores: how many epochs the volumes before it have. `None` if what it stores has no volumes.
    fn volume(&self, rt: &impl Wait) -> Option<u64>;

    /// Whether the live volume has as many calls as a volume takes.
    fn is_full(&self, rt: &impl Wait) -> bool;

    /// Goes on in a new volume, which begins with what the engine that was closed last left, unless the live one has no call yet. The number of the live
    /// volume. No line is at work meanwhile. After a refusal it goes on in the live volume, if the store doesn't fail.
    fn carry_over(
        &self,
        rt: &impl Wait,
        alloc: Global,
        left: &Legacy,
    ) -> Result<u64, VolumeRefusal>;

    /// Whether there may be a copy of that name: it is no name of a copy, or it is taken, or no copies are made.
    fn may_copy(&self, name: &str) -> Result<(), CopyRefusal>;

    /// Copies all that is stored into a file of that name, which isn't there yet: the volume of that number, which is closed, or if none is named the live
    /// one, or the store's file.
    fn copy(
        &self,
        rt: &impl Wait,
        alloc: Global,
        name: &str,
        closed: Option<u64>,
    ) -> Result<(), CopyRefusal>;

    /// What is stored behind a position, as a line without its LF: up to the next seal, or to the end of what is stored. Where nothing is behind it
    /// yet, that is waited for.
    fn answer_follower<R: Wait + Clock>(
        &self,
        rt: &R,
        alloc: Global,
        follow: &Follow,
    ) -> Result<String, FollowRefusal>;
}

/// Nothing is stored.
impl Storage for NoJournal {
    fn volume(&self, _rt: &impl Wait) -> Option<u64> {
        None
    }

    fn is_full(&self, _rt: &impl Wait) -> bool {
        false
    }

    fn carry_over(
        &self,
        _rt: &impl Wait,
        _alloc: Global,
        _left: &Legacy,
    ) -> Result<u64, VolumeRefusal> {
        Err(VolumeRefusal::NoVolumes)
    }

    fn may_copy(&self, _name: &str) -> Result<(), CopyRefusal> {
        Err(CopyRefusal::NoCopies)
    }

    fn copy(
        &self,
        _rt: &impl Wait,
        _alloc: Global,
        _name: &str,
        _closed: Option<u64>,
    ) -> Result<(), CopyRefusal> {
        Err(CopyRefusal::NoCopies)
    }

    fn answer_follower<R: Wait + Clock>(
        &self,
        _rt: &R,
        _alloc: Global,
        _follow: &Follow,
    ) -> Result<String, FollowRefusal> {
        Err(FollowRefusal::NoStore)
    }
}
