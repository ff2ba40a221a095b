// What a server says of itself.

ghost use Rattle.std.specs.Prelude.{◌≡◌};
ghost use Rattle.std.specs.Thread.{IsSync};
ghost use Rattle.tl_server.specs.Requests.{line_view};
ghost use Rattle.tl_server.specs.Outcomes.{IsAsked};
ghost use Rattle.tl_server.specs.Answers.{line_text};
ghost use Rattle.tl_server.specs.Reports.{receipts_of, refusals_of, status_text};
ghost use Rattle.tl_server.specs.Sending.{Puts};

use crate::answer::put_number;
use crate::control::{NO_REQUEST, say};
use crate::copying::CopyRefusal;
use crate::device::Sink;
use crate::follow::{Follow, FollowRefusal};
use crate::outbox::Outbox;
use crate::outcome::RequestOutcome;
use crate::request::LineRequest;
use crate::stream::Stream;
use crate::volume::VolumeRefusal;
use std::alloc::Global;
use std::sync::Wait;
use std::sync::atomic::{AtomicBool, AtomicU64, Ordering};
use std::thread::Threads;
use std::time::Clock;
use tl_workers::Engine;

/// How far a server that lasts is.
#[derive(Clone, Copy, Debug, PartialEq, Eq)]
pub struct Status {
    /// The number of the epoch that calls belong to now, as clients see it.
    pub epoch: u64,
    /// The number of the generation, from 0.
    pub generation: u64,
    /// How many calls were answered with a receipt since the start.
    pub calls: u64,
    /// How many connections are open now.
    pub connections: u64,
    /// How many nodes the tree has.
    pub nodes: u64,
    /// How many procedures there are, however they came.
    pub procedures: u64,
    /// How many requests and calls were refused since the start.
    pub refusals: u64,
    /// How many connections may be open at once.
    pub places: u64,
    /// How many connections a browser opened since the start. Nothing of what they sent was done.
    pub browsers: u64,
    /// The number of the live volume of its store: how many epochs the volumes before it have. 0 where the store is one file, or there is none.
    pub volume: u64,
}

/// Who says how far a server is, copies what it stores, and does what an operator asks for.
pub trait Reporter {
    /// How far it is, with so many connections open of as many as may be. `None` if it doesn't say.
    fn status(&self, rt: &impl Wait, connections: u64, places: u64) -> Option<Status>;

    /// Does what an operator asks for, also where it is frozen, and answers the peer once that is stored. False if it isn't and won't be.
    fn obey<R: Threads + Wait + Sync>(
        &self,
        rt: &R,
        alloc: Global,
        request: &LineRequest,
        peer: &Stream,
    ) -> bool
        requires asked { IsAsked (line_view request.now) }
        requires shared { IsSync R.row };

    /// Copies what is stored. Of a store in volumes it goes on in a new one first, and copies the one before.
    fn copy(&self, rt: &impl Wait, alloc: Global, name: &str) -> Result<(), CopyRefusal>;

    /// Goes on in a new volume of what is stored. The number of the live volume.
    fn turn(&self, rt: &impl Wait, alloc: Global) -> Result<u64, VolumeRefusal>;

    /// What is stored behind a position, as `Journal::answer_follower` says.
    fn answer_follower<R: Wait + Clock>(
        &self,
        rt: &R,
        alloc: Global,
        follow: &Follow,
    ) -> Result<String, FollowRefusal>;

    /// Lets no answer wait for a follower any more, since the server ends.
    fn end_waits(&self, rt: &impl Wait);
}

/// An engine alone doesn't say, stores nothing, and has no operator.
impl Reporter for Engine {
    fn status(&self, _rt: &impl Wait, _connections: u64, _places: u64) -> Option<Status> {
        None
    }

    fn obey<R: Threads + Wait + Sync>(
        &self,
        _rt: &R,
        _alloc: Global,
        _request: &LineRequest,
        peer: &Stream,
    ) -> bool {
        say(peer, NO_REQUEST);
        true
    }

    fn copy(&self, _rt: &impl Wait, _alloc: Global, _name: &str) -> Result<(), CopyRefusal> {
        Err(CopyRefusal::NoCopies)
    }

    fn turn(&self, _rt: &impl Wait, _alloc: Global) -> Result<u64, VolumeRefusal> {
        Err(VolumeRefusal::NoVolumes)
    }

    fn answer_follower<R: Wait + Clock>(
        &self,
        _rt: &R,
        _alloc: Global,
        _follow: &Follow,
    ) -> Result<String, FollowRefusal> {
        Err(FollowRefusal::NoStore)
    }

    fn end_waits(&self, _rt: &impl Wait) {}
}

// How many receipts are in an answer.
fn receipts(outcome: &RequestOutcome) -> u64
    ensures { result ≡ receipts_of outcome.now }
{
    match outcome {
        RequestOutcome::Called(answer) => u64::from(answer.is_ok()),
        RequestOutcome::Batched(Ok(answers)) => {
            answers.iter().filter(|answer| answer.is_ok()).count() as u64
        }
        RequestOutcome::Batched(Err(_))
        | RequestOutcome::Recalled(_)
        | RequestOutcome::KeyRefused(_)
        | RequestOutcome::Registered(_)
        | RequestOutcome::RegisteredAll(_)
        | RequestOutcome::Replaced(_)
        | RequestOutcome::Sealed(_)
        | RequestOutcome::Grown(_)
        | RequestOutcome::Unknown => 0,
    }
}

// How many answers are errors.
fn refusals(outcome: &RequestOutcome) -> u64
    ensures { result ≡ refusals_of outcome.now }
{
    match outcome {
        RequestOutcome::Registered(answer) => u64::from(answer.is_err()),
        RequestOutcome::RegisteredAll(answer) => u64::from(answer.is_err()),
        RequestOutcome::Replaced(answer) => u64::from(answer.is_err()),
        RequestOutcome::Called(answer) => u64::from(answer.is_err()),
        RequestOutcome::Sealed(answer) => u64::from(answer.is_err()),
        RequestOutcome::Grown(answer) => u64::from(answer.is_err()),
        RequestOutcome::Batched(Ok(answers)) => {
            answers.iter().filter(|answer| answer.is_err()).count() as u64
        }
        RequestOutcome::Batched(Err(_)) | RequestOutcome::KeyRefused(_) | RequestOutcome::Unknown =>
            1,
        RequestOutcome::Recalled(_) => 0,
    }
}

/// What was answered since the start. No run counts to the end of the numbers.
#[derive(Drop)]
pub(crate) struct Tally {
    calls: AtomicU64,
    refusals: AtomicU64,
    browsers: AtomicU64,
    // Whether it was told that a browser was there.
    told: AtomicBool,
}

impl Tally {
    /// Nothing was answered yet.
    pub(crate) fn new() -> Tally {
        Tally {
            calls: AtomicU64::new(0),
            refusals: AtomicU64::new(0),
            browsers: AtomicU64::new(0),
            told: AtomicBool::new(false),
        }
    }

    /// Counts what came of a request.
    pub(crate) fn count(&self, outcome: &RequestOutcome) {
        self.calls.fetch_add(receipts(outcome), Ordering::SeqCst);
        self.refusals.fetch_add(refusals(outcome), Ordering::SeqCst);
    }

    /// How many calls were answered with a receipt.
    pub(crate) fn calls(&self) -> u64 {
        self.calls.load(Ordering::SeqCst)
    }

    /// How many requests and calls were refused.
    pub(crate) fn refusals(&self) -> u64 {
        self.refusals.load(Ordering::SeqCst)
    }

    /// Counts a connection that a browser opened.
    pub(crate) fn meet_browser(&self) {
        self.browsers.fetch_add(1, Ordering::SeqCst);
    }

    /// How many connections a browser opened.
    pub(crate) fn browsers(&self) -> u64 {
        self.browsers.load(Ordering::SeqCst)
    }

    /// Whether a browser was there and nobody was told. It answers so once.
    pub(crate) fn tells_of_browser(&self) -> bool {
        self.browsers() > 0 && !self.told.swap(true, Ordering::SeqCst)
    }
}

/// The line that says how far a server is.
pub(crate) fn put_status_line<K: Sink>(outbox: &mut Outbox, sink: &mut K, status: &Status)
    ensures { Puts K.output K.failures sink.old outbox.old sink.new outbox.new (line_text (status_text status.now)) }
{
    outbox.put(sink, b"{\"epoch\":");
    put_number(outbox, sink, status.epoch);
    outbox.put(sink, b",\"generation\":");
    put_number(outbox, sink, status.generation);
    outbox.put(sink, b",\"calls\":");
    put_number(outbox, sink, status.calls);
    outbox.put(sink, b",\"connections\":");
    put_number(outbox, sink, status.connections);
    outbox.put(sink, b",\"nodes\":");
    put_number(outbox, sink, status.nodes);
    outbox.put(sink, b",\"procedures\":");
    put_number(outbox, sink, status.procedures);
    outbox.put(sink, b",\"refusals\":");
    put_number(outbox, sink, status.refusals);
    outbox.put(sink, b",\"places\":");
    put_number(outbox, sink, status.places);
    outbox.put(sink, b",\"browsers\":");
    put_number(outbox, sink, status.browsers);
    outbox.put(sink, b",\"volume\":");
    put_number(outbox, sink, status.volume);
    outbox.put(sink, b"}");
    outbox.put(sink, b"\n");
}
