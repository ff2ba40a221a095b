//! A server that takes one request per line.
//!
//! A line is a JSON object: it registers a procedure, or all of a text, runs a call or a batch of calls, appends nodes to the tree, seals the current epoch,
//! or closes the connection. Each is answered by one line, in order.
#![tactic(auto)]

mod answer;
mod answering;
mod asking;
mod batch;
mod browser;
mod control;
mod copying;
mod device;
mod entrance;
mod fault;
mod feed;
mod follow;
mod hall;
mod journal;
mod keeper;
mod lasting;
mod listening;
mod once;
mod outbox;
mod outcome;
mod reader;
mod relay;
mod request;
mod seats;
mod service;
mod serving;
mod socket;
mod socket_file;
mod stage;
mod status;
mod storage;
mod stored_sink;
mod stream;
mod texts;
mod volume;
mod wish;

pub use asking::{ask_for_copy, ask_for_volume, ask_status, ask_to_obey, ask_to_stop};
pub use batch::BatchRequest;
pub use control::Control;
pub use copying::CopyRefusal;
pub use device::{Bytes, Failure, Sink, Source};
pub use fault::{KeyFault, LineFault, ListenFault, RulingFault, ServeFault};
pub use feed::Feed;
pub use follow::{Follow, FollowRefusal, Position, TABLES};
pub use hall::{LASTING_PLACES, MAX_CONNECTIONS, MAX_PLACES};
pub use journal::{Claim, Journal, NoJournal, Unstored};
pub use keeper::Keeper;
pub use lasting::LastingServer;
pub use listening::{Server, listen};
pub use outcome::{Done, RequestOutcome};
pub use relay::Relay;
pub use request::{KeyedCall, LineRequest, MAX_KEY, MAX_LINE, read_request};
pub use service::Service;
pub use serving::serve;
pub use socket::{SocketSink, SocketSource};
pub use stage::Place;
pub use status::Status;
pub use storage::Storage;
pub use stored_sink::StoredSink;
pub use stream::{Address, Stream};
pub use texts::{NamedBounds, TextFault, Texts};
pub use volume::VolumeRefusal;
