//! What a store holds, as a core: the rows that are written, and the core that they make again.
#![tactic(auto)]

mod calls;
mod closing;
mod fault;
mod left;
mod procedures;
mod recovering;
mod replies;
mod stored;
mod tree;
mod turns;

pub use calls::requests_of;
pub use closing::closing_news;
pub use fault::StoreFault;
pub use left::check_left;
pub use procedures::procedures_of;
pub use recovering::{Recovered, rebuild, recover};
pub use stored::{Sealed, Stored, read_stored};
pub use tree::tree_of;
pub use turns::turns_of;
