//! What a table's calls did since it was read last: the new procedures, the calls, the turns and the replies, and the records at the end
//! of each epoch.
#![tactic(auto)]

mod mark;
mod news;
mod reading;

pub use mark::{Mark, Place};
pub use news::{Answer, EpochNews, NewCall, NewProcedure, TableNews};
pub use reading::news_since;
