//! One home for everything that is read and written as text: JSON values of procedures, requests, replies and events, the
//! letters that stand for them, and how a procedure's text is registered under a number.
//!
//! Trails, scripts and a server use it, so each form is read and written in one way everywhere. Nothing here runs a call.
#![tactic(auto)]

mod event;
mod fault;
mod json;
mod letter;
mod order;
mod procedure;
mod registering;
mod reply;
mod request;
mod text;

pub use event::{
    NarrowEvent, RawEvent, WideEvent, call_to_value, events_from_value, node_to_value,
};
pub use fault::{ProcedureFault, RegisterFault};
pub use json::{FromValue, each_of, four_of, parse, parse_text, three_of, two_of};
pub use letter::Letter;
pub use order::{calls_to_value, order_to_value, orders_to_value};
pub use procedure::{ProcedureText, procedures_to_value};
pub use registering::{procedure_of_text, register, register_all};
pub use reply::{reply_from_value, reply_to_value};
pub use text::{PushText, push_list};
pub use tl_procedures::Request;
