// A request for a call.

/// A call that is asked for: a procedure's name, and arguments.
#[derive(Debug, Drop)]
pub struct Request {
    pub name: String,
    pub args: Vec<i64>,
}
