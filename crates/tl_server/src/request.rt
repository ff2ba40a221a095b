// What a line asks for.

ghost use Rattle.std.specs.Prelude.{◌≡◌, ◌≢◌, ◌≤◌, option_map, option_and_then, IfOk, IfErr, IfSome};
ghost use Rattle.tl_workers.specs.declared.batch.TheConstants.{MAX_REQUESTS, MAX_WORKERS};
ghost use Rattle.serde_json.specs.View.{view};
ghost use Rattle.tl_json.specs.Requests.{request_form};
ghost use Rattle.tl_tree.specs.Reading.{integer_of, integers_of};
ghost use Rattle.tl_server.specs.Requests.{line_view, is_barred, text_at, has_members, register_text_of, register_of, replace_of, request_at, key_of, call_once_of, call_of, workers_of, batch_of, grow_of, request_with, line_request_of, IsRequest, IsLineFault, IsRead, IsUnread};

use crate::batch::BatchRequest;
use crate::fault::LineFault;
use serde_json::Value;
use std::alloc::{AllocError, Global};
use std::str;
use tl_json::{ProcedureText, Request, each_of};
use tl_tokens::{Scratch, parse_with};
use tl_tree::integers_from_value;
use tl_workers::{MAX_REQUESTS, MAX_WORKERS};

/// How many bytes a line has at most, without its LF.
pub const MAX_LINE: usize = 65_536;

/// How many bytes a key has at most.
pub const MAX_KEY: usize = 64;

/// A call, and its client's key for it.
#[derive(Debug, Drop)]
pub struct KeyedCall {
    pub request: Request,
    pub key: String,
}

/// What a line asks for.
#[derive(Debug, Drop)]
pub enum LineRequest {
    /// To register a procedure under its name.
    Register(ProcedureText),
    /// To register all procedures of a text of the procedure language.
    RegisterText(String),
    /// To put all procedures of a text of the procedure language in the place of those with their names.
    Replace(String),
    /// To run a call.
    Call(Request),
    /// To run a call unless one had its key, and to say what came of the one that had it.
    CallOnce(KeyedCall),
    /// To run many calls.
    Batch(BatchRequest),
    /// To append nodes of these parents to the tree, of which there is at least one.
    Grow(Vec<i64>),
    /// To seal the current epoch.
    Seal,
    /// To close the connection.
    Close,
}

/// Whether a server that may be frozen refuses the request.
pub(crate) fn is_barred(frozen: bool, request: &LineRequest) -> bool
    ensures { result ≡ is_barred frozen (line_view request.now) }
{
    match request {
        LineRequest::Register(_)
        | LineRequest::RegisterText(_)
        | LineRequest::Replace(_)
        | LineRequest::Grow(_)
        | LineRequest::Seal => frozen,
        LineRequest::Call(_)
        | LineRequest::CallOnce(_)
        | LineRequest::Batch(_)
        | LineRequest::Close => false,
    }
}

/// Whether the value is an object with `count` members.
pub(crate) fn has_members(value: &Value, count: usize) -> bool
    ensures { result ≡ has_members count (view value.now) }
{
    match value.as_object() {
        Some(members) => members.len() == count,
        None => false,
    }
}

/// The text of a member.
pub(crate) fn text_at<'v>(value: &'v Value, key: &str) -> Option<&'v str>
    ensures { option_map (λ s. s.now) result ≡ text_at key.now (view value.now) }
{
    value.get(key)?.as_str()
}

// `{"op":"register","text":text}`
fn register_text_of_value(alloc: Global, value: &Value) -> Result<Option<LineRequest>, AllocError>
    ensures { IfOk result (λ found. option_map line_view found ≡ register_text_of (view value.now)) }
{
    if !has_members(value, 2) {
        return Ok(None);
    }
    let Some(text) = text_at(value, "text") else {
        return Ok(None);
    };
    Ok(Some(LineRequest::RegisterText(String::from_str(alloc, text)?)))
}

// `{"asm":text,"name":name,"op":"register"}`, or the other form of a registration
fn register_of_value(alloc: Global, value: &Value) -> Result<Option<LineRequest>, AllocError>
    ensures { IfOk result (λ found. option_map line_view found ≡ register_of (view value.now)) }
{
    if !has_members(value, 3) {
        return register_text_of_value(alloc, value);
    }
    let Some(name) = text_at(value, "name") else {
        return Ok(None);
    };
    let Some(text) = text_at(value, "asm") else {
        return Ok(None);
    };
    Ok(Some(LineRequest::Register(ProcedureText {
        name: String::from_str(alloc, name)?,
        text: String::from_str(alloc, text)?,
    })))
}

// `{"op":"replace","text":text}`
fn replace_of_value(alloc: Global, value: &Value) -> Result<Option<LineRequest>, AllocError>
    ensures { IfOk result (λ found. option_map line_view found ≡ replace_of (view value.now)) }
{
    if !has_members(value, 2) {
        return Ok(None);
    }
    let Some(text) = text_at(value, "text") else {
        return Ok(None);
    };
    Ok(Some(LineRequest::Replace(String::from_str(alloc, text)?)))
}

// The name and the arguments of a call.
fn request_at(alloc: Global, value: &Value) -> Result<Option<Request>, AllocError>
    ensures { IfOk result (λ found. option_map request_form found ≡ request_at (view value.now)) }
{
    let Some(name) = text_at(value, "proc") else {
        return Ok(None);
    };
    let Some(args) = value.get("args") else {
        return Ok(None);
    };
    let Some(args) = integers_from_value(alloc, args)? else {
        return Ok(None);
    };
    let name = String::from_str(alloc, name)?;
    Ok(Some(Request { name, args }))
}

// A key of 1 to 64 bytes.
fn key_at<'v>(value: &'v Value) -> Option<&'v str>
    ensures { option_map (λ s. s.now) result ≡ key_of (view value.now) }
{
    let key = text_at(value, "key")?;
    if key.is_empty() || key.len() > MAX_KEY {
        return None;
    }
    Some(key)
}

// `{"args":args,"key":key,"op":"call","proc":name}`
fn call_once_of_value(alloc: Global, value: &Value) -> Result<Option<LineRequest>, AllocError>
    ensures { IfOk result (λ found. option_map line_view found ≡ call_once_of (view value.now)) }
{
    if !has_members(value, 4) {
        return Ok(None);
    }
    let Some(key) = key_at(value) else {
        return Ok(None);
    };
    let Some(request) = request_at(alloc, value)? else {
        return Ok(None);
    };
    let key = String::from_str(alloc, key)?;
    Ok(Some(LineRequest::CallOnce(KeyedCall { request, key })))
}

// `{"args":args,"op":"call","proc":name}`, or the form with a key
fn call_of_value(alloc: Global, value: &Value) -> Result<Option<LineRequest>, AllocError>
    ensures { IfOk result (λ found. option_map line_view found ≡ call_of (view value.now)) }
{
    if !has_members(value, 3) {
        return call_once_of_value(alloc, value);
    }
    match request_at(alloc, value)? {
        Some(request) => Ok(Some(LineRequest::Call(request))),
        None => Ok(None),
    }
}

// A number of workers, 1 to 16.
fn workers_of_value(value: &Value) -> Option<usize>
    ensures value { result ≡ option_and_then workers_of (integer_of (view value.now)) }
    ensures one { IfSome result (λ n. 1 ≤ n) }
    ensures within { IfSome result (λ n. n ≤ MAX_WORKERS) }
{
    let workers = usize::try_from(value.as_i64()?).ok()?;
    if workers == 0 || workers > MAX_WORKERS {
        return None;
    }
    Some(workers)
}

// `{"calls":[request,..],"op":"batch","workers":w}`
fn batch_of_value(alloc: Global, value: &Value) -> Result<Option<LineRequest>, AllocError>
    ensures { IfOk result (λ found. option_map line_view found ≡ batch_of (view value.now)) }
{
    if !has_members(value, 3) {
        return Ok(None);
    }
    let Some(calls) = value.get("calls") else {
        return Ok(None);
    };
    let Some(workers) = value.get("workers") else {
        return Ok(None);
    };
    let Some(requests) = each_of::<Request>(alloc, calls)? else {
        return Ok(None);
    };
    if requests.is_empty() || requests.len() > MAX_REQUESTS {
        return Ok(None);
    }
    match workers_of_value(workers) {
        Some(workers) => Ok(Some(LineRequest::Batch(BatchRequest { requests, workers }))),
        None => Ok(None),
    }
}

// `{"op":"grow","parents":[parent,..]}`
fn grow_of_value(alloc: Global, value: &Value) -> Result<Option<LineRequest>, AllocError>
    ensures { IfOk result (λ found. option_map line_view found ≡ grow_of (view value.now)) }
{
    if !has_members(value, 2) {
        return Ok(None);
    }
    let Some(parents) = value.get("parents") else {
        return Ok(None);
    };
    let Some(parents) = integers_from_value(alloc, parents)? else {
        return Ok(None);
    };
    if parents.is_empty() {
        return Ok(None);
    }
    Ok(Some(LineRequest::Grow(parents)))
}

// The request of an object with this `op`.
fn request_with_op(
    alloc: Global,
    op: &str,
    value: &Value,
) -> Result<Option<LineRequest>, AllocError>
    ensures { IfOk result (λ found. option_map line_view found ≡ request_with op.now (view value.now)) }
{
    match op {
        "register" => register_of_value(alloc, value),
        "replace" => replace_of_value(alloc, value),
        "call" => call_of_value(alloc, value),
        "batch" => batch_of_value(alloc, value),
        "grow" => grow_of_value(alloc, value),
        "seal" => if has_members(value, 1) {
            Ok(Some(LineRequest::Seal))
        } else {
            Ok(None)
        },
        "close" => if has_members(value, 1) {
            Ok(Some(LineRequest::Close))
        } else {
            Ok(None)
        },
        _ => Ok(None),
    }
}

fn request_of_value(alloc: Global, value: &Value) -> Result<Option<LineRequest>, AllocError>
    ensures { IfOk result (λ found. option_map line_view found ≡ line_request_of (view value.now)) }
{
    match text_at(value, "op") {
        Some(op) => request_with_op(alloc, op, value),
        None => Ok(None),
    }
}

/// What a line, without its LF, asks for. It is a JSON object with the members shown and no others:
/// `{"asm":text,"name":name,"op":"register"}`, `{"op":"register","text":text}`, `{"op":"replace","text":text}`, `{"args":args,"op":"call","proc":name}`,
/// `{"args":args,"key":key,"op":"call","proc":name}` with a key of 1 to 64 bytes, `{"calls":[[name,args],..],"op":"batch","workers":w}` with 1 to 256 calls and 1 to 16 workers,
/// `{"op":"grow","parents":parents}` with one parent at least, `{"op":"seal"}`, or `{"op":"close"}`. The arguments and the parents are
/// lists of signed 64-bit integers.
///
/// Errors, the first that holds: 902 if the line has more than 65,536 bytes, 903 if it isn't UTF-8, 901 if it is none of
/// these requests. 990 if memory is refused.
pub fn read_request(alloc: Global, line: &[u8]) -> Result<LineRequest, LineFault>
    ensures ok { IfOk result (λ r. IsRequest line.now (line_view r)) }
    ensures fault { IfErr result (λ e. e ≢ LineFault.Memory → IsLineFault line.now e) }
{
    let mut scratch = Scratch::new(alloc);
    read_request_with(alloc, line, &mut scratch)
}

/// The same for a caller that reads many lines and keeps the memory that reading needs.
pub(crate) fn read_request_with(
    alloc: Global,
    line: &[u8],
    scratch: &mut Scratch,
) -> Result<LineRequest, LineFault>
    ensures ok { IfOk result (λ r. IsRequest line.now (line_view r)) }
    ensures fault { IfErr result (λ e. e ≢ LineFault.Memory → IsLineFault line.now e) }
{
    let value = value_of_line(alloc, line, scratch)?;
    match request_of_value(alloc, &value)? {
        Some(request) => Ok(request),
        None => Err(LineFault::NotRequest),
    }
}

/// The JSON value of a line, without its LF, for a caller that reads many lines and keeps the memory that reading needs.
pub(crate) fn value_of_line(
    alloc: Global,
    line: &[u8],
    scratch: &mut Scratch,
) -> Result<Value, LineFault>
    ensures ok { IfOk result (λ v. IsRead Some line.now (view v)) }
    ensures fault { IfErr result (λ e. e ≢ LineFault.Memory → IsUnread Some line.now e) }
{
    if line.len() > MAX_LINE {
        return Err(LineFault::TooLong);
    }
    let Ok(text) = str::from_utf8(line) else {
        return Err(LineFault::NotUtf8);
    };
    match parse_with(alloc, text, scratch)? {
        Some(value) => Ok(value),
        None => Err(LineFault::NotRequest),
    }
}
