// Requests.

ghost use Rattle.std.specs.Prelude.{◌≡◌};

use crate::json::{FromValue, two_of};
use serde_json::Value;
use std::alloc::{AllocError, Global};
use tl_procedures::Request;
use tl_tree::integers_from_value;

/// `[name,args]`
impl FromValue for Request {
    type Item = Request;

    ghost use Rattle.std.specs.Prelude.{ℕ, ℤ, List};
    ghost use Rattle.tl_json.specs.Requests.{request_form, request_of};

    ghost Form = { List ℕ × List ℤ };

    ghost form = { request_form };

    ghost form_of = { request_of };

    fn from_value(alloc: Global, value: &Value) -> Result<Option<Request>, AllocError> {
        let Some(items) = value.as_array() else {
            return Ok(None);
        };
        let Some((name, args)) = two_of(items) else {
            return Ok(None);
        };
        let Some(name) = name.as_str() else {
            return Ok(None);
        };
        let Some(args) = integers_from_value(alloc, args)? else {
            return Ok(None);
        };
        let name = String::from_str(alloc, name)?;
        Ok(Some(Request { name, args }))
    }
}
