// What the command line asks of a server at its control.

use crate::command_line::{Request, Ruling};
use clap::ArgMatches;
use tl_server::Address;

/// Whether the command of that name asks something of a server.
pub(crate) fn asks_control(name: &str) -> bool {
    matches!(
        name,
        "stop" | "status" | "volume" | "snapshot" | "register" | "replace"
    )
}

/// What the command of that name asks of the server with this control. `None` if it asks nothing of one.
pub(crate) fn control_request<'a>(
    name: &str,
    control: Address<'a>,
    words: &ArgMatches<'a>,
) -> Option<Request<'a>> {
    let ruling = match name {
        "stop" => return Some(Request::Stop { control }),
        "status" => {
            let waits = words.get_flag("wait");
            return Some(Request::Status { control, waits });
        }
        "volume" => return Some(Request::Turn { control }),
        "snapshot" => {
            let name = words.get_str("NAME")?;
            return Some(Request::Copy { control, name });
        }
        "register" => Ruling::Register,
        "replace" => Ruling::Replace,
        _ => return None,
    };
    let text = words.get_str("TEXT")?;
    Some(Request::Rule {
        control,
        ruling,
        text,
    })
}
