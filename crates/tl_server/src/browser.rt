// The lines that a browser sends, and no client.
//
// A page that a browser shows may send HTTP requests to a port of its machine, and write into their bodies what it likes. So the first line
// that only a browser sends ends its connection.

ghost use Rattle.std.specs.Prelude.{◌≡◌};
ghost use Rattle.tl_server.specs.Browsers.{begins_http, names_host, is_of_browser};

// Whether the line begins as the first one of an HTTP request.
fn begins_http(line: &[u8]) -> bool
    ensures { result ≡ begins_http line.now }
{
    line.starts_with(b"GET ")
        || line.starts_with(b"POST ")
        || line.starts_with(b"PUT ")
        || line.starts_with(b"HEAD ")
        || line.starts_with(b"OPTIONS ")
        || line.starts_with(b"DELETE ")
        || line.starts_with(b"PATCH ")
        || line.starts_with(b"CONNECT ")
        || line.starts_with(b"TRACE ")
}

// Whether the line names the host that is asked.
fn names_host(line: &[u8]) -> bool
    ensures { result ≡ names_host line.now }
{
    line.starts_with(b"Host:")
}

/// Whether a browser sent the line, which may be the first of its connection.
pub(crate) fn is_of_browser(first: bool, line: &[u8]) -> bool
    ensures { result ≡ is_of_browser first line.now }
{
    (first && begins_http(line)) || names_host(line)
}
