// That a value was a session's.

ghost use Rattle.tl_workers.specs.Kept.{SessionValue};
ghost use Rattle.tl_workers.specs.Genuine.{WasSession, was_session};

use crate::session::Session;

// What shows it. Only this crate can name the fact behind it.
pub(crate) trait Showing {
    ghost shows: { (s : SessionValue) → WasSession s };
}

// The one that does.
pub(crate) struct Shown;

impl Showing for Shown {
    ghost shows = { was_session };
}

// That a session had its value.
pub(crate) fn lemma_was_session<S: Showing>(session: &Session)
    ensures { WasSession session.now }
{
    let _value = session;
}
