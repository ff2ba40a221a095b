// Whether a session's list matches the epochs of a closed table.

ghost use Rattle.std.specs.Prelude.{◌≡◌, ◌≢◌, ◌+◌, ◌<◌, ◌≤◌, ◌↔◌, ℕ, List, [], ◌∷◌, ◌++◌, length, take, Some, slice_get, IsTrue, MatchOption, MatchBool, IfNone, IfSome, All};
ghost use Rattle.tl_history.specs.declared.history.TheConstants.{MAX_CALLS};
ghost use Rattle.tl_table.specs.Epochs.{IsKnown};
ghost use Rattle.tl_table.specs.Tables.{IsChain};
ghost use Rattle.tl_table.specs.declared.epoch.TheConstants.{MAX_EPOCHS};
ghost use Rattle.tl_workers.specs.declared.asking.Asking.{Asking};
ghost use Rattle.tl_workers.specs.declared.session.Did.TheVariants.{Asked, Got};
ghost use Rattle.tl_workers.specs.Kept.{SessionValue};
ghost use Rattle.tl_workers.specs.Matching.{asked_in, asked_from, asking_of, calls_of, all_calls_of, IsNotFirst, WasAsked, IsBacked, StandsIn, GotsStand, GoInTurn, AreKnown, IsKnownEntry, begun_after, mark, Matches};

use crate::asking::Asking;
use crate::session::{Did, Session};
use tl_history::MAX_CALLS;
use tl_table::{Closed, Receipt};

/// Whether the session's list matches the epochs of a closed table. Takes no memory.
pub fn matches(chain: &[Closed], session: &Session) -> bool
    requires { IsChain chain.now }
    ensures { IsTrue result ↔ Matches chain.now session.now }
{
    if !asks_its_calls(chain, session) {
        return false;
    }
    if !gots_stand(chain, session) {
        return false;
    }
    go_in_turn(chain, session)
}

/// Whether each session's list matches the epochs.
pub(crate) fn all_match(chain: &[Closed], sessions: &[Session]) -> bool
    requires { IsChain chain.now }
    ensures { MatchBool result (All (Matches chain.now) sessions.now) ((i : ℕ) × (s : SessionValue) × (slice_get sessions.now i ≡ Some s) × ¬ Matches chain.now s) }
{
    for session in sessions {
        if !matches(chain, session) {
            return false;
        }
    }
    true
}

// Whether the list's requests are exactly the session's calls, epoch by epoch.
fn asks_its_calls(chain: &[Closed], session: &Session) -> bool
    ensures { IsTrue result ↔ (asked_in session.now.kept ≡ all_calls_of chain.now session.now.number) }
{
    let mut from = 0;
    for closed in chain {
        let Some(left) = after_calls(closed, session, from) else {
            return false;
        };
        from = left;
    }
    next_asked(session, from).is_none()
}

// The place after the requests for the session's calls of `epoch`, if these are the first requests from the given place on.
fn after_calls(closed: &Closed, session: &Session, from: usize) -> Option<usize>
    ensures none { IfNone result ((rest : List Asking) → asked_from session.now.kept from ≢ calls_of closed.now session.now.number ++ rest) }
    ensures some { IfSome result (λ left. (rest : List Asking) → (asked_from session.now.kept from ≡ calls_of closed.now session.now.number ++ rest) ↔ (asked_from session.now.kept left ≡ rest)) }
{
    let number = session.number();
    let mut place = from;
    // An epoch has at most 4,096 calls.
    let _fact = closed.core().calls();
    for (i, owner) in closed.owners().iter().enumerate() {
        if *owner == number {
            let Some(left) = next_call(closed, i as u32, session, place) else {
                return None;
            };
            place = left;
        }
    }
    Some(place)
}

// The place after the request for that call, if it is the first request from the given place on.
fn next_call(closed: &Closed, call: u32, session: &Session, from: usize) -> Option<usize>
    requires { IsKnown closed.now call }
    ensures none { IfNone result (IsNotFirst (asked_from session.now.kept from) (asking_of closed.now call)) }
    ensures some { IfSome result (λ left. asked_from session.now.kept from ≡ asking_of closed.now call ∷ asked_from session.now.kept left) }
{
    let (asked, left) = next_asked(session, from)?;
    let (procedure, args) = closed.core().request(call);
    if !asked.is(closed.number(), call, closed.core().name(procedure), args) {
        return None;
    }
    Some(left)
}

// The first request from the given place on, and the place after it.
fn next_asked(session: &Session, from: usize) -> Option<(Asking, usize)>
    ensures { MatchOption result (asked_from session.now.kept from ≡ []) (λ x. asked_from session.now.kept from ≡ x.0 ∷ asked_from session.now.kept x.1) }
{
    for i in from..session.len() {
        if let Did::Asked(asked) = session.entry(i) {
            return Some((asked, i + 1));
        }
    }
    None
}

// Whether each receipt is true, and its call was asked for before it.
fn gots_stand(chain: &[Closed], session: &Session) -> bool
    ensures { IsTrue result ↔ GotsStand chain.now session.now.kept }
{
    for i in 0..session.len() {
        if !is_backed(chain, &session.entry(i), session, i) {
            return false;
        }
    }
    true
}

// Whether the entry, if it is a receipt, is true, and its call was asked for before that place.
fn is_backed(chain: &[Closed], did: &Did, session: &Session, place: usize) -> bool
    requires { place ≤ length session.now.kept }
    ensures { IsTrue result ↔ IsBacked chain.now did.now (take place session.now.kept) }
{
    match did {
        Did::Asked(_) => true,
        Did::Got(receipt) => {
            stands(chain, receipt) && was_asked(session, place, receipt.epoch, receipt.call)
        }
    }
}

// Whether a receipt is that of its call in the epoch that it names.
fn stands(chain: &[Closed], receipt: &Receipt) -> bool
    ensures { IsTrue result ↔ StandsIn chain.now receipt.now }
{
    match chain.get(receipt.epoch as usize) {
        Some(closed) => closed.stands(receipt),
        None => false,
    }
}

// Whether the call was asked for before that place. The search begins at the latest entry, since the request is mostly near the end.
fn was_asked(session: &Session, place: usize, epoch: u32, call: u32) -> bool
    requires { place ≤ length session.now.kept }
    ensures { IsTrue result ↔ WasAsked (take place session.now.kept) epoch call }
{
    let mut left = place;
    while left > 0 {
        left -= 1;
        if session.asks_at(left, epoch, call) {
            return true;
        }
    }
    false
}

// Whether each call whose receipt was received before a request had ended before that request was admitted. Of all receipts so far
// it is enough to keep one number: the most calls that had begun when one of these calls ended.
fn go_in_turn(chain: &[Closed], session: &Session) -> bool
    requires chain { IsChain chain.now }
    requires known { AreKnown chain.now session.now.kept }
    ensures { IsTrue result ↔ GoInTurn chain.now session.now.kept }
{
    let mut begun = 0;
    for i in 0..session.len() {
        let Some(now_begun) = begun_after(chain, &session.entry(i), begun) else {
            return false;
        };
        begun = now_begun;
    }
    true
}

// The most calls that had begun when a received call ended, one entry later. None if that entry asks for a call that had already
// been admitted by then.
fn begun_after(chain: &[Closed], did: &Did, begun: u32) -> Option<u32>
    requires few { length chain.now ≤ MAX_EPOCHS }
    requires known { IsKnownEntry chain.now did.now }
    ensures { result ≡ begun_after chain.now did.now begun }
{
    match did {
        Did::Got(receipt) => {
            let closed = &chain[receipt.epoch as usize];
            // At most `begun` calls had begun.
            let _fact = closed.core().calls();
            Some(begun.max(mark(receipt.epoch, closed.begun_by_end(receipt.call))))
        }
        Did::Asked(asked) => {
            let _fact = chain[asked.epoch as usize].core().calls();
            if mark(asked.epoch, asked.call) < begun {
                None
            } else {
                Some(begun)
            }
        }
    }
}

// One number for an epoch and a number of calls in it. It rises with the epoch, and within an epoch with the calls.
fn mark(epoch: u32, count: u32) -> u32
    requires epoch { epoch < MAX_EPOCHS }
    requires count { count ≤ MAX_CALLS }
    ensures { result ≡ mark epoch count }
{
    epoch * (MAX_CALLS as u32 + 1) + count
}
