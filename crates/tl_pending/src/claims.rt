// The keys that sessions have claimed for the calls that they ask for now.

ghost use Rattle.std.specs.Prelude.{◌≡◌, ◌↔◌, ◌==◌, [], ◌∷◌, ◌++◌, Any, not, filter, string_bytes, option_copied, IsTrue, OnOk};
ghost use Rattle.tl_pending.specs.Claims.{key_of};

use std::alloc::{AllocError, Global};
use std::marker::Model;

/// A session, and the key that it has claimed for the call that it asks for now. A contract sees both.
#[derive(Debug, Drop)]
pub struct Claimed {
    session: u32,
    key: String,
}

impl Model for Claimed {
    ghost use Rattle.std.specs.Prelude.{string_bytes};
    ghost use Rattle.tl_pending.specs.Claims.{ClaimValue};

    ghost Value = { ClaimValue };

    ghost view = { λ c. record { session = c.session; key = string_bytes c.key } };
}

/// The key that the session has claimed.
pub fn key_of(claims: &[Claimed], session: u32) -> Option<&str>
    ensures { option_copied result ≡ key_of claims.now session }
{
    for claim in claims {
        if claim.session == session {
            return Some(claim.key.as_str());
        }
    }
    None
}

/// Whether a session has claimed the key.
pub fn is_claimed(claims: &[Claimed], key: &str) -> bool
    ensures { IsTrue result ↔ Any (λ c. c.key ≡ key.now) claims.now }
{
    claims.iter().any(|claim| claim.key.as_str() == key)
}

/// Adds that the session has claimed the key.
pub fn claim(
    alloc: Global,
    claims: &mut Vec<Claimed>,
    session: u32,
    key: &str,
) -> Result<(), AllocError>
    ensures { OnOk result (claims.new.items ≡ claims.old.items ++ record { session = session; key = key.now } ∷ []) }
{
    let key = String::from_str(alloc, key)?;
    claims.push(Claimed { session, key })?;
    Ok(())
}

/// Lets go of what the session has claimed.
pub fn release(claims: &mut Vec<Claimed>, session: u32)
    ensures { claims.new.items ≡ filter (λ c. not (c.session == session)) claims.old.items }
{
    claims.retain(|claim| claim.session != session);
}
