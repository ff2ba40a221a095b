// How many rows there were at the beginning and at the end of an epoch.

ghost use Rattle.std.specs.Prelude.{◌≡◌, ◌↔◌, IsTrue, IsSome, IfSome};
ghost use Rattle.tl_export.specs.declared.counts.Counts.{Counts as Numbers};
ghost use Rattle.tl_export.specs.Counts.{no_rows, all_rows, IsCounted, AreAtEnd, AreAtBeginning, AreInOrder, HasCounts};

use tl_ledger::{Marks, SealRow};

/// How many rows of procedures, calls, turns and replies there were at some time.
#[derive(Clone, Copy, Debug, PartialEq, Eq)]
pub struct Counts {
    pub procedures: u64,
    pub calls: u64,
    pub turns: u64,
    pub replies: u64,
}

// None of them.
fn no_counts() -> Counts
    ensures { result ≡ no_rows }
{
    Counts {
        procedures: 0,
        calls: 0,
        turns: 0,
        replies: 0,
    }
}

// All that there are.
fn all_counts(marks: &Marks) -> Counts
    ensures { result ≡ all_rows marks.now }
{
    Counts {
        procedures: marks.procedures,
        calls: marks.calls,
        turns: marks.turns,
        replies: marks.replies,
    }
}

// As many as a seal counts. None if a number is below 0.
fn sealed_counts(seal: &SealRow) -> Option<Counts>
    ensures counted { IfSome result (λ n. IsCounted seal.now n) }
    ensures again { (n : Numbers) → IsCounted seal.now n → IsSome result }
{
    Some(Counts {
        procedures: u64::try_from(seal.procedures).ok()?,
        calls: u64::try_from(seal.calls).ok()?,
        turns: u64::try_from(seal.turns).ok()?,
        replies: u64::try_from(seal.replies).ok()?,
    })
}

// At the end of an epoch. None if a seal's number is below 0.
fn counts_at_end(seals: &[SealRow], marks: &Marks, epoch: usize) -> Option<Counts>
    ensures end { IfSome result (λ n. AreAtEnd seals.now marks.now epoch n) }
    ensures again { (n : Numbers) → AreAtEnd seals.now marks.now epoch n → IsSome result }
{
    match seals.get(epoch) {
        Some(seal) => sealed_counts(seal),
        None => Some(all_counts(marks)),
    }
}

// At the beginning of an epoch.
fn counts_at_beginning(seals: &[SealRow], marks: &Marks, epoch: usize) -> Option<Counts>
    ensures beginning { IfSome result (λ n. AreAtBeginning seals.now marks.now epoch n) }
    ensures again { (n : Numbers) → AreAtBeginning seals.now marks.now epoch n → IsSome result }
{
    if epoch == 0 {
        return Some(no_counts());
    }
    counts_at_end(seals, marks, epoch - 1)
}

// Whether no count has become less.
fn are_in_order(first: &Counts, last: &Counts) -> bool
    ensures { IsTrue result ↔ AreInOrder first.now last.now }
{
    first.procedures <= last.procedures
        && first.calls <= last.calls
        && first.turns <= last.turns
        && first.replies <= last.replies
}

/// How many rows there were at the beginning and at the end of an epoch. None if a seal's number is below 0, less than that of the seal before it, or
/// more than there are.
pub(crate) fn counts_of(seals: &[SealRow], marks: &Marks, epoch: usize) -> Option<(Counts, Counts)>
    ensures beginning { IfSome result (λ n. AreAtBeginning seals.now marks.now epoch n.0) }
    ensures end { IfSome result (λ n. AreAtEnd seals.now marks.now epoch n.1) }
    ensures order { IfSome result (λ n. AreInOrder n.0 n.1) }
    ensures inside { IfSome result (λ n. AreInOrder n.1 (all_rows marks.now)) }
    ensures again { HasCounts seals.now marks.now epoch → IsSome result }
{
    let first = counts_at_beginning(seals, marks, epoch)?;
    let last = counts_at_end(seals, marks, epoch)?;
    if are_in_order(&first, &last) && are_in_order(&last, &all_counts(marks)) {
        Some((first, last))
    } else {
        None
    }
}
