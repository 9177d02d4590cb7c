//! How many attempts ended how.
ghost use Rattle.std.specs.Prelude.{◌≡◌, Some, None, count_by, length};
ghost use Rattle.cue_exchange.specs.declared.attempt.Outcome.TheVariants.{Complete, Cancelled, Failed};
ghost use Rattle.cue_report.specs.Telling as spec;

use crate::attempt::Attempt;
use cue_exchange::Outcome;

/// How many attempts there were, and how many of them ended how.
#[derive(Clone, Copy)]
pub struct Totals {
    pub all: usize,
    pub complete: usize,
    pub cancelled: usize,
    pub failed: usize,
    /// Those whose end the log does not have.
    pub unended: usize,
}

// Whether an attempt ended so; of no outcome, whether the log does not have its end.
fn ends_so(attempt: &Attempt, outcome: Option<Outcome>) -> bool
    ensures { result ≡ spec.ends_so outcome attempt.now.ended }
{
    match (attempt.ended, outcome) {
        (None, None) => true,
        (Some(ended), Some(outcome)) => ended.outcome.number() == outcome.number(),
        (None, Some(_)) | (Some(_), None) => false,
    }
}

// How many attempts ended so.
fn count_of(attempts: &[Attempt], outcome: Option<Outcome>) -> usize
    ensures { result ≡ count_by (λ a. spec.ends_so outcome a.ended) attempts.now }
{
    attempts.iter().filter(|x| ends_so(x, outcome)).count()
}

/// How many attempts ended how.
pub fn totals_of(attempts: &[Attempt]) -> Totals
    ensures all { result.all ≡ length attempts.now }
    ensures complete { result.complete ≡ count_by (λ a. spec.ends_so (Some Complete) a.ended) attempts.now }
    ensures cancelled { result.cancelled ≡ count_by (λ a. spec.ends_so (Some Cancelled) a.ended) attempts.now }
    ensures failed { result.failed ≡ count_by (λ a. spec.ends_so (Some Failed) a.ended) attempts.now }
    ensures unended { result.unended ≡ count_by (λ a. spec.ends_so None a.ended) attempts.now }
{
    Totals {
        all: attempts.len(),
        complete: count_of(attempts, Some(Outcome::Complete)),
        cancelled: count_of(attempts, Some(Outcome::Cancelled)),
        failed: count_of(attempts, Some(Outcome::Failed)),
        unended: count_of(attempts, None),
    }
}
