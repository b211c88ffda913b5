//! What a run counts.

ghost use Rattle.std.specs.Prelude.{◌≡◌, ◌+◌, ◌≤◌, ◌^◌, None, IfOk, MatchResult, string_bytes};
ghost use Rattle.conversation.specs.declared.outcomes.Outcome.TheVariants as outcome_of;
ghost use Rattle.outcome_text.specs.Counting as counting;
ghost use Rattle.outcome_text.specs.Printing as printing;

use crate::texts::{is_refusal, listing_text, text_of};
use conversation::counts::plus;
use conversation::outcomes::{Listing, Outcome};
use std::alloc::{AllocError, Global};
use std::fmt::Write;

/// What a run counts.
#[derive(Clone, Copy, PartialEq, Eq, Debug)]
pub struct Tally {
    /// The outcomes that are refusals.
    pub errors: u64,
    /// The result rows that the text has.
    pub rows: u64,
    /// The requests that were asked.
    pub requests: u64,
}

/// The text of an outcome, and what is counted with it.
#[derive(Drop)]
pub struct Page {
    pub text: String,
    pub tally: Tally,
}

/// How many refusals an outcome is.
fn refusals_of(outcome: &Outcome) -> u64
    ensures { result ≡ counting.refusals_of outcome.now }
{
    u64::from(is_refusal(outcome))
}

/// How many result rows its text has.
fn rows_of(outcome: &Outcome) -> u64
    ensures { result ≡ counting.rows_of outcome.now }
{
    match outcome {
        Outcome::Rows(listing) | Outcome::Broken(listing, _) => listing.rows.len() as u64,
        Outcome::Changed(_)
        | Outcome::Defined
        | Outcome::Rotated(_)
        | Outcome::Described(_)
        | Outcome::Refused(_)
        | Outcome::Failed(_) => 0,
    }
}

impl Tally {
    /// Nothing is counted yet.
    pub fn nothing() -> Tally
        ensures { result ≡ counting.nothing }
    {
        Tally {
            errors: 0,
            rows: 0,
            requests: 0,
        }
    }

    /// Whether an outcome was a refusal.
    pub fn has_errors(&self) -> bool
        ensures { result ≡ counting.has_errors self.now }
    {
        self.errors > 0
    }

    /// With one more request; out of memory exactly where their number leaves 64 bits.
    pub fn asked(&self) -> Result<Tally, AllocError>
        ensures { MatchResult result (λ tally. tally ≡ counting.asked self.now)
            (λ _. 2 ^ 64 ≤ self.now.requests + 1) }
    {
        let requests = plus(self.requests, 1)?;
        Ok(Tally { requests, ..*self })
    }

    /// With one more outcome.
    fn printed(&self, outcome: &Outcome) -> Result<Tally, AllocError>
        ensures { IfOk result (λ tally. tally ≡ counting.printed outcome.now self.now) }
    {
        let errors = plus(self.errors, refusals_of(outcome))?;
        let rows = plus(self.rows, rows_of(outcome))?;
        Ok(Tally {
            errors,
            rows,
            ..*self
        })
    }

    /// The text of one more outcome, and what is counted with it.
    pub fn page_of(&self, alloc: Global, outcome: &Outcome) -> Result<Page, AllocError>
        ensures text { IfOk result
            (λ page. string_bytes page.text ≡ printing.printed_outcome outcome.now) }
        ensures tally { IfOk result (λ page. page.tally ≡ counting.printed outcome.now self.now) }
    {
        let tally = self.printed(outcome)?;
        let text = text_of(alloc, outcome)?;
        Ok(Page { text, tally })
    }

    /// The text of a listing that broke off, and what is counted with it.
    pub fn page_of_listing(&self, alloc: Global, listing: &Listing) -> Result<Page, AllocError>
        ensures text { IfOk result
            (λ page. string_bytes page.text ≡ printing.printed_listing listing.now) }
        ensures tally { IfOk result
            (λ page. page.tally ≡ counting.printed (outcome_of.Broken listing.now None) self.now) }
    {
        let rows = plus(self.rows, listing.rows.len() as u64)?;
        let text = listing_text(alloc, listing)?;
        let tally = Tally { rows, ..*self };
        Ok(Page { text, tally })
    }
}

/// The four lines that stand for a run's text: its steps, and what it counted.
pub fn summary_text(alloc: Global, steps: usize, tally: &Tally) -> Result<String, AllocError>
    ensures { IfOk result (λ text. string_bytes text ≡ counting.summary steps tally.now) }
{
    let mut text = String::new(alloc);
    write!(text, "steps {steps}\n")?;
    write!(text, "errors {}\n", tally.errors)?;
    write!(text, "rows {}\n", tally.rows)?;
    write!(text, "requests {}\n", tally.requests)?;
    Ok(text)
}
