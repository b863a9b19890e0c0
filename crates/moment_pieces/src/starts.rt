//! The numbers at which pieces begin, counted in seconds from a midnight.
ghost use Rattle.std.specs.Prelude.{◌≡◌, ◌≤◌, ◌%◌, ◌^◌, ◌+◌, MatchOption};
ghost use Rattle.moment_pieces.specs.internal.Starts.{Rises, IsNext, IsDaily, AreSingle, begins};
ghost use Rattle.moment_pieces.specs.internal.Starts.{starts_up_to, IsNextUpTo, IsLastUpTo};
ghost use Rattle.moment_pieces.specs.internal.Starts.{sooner_of};
ghost use Rattle.moment_pieces.specs.internal.Turns.{stands_in};

use crate::lists::{next_after, rank};

/// The seconds of a day.
const DAY: u64 = 86_400;

/// The numbers at which pieces begin: at some seconds of each day, and at single seconds.
#[derive(Drop)]
pub(crate) struct Starts {
    /// The seconds of each day, midnight among them, which rise.
    pub(crate) daily: Vec<u64>,
    /// The single seconds, which rise.
    pub(crate) singles: Vec<u64>,
}

impl Starts {
    /// The next number after `at`, up to `last`, at which a piece begins, if there is one.
    pub(crate) fn next_up_to(&self, at: u64, last: u64) -> Option<u64>
        requires daily { IsDaily self.now.daily.items }
        requires singles { Rises self.now.singles.items }
        requires bound { at ≤ 2 ^ 62 }
        ensures value { MatchOption result
            (IsLastUpTo (begins self.now.daily.items self.now.singles.items) at last)
            (IsNextUpTo (begins self.now.daily.items self.now.singles.items) at last) }
    {
        let next = self.next_after(at);
        if last < next { None } else { Some(next) }
    }

    /// The next number after `at` at which a piece begins.
    #[tactic(auto, unfolding(crate::specs::internal::Starts::begins))]
    fn next_after(&self, at: u64) -> u64
        requires daily { IsDaily self.now.daily.items }
        requires singles { Rises self.now.singles.items }
        requires bound { at ≤ 2 ^ 62 }
        ensures value { IsNext (begins self.now.daily.items self.now.singles.items) at result }
    {
        let next = next_daily(&self.daily, at);
        match next_after(&self.singles, at) {
            None => next,
            Some(single) => sooner_of(next, single),
        }
    }

    /// How many pieces begin after `first`, up to `last`.
    pub(crate) fn count(&self, first: u64, last: u64) -> u64
        requires daily { IsDaily self.now.daily.items }
        requires singles { AreSingle self.now.daily.items self.now.singles.items }
        requires order { first ≤ last }
        requires bound { last ≤ 2 ^ 62 }
        ensures value { result + starts_up_to self.now.daily.items self.now.singles.items first
            ≡ starts_up_to self.now.daily.items self.now.singles.items last }
    {
        self.up_to(last) - self.up_to(first)
    }

    /// How many pieces begin from 0 up to `at`.
    #[tactic(auto, unfolding(crate::specs::internal::Starts::starts_up_to))]
    fn up_to(&self, at: u64) -> u64
        requires daily { IsDaily self.now.daily.items }
        requires singles { AreSingle self.now.daily.items self.now.singles.items }
        requires bound { at ≤ 2 ^ 62 }
        ensures value { result ≡ starts_up_to self.now.daily.items self.now.singles.items at }
    {
        let whole = at / DAY * rank(&self.daily, 86_399) as u64;
        whole + rank(&self.daily, at % DAY) as u64 + rank(&self.singles, at) as u64
    }
}

/// The lesser of two numbers.
fn sooner_of(next: u64, single: u64) -> u64
    ensures value { result ≡ sooner_of next single }
{
    if single < next { single } else { next }
}

/// The next number after `at` that is at one of some seconds of each day, midnight among them.
fn next_daily(daily: &[u64], at: u64) -> u64
    requires daily { IsDaily daily.now }
    requires bound { at ≤ 2 ^ 62 }
    ensures value { IsNext (λ m. stands_in daily.now (m % 86400)) at result }
{
    let second = at % DAY;
    let midnight = at - second;
    match next_after(daily, second) {
        Some(next) => midnight + next,
        None => midnight + DAY,
    }
}
