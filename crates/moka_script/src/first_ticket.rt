//! The ticket that a script begins with.
use std::marker::Model;

/// The first ticket of a cache, at least 1. Seen as its number.
#[derive(Clone, Copy)]
pub struct FirstTicket {
    number: u64,
}

impl Model for FirstTicket {
    ghost use Rattle.std.specs.Prelude.{ℕ, ◌≤◌};

    ghost Value = { ℕ };

    ghost view = { λ ticket. ticket.number };

    ghost inverse = { λ number. record { number = number } };

    ghost invariant = { λ ticket. 1 ≤ ticket.number };
}

impl FirstTicket {
    ghost use Rattle.std.specs.Prelude.{◌≡◌, ◌≤◌, ◌==◌, Some, None, if◌then◌else◌};

    /// The ticket of that number, unless it is 0.
    pub fn new(number: u64) -> Option<FirstTicket>
        ensures { result ≡ (if number == 0 then None else Some number) }
    {
        if number == 0 {
            None
        } else {
            Some(FirstTicket { number })
        }
    }

    /// The number of the ticket.
    pub fn number(self) -> u64
        ensures same { result ≡ self }
        ensures positive { 1 ≤ result }
    {
        self.number
    }
}
