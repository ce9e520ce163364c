// What a miss is handed.
ghost use Rattle.std.specs.Prelude.{◌≡◌};

use std::marker::Model;

/// The moment of a miss: how many changes of keys the cache had made by then. It says when, and not of which key, so that
/// it is good for every key of the cache that handed it out, and for no other cache's. It may be kept, copied or forgotten.
#[derive(Clone, Copy)]
pub struct Ticket {
    moment: u64,
}

impl Model for Ticket {
    ghost use Rattle.std.specs.Prelude.{ℕ};

    ghost Value = { ℕ };

    ghost view = { λ ticket. ticket.moment };

    ghost inverse = { λ moment. record { moment = moment } };
}

impl Ticket {
    /// Its number, for who can't hold a ticket.
    #[must_use]
    pub fn number(self) -> u64
        ensures { result ≡ self }
    {
        self.moment
    }

    /// The ticket with this number. One that wasn't handed out promises nothing.
    #[must_use]
    pub fn from_number(number: u64) -> Ticket
        ensures { result ≡ number }
    {
        Ticket { moment: number }
    }
}
