//! The numbers of sessions.

ghost use Rattle.std.specs.Prelude.{◌≡◌, IfSome, IsSome, ◌↔◌};
ghost use Rattle.ae_base.specs.Sessions.{IsSession};

use crate::limits::MOST_SESSIONS;
use std::marker::Model;

/// The number of a session, from 1 to 64.
#[derive(Clone, Copy, PartialEq, Eq, Debug)]
pub struct SessionId {
    number: u16,
}

impl Model for SessionId {
    ghost use Rattle.std.specs.Prelude.{ℕ};
    ghost use Rattle.ae_base.specs.Sessions.{IsSession};

    ghost Value = { ℕ };

    ghost view = { λ s. s.number };

    ghost invariant = { λ s. IsSession s.number };

    ghost inverse = { λ n. record { number = n } };
}

impl SessionId {
    /// The most sessions that there are.
    pub const MOST: u16 = MOST_SESSIONS;

    /// The session of a number, where there is one.
    pub fn from_number(number: u16) -> Option<SessionId>
        ensures value { IfSome result (λ session. session ≡ number) }
        ensures exactly { IsSome result ↔ IsSession number }
    {
        if number == 0 || number > SessionId::MOST {
            return None;
        }
        Some(SessionId { number })
    }

    /// The number.
    pub fn number(self) -> u16
        ensures value { result ≡ self }
        ensures within { IsSession result }
    {
        self.number
    }
}
