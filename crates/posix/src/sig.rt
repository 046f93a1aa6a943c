//! Signals.

ghost use Rattle.std.specs.Prelude.{◌≡◌, ◌↔◌, IsSome, IfSome, true};
ghost use Rattle.posix.specs.SignalNumbers.{is_signal, is_realtime as is_realtime_number, default_action as default_action_of};

use std::marker::Model;

/// A signal number: 1 to 31 for the standard signals, 34 to 64 for the real-time signals (signal(7), x86). The
/// numbers 32 and 33 are not signals (own).
#[derive(Clone, Copy, PartialEq, Eq)]
pub struct Sig {
    number: u8,
}

impl Model for Sig {
    ghost use Rattle.std.specs.Prelude.{ℕ, ◌≡◌, true};
    ghost use Rattle.posix.specs.SignalNumbers.{is_signal};

    ghost Value = { ℕ };

    ghost view = { λ s. s.number };

    ghost invariant = { λ s. is_signal s.number ≡ true };

    ghost inverse = { λ n. record { number = n } };
}

/// The default action of a signal (signal(7), "Standard signals").
#[derive(Clone, Copy)]
pub enum DefaultAction {
    Terminate,
    Ignore,
    Stop,
    Continue,
}

impl Sig {
    pub const HUP: Sig = Sig { number: 1 };

    pub const INT: Sig = Sig { number: 2 };

    pub const QUIT: Sig = Sig { number: 3 };

    pub const FPE: Sig = Sig { number: 8 };

    pub const KILL: Sig = Sig { number: 9 };

    pub const SEGV: Sig = Sig { number: 11 };

    pub const ALRM: Sig = Sig { number: 14 };

    pub const CHLD: Sig = Sig { number: 17 };

    pub const CONT: Sig = Sig { number: 18 };

    pub const STOP: Sig = Sig { number: 19 };

    pub const TSTP: Sig = Sig { number: 20 };

    pub const TTIN: Sig = Sig { number: 21 };

    pub const TTOU: Sig = Sig { number: 22 };

    pub const URG: Sig = Sig { number: 23 };

    pub const WINCH: Sig = Sig { number: 28 };

    /// Returns the signal `number`, or `None` if no signal has that number.
    pub fn new(number: u8) -> Option<Sig>
        ensures some { IsSome result ↔ (is_signal number ≡ true) }
        ensures value { IfSome result (λ s. s ≡ number) }
    {
        if matches!(number, 1..=31 | 34..=64) {
            Some(Sig { number })
        } else {
            None
        }
    }

    /// Returns the signal's number.
    pub fn number(self) -> u8
        ensures value { result ≡ self }
        ensures range { is_signal result ≡ true }
    {
        self.number
    }

    /// Returns true if it is a real-time signal (signal(7), "Real-time signals").
    pub fn is_realtime(self) -> bool
        ensures { result ≡ is_realtime_number self }
    {
        matches!(self.number, 34..=64)
    }

    /// Returns the signal's default action.
    pub fn default_action(self) -> DefaultAction
        ensures { result ≡ default_action_of self }
    {
        match self {
            Sig::CHLD | Sig::URG | Sig::WINCH => DefaultAction::Ignore,
            Sig::CONT => DefaultAction::Continue,
            Sig::STOP | Sig::TSTP | Sig::TTIN | Sig::TTOU => DefaultAction::Stop,
            _ => DefaultAction::Terminate,
        }
    }
}
