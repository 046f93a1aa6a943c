//! What a process can reach.

ghost use Rattle.std.specs.Prelude.{◌≡◌};

/// What a process can reach from a place of its program, whatever its registers hold. If it can reach several of these,
/// the last one counts.
#[derive(Clone, Copy, PartialEq, Eq)]
pub enum Way {
    /// It loops forever.
    Round,
    /// It runs off the end of the program.
    OffTheEnd,
    /// It reaches a call that leaves a handler, may terminate its caller, or waits for signals.
    Out,
}

impl Way {
    /// Returns the one of two that counts.
    pub fn or(self, other: Way) -> Way
        ensures this { self ≡ Way.Out → result ≡ Way.Out }
        ensures other { other ≡ Way.Out → result ≡ Way.Out }
    {
        match (self, other) {
            (Way::Out, _) | (_, Way::Out) => Way::Out,
            (Way::OffTheEnd, _) | (_, Way::OffTheEnd) => Way::OffTheEnd,
            (Way::Round, Way::Round) => Way::Round,
        }
    }
}
