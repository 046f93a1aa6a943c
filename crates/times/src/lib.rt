//! Laws of time, each the contract of a function that does nothing: nothing but alarms reads the time.
#![tactic(auto)]

ghost use Rattle.std.specs.Prelude.{◌≡◌, ℕ, Bool, List};
ghost use Rattle.posix.specs.declared.event.Event.{Event};
ghost use Rattle.posix.specs.Common.{State, Line, next, RunsFrom, IsRegular, IsSettled};
ghost use Rattle.times.specs.Times.{state_later, outcome_later};

/// Nothing but alarms reads the time.
///
/// A state can be moved in time: `d` more ticks have passed, each alarm that is set is due `d` ticks later, and the rest
/// is the same. An event then shows the same entries, and leads to the same state moved by `d` ticks, if the host
/// grants memory in the same way. For each run from a state, there is a run from the moved state, by the same events
/// and with the same lines, to the moved last state. The moved state has no other runs.
///
/// So what happens depends on the ticks until alarms are due, and not on the ticks that have passed.
pub fn only_alarms_read_the_time()
    ensures next { (d : ℕ) (granted : Bool) (s : State) (event : Event) → next granted (state_later d s) event ≡ outcome_later d (next granted s event) }
    ensures runs { (d k : ℕ) (old last : State) (events : List Event) (lines : List Line) → RunsFrom k old events lines last → RunsFrom k (state_later d old) events lines (state_later d last) }
    ensures no_others { (d k : ℕ) (old moved : State) (events : List Event) (lines : List Line) → RunsFrom k (state_later d old) events lines moved
        → (last : State) × RunsFrom k old events lines last × (moved ≡ state_later d last) }
{}

/// A state can be moved in time.
///
/// If a state is regular, the state moved by `d` ticks is regular. If nothing is left to settle in a state, nothing is
/// left to settle in the moved state. So the laws of such states hold of moved states, too.
pub fn states_can_be_moved()
    ensures regular { (d : ℕ) (s : State) → IsRegular s → IsRegular (state_later d s) }
    ensures settled { (d : ℕ) (s : State) → IsSettled s → IsSettled (state_later d s) }
{}
