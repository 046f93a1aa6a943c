//! Kinds of signals and actions.

ghost use Rattle.std.specs.Prelude.{◌≡◌};
ghost use Rattle.posix.specs.Common.{does_nothing as does_nothing_with, is_caught as is_caught_by, is_harmless as is_harmless_action, is_stop_signal as is_stop_number};

use posix::{DefaultAction, Handler, Sig};

/// Returns true if a default action leaves a running process unchanged.
fn is_harmless(action: DefaultAction) -> bool
    ensures { result ≡ is_harmless_action action }
{
    matches!(action, DefaultAction::Ignore | DefaultAction::Continue)
}

/// Returns true for a stop signal: SIGSTOP, SIGTSTP, SIGTTIN or SIGTTOU.
pub fn is_stop_signal(sig: Sig) -> bool
    ensures { result ≡ is_stop_number sig }
{
    matches!(sig.number(), 19..=22)
}

/// Returns true if a handler is the address of code.
pub fn is_caught(handler: Handler) -> bool
    ensures { result ≡ is_caught_by handler }
{
    matches!(handler, Handler::At(_))
}

/// Returns true if a handler does nothing with a signal: it ignores it, or leaves it to a default action that does.
pub fn does_nothing(handler: Handler, sig: Sig) -> bool
    ensures { result ≡ does_nothing_with handler sig }
{
    match handler {
        Handler::Default => is_harmless(sig.default_action()),
        Handler::Ignore => true,
        Handler::At(_) => false,
    }
}
