//! Calls that wait for a child, and what they ask for.

ghost use Rattle.std.specs.Prelude.{◌≡◌, IfSome, is_some};
ghost use Rattle.posix.specs.Calls.{call_of_wait, wait_in};
ghost use Rattle.posix.specs.Waits.{are_known, asked, asked_by_waitid, asked_by_waitpid, asks_something, waitid_options, waitpid_options};

use crate::call::Call;
use crate::target::Target;
use crate::wait_options::{WaitOptions, WaitidOptions};
use bitflags::Flags;

/// A call that waits for a child.
#[derive(Clone, Copy, PartialEq, Eq)]
pub enum WaitCall {
    /// Consumes what it reports (XSH waitpid).
    Waitpid,
    /// Names the status changes that it asks for, and can leave what it reports (XSH waitid).
    Waitid,
}

/// What a wait asks for: which children, and which status changes.
#[derive(Clone, Copy)]
pub struct Asked {
    pub target: Target,
    /// The options, as those of waitid. A waitpid always asks for terminations, too.
    pub options: WaitidOptions,
}

/// Returns true if options of waitid ask for terminations, stops or continues.
fn asks_something(options: WaitidOptions) -> bool
    ensures { result ≡ asks_something options.0 }
{
    options.intersects(WaitidOptions::SORTS)
}

/// Returns the options of a waitpid, or `None` if a bit is unknown.
fn waitpid_options(bits: u64) -> Option<WaitOptions>
    ensures known { is_some result ≡ are_known waitpid_options bits }
    ensures value { IfSome result (λ options. options.0 ≡ bits) }
{
    WaitOptions::from_bits(bits)
}

/// Returns the options of a waitid, or `None` if a bit is unknown.
fn waitid_options(bits: u64) -> Option<WaitidOptions>
    ensures known { is_some result ≡ are_known waitid_options bits }
    ensures value { IfSome result (λ options. options.0 ≡ bits) }
{
    WaitidOptions::from_bits(bits)
}

/// Returns what a waitpid with these options asks for, or `None` if a bit is unknown.
fn waitpid_asks(target: Target, bits: u64) -> Option<Asked>
    ensures { result ≡ asked_by_waitpid target bits }
{
    let options = waitpid_options(bits)?;
    Some(Asked {
        target,
        options: WaitidOptions::from_bits_retain(options.bits() | WaitidOptions::WEXITED.bits()),
    })
}

/// Returns what a waitid for these children with these options asks for. Returns `None` if a bit is unknown, if no
/// bit names a status change, or if there is no target.
fn waitid_asks(target: Option<Target>, bits: u64) -> Option<Asked>
    ensures { result ≡ asked_by_waitid target bits }
{
    let options = waitid_options(bits)?;
    if !asks_something(options) {
        return None;
    }
    Some(Asked {
        target: target?,
        options,
    })
}

impl WaitCall {
    /// Returns the wait that a call is, or `None` if it is no wait.
    pub fn named_by(call: Call) -> Option<WaitCall>
        ensures { result ≡ wait_in call }
    {
        match call {
            Call::Waitpid => Some(WaitCall::Waitpid),
            Call::Waitid => Some(WaitCall::Waitid),
            _ => None,
        }
    }

    /// Returns the wait as a call.
    pub fn call(self) -> Call
        ensures { result ≡ call_of_wait self }
    {
        match self {
            WaitCall::Waitpid => Call::Waitpid,
            WaitCall::Waitid => Call::Waitid,
        }
    }

    /// Returns what the wait asks for by its first three arguments, or `None` if it fails with EINVAL.
    #[tactic(auto, unfolding(crate::specs::Waits::asked))]
    pub fn asks(self, r1: i64, r2: i64, r3: i64) -> Option<Asked>
        ensures { result ≡ asked self r1 r2 r3 }
    {
        match self {
            WaitCall::Waitpid => waitpid_asks(Target::from_word(r1), r2.cast_unsigned()),
            WaitCall::Waitid => waitid_asks(Target::from_kind(r1, r2), r3.cast_unsigned()),
        }
    }
}
