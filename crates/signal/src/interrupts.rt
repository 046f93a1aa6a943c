//! The call that a process is blocked in when a handler is entered.

ghost use Rattle.std.specs.Prelude.{◌≡◌, Some};
ghost use Rattle.posix.specs.Common.{is_interrupted as is_interrupted_by, is_restarted as is_restarted_by, leave_call as leave_call_of, mask_before as mask_before_of};

use bitflags::Flags;
use posix::{Action, Blocked, Errno, Register, SaFlags, SigSet};
use umach::Cpu;

/// Returns true if a call is restarted after a handler with this action: a wait or a read with SA_RESTART
/// (sigaction(2)).
fn is_restarted(blocked: Blocked, action: &Action) -> bool
    ensures { result ≡ is_restarted_by blocked action.now }
{
    match blocked {
        Blocked::Wait(_) | Blocked::Read => action.flags.contains(SaFlags::SA_RESTART),
        Blocked::Pause | Blocked::Sigsuspend(_) => false,
    }
}

/// Returns true if a handler with this action interrupts the call that its process is blocked in, if any. The call then
/// fails with EINTR.
pub fn is_interrupted(blocked: Option<Blocked>, action: &Action) -> bool
    ensures { result ≡ is_interrupted_by blocked action.now }
{
    match blocked {
        None => false,
        Some(blocked) => !is_restarted(blocked, action),
    }
}

/// Takes a process out of the call that it is blocked in, if any, when a handler with this action is entered. A call
/// that is interrupted fails with EINTR, and the pc moves past it. A call that is restarted leaves the pc at it.
pub fn leave_call(blocked: Option<Blocked>, action: &Action, cpu: &mut Cpu)
    ensures { cpu.new ≡ leave_call_of blocked action.now cpu.old }
{
    if is_interrupted(blocked, action) {
        cpu.set_register(Register::RESULT, -i64::from(Errno::EINTR.number()));
        cpu.move_on();
    }
}

/// Returns the signal mask that a handler restores: for sigsuspend the mask before the call, otherwise the current mask
/// (XSH sigsuspend).
pub fn mask_before(blocked: Option<Blocked>, mask: SigSet) -> SigSet
    ensures { result ≡ mask_before_of blocked mask }
{
    match blocked {
        None => mask,
        Some(blocked) => mask_before_call(blocked, mask),
    }
}

/// Returns the signal mask that is restored by a handler that interrupts this call.
fn mask_before_call(blocked: Blocked, mask: SigSet) -> SigSet
    ensures { result ≡ mask_before_of (Some blocked) mask }
{
    match blocked {
        Blocked::Wait(_) | Blocked::Read | Blocked::Pause => mask,
        Blocked::Sigsuspend(earlier) => earlier,
    }
}
