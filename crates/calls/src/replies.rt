//! Calls that change only their caller: its IDs, actions and signal mask.

ghost use Rattle.std.specs.Prelude.{◌≡◌, ◌≤◌, length, true, is_some, IfSome};
ghost use Rattle.std.specs.Int.{cast_unsigned, w64};
ghost use Rattle.posix.specs.Common.{Process, argument, refusal as refusal_of, is_nonzero, signal_in as signal_number_in, handler_word as handler_word_of, handler_in as handler_held_in, is_question as is_question_in, are_flags, action_in as action_held_in, sigaction as sigaction_of, sigprocmask as sigprocmask_of, sigpending as sigpending_of, holding};
ghost use Rattle.proctable.specs.Records.{give_own};
ghost use Rattle.calls.specs.Outcomes.{Replies, RepliesTo, Answers, changes_caller_alone, value_of, with_own};

use crate::entries::Entries;
use crate::outcome::Attempt;
use bitflags::Flags;
use posix::{Action, Call, Entry, Errno, Handler, How, Pid, Register, SaFlags, Sig, SigSet};
use proctable::OwnPart;

// ---- results

/// Returns the result of a call that fails: the negated error number.
pub fn refusal(errno: Errno) -> i64
    ensures { result ≡ refusal_of errno }
{
    -i64::from(errno.number())
}

/// Returns the result of a call that returns 0 if it succeeds.
fn word_of(done: Result<(), Errno>) -> i64
    ensures { result ≡ value_of done }
{
    match done {
        Ok(()) => 0,
        Err(errno) => refusal(errno),
    }
}

// ---- arguments

/// Returns the signal in a register: 1 to 31 and 34 to 64.
pub fn signal_in(number: i64) -> Option<Sig>
    ensures { result ≡ signal_number_in number }
{
    match number {
        1..=64 => Sig::new(number as u8),
        _ => None,
    }
}

/// Returns the handler in a register: 0 is the default, 1 ignores the signal, and any other value is an address.
fn handler_in(word: i64) -> Handler
    ensures { result ≡ handler_held_in word }
{
    match word {
        0 => Handler::Default,
        1 => Handler::Ignore,
        _ => Handler::At(word),
    }
}

/// Returns the value of a register that holds a handler.
fn handler_word(handler: Handler) -> i64
    ensures { result ≡ handler_word_of handler }
{
    match handler {
        Handler::Default => 0,
        Handler::Ignore => 1,
        Handler::At(address) => address,
    }
}

/// Returns true if a `sigaction` with this in r2 only asks for the action.
fn is_question(word: i64) -> bool
    ensures { result ≡ is_question_in word }
{
    matches!(word, -1)
}

/// Returns the flags in a register, or `None` if it has a bit that is no flag's.
fn flags_in(word: i64) -> Option<SaFlags>
    ensures known { is_some result ≡ are_flags (cast_unsigned w64 word) }
    ensures value { IfSome result (λ f. f.0 ≡ cast_unsigned w64 word) }
{
    let bits = u32::try_from(word).ok()?;
    SaFlags::from_bits(bits)
}

/// Returns the action in r2, r3 and r4, or `None` if r4 has a bit that is no flag's (own).
fn action_in(own: &OwnPart) -> Option<Action>
    ensures known { (r : Process) → is_some result ≡ are_flags (cast_unsigned w64 (argument (give_own own.now r) 4)) }
    ensures value { (r : Process) → IfSome result (λ a. a ≡ action_held_in (give_own own.now r)) }
{
    let handler = handler_in(own.cpu.register(Register::SECOND_ARGUMENT));
    let mask = SigSet::from_word(own.cpu.register(Register::THIRD_ARGUMENT));
    let flags = flags_in(own.cpu.register(Register::FOURTH_ARGUMENT))?;
    Some(Action {
        handler,
        mask,
        flags,
    })
}

// ---- calls

/// Writes an action to r2, r3 and r4.
#[tactic(auto, unfolding(posix::specs::Outcomes::written))]
fn show_action_in_registers(own: &mut OwnPart, action: &Action)
    ensures { (r : Process) → give_own own.new r ≡ holding action.now (give_own own.old r) }
{
    let cpu = &mut own.cpu;
    cpu.set_register(Register::SECOND_ARGUMENT, handler_word(action.handler));
    cpu.set_register(Register::THIRD_ARGUMENT, action.mask.word());
    cpu.set_register(Register::FOURTH_ARGUMENT, i64::from(action.flags.bits()));
}

/// Returns the action for the signal in r1, in r2 to r4, and sets a new one unless r2 is -1. Fails with EINVAL if r1 is
/// no signal; and for a new action, if r4 has a bit that is no flag's, or the signal is SIGKILL or SIGSTOP (XSH
/// sigaction).
#[tactic(auto, unfolding(posix::specs::SignalCalls::sigaction, posix::specs::SignalCalls::give_signals))]
fn sigaction(own: &mut OwnPart) -> Result<(), Errno>
    ensures { (r : Process) → Replies (sigaction_of (give_own own.old r)) (value_of result) own.old own.new }
{
    let Some(sig) = signal_in(own.cpu.register(Register::FIRST_ARGUMENT)) else {
        return Err(Errno::EINVAL);
    };
    let old = own.signals.action(sig);
    if is_question(own.cpu.register(Register::SECOND_ARGUMENT)) {
        show_action_in_registers(own, &old);
        return Ok(());
    }
    let Some(action) = action_in(own) else {
        return Err(Errno::EINVAL);
    };
    match own.signals.set_action(sig, action) {
        Ok(()) => {
            show_action_in_registers(own, &old);
            Ok(())
        }
        Err(errno) => Err(errno),
    }
}

/// Changes the signal mask by the set in r2, and returns the old mask there. Fails with EINVAL if r1 is not 0 to 2 (XSH
/// sigprocmask).
#[tactic(auto, unfolding(posix::specs::SignalCalls::sigprocmask, posix::specs::SignalCalls::give_signals, posix::specs::Outcomes::written))]
fn sigprocmask(own: &mut OwnPart) -> Result<(), Errno>
    ensures { (r : Process) → Replies (sigprocmask_of (give_own own.old r)) (value_of result) own.old own.new }
{
    let how = How::from_word(own.cpu.register(Register::FIRST_ARGUMENT)).ok_or(Errno::EINVAL)?;
    let set = SigSet::from_word(own.cpu.register(Register::SECOND_ARGUMENT));
    let old = own.signals.mask();
    own.signals.set_mask(how, set);
    own.cpu.set_register(Register::SECOND_ARGUMENT, old.word());
    Ok(())
}

/// Returns the set of pending signals, in r1 (XSH sigpending).
#[tactic(auto, unfolding(posix::specs::SignalCalls::sigpending, posix::specs::Outcomes::written))]
fn sigpending(own: &mut OwnPart) -> Result<(), Errno>
    ensures { (r : Process) → Replies (sigpending_of (give_own own.old r)) (value_of result) own.old own.new }
{
    own.cpu
        .set_register(Register::FIRST_ARGUMENT, own.signals.pending().word());
    Ok(())
}

/// Returns true if a process asks to be a child subreaper: r1 isn't 0.
pub fn asks_for_mark(own: &OwnPart) -> bool
    ensures { (r : Process) → result ≡ is_nonzero (argument (give_own own.now r) 1) }
{
    own.cpu.register(Register::FIRST_ARGUMENT) != 0
}

/// Carries out a call that changes only its caller, and returns its result.
///
/// In the definitions, such a call has a `Reply`: a value and one change of the record. One loan and one lemma serve
/// twelve calls.
#[tactic(auto, unfolding(posix::specs::Attempts::attempt, posix::specs::SignalCalls::give_credentials))]
fn reply(own: &mut OwnPart, pid: Pid, call: Call) -> i64
    requires { changes_caller_alone call ≡ true }
    ensures { (r : Process) → RepliesTo (with_own pid own.old r) call result own.old own.new }
{
    let argument = own.cpu.register(Register::FIRST_ARGUMENT);
    match call {
        Call::Getpid => i64::from(pid.number()),
        Call::Getuid => i64::from(own.creds.user().real.number()),
        Call::Geteuid => i64::from(own.creds.user().effective.number()),
        Call::Getgid => i64::from(own.creds.group().real.number()),
        Call::Getegid => i64::from(own.creds.group().effective.number()),
        Call::Setuid => word_of(own.creds.setuid(argument)),
        Call::Seteuid => word_of(own.creds.seteuid(argument)),
        Call::Setgid => word_of(own.creds.setgid(argument)),
        Call::Setegid => word_of(own.creds.setegid(argument)),
        Call::Sigaction => word_of(sigaction(own)),
        Call::Sigprocmask => word_of(sigprocmask(own)),
        Call::Sigpending => word_of(sigpending(own)),
        _ => unreachable!(),
    }
}

/// Completes a call that changes only its caller.
pub fn own_call(own: &mut OwnPart, pid: Pid, call: Call, entries: &mut Entries) -> Attempt
    requires own { changes_caller_alone call ≡ true }
    requires room { length entries.old.items ≤ 3 }
    ensures done { result ≡ Attempt.Done }
    ensures answers { (r : Process) → Answers (with_own pid own.old r) call own.old own.new entries.old.items entries.new.items }
{
    let value = reply(own, pid, call);
    own.finish(value);
    entries.push(Entry::Called {
        pid,
        call,
        result: value,
    });
    Attempt::Done
}
