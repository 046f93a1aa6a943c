//! Calls with their arguments, and the results of calls.

ghost use Rattle.std.specs.Prelude.{◌≡◌, ◌+◌, ◌<ℤ◌, IfSome, None, pos};
ghost use Rattle.posix.specs.Common.{asked};
ghost use Rattle.wording.specs.Proses.{Grows};

use crate::listing::{Listing, Source};
use crate::names::{put_flags_or, put_name, put_set, put_signal_word, put_status};
use crate::prose::Prose;
use crate::table::{Kind, name_of};
use bitflags::Flags;
use posix::{
    Asked, Bytes, Call, Register, SaFlags, SigSet, Status, WaitCall, WaitOptions, WaitidOptions,
};
use std::fmt::Write;
use umach::Cpu;

/// The arguments of a call: r1 to r4.
#[derive(Clone, Copy)]
pub struct Arguments {
    first: i64,
    second: i64,
    third: i64,
    fourth: i64,
}

impl Arguments {
    /// Returns the current arguments of a process.
    pub fn of(cpu: &Cpu) -> Arguments {
        Arguments {
            first: cpu.register(Register::FIRST_ARGUMENT),
            second: cpu.register(Register::SECOND_ARGUMENT),
            third: cpu.register(Register::THIRD_ARGUMENT),
            fourth: cpu.register(Register::FOURTH_ARGUMENT),
        }
    }

    /// Returns what a wait with these arguments asks for; `None` if they are invalid.
    pub fn asked(&self, call: WaitCall) -> Option<Asked>
        ensures { result ≡ asked call self.now.first self.now.second self.now.third }
    {
        call.asks(self.first, self.second, self.third)
    }
}

/// The code address of the first instruction of a program.
const FIRST_ADDRESS: i64 = 16;

/// Returns the place of the instruction at a code address, from 0; `None` if the address is before the first
/// instruction.
pub fn place_of(address: i64) -> Option<usize>
    ensures place { IfSome result (λ place. address ≡ pos (place + 16)) }
    ensures none { result ≡ None → address <ℤ pos 16 }
{
    usize::try_from(address.checked_sub(FIRST_ADDRESS)?).ok()
}

/// Writes `mark`, the last label at or before a place, and the distance of the place from it: `loop`, `loop+2`. Returns
/// false, and writes nothing, if there is no such label.
pub fn put_label(text: &mut Prose, source: Option<&Source<'_>>, place: usize, mark: &str) -> bool
    ensures { Grows text.old.text text.new.text }
{
    let Some(label) = source.and_then(|source| source.label_of(place)) else {
        return false;
    };
    text.push_str(mark);
    text.push_str(label.name);
    if place > label.place {
        text.push_with("+", place - label.place);
    }
    true
}

/// Writes where a process with this pc is in its program: the line of the world, and the last label at or before it.
pub fn put_place(text: &mut Prose, source: Option<&Source<'_>>, pc: i64) {
    let (Some(place), Some(source)) = (place_of(pc), source) else {
        return text.push_with("at address ", pc);
    };
    match source.at(place) {
        Some(written) => text.push_with("at line ", written.line),
        None => text.push_str("outside its program"),
    }
    if put_label(text, Some(source), place, " (") {
        text.push_str(")");
    }
}

/// Writes a code address by the last label at or before it, `@ended`; as a number if there is none.
pub fn put_address(text: &mut Prose, source: Option<&Source<'_>>, address: i64)
    ensures { Grows text.old.text text.new.text }
{
    if let Some(place) = place_of(address) {
        if put_label(text, source, place, "@") {
            return;
        }
    }
    text.push_number(address);
}

/// Writes the name of the program with this number; the number if there is no such program.
fn put_program(text: &mut Prose, listing: &Listing<'_>, word: i64) {
    let number = usize::try_from(word).ok();
    match number.and_then(|number| listing.program(number)) {
        Some(source) => text.push_str(source.name),
        None => text.push_number(word),
    }
}

/// What an argument of a call means.
#[derive(Clone, Copy)]
enum Argument {
    Number,
    Signal,
    Set,
    WaitpidOptions,
    WaitidOptions,
    Children,
    How,
    Handler,
    Flags,
    Program,
}

/// Returns what the arguments of a call mean, from r1. A sigaction that sets nothing has no mask and no flags.
fn arguments_of(call: Call, with: Arguments) -> &'static [Argument] {
    match call {
        Call::Fork
        | Call::Pause
        | Call::SchedYield
        | Call::Getpid
        | Call::Getppid
        | Call::Getuid
        | Call::Geteuid
        | Call::Getgid
        | Call::Getegid
        | Call::Sigpending
        | Call::Sigreturn
        | Call::Setsid
        | Call::Tcgetpgrp => &[],
        Call::Exit
        | Call::Setuid
        | Call::Seteuid
        | Call::Setgid
        | Call::Setegid
        | Call::Alarm
        | Call::Getpgid
        | Call::Getsid
        | Call::Setctty
        | Call::Tcsetpgrp
        | Call::Settostop
        | Call::Subreaper => &[Argument::Number],
        Call::Setpgid | Call::Read | Call::Write => &[Argument::Number, Argument::Number],
        Call::Waitpid => &[Argument::Number, Argument::WaitpidOptions],
        Call::Waitid => &[
            Argument::Children,
            Argument::Number,
            Argument::WaitidOptions,
        ],
        Call::Kill => &[Argument::Number, Argument::Signal],
        Call::Sigqueue => &[Argument::Number, Argument::Signal, Argument::Number],
        Call::Sigaction if with.second == -1 => &[Argument::Signal, Argument::Handler],
        Call::Sigaction => &[
            Argument::Signal,
            Argument::Handler,
            Argument::Set,
            Argument::Flags,
        ],
        Call::Sigprocmask => &[Argument::How, Argument::Set],
        Call::Sigsuspend => &[Argument::Set],
        Call::Exec => &[Argument::Program, Argument::Number, Argument::Number],
    }
}

/// Writes an argument, by what it means.
fn put_argument(
    text: &mut Prose,
    kind: Argument,
    word: i64,
    source: Option<&Source<'_>>,
    listing: &Listing<'_>,
) {
    match kind {
        Argument::Number => text.push_number(word),
        Argument::Signal => put_signal_word(text, word),
        Argument::Set => put_set(text, SigSet::from_word(word)),
        Argument::WaitpidOptions => put_flags_or(
            text,
            WaitOptions::from_bits(word.cast_unsigned()),
            word,
        ),
        Argument::WaitidOptions => {
            put_flags_or(text, WaitidOptions::from_bits(word.cast_unsigned()), word);
        }
        Argument::Children => put_name(text, Kind::Children, word),
        Argument::How => put_name(text, Kind::How, word),
        Argument::Handler => match name_of(Kind::Handler, word) {
            Some(name) => text.push_str(name),
            None => put_address(text, source, word),
        },
        Argument::Flags => {
            let flags = u32::try_from(word).ok().and_then(SaFlags::from_bits);
            put_flags_or(text, flags, word);
        }
        Argument::Program => put_program(text, listing, word),
    }
}

/// Writes a call with its arguments: `kill(-3, SIGCONT)`.
pub fn put_call(
    text: &mut Prose,
    call: Call,
    with: Arguments,
    source: Option<&Source<'_>>,
    listing: &Listing<'_>,
) {
    text.push_around("", call.name(), "(");
    let words = [with.first, with.second, with.third, with.fourth];
    let mut is_first = true;
    for (kind, word) in arguments_of(call, with).iter().zip(words) {
        text.push_str(if is_first { "" } else { ", " });
        put_argument(text, *kind, word, source, listing);
        is_first = false;
    }
    text.push_str(")");
}

/// Writes the result of a call, with the name of an error.
pub fn put_result(text: &mut Prose, value: i64) {
    text.push_with(" = ", value);
    if let Some(name) = name_of(Kind::Errno, value.saturating_neg()) {
        text.push_str(" ");
        text.push_str(name);
    }
}

/// Writes a byte as a string literal in C has it: as a character, or as an escape such as `\n` or `\x1b`.
pub fn put_byte(text: &mut Prose, byte: u8) {
    match byte {
        b'\n' => text.push_str("\\n"),
        b'\t' => text.push_str("\\t"),
        b'\r' => text.push_str("\\r"),
        b'"' => text.push_str("\\\""),
        b'\\' => text.push_str("\\\\"),
        0x20..=0x7e => text.push_byte(byte),
        _ => {
            let _ = write!(text, "\\x{byte:02x}");
        }
    }
}

/// Writes bytes between quotation marks, as a string literal in C has them.
pub fn put_quoted(text: &mut Prose, bytes: &[u8]) {
    text.push_str("\"");
    for byte in bytes {
        put_byte(text, *byte);
    }
    text.push_str("\"");
}

/// Writes the result of a read or a write that moved bytes: their number, and the bytes.
pub fn put_moved(text: &mut Prose, bytes: &Bytes) {
    text.push_with(" = ", bytes.as_slice().len());
    text.push_str(" ");
    put_quoted(text, bytes.as_slice());
}

/// Writes the child whose status change a wait consumed, and its wait status.
pub fn put_report(text: &mut Prose, call: WaitCall, child: u32, status: Status) {
    let (before, behind) = match call {
        WaitCall::Waitpid => (" = ", ", "),
        WaitCall::Waitid => (" = take ", " "),
    };
    text.push_with(before, child);
    text.push_str(behind);
    put_status(text, status);
}

/// Writes the child whose status change a wait reported and left, with WNOWAIT, and its wait status.
pub fn put_look(text: &mut Prose, child: u32, status: Status) {
    text.push_with(" = look ", child);
    text.push_str(" ");
    put_status(text, status);
}
