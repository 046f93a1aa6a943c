//! Terms of other systems, files that are not text, and characters that look like others.

use crate::lines::is_listed;
use memchr::memmem;

/// Calls of other systems, and the call to use instead.
static CALLS: [(&str, &str); 17] = [
    ("wait wait3 wait4", "waitpid, with -1 in r1 and 0 in r2"),
    ("yield pthread_yield", "sched_yield"),
    ("_exit _Exit exit_group abort quit", "exit"),
    ("signal sigset bsd_signal rt_sigaction", "sigaction"),
    (
        "raise tkill tgkill",
        "kill, with the result of getpid in r1",
    ),
    ("killpg", "kill, with the negated process group ID in r1"),
    (
        "execve execv execl execvp execlp posix_spawn",
        "exec, with a program number in r1: set r1, $NAME",
    ),
    ("vfork clone", "fork"),
    ("getpgrp", "getpgid, with 0 in r1"),
    ("setpgrp", "setpgid, with 0 in r1 and r2"),
    (
        "tcsetattr tcgetattr ioctl stty",
        "settostop: no other terminal mode can be set",
    ),
    (
        "sigblock sigsetmask rt_sigprocmask pthread_sigmask",
        "sigprocmask",
    ),
    ("sigwait sigwaitinfo sigtimedwait", "sigsuspend"),
    ("sleep usleep nanosleep", "alarm and pause"),
    ("setitimer", "alarm"),
    ("prctl", "subreaper, for PR_SET_CHILD_SUBREAPER"),
    (
        "open openat creat close pipe dup dup2 stat lseek socket select poll",
        "read or write on the controlling terminal: there are no files",
    ),
];

/// Instructions of other machines, and what to use instead.
static INSTRUCTIONS: [(&str, &str); 17] = [
    ("shl shr sal sar lsl lsr", "mul or div by a power of 2"),
    ("not", "xor with -1"),
    ("neg", "sub from 0"),
    ("inc", "add with a register that holds 1"),
    ("dec", "sub with a register that holds 1"),
    ("cmp", "sub, then jz, jnz or jlt"),
    ("push pop load store lw sw", "ld or st"),
    ("call ret", "jmp: there are no functions"),
    (
        "jgt jge jle jg jl je jne beq bne",
        "sub, then jz, jnz or jlt",
    ),
    ("goto", "jmp"),
    ("nop", "mov r0, r0"),
    ("print puts printf echo", "note"),
    ("int syscall", "sys"),
    ("li", "set"),
    ("move", "mov"),
    ("halt", "sys exit"),
    ("}", "end"),
];

/// The first bytes of files that are not text, and the messages about them.
static BEGINNINGS: [(&[u8], &str); 9] = [
    (
        b"\xEF\xBB\xBF",
        "unexpected byte order mark; save the file without it",
    ),
    (b"\xFF\xFE", UTF_16),
    (b"\xFE\xFF", UTF_16),
    (
        b"\x1F\x8B",
        "expected text, found gzip data; decompress the file",
    ),
    (
        b"BZh",
        "expected text, found bzip2 data; decompress the file",
    ),
    (
        b"\xFD7zXZ",
        "expected text, found xz data; decompress the file",
    ),
    (
        b"\x28\xB5\x2F\xFD",
        "expected text, found zstd data; decompress the file",
    ),
    (
        b"PK\x03\x04",
        "expected text, found a zip archive; unpack it",
    ),
    (b"\x7FELF", "expected text, found an ELF file"),
];

const UTF_16: &str = "expected UTF-8, found UTF-16; save the file as UTF-8";

const ZEROS: &str = "unexpected null bytes: the file is UTF-16 or binary; save it as UTF-8";

const RETURNS: &str = "expected line feeds, found only carriage returns";

/// Characters that look like others, or that can't be seen.
static LOOKALIKES: [(&[&str], &str); 6] = [
    (
        &["\u{A0}", "\u{202F}"],
        "unexpected no-break space; type a space",
    ),
    (&["\u{200B}"], "unexpected zero-width space; delete it"),
    (&["\u{FEFF}"], "unexpected byte order mark; delete it"),
    (&["\u{2212}"], "unexpected typographic minus sign; type -"),
    (
        &["\u{2010}", "\u{2011}", "\u{2013}", "\u{2014}"],
        "unexpected typographic dash; type -",
    ),
    (
        &["\u{2018}", "\u{2019}", "\u{201C}", "\u{201D}"],
        "unexpected typographic quotation mark",
    ),
];

/// Returns what a table has for a word.
fn instead(table: &[(&'static str, &'static str)], word: &[u8]) -> Option<&'static str> {
    let (_, what) = table.iter().find(|(words, _)| is_listed(words, word))?;
    Some(*what)
}

/// Returns the call to use instead of one of another system.
pub fn other_call(word: &[u8]) -> Option<&'static str> {
    instead(&CALLS, word)
}

/// Returns what to use instead of an instruction of another machine.
pub fn other_instruction(word: &[u8]) -> Option<&'static str> {
    instead(&INSTRUCTIONS, word)
}

/// Returns the message about a word that is wrong in any place, such as one with a character outside ASCII.
pub fn oddity(word: &[u8]) -> Option<&'static str> {
    let mut lookalikes = LOOKALIKES.iter();
    if let Some((_, what)) = lookalikes.find(|(letters, _)| letters
        .iter()
        .any(|letter| memmem::find(word, letter.as_bytes()).is_some()))
    {
        Some(*what)
    } else if !word.is_ascii() {
        Some("unexpected non-ASCII character")
    } else if word.iter().any(u8::is_ascii_control) {
        Some("unexpected control character")
    } else if begins_comment(word) {
        Some("comments begin with #")
    } else if matches!(word, [_, .., b';']) {
        Some("unexpected semicolon; delete it")
    } else {
        None
    }
}

/// Returns true if a word begins a comment in other languages.
fn begins_comment(word: &[u8]) -> bool {
    matches!(
        word,
        [b'/', b'/', ..] | [b'/', b'*', ..] | [b';', ..] | [b'-', b'-', ..]
    )
}

/// Returns true if a byte other than a carriage return follows one.
fn has_return(text: &[u8]) -> bool {
    let mut behind = text.iter().skip_while(|b| **b != b'\r');
    behind.any(|b| *b != b'\r')
}

/// Returns the message about a file that is not text, by its first line. `is_only` is true if there is no other line.
pub fn no_text(first: &[u8], is_only: bool) -> Option<&'static str> {
    let mut beginnings = BEGINNINGS.iter();
    if let Some((_, what)) = beginnings.find(|(bytes, _)| first.starts_with(bytes)) {
        Some(*what)
    } else if is_only && has_return(first) {
        Some(RETURNS)
    } else if first.iter().take(8).any(|b| *b == 0) {
        Some(ZEROS)
    } else {
        None
    }
}
