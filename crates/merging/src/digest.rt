//! Digests of states: different states rarely have the same digest.

ghost use Rattle.std.specs.Prelude.{◌≡◌};

use kernel::Kernel;
use posix::{Blocked, Life, Pid};
use proctable::{OwnPart, Snapshot};

/// The most processes that go into a digest, by number and again in the order of the run queue.
const MOST_PROCESSES: u32 = 64;

/// Returns a digest with a number added.
fn mixed(digest: u64, number: u64) -> u64 {
    (digest ^ number)
        .wrapping_mul(0x9e37_79b9_7f4a_7c15)
        .rotate_left(29)
}

/// Returns a digest with a process ID added.
fn with_pid(digest: u64, pid: Pid) -> u64 {
    mixed(digest, u64::from(pid.number()))
}

/// Returns a digest with the state of a process added, and whether a call blocks it.
fn with_life(digest: u64, life: Life, blocked: Option<Blocked>) -> u64 {
    let lives = match life {
        Life::Running => 0,
        Life::Stopped => 1,
        Life::Zombie(status) => 2 + u64::from(status.word()),
    };
    mixed(digest, 2 * lives + u64::from(blocked.is_some()))
}

/// Returns a digest with the small fields of a process added.
fn with_snapshot(digest: u64, it: &Snapshot) -> u64 {
    let digest = with_pid(digest, it.pid);
    let digest = with_pid(digest, it.parent);
    let digest = with_pid(digest, it.group);
    let digest = with_life(digest, it.life, it.blocked);
    mixed(digest, u64::from(it.program))
}

/// Returns a digest with the words of a process's memory added.
fn with_words(digest: u64, own: &OwnPart) -> u64 {
    let mut digest = digest;
    for address in 0..=u8::MAX {
        digest = mixed(digest, own.cpu.word(address).cast_unsigned());
    }
    digest
}

/// Returns a digest with the registers and the signals of a process added.
fn with_own(digest: u64, own: &OwnPart) -> u64 {
    let signals = &own.signals;
    let frame = own.cpu.frame(signals.mask());
    let mut digest = mixed(digest, frame.pc.cast_unsigned());
    for register in frame.registers {
        digest = mixed(digest, register.cast_unsigned());
    }
    let digest = mixed(digest, signals.mask().bits());
    let digest = mixed(digest, signals.handlers() as u64);
    mixed(digest, signals.pending().bits())
}

/// Returns a digest with the processes of a machine added. Changes only the count of reads of the kernel.
fn with_processes(digest: u64, kernel: &mut Kernel) -> u64
    ensures { (kernel.new.state ≡ kernel.old.state) × (kernel.new.events ≡ kernel.old.events) }
{
    let mut digest = digest;
    let mut last = Pid::NONE;
    for _ in 0..MOST_PROCESSES {
        let Some(pid) = kernel.next_process(last) else {
            return digest;
        };
        if let Some(it) = kernel.snapshot(pid) {
            digest = with_snapshot(digest, &it);
            let own = kernel.look(pid);
            digest = with_words(with_own(digest, own), own);
        }
        last = pid;
    }
    digest
}

/// Returns a digest with the order of the run queue added.
fn with_turns(digest: u64, kernel: &Kernel) -> u64 {
    let mut digest = digest;
    let mut next = kernel.current();
    for _ in 0..MOST_PROCESSES {
        let Some(pid) = next else {
            return digest;
        };
        digest = with_pid(digest, pid);
        next = kernel.behind(pid);
    }
    digest
}

/// Returns a digest with the consoles added: session, foreground process group, and how much is typed.
fn with_consoles(digest: u64, kernel: &Kernel) -> u64 {
    let mut digest = digest;
    for index in 0..usize::from(kernel.consoles()) {
        if let Some(console) = kernel.console(index) {
            digest = with_pid(digest, console.session());
            digest = with_pid(digest, console.foreground());
            let typed = console.finished_lines() + 64 * console.edited().len();
            digest = mixed(digest, typed as u64);
        }
    }
    digest
}

/// Returns a digest with the marks of texts added.
fn with_marks(digest: u64, marks: &[bool]) -> u64 {
    let mut digest = digest;
    for mark in marks {
        digest = mixed(digest, u64::from(*mark));
    }
    digest
}

/// Returns a digest with the kinds of loose events added.
fn with_kinds(digest: u64, kinds: &[u8]) -> u64 {
    let mut digest = digest;
    for kind in kinds {
        digest = mixed(digest, u64::from(*kind));
    }
    digest
}

/// Returns a digest of the loose events that are left, of the marks of texts, and of the state of a machine, without
/// its time.
///
/// All states in which the machine has halted count as one, because nothing more happens in them. So no more of such a
/// state goes into the digest. Changes only the count of reads of the kernel.
pub fn digest_of(left: &[u8], marks: &[bool], kernel: &mut Kernel) -> u64
    ensures { (kernel.new.state ≡ kernel.old.state) × (kernel.new.events ≡ kernel.old.events) }
{
    let digest = with_marks(with_kinds(1, left), marks);
    if kernel.is_halted() {
        return digest;
    }
    let digest = with_turns(digest, kernel);
    let digest = with_consoles(digest, kernel);
    with_processes(digest, kernel)
}
