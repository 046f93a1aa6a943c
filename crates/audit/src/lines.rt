//! What a line says.

ghost use Rattle.std.specs.Prelude.{◌≡◌, true};
ghost use Rattle.laws.specs.TraceLines.{is_entry};
ghost use Rattle.laws.specs.Lives.{born_by as birth_said};

use posix::{Call, Entry, Pid};

/// Returns the process ID whose life a line begins: the positive result of a fork.
pub(crate) fn born_by(entry: &Entry) -> Option<Pid>
    requires { is_entry entry.now ≡ true }
    ensures { result ≡ birth_said entry.now }
{
    match *entry {
        Entry::Called {
            call: Call::Fork,
            result,
            ..
        } if result > 0 => Pid::new(result as u32),
        _ => None,
    }
}
