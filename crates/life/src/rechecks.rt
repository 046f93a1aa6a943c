//! The recheck list: the processes to be tested, after this event, for whether they are runnable.

ghost use Rattle.std.specs.Prelude.{◌≡◌, ◌<◌, length};
ghost use Rattle.life.specs.Rechecks.{rechecking, without_gone};

use pidalloc::Order;
use pidset::PidSet;
use posix::Pid;

/// Puts an existing process that has changed on the recheck list, if it is not in the run queue.
#[inline]
pub(crate) fn recheck_later(to_recheck: &mut PidSet, order: &Order, pid: Pid)
    requires { length to_recheck.old.pids < to_recheck.old.room }
    ensures { to_recheck.new ≡ record (to_recheck.old) { pids = rechecking pid order.now.pids to_recheck.old.pids } }
{
    if !order.has(pid) {
        to_recheck.insert(pid);
    }
}

/// Takes a process whose record was removed off the recheck list, and puts its parent there if the parent is not in the
/// run queue.
pub(crate) fn forget(to_recheck: &mut PidSet, order: &Order, pid: Pid, parent: Pid)
    requires { length to_recheck.old.pids < to_recheck.old.room }
    ensures { to_recheck.new ≡ record (to_recheck.old) { pids = without_gone pid parent order.now.pids to_recheck.old.pids } }
{
    recheck_later(to_recheck, order, parent);
    to_recheck.remove(pid);
}
