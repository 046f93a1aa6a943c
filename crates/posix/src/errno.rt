//! Error numbers.

ghost use Rattle.std.specs.Prelude.{◌≡◌};
ghost use Rattle.posix.specs.Errnos.{errno_number};

/// Why a system call fails: the error numbers of this kernel (errno(3), x86).
#[derive(Clone, Copy)]
pub enum Errno {
    EPERM,
    ENOENT,
    ESRCH,
    EINTR,
    EIO,
    ECHILD,
    EAGAIN,
    EACCES,
    EFAULT,
    EINVAL,
    ENOTTY,
}

impl Errno {
    /// Returns the error number. A call that fails returns it negated.
    pub fn number(self) -> u8
        ensures { result ≡ errno_number self }
    {
        match self {
            Errno::EPERM => 1,
            Errno::ENOENT => 2,
            Errno::ESRCH => 3,
            Errno::EINTR => 4,
            Errno::EIO => 5,
            Errno::ECHILD => 10,
            Errno::EAGAIN => 11,
            Errno::EACCES => 13,
            Errno::EFAULT => 14,
            Errno::EINVAL => 22,
            Errno::ENOTTY => 25,
        }
    }
}
