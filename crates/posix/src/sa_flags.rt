//! Flags of an action.

ghost use Rattle.std.specs.Prelude.{◌∷◌, [], codes};

use bitflags::{Flag, Flags};

/// The flags of an action for a signal (XSH sigaction; numbered as in Linux, sigaction(2)).
/// Written by hand, because each derived function is proved, and the library's macro adds 14.
#[derive(Clone, Copy, Debug, PartialEq, Eq)]
pub struct SaFlags(u32);

impl SaFlags {
    pub const SA_NOCLDSTOP: SaFlags = SaFlags(0x1);

    pub const SA_NOCLDWAIT: SaFlags = SaFlags(0x2);

    pub const SA_SIGINFO: SaFlags = SaFlags(0x4);

    pub const SA_RESTART: SaFlags = SaFlags(0x1000_0000);

    pub const SA_NODEFER: SaFlags = SaFlags(0x4000_0000);

    pub const SA_RESETHAND: SaFlags = SaFlags(0x8000_0000);

    const FLAGS: &'static [Flag<SaFlags>] = &[
        Flag {
            name: "SA_NOCLDSTOP",
            value: SaFlags::SA_NOCLDSTOP,
        },
        Flag {
            name: "SA_NOCLDWAIT",
            value: SaFlags::SA_NOCLDWAIT,
        },
        Flag {
            name: "SA_SIGINFO",
            value: SaFlags::SA_SIGINFO,
        },
        Flag {
            name: "SA_RESTART",
            value: SaFlags::SA_RESTART,
        },
        Flag {
            name: "SA_NODEFER",
            value: SaFlags::SA_NODEFER,
        },
        Flag {
            name: "SA_RESETHAND",
            value: SaFlags::SA_RESETHAND,
        },
    ];
}

impl Flags for SaFlags {
    type Bits = u32;

    ghost use Rattle.std.specs.Prelude.{⊤, ◌∷◌, [], codes};

    ghost exact = { ⊤ };

    ghost table = { (codes "SA_NOCLDSTOP", 1) ∷ (codes "SA_NOCLDWAIT", 2) ∷ (codes "SA_SIGINFO", 4) ∷ (codes "SA_RESTART", 268435456) ∷ (codes "SA_NODEFER", 1073741824) ∷ (codes "SA_RESETHAND", 2147483648) ∷ [] };

    ghost set_of = { λ f. f.0 };

    fn flags<'a>() -> &'a [Flag<SaFlags>] {
        SaFlags::FLAGS
    }

    fn bits(&self) -> u32 {
        self.0
    }

    fn from_bits_retain(bits: u32) -> SaFlags {
        SaFlags(bits)
    }
}
