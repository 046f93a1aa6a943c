//! Options of a wait.

ghost use Rattle.std.specs.Prelude.{◌∷◌, [], codes};

use bitflags::{Flag, Flags};

/// The options of waitpid (XSH waitpid; numbered as in Linux, waitpid(2)).
#[derive(Clone, Copy, Debug, PartialEq, Eq)]
pub struct WaitOptions(u64);

impl WaitOptions {
    pub const WNOHANG: WaitOptions = WaitOptions(1);

    pub const WUNTRACED: WaitOptions = WaitOptions(2);

    pub const WCONTINUED: WaitOptions = WaitOptions(8);

    const FLAGS: &'static [Flag<WaitOptions>] = &[
        Flag {
            name: "WNOHANG",
            value: WaitOptions::WNOHANG,
        },
        Flag {
            name: "WUNTRACED",
            value: WaitOptions::WUNTRACED,
        },
        Flag {
            name: "WCONTINUED",
            value: WaitOptions::WCONTINUED,
        },
    ];
}

impl Flags for WaitOptions {
    type Bits = u64;

    ghost use Rattle.std.specs.Prelude.{⊤, ◌∷◌, [], codes};

    ghost exact = { ⊤ };

    ghost table = { (codes "WNOHANG", 1) ∷ (codes "WUNTRACED", 2) ∷ (codes "WCONTINUED", 8) ∷ [] };

    ghost set_of = { λ o. o.0 };

    fn flags<'a>() -> &'a [Flag<WaitOptions>] {
        WaitOptions::FLAGS
    }

    fn bits(&self) -> u64 {
        self.0
    }

    fn from_bits_retain(bits: u64) -> WaitOptions {
        WaitOptions(bits)
    }
}

/// The options of waitid (XSH waitid; numbered as in Linux, waitid(2)).
#[derive(Clone, Copy, Debug, PartialEq, Eq)]
pub struct WaitidOptions(u64);

impl WaitidOptions {
    /// The bits that name status changes: `WSTOPPED`, `WEXITED` and `WCONTINUED`.
    pub const SORTS: WaitidOptions = WaitidOptions(14);
}

impl WaitidOptions {
    pub const WNOHANG: WaitidOptions = WaitidOptions(1);

    pub const WSTOPPED: WaitidOptions = WaitidOptions(2);

    pub const WEXITED: WaitidOptions = WaitidOptions(4);

    pub const WCONTINUED: WaitidOptions = WaitidOptions(8);

    pub const WNOWAIT: WaitidOptions = WaitidOptions(0x100_0000);

    const FLAGS: &'static [Flag<WaitidOptions>] = &[
        Flag {
            name: "WNOHANG",
            value: WaitidOptions::WNOHANG,
        },
        Flag {
            name: "WSTOPPED",
            value: WaitidOptions::WSTOPPED,
        },
        Flag {
            name: "WEXITED",
            value: WaitidOptions::WEXITED,
        },
        Flag {
            name: "WCONTINUED",
            value: WaitidOptions::WCONTINUED,
        },
        Flag {
            name: "WNOWAIT",
            value: WaitidOptions::WNOWAIT,
        },
    ];
}

impl Flags for WaitidOptions {
    type Bits = u64;

    ghost use Rattle.std.specs.Prelude.{⊤, ◌∷◌, [], codes};

    ghost exact = { ⊤ };

    ghost table = { (codes "WNOHANG", 1) ∷ (codes "WSTOPPED", 2) ∷ (codes "WEXITED", 4) ∷ (codes "WCONTINUED", 8) ∷ (codes "WNOWAIT", 16777216) ∷ [] };

    ghost set_of = { λ o. o.0 };

    fn flags<'a>() -> &'a [Flag<WaitidOptions>] {
        WaitidOptions::FLAGS
    }

    fn bits(&self) -> u64 {
        self.0
    }

    fn from_bits_retain(bits: u64) -> WaitidOptions {
        WaitidOptions(bits)
    }
}
