//! What is searched, and why a search stops.

use counting::Family;
use std::alloc::{AllocError, Global};

/// Why a search stops.
#[derive(Clone, Copy)]
pub enum Stop {
    /// Memory ran out.
    Memory,
    /// There are more states than the first number after as many events as the second number.
    States(usize, u64),
}

impl From<AllocError> for Stop {
    ghost use Rattle.std.specs.Prelude.{◌≡◌};
    ghost use Rattle.merging.specs.declared.search.Stop.TheVariants.{Memory};

    ghost from_gives = { λ _ stop. stop ≡ Memory };

    fn from(_: AllocError) -> Self {
        Stop::Memory
    }
}

/// What is searched: the schedules of a family, for texts in their lines.
#[derive(Clone, Copy)]
pub struct Search<'a, 'f, 't> {
    pub alloc: Global,
    pub family: &'a Family<'f>,
    /// The texts to find.
    pub texts: &'a [&'t str],
}
