//! Plurals of counted nouns.

ghost use Rattle.std.specs.Prelude.{◌≡◌};
ghost use Rattle.wording.specs.Counted.{plural as plural_of};

/// Returns the plural ending `s`; an empty text for a count of 1.
pub fn plural(count: u64) -> &'static str
    ensures { result.now ≡ plural_of count }
{
    if count == 1 { "" } else { "s" }
}
