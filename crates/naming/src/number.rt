//! The numbers of names.

ghost use Rattle.std.specs.Prelude.{◌≡◌, ◌<◌, ◌≤◌, ◌∷◌, [], IfSome, MatchOption, MatchResult, None, OnErr, OnOk, Some, false, length, option_map, true};
ghost use Rattle.std.specs.List.{position_or_len};
ghost use Rattle.naming.specs.Names.{add, add_name as added, add_names as added_all, bits_of as bits_meant, can_join as can_be_joined, divides as divides_names, is_same, meaning_of, names_in, number_of as number_meant, realtime as realtime_number, sum_number};

use crate::fault::Fault;
use posix::SigSet;
use text::is_separator;
use wording::{Kind, named, realtime as realtime_from, signal_in};

/// The form in which names are written.
#[derive(Clone, Copy, PartialEq, Eq)]
pub enum Form {
    /// One name, or several with `|` between them.
    Joined,
    /// Signals in braces.
    Set,
}

impl Form {
    /// Returns true if a byte separates names in this form.
    fn divides(self, byte: u8) -> bool
        ensures { result ≡ divides_names self byte }
    {
        match self {
            Form::Joined => byte == b'|',
            Form::Set => byte == b'|' || is_separator(byte),
        }
    }
}

/// Returns the number of a real-time signal by its name, `SIGRTMIN+0` to `SIGRTMIN+30`.
#[tactic(auto, unfolding(crate::specs::Names::realtime))]
fn realtime(name: &[u8]) -> Option<i64>
    ensures { result ≡ realtime_number name.now }
{
    realtime_from(name.strip_prefix(b"SIG")?)
}

/// The kind and the number of a name.
#[derive(Clone, Copy)]
pub struct Meaning {
    kind: Kind,
    number: i64,
}

impl Meaning {
    /// Returns the bits of the number; for a signal, the set of that one signal.
    fn bits(self) -> u64
        ensures { result ≡ bits_meant self.kind self.number }
    {
        match self.kind {
            Kind::Signal => match signal_in(self.number) {
                Some(sig) => SigSet::just(sig).bits(),
                None => 0,
            },
            _ => self.number.cast_unsigned(),
        }
    }
}

/// Returns the kind and the number of a name. For an error, the number is negative, because it is the result of a call
/// that fails.
#[tactic(auto, unfolding(crate::specs::Names::meaning_of))]
fn known_as(word: &[u8]) -> Option<Meaning>
    ensures { result ≡ meaning_of word.now }
{
    let (kind, number) = match named(word) {
        Some((Kind::Errno, number)) => (Kind::Errno, number.wrapping_neg()),
        Some(known) => known,
        None => (Kind::Signal, realtime(word)?),
    };
    Some(Meaning { kind, number })
}

/// Returns true if several names of this kind can be combined.
fn can_join(kind: Kind) -> bool
    ensures { result ≡ can_be_joined kind }
{
    matches!(kind, Kind::Signal | Kind::WaitOption | Kind::Flag)
}

/// The first of the names read so far, which are all of one kind, and the bits of all.
#[derive(Clone, Copy)]
struct Sum {
    first: Option<Meaning>,
    is_one: bool,
    bits: u64,
}

impl Sum {
    /// No names.
    const NONE: Sum = Sum {
        first: None,
        is_one: false,
        bits: 0,
    };

    /// Adds a name and returns true. Returns false if the names before it are of another kind.
    fn add(&mut self, known: Meaning) -> bool
        ensures added { result ≡ true → add self.old known ≡ Some self.new }
        ensures refused { result ≡ false → add self.old known ≡ None }
    {
        match self.first {
            Some(first) => {
                if first.kind != known.kind {
                    return false;
                }
                self.is_one = false;
            }
            None => {
                self.first = Some(known);
                self.is_one = true;
            }
        }
        self.bits |= known.bits();
        true
    }

    /// Returns the number of the names. A single name outside braces has its own number. Otherwise, the number is the
    /// bits of all names. `None` if there are several, and names of their kind cannot be combined.
    fn number(&self, form: Form) -> Option<i64>
        ensures { result ≡ sum_number form self.now }
    {
        match self.first {
            Some(first) if form == Form::Joined && self.is_one => Some(first.number),
            Some(first) if !can_join(first.kind) => None,
            _ => Some(self.bits.cast_signed()),
        }
    }
}

/// Adds a name, which may be empty in braces. `first` is the first of all names: the error `TwoKinds` contains it.
fn add_name<'a>(sum: &mut Sum, form: Form, first: &'a [u8], name: &'a [u8]) -> Result<(), Fault<'a>>
    ensures ok { OnOk result (added form sum.old name.now ≡ Some sum.new) }
    ensures err { OnErr result (added form sum.old name.now ≡ None) }
{
    if name.is_empty() {
        return match form {
            Form::Joined => Err(Fault::Missing),
            Form::Set => Ok(()),
        };
    }
    let Some(known) = known_as(name) else {
        return Err(Fault::Unknown(name));
    };
    if form == Form::Set && known.kind != Kind::Signal {
        return Err(Fault::NoSignal(name));
    }
    if sum.add(known) {
        Ok(())
    } else {
        Err(Fault::TwoKinds(first, name))
    }
}

/// Returns the length of the first name, which ends at a separator of names or at the end.
fn name_len(form: Form, names: &[u8]) -> usize
    ensures len { result ≡ position_or_len (divides_names form) names.now }
    ensures within { result ≤ length names.now }
{
    names
        .iter()
        .position(|b| form.divides(*b))
        .unwrap_or(names.len())
}

/// Returns the first name, and the names after it, if a separator of names follows it.
fn first_name(form: Form, names: &[u8]) -> (&[u8], Option<&[u8]>)
    ensures names { MatchOption result.1 (names_in form names.now ≡ result.0.now ∷ []) (λ more. names_in form names.now ≡ result.0.now ∷ names_in form more.now) }
    ensures shorter { IfSome result.1 (λ more. length more.now < length names.now) }
{
    let (name, behind) = names.split_at(name_len(form, names));
    match behind {
        [_, more @ ..] => (name, Some(more)),
        [] => (name, None),
    }
}

/// Returns the number of one name, of a set of signals, or of combined options or flags. Fails if a name is missing or
/// unknown, is not a signal in braces, or cannot be combined with the others.
#[tactic(auto, unfolding(crate::specs::Names::number_of))]
pub fn number_of<'a>(form: Form, names: &'a [u8]) -> Result<i64, Fault<'a>>
    ensures { MatchResult result (λ number. number_meant form names.entry.now ≡ Some number) (λ fault. number_meant form names.entry.now ≡ None) }
{
    let (first, _) = first_name(form, names);
    let mut sum = Sum::NONE;
    let mut rest = names;
    loop {
        let (name, more) = first_name(form, rest);
        add_name(&mut sum, form, first, name)?;
        match more {
            Some(more) => rest = more,
            None => return sum.number(form).ok_or(Fault::Alone(first)),
        }
    }
}
