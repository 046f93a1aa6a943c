//! The actions of a process for signals, field by field.

ghost use Rattle.std.specs.Prelude.{◌≡◌, ◌-◌, ◌<◌, ◌≤◌, true, length, map, slice_index_or, slice_set, vec_capacity};
ghost use Rattle.posix.specs.Common.{initial_action, action_on_exec};
ghost use Rattle.signal.specs.ActionFields.{AreFields, action_at, actions_of, actions_or_blank, blank_actions, handler_from, disposition_on_exec};

use arena::Arena;
use bitflags::Flags;
use posix::{Action, Handler, SaFlags, Sig, SigSet};

/// The disposition of a signal, without the address of a handler (signal(7), Signal dispositions).
#[derive(Clone, Copy)]
enum Disposition {
    /// The signal's default action.
    Default,
    /// The signal is ignored.
    Ignore,
    /// A handler is entered.
    Catch,
}

/// The actions for the 64 signals. Each field of signal s is at index s - 1 of its own array, so there is no padding.
#[derive(Clone, Copy)]
pub struct Actions {
    dispositions: [Disposition; 64],
    /// The addresses of the handlers of caught signals.
    addresses: [i64; 64],
    masks: [SigSet; 64],
    flags: [SaFlags; 64],
}

impl Actions {
    /// Returns the action for a signal.
    pub fn action(&self, sig: Sig) -> Action
        requires { AreFields self.now }
        ensures { result ≡ slice_index_or (actions_of self.now) (sig - 1) initial_action }
    {
        let row = row_of(sig);
        Action {
            handler: handler(self.dispositions[row], self.addresses[row]),
            mask: self.masks[row],
            flags: self.flags[row],
        }
    }

    /// Returns true if the action in a row, the first at 0, is the same in both. Addresses are compared only for caught
    /// signals.
    fn is_same_at(&self, other: &Actions, row: usize) -> bool
        requires row { row < 64 }
        requires mine { AreFields self.now }
        requires other { AreFields other.now }
        ensures { result ≡ true → action_at self.now row ≡ action_at other.now row }
    {
        let mine = handler(self.dispositions[row], self.addresses[row]);
        let others = handler(other.dispositions[row], other.addresses[row]);
        mine == others && self.masks[row] == other.masks[row] && self.flags[row] == other.flags[row]
    }

    /// Returns true if all actions are the same in both.
    fn is_same(&self, other: &Actions) -> bool
        requires mine { AreFields self.now }
        requires other { AreFields other.now }
        ensures { result ≡ true → actions_of self.now ≡ actions_of other.now }
    {
        for row in 0..64 {
            if !self.is_same_at(other, row) {
                return false;
            }
        }
        true
    }

    /// Returns true if all actions are the default ones.
    #[tactic(auto, unfolding(crate::specs::ActionFields::blank_actions))]
    fn are_default(&self) -> bool
        requires { AreFields self.now }
        ensures { result ≡ true → actions_of self.now ≡ actions_of blank_actions }
    {
        self.is_same(&Actions {
            dispositions: [Disposition::Default; 64],
            addresses: [0; 64],
            masks: [SigSet::EMPTY; 64],
            flags: [SaFlags::empty(); 64],
        })
    }

    /// Sets the action for a signal.
    pub fn set(&mut self, sig: Sig, action: Action)
        requires { AreFields self.old }
        ensures action { actions_of self.new ≡ slice_set (actions_of self.old) (sig - 1) action }
        ensures fields { AreFields self.new }
    {
        let row = row_of(sig);
        let (disposition, address) = parts(action.handler);
        self.dispositions[row] = disposition;
        self.addresses[row] = address;
        self.masks[row] = action.mask;
        self.flags[row] = action.flags;
    }

    /// Resets the actions for a new program: caught signals get the default, and masks and flags are cleared (XSH
    /// exec).
    pub fn on_exec(&mut self)
        requires { AreFields self.old }
        ensures actions { actions_of self.new ≡ map action_on_exec (actions_of self.old) }
        ensures fields { AreFields self.new }
    {
        reset_all(&mut self.dispositions);
        let masks = [SigSet::EMPTY; 64];
        let flags = [SaFlags::empty(); 64];
        self.masks = masks;
        self.flags = flags;
    }
}

/// Makes sure that there is an item for actions: the old one, or one with the default actions.
#[tactic(auto, unfolding(crate::specs::ActionFields::blank_actions))]
pub fn keep_actions(kept: &mut Vec<Actions, Arena>)
    requires { 1 ≤ vec_capacity kept.old }
    ensures there { 0 < length kept.new.items }
    ensures same { actions_or_blank kept.new.items ≡ actions_or_blank kept.old.items }
    ensures room { vec_capacity kept.new ≡ vec_capacity kept.old }
{
    if kept.is_empty() {
        kept.push_reserved(Actions {
            dispositions: [Disposition::Default; 64],
            addresses: [0; 64],
            masks: [SigSet::EMPTY; 64],
            flags: [SaFlags::empty(); 64],
        });
    }
}

/// Returns true if both have the same actions. Without an item, they are the default ones.
pub fn are_same_actions(mine: &[Actions], others: &[Actions]) -> bool
    requires mine { AreFields (actions_or_blank mine.now) }
    requires others { AreFields (actions_or_blank others.now) }
    ensures { result ≡ true → actions_of (actions_or_blank mine.now) ≡ actions_of (actions_or_blank others.now) }
{
    if mine.is_empty() {
        return others.is_empty() || others[0].are_default();
    }
    if others.is_empty() {
        return mine[0].are_default();
    }
    mine[0].is_same(&others[0])
}

/// Returns the index of a signal in a table.
pub fn row_of(sig: Sig) -> usize
    ensures value { result ≡ sig - 1 }
    ensures within { result < 64 }
{
    usize::from(sig.number() - 1)
}

/// Returns the handler of an action from its parts.
fn handler(disposition: Disposition, address: i64) -> Handler
    ensures { result ≡ handler_from disposition address }
{
    match disposition {
        Disposition::Default => Handler::Default,
        Disposition::Ignore => Handler::Ignore,
        Disposition::Catch => Handler::At(address),
    }
}

/// Returns the parts of a handler.
fn parts(handler: Handler) -> (Disposition, i64)
    ensures { handler_from result.0 result.1 ≡ handler }
{
    match handler {
        Handler::Default => (Disposition::Default, 0),
        Handler::Ignore => (Disposition::Ignore, 0),
        Handler::At(address) => (Disposition::Catch, address),
    }
}

/// Returns the disposition of a signal after exec: it is no longer caught (XSH exec).
fn on_exec(disposition: Disposition) -> Disposition
    ensures { result ≡ disposition_on_exec disposition }
{
    match disposition {
        Disposition::Ignore => Disposition::Ignore,
        Disposition::Default | Disposition::Catch => Disposition::Default,
    }
}

/// Resets the disposition of each signal for a new program.
fn reset_all(dispositions: &mut [Disposition])
    ensures { dispositions.new ≡ map disposition_on_exec dispositions.old }
{
    for disposition in dispositions.iter_mut() {
        *disposition = on_exec(*disposition);
    }
}
