//! Laws of the definitions, each the contract of a function that does nothing.

ghost use Rattle.std.specs.Prelude.{ℕ, ◌+◌, ◌≡◌, List};
ghost use Rattle.posix.specs.Common.{next_free};
ghost use Rattle.pidalloc.specs.Rows.{Role, row, count_of, is_free_in, unborne_table};
ghost use Rattle.pidalloc.specs.Bags.{Change, after, AreAllowed, times_borne, times_given_up, is_free_after, last_borne};

/// Proves that the rows are a bag of IDs, each in a role.
///
/// Suppose that `bear` and `give_up` are called any number of times, as their contracts allow, on a table with no ID in
/// use. Then the row of each ID counts the calls of `bear` less those of `give_up`, in each role. The last ID given out
/// is that of the last `bear` of a process ID, or 1 if there was none. So the next ID given out is the lowest free one
/// above the last; if there is none, it is the lowest free one from 2 on.
pub fn rows_are_a_bag()
    ensures counts { (pidmax : ℕ) (cs : List Change) → AreAllowed (unborne_table pidmax) cs → (role : Role) (n : ℕ)
        → count_of role (row (after (unborne_table pidmax) cs).rows n) + times_given_up role n cs ≡ times_borne role n cs }
    ensures next { (pidmax last : ℕ) (cs : List Change) → AreAllowed (unborne_table pidmax) cs
        → next_free (is_free_in (after (unborne_table pidmax) cs).rows) last pidmax ≡ next_free (is_free_after cs) last pidmax }
    ensures last { (pidmax : ℕ) (cs : List Change) → (after (unborne_table pidmax) cs).last ≡ last_borne cs }
{}
