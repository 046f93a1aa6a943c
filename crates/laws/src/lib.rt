//! Laws of the definitions, each the contract of a function that does nothing.
//!
//! The comment of each law states it in full, and docs/PROVED.md in short. No law says that a termination, a stop or a
//! continue is ever reported, or that a child is dropped. A terminated process may have no record left: it was
//! reported, or dropped, which no line shows. Worked runs and texts (`Rows`, `AgreeRows`) are computed from the
//! definitions.
#![tactic(auto)]

ghost use Rattle.std.specs.Prelude.{length, ◌++◌, ◌<◌, ℕ, ◌+◌, ◌≤◌, ◌≡◌, ◌≢◌, Bool, true, false, List, Option, [], ◌∷◌, Contains, Some, None, negsuc, IsSomeAnd, ◌/◌, ◌||◌, count_by};
ghost use Rattle.posix.specs.declared.call.Call.{Call};
ghost use Rattle.posix.specs.declared.errno.Errno.TheVariants.{EAGAIN};
ghost use Rattle.posix.specs.declared.event.Event.{Event};
ghost use Rattle.posix.specs.declared.event.Event.TheVariants.{Tick};
ghost use Rattle.posix.specs.declared.entry.Entry.{Entry};
ghost use Rattle.posix.specs.declared.entry.Entry.TheVariants.{Called, NoMemory, Reported, Looked};
ghost use Rattle.posix.specs.declared.process.Blocked.{Blocked};
ghost use Rattle.posix.specs.declared.process.Blocked.TheVariants.{Read};
ghost use Rattle.posix.specs.Common.{Process, is_running, is_zombie, IsRising, World, State, boot, process, change, has_place, current, lose_place, Outcome, silent, Done, Again, finish, refusal, waits_to_read, attempt, attempt_again, IsStep, begin_call, go_on, out_of_call, Line, process_of, numbered, reported, RunsFrom, Runs, IsRegular, IsDistinct, is_free, is_end_word, is_stopped_word, is_continued_word, IsEvent, IsWorld, IsSettled, can_act};
ghost use Rattle.laws.specs.Stamps.{Stamps, without_stamp, IsRisingOrder, HasLeastStamp, Stamping, IsStamped, first_stamping, Move, Leads, stamping_after};
ghost use Rattle.std.specs.List.{AllByRecursion, list_any};
ghost use Rattle.posix.specs.declared.process.Life.TheVariants.{Zombie};
ghost use Rattle.posix.specs.declared.waits.WaitCall.{WaitCall};
ghost use Rattle.laws.specs.Lives.{Laws, laws, IsOfEnd, IsOfStop, IsTold, born_by, begins, ends, stops, reports, reports_or_looks, is_change_word, is_halt, ends_first, last_line, is_living, parent_in};
ghost use Rattle.laws.specs.Keeping.{Died, kept_of};
ghost use Rattle.laws.specs.Agree.{Agree, IsOrderly, IsTraceOf, LivesAndNews, is_birth, count_living, count_zombies};
ghost use Rattle.laws.specs.Memory.{EntriesGrantAll, LinesGrantAll};
ghost use Rattle.laws.specs.Background.{HasSignalledItsGroup};
ghost use Rattle.laws.specs.Turns.{places_before, ticks_in, HasTurn};

/// The run queue is in ascending order of stamps.
///
/// Suppose that each process in the run queue has a stamp, a number; that a process that moves to the end, or enters
/// the queue, gets the next stamp, which is above all others; and that the current process has the lowest stamp. Then
/// the run queue is the list of the processes with a stamp, in ascending order of stamps, at boot and after each
/// event from a regular state. An event changes the run queue only by removals, moves to the end and new processes at
/// the end, and only the current process leaves the run queue or moves to its end. Nothing else of the stamps counts.
pub fn order_is_rising_stamps()
    ensures start { (w : World) → IsStamped (boot w).order first_stamping }
    ensures lose { (p : ℕ) (s : State) (stamps : Stamps) → IsRisingOrder s.order stamps → IsRisingOrder (lose_place s p).order (without_stamp p stamps) }
    ensures moves { (turn : Option ℕ) (old new : List ℕ) (moves : List Move) (t : Stamping) → Leads turn old moves new → IsStamped old t → IsStamped new (stamping_after t moves) }
    ensures event { (old new : State) (event : Event) (entries : List Entry) → IsStep old event entries new → IsRegular old
        → (moves : List Move) × Leads (current old) old.order moves new.order }
    ensures first { (p : ℕ) (s : State) (stamps : Stamps) → IsRisingOrder s.order stamps → current s ≡ Some p → HasLeastStamp p stamps }
    ensures none { (s : State) (stamps : Stamps) → IsRisingOrder s.order stamps → current s ≡ None → (q : ℕ) → stamps q ≡ None }
    ensures only { (xs ys : List ℕ) (stamps : Stamps) → IsRisingOrder xs stamps → IsRisingOrder ys stamps → xs ≡ ys }
{}

/// Every reachable state is regular.
///
/// In a regular state, the processes are in ascending order of process ID, and the IDs are from 1 to pidmax. Process
/// 1 exists and has no parent. A process in the run queue exists, is not a zombie, and is in the queue only once. No
/// zombie but process 1 has children. The members of a process group are in one session; if a process has the ID of
/// the group, it is the session of that process. A set alarm is due after now, at most 1,000,000,000 ticks later.
/// There are as many consoles as the world says, and a session has at most one. The state at boot is regular, and so
/// is each state after it in every run.
pub fn regular_stays()
    ensures start { (w : World) → 1 ≤ w.pidmax → IsRegular (boot w) }
    ensures step { (old new : State) (event : Event) (entries : List Entry) → IsStep old event entries new → IsRegular old → IsRegular new }
    ensures runs { (w : World) (events : List Event) (lines : List Line) (last : State) → 1 ≤ w.pidmax → Runs w events lines last → IsRegular last }
{}

/// No wakeup is lost.
///
/// A living process is runnable if SIGKILL is pending for it. A running process is also runnable if it is in no call,
/// if its call no longer blocks, or if a signal is chosen for delivery to it. At boot, after each event, and so at
/// the end of every run, nothing is left to settle: each runnable process is in the run queue, and each foreground
/// process group has a member in its console's session. So a process that is blocked in a read of its terminal is in
/// the run queue once a line is finished, or once the process is in the background or has no terminal. If the state
/// before an event is regular, each process that enters the run queue by the event is runnable. After a halt, no
/// event changes or prints anything.
pub fn no_wake_is_lost()
    ensures start { (w : World) → IsSettled (boot w) }
    ensures after { (old new : State) (event : Event) (entries : List Entry) → IsStep old event entries new → old.halted ≡ false → IsSettled new }
    ensures given { (old new : State) (event : Event) (entries : List Entry) → IsStep old event entries new → IsRegular old
        → (p : ℕ) → has_place old p ≡ false → has_place new p ≡ true → IsSomeAnd (process new p) (λ r. can_act new r ≡ true) }
    ensures readers { (old new : State) (event : Event) (entries : List Entry) → IsStep old event entries new → old.halted ≡ false
        → (p : ℕ) (r : Process) → process new p ≡ Some r → is_running r.life ≡ true → r.blocked ≡ Some Read → waits_to_read new.consoles r ≡ false → has_place new p ≡ true }
    ensures runs { (w : World) (events : List Event) (lines : List Line) (last : State) → Runs w events lines last → IsSettled last }
    ensures halted { (old new : State) (event : Event) (entries : List Entry) → IsStep old event entries new → old.halted ≡ true → new ≡ old }
    ensures silent { (old new : State) (event : Event) (entries : List Entry) → IsStep old event entries new → old.halted ≡ true → entries ≡ [] }
{}

/// Every process in the run queue becomes current.
///
/// A process in the run queue that is not current stays there, and no event increases the number of processes before
/// it. Each tick (a key is no tick) decreases that number by one, unless the machine has halted, if no process is in
/// the run queue twice, as in every regular state. A process with none before it is current. So, in a run without a
/// halt and with at least as many ticks as there are processes before it, the process becomes current.
pub fn turns_come()
    ensures stays { (old new : State) (event : Event) (entries : List Entry) → IsStep old event entries new
        → (q : ℕ) → has_place old q ≡ true → current old ≢ Some q → has_place new q ≡ true }
    ensures nears { (old new : State) (event : Event) (entries : List Entry) → IsStep old event entries new
        → (q : ℕ) → has_place old q ≡ true → current old ≢ Some q → places_before q new.order ≤ places_before q old.order }
    ensures tick { (old new : State) (entries : List Entry) → IsStep old Tick entries new → old.halted ≡ false → IsDistinct old.order
        → (q : ℕ) → has_place old q ≡ true → current old ≢ Some q → places_before q old.order ≡ places_before q new.order + 1 }
    ensures turn { (s : State) (q : ℕ) → has_place s q ≡ true → places_before q s.order ≡ 0 → current s ≡ Some q }
    ensures comes { (q k : ℕ) (old last : State) (events : List Event) (lines : List Line) → RunsFrom k old events lines last → last.halted ≡ false
        → has_place old q ≡ true → places_before q old.order ≤ ticks_in events → HasTurn q k old events lines last }
{}

/// A call that fails changes little.
///
/// A call with a negative result other than -4 (EINTR), even from the background, and a call for which the host has
/// no memory, changes only the result register, the pc and the blocked call of its caller. If nothing is left to
/// settle, and the process table is in ascending order, the whole event changes no more than that. A call that a
/// signal interrupts returns -4, and a handler is entered; this law doesn't cover it. A blocked call that is
/// attempted again needs no memory. A call that is restarted, from the background, doesn't fail: it prints nothing,
/// and generates SIGTTIN or SIGTTOU for its caller's process group. It changes nothing else, except that the caller
/// leaves a call that it was blocked in.
pub fn refusals_change_little()
    ensures refused { (granted : Bool) (s : State) (me : Process) (call : Call) (o : Outcome) → attempt granted s me call ≡ Done o
        → (p n : ℕ) (called : Call) → n ≢ 3 → Contains o.entries (Called p called (negsuc n)) → o.state ≡ finish s me.pid ((0, negsuc n) ∷ []) }
    ensures no_memory { (granted : Bool) (s : State) (me : Process) (call : Call) (o : Outcome) → attempt granted s me call ≡ Done o
        → (p : ℕ) (called : Call) → Contains o.entries (NoMemory p called) → o.state ≡ finish s me.pid ((0, refusal EAGAIN) ∷ []) }
    ensures again_refused { (s : State) (me : Process) (blocked : Blocked) (o : Outcome) → attempt_again s me blocked ≡ Done o
        → (p n : ℕ) (called : Call) → Contains o.entries (Called p called (negsuc n)) → o.state ≡ finish s me.pid ((0, negsuc n) ∷ []) }
    ensures again_no_memory { (s : State) (me : Process) (blocked : Blocked) (o : Outcome) → attempt_again s me blocked ≡ Done o
        → (p : ℕ) (called : Call) → Contains o.entries (NoMemory p called) → o.state ≡ finish s me.pid ((0, refusal EAGAIN) ∷ []) }
    ensures begins_again { (granted : Bool) (s : State) (me : Process) (call : Call) (t : State) → attempt granted s me call ≡ Again t
        → (begin_call s me (attempt granted s me call) ≡ silent t) × HasSignalledItsGroup s me t }
    ensures again_begins_again { (s : State) (me : Process) (blocked : Blocked) (t : State) → attempt_again s me blocked ≡ Again t
        → (go_on s me (attempt_again s me blocked) ≡ silent (change t me.pid out_of_call)) × HasSignalledItsGroup s me t }
    ensures event_refused { (old new : State) (event : Event) (entries : List Entry) → IsStep old event entries new → IsRising old.processes → IsSettled old
        → (p n : ℕ) (call : Call) → n ≢ 3 → Contains entries (Called p call (negsuc n)) → new ≡ finish old p ((0, negsuc n) ∷ []) }
    ensures event_no_memory { (old new : State) (event : Event) (entries : List Entry) → IsStep old event entries new → IsRising old.processes → IsSettled old
        → (p : ℕ) (call : Call) → Contains entries (NoMemory p call) → new ≡ finish old p ((0, refusal EAGAIN) ∷ []) }
{}

/// Runs are determined.
///
/// The host decides only one thing: whether it grants the memory that a call needs. A fork needs some for the child,
/// and a kill or sigqueue needs some if it would queue a real-time signal. If the host does not grant the memory, a
/// line says so. So from each state, as from the boot of each world, the events have exactly one run in which no line
/// says that there was no memory.
pub fn determined()
    ensures exists { (k : ℕ) (old : State) (events : List Event) → (last : State) × (lines : List Line) × RunsFrom k old events lines last × LinesGrantAll lines }
    ensures step { (old new other : State) (event : Event) (shown others : List Entry) → IsStep old event shown new → IsStep old event others other
        → EntriesGrantAll shown → EntriesGrantAll others → (shown ≡ others) × (new ≡ other) }
    ensures runs_from { (k : ℕ) (old last other : State) (events : List Event) (lines others : List Line) → RunsFrom k old events lines last → RunsFrom k old events others other
        → LinesGrantAll lines → LinesGrantAll others → (lines ≡ others) × (last ≡ other) }
    ensures runs { (world : World) (last other : State) (events : List Event) (lines others : List Line) → Runs world events lines last → Runs world events others other
        → LinesGrantAll lines → LinesGrantAll others → (lines ≡ others) × (last ≡ other) }
{}

/// The laws of a trace, in terms of its lines; the lines of each run keep them, as [`lines_tell_of_states`] says.
/// `before`, `between` and `after` are the other lines of the trace, `c` is a process ID, and a life of `c` begins
/// with the line of a fork that returns `c`, or, for process 1, with the trace. A wait with WNOWAIT reports a status
/// change without consuming it; any other wait consumes what it reports.
///
/// After a wait has consumed a termination of `c`, no wait reports a termination of `c` until the next life of `c`
/// begins. A termination is reported to the parent of that moment, with the wait status of the termination, which no
/// wait has consumed before. After a wait has consumed a stop or a continue, no wait reports a stop until `c` stops
/// again; after a wait has consumed a continue, no wait reports a continue until then. A stop is reported to the
/// parent of that moment, of a process that was stopped by that signal, and has neither stopped again nor terminated
/// since. A continue is reported to the parent of that moment, of a process that was stopped, and has neither stopped
/// again nor terminated since. Waits report only wait statuses of terminations, stops and continues. A line of a
/// process is within its life, and a fork doesn't return the ID of a living process. After its termination, `c` has
/// no line until its next life begins, and that begins only after the termination. `halt` comes right after the
/// termination of process 1, nothing else comes there, and nothing follows `halt`. Event numbers don't decrease.
pub fn traces_keep_laws()
    ensures no_end_is_reported_twice { (before between after : List Line) (a b : Line) (c : ℕ) → Laws (before ++ a ∷ between ++ b ∷ after)
        → reports c is_end_word a ≡ true → reports_or_looks c is_end_word b ≡ true → list_any (begins c) between ≡ true }
    ensures ends_are_reported_to_the_parent { (before after : List Line) (l : Line) (p : ℕ) (call : WaitCall) (c w : ℕ) → Laws (before ++ l ∷ after)
        → l.entry ≡ Reported p call c w → is_end_word w ≡ true → IsOfEnd before p c w }
    ensures ends_are_looked_at_by_the_parent { (before after : List Line) (l : Line) (p c w : ℕ) → Laws (before ++ l ∷ after)
        → l.entry ≡ Looked p c w → is_end_word w ≡ true → IsOfEnd before p c w }
    ensures no_stop_is_reported_twice { (before between after : List Line) (a b : Line) (c : ℕ) → Laws (before ++ a ∷ between ++ b ∷ after)
        → reports c is_change_word a ≡ true → reports_or_looks c is_stopped_word b ≡ true → list_any (stops c) between ≡ true }
    ensures no_continue_is_reported_twice { (before between after : List Line) (a b : Line) (c : ℕ) → Laws (before ++ a ∷ between ++ b ∷ after)
        → reports c is_continued_word a ≡ true → reports_or_looks c is_continued_word b ≡ true → list_any (stops c) between ≡ true }
    ensures stops_are_told_to_the_parent { (before after : List Line) (l : Line) (p c w : ℕ) → Laws (before ++ l ∷ after)
        → IsTold p c w l.entry → is_stopped_word w ≡ true → IsOfStop before p c (w / 256) is_change_word }
    ensures continues_are_told_to_the_parent { (before after : List Line) (l : Line) (p c w : ℕ) → Laws (before ++ l ∷ after)
        → IsTold p c w l.entry → is_continued_word w ≡ true → (s : ℕ) × IsOfStop before p c s is_continued_word }
    ensures what_is_told_is_a_status { (before after : List Line) (l : Line) (p c w : ℕ) → Laws (before ++ l ∷ after)
        → IsTold p c w l.entry → (is_end_word w || is_change_word w) ≡ true }
    ensures lines_stand_in_lives { (before after : List Line) (l : Line) (c : ℕ) → Laws (before ++ l ∷ after)
        → process_of l.entry ≡ Some c → is_living before c ≡ true }
    ensures nobody_is_born_who_lives { (before after : List Line) (l : Line) (c : ℕ) → Laws (before ++ l ∷ after)
        → born_by l.entry ≡ Some c → is_living before c ≡ false }
    ensures nothing_comes_after_an_end { (before between after : List Line) (a b : Line) (c : ℕ) → Laws (before ++ a ∷ between ++ b ∷ after)
        → ends c a ≡ true → process_of b.entry ≡ Some c → list_any (begins c) between ≡ true }
    ensures lives_are_apart { (before between after : List Line) (a b : Line) (c : ℕ) → Laws (before ++ a ∷ between ++ b ∷ after)
        → begins c a ≡ true → begins c b ≡ true → list_any (ends c) between ≡ true }
    ensures halt_comes_after_the_end_of_process_1 { (before after : List Line) (l : Line) → Laws (before ++ l ∷ after)
        → is_halt l.entry ≡ true → (ends_first (last_line before) ≡ true) × (after ≡ []) }
    ensures after_the_end_of_process_1_comes_halt { (before after : List Line) (a b : Line) → Laws (before ++ a ∷ b ∷ after)
        → ends 1 a ≡ true → is_halt b.entry ≡ true }
    ensures event_numbers_never_fall { (before between after : List Line) (a b : Line) → Laws (before ++ a ∷ between ++ b ∷ after) → a.event ≤ b.event }
    ensures line_by_line { (before : List Line) (l : Line) → Laws before → laws before l ≡ true → Laws (before ++ l ∷ []) }
    ensures of_each_line { (before after : List Line) (l : Line) → Laws (before ++ l ∷ after) → Laws before × (laws before l ≡ true) }
{}

/// The lines of a run agree with its states.
///
/// Some lines are the trace of a state, after a number of events, if each line has a form, with all numbers within
/// their ranges, and the lines agree with the state. Lines agree with a state if they keep the laws of a trace, and
/// if:
/// - the living processes are the lives that have not ended, each with its parent;
/// - a zombie is a life that has ended, and that no wait has reaped, with its wait status and its parent;
/// - a stop to be reported is the last one, and no wait has consumed it or its continue, and no wait has consumed a
/// continue to be reported;
/// - the processes ever created are the living, the zombies, those whose termination a wait has consumed, and the
/// dropped;
/// - the machine has halted exactly if the last line is `halt`.
///
/// A regular state is orderly if each stopped process in the run queue has SIGKILL pending, and all parts are of
/// their kinds. The state at boot is orderly, and the empty trace is its trace. An event leads from a regular and
/// orderly state to an orderly one, and the lines so far, followed by those of the event, are the trace of the new
/// state. A new process has an ID that no process, process group or session had in the state before. So the lines of
/// a run are the trace of its last state, and in any world they agree with it.
pub fn lines_tell_of_states()
    ensures start { (w : World) → IsWorld w → IsOrderly (boot w) }
    ensures begins { (w : World) → IsTraceOf [] 0 (boot w) }
    ensures orderly { (old new : State) (event : Event) (entries : List Entry) → IsStep old event entries new → IsEvent event → IsRegular old → IsOrderly old → IsOrderly new }
    ensures step { (old new : State) (event : Event) (entries : List Entry) → IsStep old event entries new → IsEvent event → IsRegular old → IsOrderly old
        → (lines : List Line) (k : ℕ) → k < 1000000000000 → IsTraceOf lines k old → IsTraceOf (lines ++ numbered (k + 1) entries) (k + 1) new }
    ensures no_number_is_given_out_twice { (old new : State) (event : Event) (entries : List Entry) → IsStep old event entries new
        → (e : Entry) (n : ℕ) → Contains entries e → born_by e ≡ Some n → is_free old.processes n ≡ true }
    ensures runs { (w : World) (events : List Event) (lines : List Line) (last : State) → 1 ≤ w.pidmax → IsWorld w → AllByRecursion IsEvent events
        → length events ≤ 1000000000000 → Runs w events lines last → IsTraceOf lines (length events) last }
    ensures agrees { (w : World) (events : List Event) (lines : List Line) (last : State) → 1 ≤ w.pidmax → Runs w events lines last → Agree lines (length events) last }
    ensures lawful { (lines : List Line) (k : ℕ) (s : State) → Agree lines k s → Laws lines }
    ensures births_are_accounted_for { (lines : List Line) (k : ℕ) (s : State) → Agree lines k s
        → (s.births ≡ 1 + count_by is_birth lines) × (s.births ≡ count_living s + count_zombies s + reported lines + s.dropped) }
    ensures living_are_open_lives { (lines : List Line) (k : ℕ) (s : State) → Agree lines k s → (p : ℕ)
        → ((r : Process) → process s p ≡ Some r → is_zombie r.life ≡ false → (is_living lines p ≡ true) × (parent_in lines p ≡ Some r.parent))
        × (is_living lines p ≡ true → IsSomeAnd (process s p) (λ r. is_zombie r.life ≡ false)) }
    ensures zombies_are_ended_lives { (lines : List Line) (k : ℕ) (s : State) → Agree lines k s → (p w : ℕ) (r : Process) → process s p ≡ Some r → r.life ≡ Zombie w
        → kept_of lines p ≡ Died (record { parent = r.parent; status = w; reported = false }) }
    ensures lives_and_news { (lines : List Line) (k : ℕ) (s : State) → Agree lines k s → LivesAndNews s }
{}
