//! The function that the page calls: the commands of the program, over texts in memory.
//!
//! The export serves the same commands as the program, over texts in memory (`answer`): one export with command lines
//! has the contracts of all commands. The clauses `run` and `audit` say what a status means for these two commands. The
//! caller's buffer gets the output, and is unchanged if the output does not fit (`IsGiven`).
#![tactic(auto)]

mod answers;
mod files;
mod keys;
mod nobody;
mod words;

ghost use Rattle.std.specs.Prelude.{◌≡◌, ◌≤◌, ℕ, List, length, take};
ghost use Rattle.page.specs.Answers.{IsAnswered, IsAudited, IsGiven, IsRun, IsTrace};
ghost use Rattle.page.specs.Words.{text_of, words_to_audit, words_to_run};

use crate::answers::{answer_to, give};
use crate::files::TextFiles;
use crate::keys::GivenKeys;
use std::alloc::Global;
use std::hash::RandomState;

/// Runs a command, and returns the exit status of the program: 0 on success, 1 if an input is rejected or a trace is
/// faulty, 2 for a usage error, 3 if a file cannot be read or memory runs out, 4 if `explore` found what it looked for.
///
/// In `words` each argument ends with a zero byte. The files are `trace`, `world` and `events`, and there is no
/// terminal. An audit hashes with the keys `key0` and `key1`; its result does not depend on them. `out` gets the
/// standard output, and `told` the standard error, each only if all of it fits. The counts are the numbers of bytes,
/// even if they don't fit.
#[unsafe(no_mangle)]
pub extern "C" fn serve(
    alloc: Global,
    words: &[u8],
    trace: &[u8],
    world: &[u8],
    events: &[u8],
    key0: u64,
    key1: u64,
    out: &mut [u8],
    out_count: &mut u64,
    told: &mut [u8],
    told_count: &mut u64,
) -> u8
    ensures most { result ≤ 4 }
    ensures answer { (put : List ℕ) × IsAnswered words.now trace.now world.now events.now put result × IsGiven put out.old out.new out_count.new }
    ensures told { (text : List ℕ) × IsGiven text told.old told.new told_count.new }
    ensures run { words.now ≡ text_of words_to_run → (put : List ℕ) × IsRun world.now events.now put result × IsGiven put out.old out.new out_count.new }
    ensures audit { words.now ≡ text_of words_to_audit → (put : List ℕ) × IsAudited trace.now put result × IsGiven put out.old out.new out_count.new }
    ensures traced { words.now ≡ text_of words_to_run → result ≡ 0 → out_count.new ≤ length out.old → IsTrace world.now events.now (take out_count.new out.new) }
{
    let files = TextFiles {
        alloc,
        trace,
        world,
        events,
    };
    let keys = RandomState::new(&GivenKeys { key0, key1 }).ok();
    let answer = answer_to(alloc, words, &files, keys);
    *out_count = give(answer.put.as_slice(), out) as u64;
    *told_count = give(answer.told.as_slice(), told) as u64;
    answer.status
}
