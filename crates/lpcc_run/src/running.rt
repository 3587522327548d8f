//! The top calls: words, a source and a sink.
ghost use Rattle.std.specs.Prelude.{◌≡◌, IfErr, IfOk, List, OnErr, Option, drop, map, string_bytes};
ghost use Rattle.command.specs.Answers.{IsWritten};
ghost use Rattle.lpcc_run.specs.Answers.{Answers, IsUnread, words_refused};
ghost use Rattle.lpcc_run.specs.Commands.{ReadsNothing, as_asked, by_one_worker};

use crate::dispatch::{command_in, run_command, run_command_as_asked};
use command::{Status, give, give_no_memory};
use lp_io::{Sink, Source};
use std::alloc::Global;
use std::io;
use std::sync::Wait;
use std::thread::Threads;
use verifier::a_status_tells_the_answer;
use worker::Gate;

/// The status where the words are no command.
const NO_COMMAND: Status = 2;

/// Writes that the words are no command. It takes no memory.
fn refuse_words<K: Sink>(out: &mut K) -> Status
    ensures { IsWritten (K.taken out.old) (K.taken out.new) (K.faults out.old) (K.faults out.new) words_refused NO_COMMAND result }
{
    give(b"words: not a command of lpcc\n", NO_COMMAND, out)
}

/// Runs the program on these words, those behind its name, and answers the status that it ends
/// with. `solve` is done with one worker, whatever number of workers the words name. It takes no
/// handle, and always returns.
pub fn run_alone<S: Source, K: Sink>(
    alloc: Global,
    words: &[String],
    src: &mut S,
    out: &mut K,
) -> Status
    // The words are refused exactly where they are no command. To a command the right answer is
    // written, and status 0 says what is so.
    ensures answers { Answers by_one_worker (map string_bytes words.now) (S.left src.old) (S.faults src.old) (S.faults src.new)
        (K.taken out.old) (K.taken out.new) (K.faults out.old) (K.faults out.new) result }

    // Nothing is read where the words are no command, and where a deck is made.
    ensures reads_nothing { ReadsNothing (map string_bytes words.now) → src.new ≡ src.old }
{
    a_status_tells_the_answer();
    match command_in(alloc, words) {
        Ok(Some(command)) => run_command(alloc, command, src, out),
        Ok(None) => refuse_words(out),
        Err(_) => give_no_memory(out),
    }
}

/// Runs the program on these words, those behind its name, as `run_alone` does, but `solve` with as
/// many workers as the words name, each in a thread of its own but the first. What it promises holds
/// if it returns.
pub fn run<R: Threads + Wait + Sync, S: Source, K: Sink, G: Gate + Sync>(
    rt: &R,
    alloc: Global,
    words: &[String],
    gate: &G,
    src: &mut S,
    out: &mut K,
) -> Status
    ensures answers { Answers as_asked (map string_bytes words.now) (S.left src.old) (S.faults src.old) (S.faults src.new)
        (K.taken out.old) (K.taken out.new) (K.faults out.old) (K.faults out.new) result }
    ensures reads_nothing { ReadsNothing (map string_bytes words.now) → src.new ≡ src.old }
{
    a_status_tells_the_answer();
    match command_in(alloc, words) {
        Ok(Some(command)) => run_command_as_asked(rt, alloc, command, gate, src, out),
        Ok(None) => refuse_words(out),
        Err(_) => give_no_memory(out),
    }
}

// Runs the program on the words behind the first, which is its name.
fn run_behind_name<R: Threads + Wait + Sync, S: Source, K: Sink, G: Gate + Sync>(
    rt: &R,
    alloc: Global,
    called: &[String],
    gate: &G,
    src: &mut S,
    out: &mut K,
) -> Status
    ensures answers { Answers as_asked (drop 1 (map string_bytes called.now)) (S.left src.old) (S.faults src.old) (S.faults src.new)
        (K.taken out.old) (K.taken out.new) (K.faults out.old) (K.faults out.new) result }
    ensures reads_nothing { ReadsNothing (drop 1 (map string_bytes called.now)) → src.new ≡ src.old }
{
    match called {
        [] => run(rt, alloc, &[], gate, src, out),
        [_, words @ ..] => run(rt, alloc, words, gate, src, out),
    }
}

/// Runs the program on the words that it was called with, its name first, as `run` does.
pub fn run_called<R: Threads + Wait + Sync, S: Source, K: Sink, G: Gate + Sync>(
    rt: &R,
    alloc: Global,
    called: io::Result<Vec<String>>,
    gate: &G,
    src: &mut S,
    out: &mut K,
) -> Status
    ensures answers { IfOk called (λ words. Answers as_asked (drop 1 (map string_bytes words.items)) (S.left src.old) (S.faults src.old) (S.faults src.new)
        (K.taken out.old) (K.taken out.new) (K.faults out.old) (K.faults out.new) result) }
    ensures reads_nothing { IfOk called (λ words. ReadsNothing (drop 1 (map string_bytes words.items)) → src.new ≡ src.old) }

    // Where the words cannot be had, since one is no text or for want of memory, that is answered.
    ensures unread { OnErr called (IsUnread (K.taken out.old) (K.taken out.new) (K.faults out.old) (K.faults out.new) result) }
    ensures untouched { OnErr called (src.new ≡ src.old) }
{
    match called {
        Ok(words) => run_behind_name(rt, alloc, words.as_slice(), gate, src, out),
        Err(fault) => {
            if fault.kind() == io::ErrorKind::OutOfMemory {
                give_no_memory(out)
            } else {
                refuse_words(out)
            }
        }
    }
}
