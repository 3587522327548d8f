//! The top calls: words, a source and a sink.
ghost use Rattle.std.specs.Prelude.{◌≡◌, [], IfOk, OnErr, drop};
ghost use Rattle.command.specs.Answers.{IsWritten};
ghost use Rattle.lpccheck.specs.Commands.{Answers, IsUnread, words_refused};

use command::{Status, give, give_no_memory};
use lp_io::{Sink, Source};
use std::alloc::Global;
use std::io;
use std::thread::Threads;
use verifier::{a_status_tells_the_answer, verify, verify_many};

/// The status where there are words.
const WORDS_REFUSED: Status = 2;

/// Writes that the program takes no words. It takes no memory.
fn refuse_words<K: Sink>(out: &mut K) -> Status
    ensures { IsWritten (K.taken out.old) (K.taken out.new) (K.faults out.old) (K.faults out.new) words_refused WORDS_REFUSED result }
{
    give(b"words: lpccheck takes no words\n", WORDS_REFUSED, out)
}

/// Runs the program on these words, those behind its name, and answers the status that it ends
/// with. It takes no handle, and always returns.
pub fn run_check<S: Source, K: Sink>(
    alloc: Global,
    words: &[String],
    src: &mut S,
    out: &mut K,
) -> Status
    // Words are refused. Without words one answer is right, and it is written; status 0 is `yes`.
    ensures answers { Answers words.now (S.left src.old) (S.faults src.old) (S.faults src.new)
        (K.taken out.old) (K.taken out.new) (K.faults out.old) (K.faults out.new) result }

    // Where there are words, nothing is read.
    ensures untouched { (words.now ≡ [] → ⊥) → src.new ≡ src.old }
{
    a_status_tells_the_answer();
    if words.is_empty() {
        verify(alloc, src, out)
    } else {
        refuse_words(out)
    }
}

/// Runs the program as `run_check` does, with cuts tested in as many threads as there are processors.
/// It does not wait, and always returns.
pub fn run_check_many<R: Threads + Sync, S: Source, K: Sink>(
    rt: &R,
    alloc: Global,
    words: &[String],
    src: &mut S,
    out: &mut K,
) -> Status
    // Words are refused. Without words one answer is right, and it is written; status 0 is `yes`.
    ensures answers { Answers words.now (S.left src.old) (S.faults src.old) (S.faults src.new)
        (K.taken out.old) (K.taken out.new) (K.faults out.old) (K.faults out.new) result }

    // Where there are words, nothing is read.
    ensures untouched { (words.now ≡ [] → ⊥) → src.new ≡ src.old }
{
    a_status_tells_the_answer();
    if words.is_empty() {
        verify_many(rt, alloc, src, out)
    } else {
        refuse_words(out)
    }
}

/// Runs the program on the words that it was called with, its name first, as `run_check_many` does.
pub fn run_called<R: Threads + Sync, S: Source, K: Sink>(
    rt: &R,
    alloc: Global,
    called: io::Result<Vec<String>>,
    src: &mut S,
    out: &mut K,
) -> Status
    ensures answers { IfOk called (λ words. Answers (drop 1 words.items) (S.left src.old) (S.faults src.old) (S.faults src.new)
        (K.taken out.old) (K.taken out.new) (K.faults out.old) (K.faults out.new) result) }
    ensures untouched { IfOk called (λ words. (drop 1 words.items ≡ [] → ⊥) → src.new ≡ src.old) }

    // Where the words cannot be had, since one is no text or for want of memory, that is answered.
    ensures unread { OnErr called (IsUnread (K.taken out.old) (K.taken out.new) (K.faults out.old) (K.faults out.new) result) }
    ensures unread_untouched { OnErr called (src.new ≡ src.old) }
{
    match called {
        Ok(words) => match words.as_slice() {
            [] => run_check_many(rt, alloc, &[], src, out),
            [_, words @ ..] => run_check_many(rt, alloc, words, src, out),
        },
        Err(fault) => {
            if fault.kind() == io::ErrorKind::OutOfMemory {
                give_no_memory(out)
            } else {
                refuse_words(out)
            }
        }
    }
}
