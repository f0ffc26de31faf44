ghost use Rattle.std.specs.Prelude.{◌≡◌, ◌≤◌, List, ℕ, length, IfSome};
ghost use Rattle.vt_io.specs.Counts.{Rose, Advances};
ghost use Rattle.vt_top.specs.Words.{texts, command_of, files_named};
ghost use Rattle.vt_top.specs.Answers.{Answers, call_of, GrewByAtMost, IsAssured, IsComplete, IsWritten};

use crate::Status;
use crate::answer::{Answer, Fault, prepare};
use std::alloc::Global;
use vt_io::{Files, Sink, SinkFailed};

/// Runs the program: reads the words after its name, fetches the file that they name, and puts the one
/// text of the answer.
pub fn run<F: Files, S: Sink>(
    alloc: Global,
    words: &[String],
    files: &mut F,
    sink: &mut S,
) -> Status
    // The table of answers: when each comes, and what was written.
    ensures answers { Answers (call_of (texts words.now) (F.held files.old) (F.faults files.old) (F.faults files.new) (S.faults sink.old) (S.faults sink.new) (S.written sink.old) (S.written sink.new)) result }

    // One put at most, and one fetch at most for each file that the words name.
    ensures one_put { GrewByAtMost 1 (S.puts sink.old) (S.puts sink.new) }
    ensures fetches { GrewByAtMost (length (files_named (command_of (texts words.now)))) (F.fetches files.old) (F.fetches files.new) }

    // What is held stays, and no count of failures falls.
    ensures held { (name : List ℕ) → F.held files.new name ≡ F.held files.old name }
    ensures read_faults { (name : List ℕ) → F.faults files.old name ≤ F.faults files.new name }
    ensures write_faults { S.faults sink.old ≤ S.faults sink.new }

    // Where the files are calm and told, and the sink is sure of enough room, the defined answer comes.
    ensures complete { F.calm files.old
        → IsAssured (call_of (texts words.now) (F.held files.old) (F.faults files.old) (F.faults files.new) (S.faults sink.old) (S.faults sink.new) (S.written sink.old) (S.written sink.new)) (S.sure sink.old)
        → IsComplete (call_of (texts words.now) (F.held files.old) (F.faults files.old) (F.faults files.new) (S.faults sink.old) (S.faults sink.new) (S.written sink.old) (S.written sink.new)) result }
{
    match prepare(alloc, words, files) {
        Ok(Answer { status, text }) => write(sink, status, text.as_bytes()),
        Err(Fault::Read) => write(sink, Status::ReadFault, b"read failed\n"),
        Err(Fault::Memory) => write(sink, Status::NoMemory, b"out of memory\n"),
    }
}

// Puts the text. The status is `WriteFault` where the put failed.
fn write<S: Sink>(sink: &mut S, status: Status, text: &[u8]) -> Status
    ensures written { IsWritten (S.faults sink.old) (S.faults sink.new) (S.written sink.old) (S.written sink.new) status text.now result }
    ensures sure { IfSome (S.sure sink.old) (λ room. length text.now ≤ room → Rose (S.faults sink.old) (S.faults sink.new) → ⊥) }
    ensures counted { Advances (S.puts sink.old) (S.puts sink.new) }
    ensures never_falls { S.faults sink.old ≤ S.faults sink.new }
{
    match sink.put(text) {
        Ok(()) => status,
        Err(SinkFailed) => Status::WriteFault,
    }
}
