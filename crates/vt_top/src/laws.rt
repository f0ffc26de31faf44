//! What follows from the contract of [`run`](crate::run) over files and a sink in memory, and that a file
//! has one answer.
ghost use Rattle.std.specs.Prelude.{◌≡◌, ◌-◌, ◌^◌, ◌<◌, ◌≤◌, List, ℕ, length, Some, None, IsSome, Contains};
ghost use Rattle.vt_io.specs.Memory.{IsCalm, held_in, faults_in};
ghost use Rattle.vt_top.specs.Lines.{no_memory_line};
ghost use Rattle.vt_top.specs.Words.{texts, command_of, files_named};
ghost use Rattle.vt_top.specs.Answers.{Out, call_of, IsComplete};
ghost use Rattle.vt_top.specs.Laws.{HasOneFileAnswer};
ghost use Rattle.vt_top.specs.declared.status.Status.{Status as Ending};

use crate::{Status, run};
use std::alloc::Global;
use vt_io::{MemFiles, MemSink};

/// Where the named files are held, no fetch or put is set to fail, no count is full and the sink has
/// room, the defined answer is written with its status, or want of memory.
pub fn run_in_memory(
    alloc: Global,
    words: &[String],
    files: &mut MemFiles,
    sink: &mut MemSink,
) -> Status
    requires calm { IsCalm files.old }
    requires held { (file : List ℕ) → Contains (files_named (command_of (texts words.now))) file → IsSome (held_in files.old file) }
    requires none_fails { sink.old.failing ≡ None }
    requires count { sink.old.faults < 2 ^ 64 - 1 }
    requires room { (status : Ending) (text : List ℕ) → Out (command_of (texts words.now)) (held_in files.old) status text → length text ≤ sink.old.room }
    requires room_for_want { length no_memory_line ≤ sink.old.room }
    ensures { IsComplete (call_of (texts words.now) (held_in files.old) (faults_in files.old) (faults_in files.new) sink.old.faults sink.new.faults (Some sink.old.written) (Some sink.new.written)) result }
{
    run(alloc, words, files, sink)
}

/// A file has no two defined answers: each refusal and each printed type comes exactly where its
/// definition says.
pub fn one_answer()
    ensures { HasOneFileAnswer }
{}
