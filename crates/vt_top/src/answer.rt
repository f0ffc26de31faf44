//! The answer of the words, before it is written.
ghost use Rattle.std.specs.Prelude.{◌≡◌, ◌<◌, ◌≤◌, List, ℕ, length, IsSome, Contains, IfOk, IsErrOf, string_bytes};
ghost use Rattle.std.specs.Option.{option_map};
ghost use Rattle.vt_io.specs.Counts.{Rose};
ghost use Rattle.vt_type.specs.Constants.{core_constants};
ghost use Rattle.vt_type.specs.Variational.{IsWellFormedV};
ghost use Rattle.vt_show.specs.Conditions.{DimsBelow};
ghost use Rattle.vt_report.specs.Lines.{refusal_line};
ghost use Rattle.vt_lex.specs.Lexing.{most_bytes};
ghost use Rattle.vt_file.specs.Files.{IsSourceOf, IsTypable};
ghost use Rattle.vt_top.specs.Lines.{usage_line};
ghost use Rattle.vt_top.specs.Words.{texts, TypeOf, command_of, files_named};
ghost use Rattle.vt_top.specs.Steps.{IsPrinted};
ghost use Rattle.vt_top.specs.Answers.{Out, FileAnswer, GrewByAtMost};

use crate::Status;
use crate::typing::{TypeFault, main_type};
use std::alloc::{AllocError, Global};
use thiserror::Error;
use vt_file::{FileFault, LARGEST_FILE, Source, read};
use vt_io::{FetchFault, Fetched, Files};
use vt_report::{Refusal, refusal_line};
use vt_show::show_type;
use vt_type::{Tables, VType};

// A status and the text that goes with it.
#[derive(Debug, Drop)]
pub(crate) struct Answer {
    pub(crate) status: Status,
    pub(crate) text: String,
}

// Why there is no answer.
#[derive(Debug, Drop, Error)]
pub(crate) enum Fault {
    #[error("a file could not be read")]
    Read,
    #[error("out of memory")]
    Memory,
}

impl From<AllocError> for Fault {
    ghost use Rattle.std.specs.Prelude.{◌≡◌};
    ghost use Rattle.vt_top.specs.declared.answer.Fault.TheVariants.{Memory};

    ghost from_gives = { λ _ fault. fault ≡ Memory };

    fn from(_: AllocError) -> Fault {
        Fault::Memory
    }
}

impl From<FetchFault> for Fault {
    ghost use Rattle.std.specs.Prelude.{◌≡◌};
    ghost use Rattle.vt_top.specs.Faults.{fault_of};

    ghost from_gives = { λ cause fault. fault ≡ fault_of cause };

    fn from(cause: FetchFault) -> Fault {
        match cause {
            FetchFault::Failed => Fault::Read,
            FetchFault::Memory => Fault::Memory,
        }
    }
}

// The answer of the words, with at most one fetch for each file that they name.
pub(crate) fn prepare<F: Files>(
    alloc: Global,
    words: &[String],
    files: &mut F,
) -> Result<Answer, Fault>
    ensures defined { IfOk result (λ a. Out (command_of (texts words.now)) (F.held files.old) a.status (string_bytes a.text)) }
    ensures failed { IsErrOf result Fault.Read → (file : List ℕ) × Contains (files_named (command_of (texts words.now))) file × Rose (F.faults files.old file) (F.faults files.new file) }

    ensures held { (name : List ℕ) → F.held files.new name ≡ F.held files.old name }
    ensures never_falls { (name : List ℕ) → F.faults files.old name ≤ F.faults files.new name }
    ensures fetches { GrewByAtMost (length (files_named (command_of (texts words.now)))) (F.fetches files.old) (F.fetches files.new) }
    ensures no_fault { F.calm files.old → (name : List ℕ) → IsSome (F.held files.old name) → F.faults files.new name ≡ F.faults files.old name }
{
    let Some(name) = file_named(words) else {
        return Ok(usage(alloc)?);
    };
    match files.fetch(alloc, name, LARGEST_FILE)? {
        Fetched::TooLong => Ok(refused(alloc, &Refusal::TooLong)?),
        Fetched::Whole(bytes) => Ok(file_answer(alloc, bytes.as_slice())?),
    }
}

// The file of the words `type FILE`.
fn file_named(words: &[String]) -> Option<&str>
    ensures { option_map (λ file. TypeOf file.now) result ≡ command_of (texts words.now) }
{
    match words {
        [command, file] if command.as_str() == "type" => Some(file.as_str()),
        _ => None,
    }
}

fn usage(alloc: Global) -> Result<Answer, AllocError>
    ensures { IfOk result (λ a. (a.status ≡ Status.Usage) × (string_bytes a.text ≡ usage_line)) }
{
    Ok(Answer {
        status: Status::Usage,
        text: String::from_str(alloc, "usage: vtc COMMAND ARGUMENTS\n")?,
    })
}

fn refused(alloc: Global, refusal: &Refusal) -> Result<Answer, AllocError>
    ensures { IfOk result (λ a. (a.status ≡ Status.Refused) × (string_bytes a.text ≡ refusal_line refusal.now)) }
{
    Ok(Answer {
        status: Status::Refused,
        text: refusal_line(alloc, refusal)?,
    })
}

// The answer of a file that is not too long.
fn file_answer(alloc: Global, bytes: &[u8]) -> Result<Answer, AllocError>
    requires { length bytes.now ≤ most_bytes }
    ensures { IfOk result (λ a. FileAnswer bytes.now a.status (string_bytes a.text)) }
{
    match read(alloc, bytes) {
        Ok(source) => {
            let answer = type_answer(alloc, &source);
            drop(source);
            answer
        }
        Err(FileFault::Refused(refusal)) => refused(alloc, &refusal),
        Err(FileFault::Memory) => Err(AllocError),
    }
}

// The answer of a program in scope: its printed type, unless a part has one that is too big.
fn type_answer(alloc: Global, source: &Source<'_>) -> Result<Answer, AllocError>
    requires source { IsSourceOf source.now.text.now source.now.program source.now.resolved.core source.now.resolved.leaves source.now.resolved.tables.dims }
    requires constants { source.now.constants ≡ core_constants }
    requires typable { IsTypable source.now.resolved.core (length source.now.resolved.tables.dims) }
    ensures { IfOk result (λ a. FileAnswer source.now.text.now a.status (string_bytes a.text)) }
{
    match main_type(alloc, source) {
        Ok(normal) => {
            let answer = printed(alloc, &normal, &source.resolved.tables);
            drop(normal);
            answer
        }
        Err(TypeFault::TooBig { part }) => refused(alloc, &Refusal::TooBigPart { name: part }),
        Err(TypeFault::Memory) => Err(AllocError),
    }
}

// The answer that prints a type.
fn printed(alloc: Global, normal: &VType, tables: &Tables) -> Result<Answer, AllocError>
    requires well_formed { IsWellFormedV normal.now }
    requires dims { DimsBelow (length tables.now.dims) normal.now }
    ensures { IfOk result (λ a. IsPrinted tables.now.dims normal.now a.status (string_bytes a.text)) }
{
    let mut text = show_type(alloc, normal, tables)?;
    text.push_str("\n")?;
    let status = if normal.has_error() {
        Status::Untyped
    } else {
        Status::Done
    };
    Ok(Answer { status, text })
}
