ghost use Rattle.std.specs.Prelude.{◌≡◌, ◌≤◌, length, IfOk, IfErr, Err, MatchResult};
ghost use Rattle.vt_lex.specs.Lexing.{most_bytes, AreTokensOf, IsFaultOf};
ghost use Rattle.vt_lex.specs.Spans.{AreSpansIn, BeginWithAt, LiesIn};
ghost use Rattle.vt_type.specs.Constants.{core_constants};
ghost use Rattle.vt_syntax.specs.Leaves.{AreLeaves};
ghost use Rattle.vt_parse.specs.Answer.{IsParsed, IsUnexpected, IsTooDeep};
ghost use Rattle.vt_scope.specs.Faults.{IsFault};
ghost use Rattle.vt_report.specs.Reports.{StandIn};
ghost use Rattle.vt_file.specs.Files.{IsProgramOf, scope_fault, IsSourceOf, IsTypable};
ghost use Rattle.vt_file.specs.Refusals.{IsNoProgram, IsFileFault};

use crate::fault::{FileFault, refused};
use crate::places::{end_of, place_at, place_of};
use crate::source::Source;
use std::alloc::{AllocError, Global};
use std::str;
use vt_lex::{LexFault, Token, Word, lex, word_at};
use vt_parse::{ParseFault, parse};
use vt_report::Refusal;
use vt_scope::{ScopeFault, resolve};
use vt_syntax::Program;
use vt_type::Constants;

/// The most bytes that a file may have.
pub const LARGEST_FILE: usize = 262144;

/// The program of a file that is not too long, with its core.
pub fn read(alloc: Global, bytes: &[u8]) -> Result<Source<'_>, FileFault>
    requires { length bytes.now ≤ most_bytes }
    ensures text { IfOk result (λ s. s.text.now ≡ bytes.now) }
    ensures source { IfOk result (λ s. IsSourceOf bytes.now s.program s.resolved.core s.resolved.leaves s.resolved.tables.dims) }
    ensures places { IfOk result (λ s. StandIn bytes.now s.resolved.leaves) }
    ensures leaves { IfOk result (λ s. AreLeaves s.resolved.core s.resolved.leaves) }
    ensures constants { IfOk result (λ s. s.constants ≡ core_constants) }
    ensures typable { IfOk result (λ s. IsTypable s.resolved.core (length s.resolved.tables.dims)) }
    ensures fault { IfErr result (IsFileFault bytes.now) }
{
    let text = text_of(bytes)?;
    let tokens = tokens_of(alloc, text)?;
    let source = source_of(alloc, text, &tokens);
    drop(tokens);
    source
}

fn text_of(bytes: &[u8]) -> Result<&str, FileFault>
    requires { length bytes.now ≤ most_bytes }
    ensures { MatchResult result (λ text. text.now ≡ bytes.now) (IsFileFault bytes.now) }
{
    match str::from_utf8(bytes) {
        Ok(text) => Ok(text),
        Err(error) => {
            let at = error.valid_up_to() as u32;
            Err(FileFault::Refused(Refusal::NotText { at }))
        }
    }
}

fn tokens_of(alloc: Global, text: &str) -> Result<Vec<Token>, FileFault>
    requires { length text.now ≤ most_bytes }
    ensures tokens { IfOk result (λ tokens. AreTokensOf text.now tokens.items) }
    ensures spans { IfOk result (λ tokens. AreSpansIn text.now tokens.items) }
    ensures dimensions { IfOk result (λ tokens. BeginWithAt text.now tokens.items) }
    ensures fault { IfErr result (IsFileFault text.now) }
{
    match lex(alloc, text) {
        Ok(tokens) => Ok(tokens),
        Err(fault) => Err(missed(text, fault)),
    }
}

// The first place at which no token stands.
fn missed(text: &str, fault: LexFault) -> FileFault
    requires within { length text.now ≤ most_bytes }
    requires fault { IsFaultOf text.now fault }
    requires place { LiesIn text.now fault }
    ensures { IsFileFault text.now result }
{
    match fault {
        LexFault::BadCharacter { at } => {
            let at = place_at(text, at);
            FileFault::Refused(Refusal::BadCharacter { at })
        }
        LexFault::OpenString { at } => {
            let at = place_at(text, at);
            FileFault::Refused(Refusal::OpenString { at })
        }
        LexFault::BigNumber { span } => {
            let at = place_at(text, span.start);
            FileFault::Refused(Refusal::BigNumber { at })
        }
        LexFault::Memory => FileFault::Memory,
    }
}

// The program of the tokens, over constants that are made here, once for scope and typing.
fn source_of<'a>(alloc: Global, text: &'a str, tokens: &[Token]) -> Result<Source<'a>, FileFault>
    requires within { length text.now ≤ most_bytes }
    requires tokens { AreTokensOf text.now tokens.now }
    requires spans { AreSpansIn text.now tokens.now }
    requires dimensions { BeginWithAt text.now tokens.now }
    ensures text { IfOk result (λ s. s.text.now ≡ text.now) }
    ensures source { IfOk result (λ s. IsSourceOf text.now s.program s.resolved.core s.resolved.leaves s.resolved.tables.dims) }
    ensures places { IfOk result (λ s. StandIn text.now s.resolved.leaves) }
    ensures leaves { IfOk result (λ s. AreLeaves s.resolved.core s.resolved.leaves) }
    ensures constants { IfOk result (λ s. s.constants ≡ core_constants) }
    ensures typable { IfOk result (λ s. IsTypable s.resolved.core (length s.resolved.tables.dims)) }
    ensures fault { IfErr result (IsFileFault text.now) }
{
    match program_of(alloc, text, tokens) {
        Ok(program) => resolved_of(alloc, text, tokens, program),
        Err(fault) => Err(fault),
    }
}

fn program_of(alloc: Global, text: &str, tokens: &[Token]) -> Result<Program, FileFault>
    requires within { length text.now ≤ most_bytes }
    requires tokens { AreTokensOf text.now tokens.now }
    requires spans { AreSpansIn text.now tokens.now }
    requires dimensions { BeginWithAt text.now tokens.now }
    ensures read { IfOk result (IsProgramOf text.now tokens.now) }
    ensures fault { IfErr result (IsFileFault text.now) }
{
    match parse(alloc, text, tokens) {
        Ok(program) => Ok(program),
        Err(fault) => Err(refused(no_program(alloc, text, tokens, fault))),
    }
}

// The first token with which no admitted program begins.
fn no_program(
    alloc: Global,
    text: &str,
    tokens: &[Token],
    fault: ParseFault,
) -> Result<Refusal, AllocError>
    requires within { length text.now ≤ most_bytes }
    requires tokens { AreTokensOf text.now tokens.now }
    requires spans { AreSpansIn text.now tokens.now }
    requires fault { IsParsed text.now tokens.now (Err fault) }
    ensures { IfOk result (IsNoProgram text.now) }
{
    match fault {
        ParseFault::Unexpected { token } => unexpected(alloc, text, tokens, token),
        ParseFault::TooDeep { token } => {
            let at = place_of(text, tokens[token].span);
            Ok(Refusal::TooDeep { at })
        }
        ParseFault::Memory => Err(AllocError),
    }
}

fn unexpected(
    alloc: Global,
    text: &str,
    tokens: &[Token],
    number: usize,
) -> Result<Refusal, AllocError>
    requires within { length text.now ≤ most_bytes }
    requires tokens { AreTokensOf text.now tokens.now }
    requires spans { AreSpansIn text.now tokens.now }
    requires unexpected { IsUnexpected text.now tokens.now number }
    ensures { IfOk result (IsNoProgram text.now) }
{
    if number < tokens.len() {
        let span = tokens[number].span;
        let at = place_of(text, span);
        let token = word_at(alloc, text, span)?;
        return Ok(Refusal::Unexpected { at, token });
    }
    let at = end_of(text);
    let token = Word::new(String::from_str(alloc, "end of text")?);
    Ok(Refusal::Unexpected { at, token })
}

fn resolved_of<'a>(
    alloc: Global,
    text: &'a str,
    tokens: &[Token],
    program: Program,
) -> Result<Source<'a>, FileFault>
    requires read { IsProgramOf text.now tokens.now program }
    requires spans { AreSpansIn text.now tokens.now }
    ensures text { IfOk result (λ s. s.text.now ≡ text.now) }
    ensures source { IfOk result (λ s. IsSourceOf text.now s.program s.resolved.core s.resolved.leaves s.resolved.tables.dims) }
    ensures places { IfOk result (λ s. StandIn text.now s.resolved.leaves) }
    ensures leaves { IfOk result (λ s. AreLeaves s.resolved.core s.resolved.leaves) }
    ensures constants { IfOk result (λ s. s.constants ≡ core_constants) }
    ensures typable { IfOk result (λ s. IsTypable s.resolved.core (length s.resolved.tables.dims)) }
    ensures fault { IfErr result (IsFileFault text.now) }
{
    let constants = match Constants::core(alloc) {
        Ok(constants) => constants,
        Err(AllocError) => {
            drop(program);
            return Err(FileFault::Memory);
        }
    };
    match resolve(alloc, &program, &constants) {
        Ok(resolved) => Ok(Source {
            text,
            program,
            resolved,
            constants,
        }),
        Err(fault) => {
            let refusal = out_of_scope(alloc, text, tokens, &program, fault);
            drop(program);
            drop(constants);
            Err(refused(refusal))
        }
    }
}

// The first place that scope refuses.
fn out_of_scope(
    alloc: Global,
    text: &str,
    tokens: &[Token],
    program: &Program,
    fault: ScopeFault,
) -> Result<Refusal, AllocError>
    requires read { IsProgramOf text.now tokens.now program.now }
    requires spans { AreSpansIn text.now tokens.now }
    requires fault { IsFault (scope_fault program.now) fault }
    ensures { IfOk result (IsNoProgram text.now) }
{
    match fault {
        ScopeFault::Unbound { span } => {
            let at = place_of(text, span);
            let name = word_at(alloc, text, span)?;
            Ok(Refusal::Unbound { at, name })
        }
        ScopeFault::TooManyDimensions { span } => {
            let at = place_of(text, span);
            Ok(Refusal::TooManyDimensions { at })
        }
        ScopeFault::Memory => Err(AllocError),
    }
}
