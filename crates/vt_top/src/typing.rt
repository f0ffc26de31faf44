//! The types of the parts of a program.
ghost use Rattle.std.specs.Prelude.{◌≡◌, ◌≤◌, length, IfOk, IfErr};
ghost use Rattle.vt_dec.specs.declared.side.Space.TheVariants.{All};
ghost use Rattle.vt_type.specs.Constants.{core_constants};
ghost use Rattle.vt_type.specs.Variational.{IsWellFormedV};
ghost use Rattle.vt_infer.specs.Inferred.{IsInferred};
ghost use Rattle.vt_show.specs.Conditions.{DimsBelow};
ghost use Rattle.vt_file.specs.Files.{IsTypable};
ghost use Rattle.vt_top.specs.Parts.{part_name};
ghost use Rattle.vt_top.specs.Steps.{IsTypeFault, IsPartFault, IsPartType, IsMainType};

use std::alloc::{AllocError, Global};
use thiserror::Error;
use vt_dec::Space;
use vt_file::Source;
use vt_infer::{Typed, infer};
use vt_lex::Word;
use vt_norm::{OutFault, read_out};
use vt_syntax::{CoreProgram, Leaves};
use vt_type::VType;

// The most nodes that a printed type may have.
const LARGEST_TYPE: u64 = 4096;

// Why no type of a program in scope is printed.
#[derive(Debug, Drop, Error)]
pub(crate) enum TypeFault {
    // The type of the part of this name has too many nodes.
    #[error("a type is too big to be printed")]
    TooBig { part: Word },
    // Memory ran out.
    #[error("out of memory")]
    Memory,
}

// The normal form of what a program in scope means, unless a part has a type that is too big.
pub(crate) fn main_type(alloc: Global, source: &Source<'_>) -> Result<VType, TypeFault>
    requires typable { IsTypable source.now.resolved.core (length source.now.resolved.tables.dims) }
    requires constants { source.now.constants ≡ core_constants }
    ensures typed { IfOk result (IsMainType source.now.resolved.core) }
    ensures well_formed { IfOk result IsWellFormedV }
    ensures dims { IfOk result (DimsBelow (length source.now.resolved.tables.dims)) }
    ensures fault { IfErr result (IsTypeFault source.now.resolved.core) }
{
    let core = &source.resolved.core;
    // No leaf is asked about.
    let leaves = Leaves::new(Vec::new(alloc));
    let typed = infer(alloc, core, &source.constants, &leaves, Space::All);
    drop(leaves);
    match typed {
        Ok(typed) => parts_type(alloc, core, &typed),
        Err(AllocError) => Err(TypeFault::Memory),
    }
}

// The normal form of the last part, where no part has a type that is too big.
fn parts_type(alloc: Global, core: &CoreProgram, typed: &Typed<1>) -> Result<VType, TypeFault>
    requires { IsInferred 1 core_constants core.now All typed.now }
    ensures typed { IfOk result (IsMainType core.now) }
    ensures well_formed { IfOk result IsWellFormedV }
    ensures fault { IfErr result (IsTypeFault core.now) }
{
    let count = core.defs.as_slice().len();
    for part in 0..count {
        match part_type(alloc, core, typed, part) {
            Ok(normal) => drop(normal),
            Err(fault) => return Err(fault),
        }
    }
    part_type(alloc, core, typed, count)
}

// The normal form of what a part means, unless it is too big.
fn part_type(
    alloc: Global,
    core: &CoreProgram,
    typed: &Typed<1>,
    part: usize,
) -> Result<VType, TypeFault>
    requires inferred { IsInferred 1 core_constants core.now All typed.now }
    requires within { part ≤ length core.now.defs }
    ensures typed { IfOk result (IsPartType core.now part) }
    ensures well_formed { IfOk result IsWellFormedV }
    ensures fault { IfErr result (IsPartFault core.now part) }
{
    let scheme = &typed.schemes.as_slice()[part];
    let mark = typed.marks.as_slice()[part];
    match read_out(
        alloc,
        &scheme.cells,
        scheme.root,
        &typed.pattern,
        mark,
        LARGEST_TYPE,
    ) {
        Ok(normal) => Ok(normal),
        Err(OutFault::TooBig) => match part_name(alloc, core, part) {
            Ok(part) => Err(TypeFault::TooBig { part }),
            Err(AllocError) => Err(TypeFault::Memory),
        },
        Err(OutFault::Memory) => Err(TypeFault::Memory),
    }
}

// The name of a definition, or that of the main expression.
fn part_name(alloc: Global, core: &CoreProgram, part: usize) -> Result<Word, AllocError>
    ensures { IfOk result (λ name. name ≡ part_name core.now part) }
{
    let defs = core.defs.as_slice();
    if part < defs.len() {
        return defs[part].name.copied(alloc);
    }
    Ok(Word::new(String::from_str(alloc, "-")?))
}
