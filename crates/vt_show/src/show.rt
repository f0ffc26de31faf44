//! The texts of types.
ghost use Rattle.std.specs.Prelude.{◌≡◌, ◌++◌, length, IfOk, OnOk};
ghost use Rattle.std.specs.String.{string_bytes};
ghost use Rattle.vt_type.specs.Plain.{IsWellFormed};
ghost use Rattle.vt_type.specs.Variational.{IsWellFormedV};
ghost use Rattle.vt_type.specs.Text.{text_of};
ghost use Rattle.vt_show.specs.Conditions.{DimsBelow};
ghost use Rattle.vt_show.specs.Pairs.{both_shown, both_text, pair_text};

use crate::letters::{Letters, meet_all};
use crate::level::Level;
use crate::variational::variational;
use crate::writer::{push, write_type};
use std::alloc::{AllocError, Global};
use vt_type::{ChangeLine, Names, Tables, VType};

/// The text of a type, with its variables as letters in the order in which they appear. A declared
/// type is not shown yet.
pub fn show_type(alloc: Global, vtype: &VType, tables: &Tables) -> Result<String, AllocError>
    requires well_formed { IsWellFormedV vtype.now }
    requires dims { DimsBelow (length tables.now.dims) vtype.now }
    ensures { IfOk result (λ text. string_bytes text ≡ text_of tables.now.dims vtype.now) }
{
    let mut letters = Letters::new(alloc);
    meet_all(vtype, alloc, &mut letters)?;
    let mut text = String::new(alloc);
    let written = write_type(vtype, &tables.dims, &letters, Level::Anywhere, &mut text);
    drop(letters);
    match written {
        Ok(()) => Ok(text),
        Err(error) => {
            drop(text);
            Err(error)
        }
    }
}

/// The text of the two types of a change, with letters over both.
pub fn show_pair(alloc: Global, pair: &ChangeLine, tables: &Tables) -> Result<String, AllocError>
    requires wanted { IsWellFormed pair.now.wanted }
    requires outcome { IsWellFormed pair.now.result }
    ensures { IfOk result (λ text. string_bytes text ≡ pair_text pair.now.wanted pair.now.result) }
{
    let wanted = variational(&pair.wanted, alloc)?;
    match variational(&pair.result, alloc) {
        Ok(outcome) => {
            let text = show_both(alloc, &wanted, &outcome, tables);
            drop(outcome);
            drop(wanted);
            text
        }
        Err(error) => {
            drop(wanted);
            Err(error)
        }
    }
}

// The text of a wanted type and the type that results.
fn show_both(
    alloc: Global,
    wanted: &VType,
    outcome: &VType,
    tables: &Tables,
) -> Result<String, AllocError>
    requires wanted { IsWellFormedV wanted.now }
    requires wanted_dims { DimsBelow (length tables.now.dims) wanted.now }
    requires outcome { IsWellFormedV outcome.now }
    requires outcome_dims { DimsBelow (length tables.now.dims) outcome.now }
    ensures { IfOk result (λ text. string_bytes text ≡ both_text tables.now.dims wanted.now outcome.now) }
{
    let mut letters = Letters::new(alloc);
    meet_all(wanted, alloc, &mut letters)?;
    meet_all(outcome, alloc, &mut letters)?;
    let mut text = String::new(alloc);
    let written = write_both(wanted, outcome, &tables.dims, &letters, &mut text);
    drop(letters);
    match written {
        Ok(()) => Ok(text),
        Err(error) => {
            drop(text);
            Err(error)
        }
    }
}

fn write_both(
    wanted: &VType,
    outcome: &VType,
    dims: &Names,
    letters: &Letters,
    out: &mut String,
) -> Result<(), AllocError>
    requires wanted { IsWellFormedV wanted.now }
    requires wanted_dims { DimsBelow (length dims.now) wanted.now }
    requires outcome { IsWellFormedV outcome.now }
    requires outcome_dims { DimsBelow (length dims.now) outcome.now }
    ensures { OnOk result (string_bytes out.new ≡ string_bytes out.old ++ both_shown dims.now letters.now wanted.now outcome.now) }
{
    push(out, "wants ")?;
    write_type(wanted, dims, letters, Level::Anywhere, out)?;
    push(out, ", result ")?;
    write_type(outcome, dims, letters, Level::Anywhere, out)
}
