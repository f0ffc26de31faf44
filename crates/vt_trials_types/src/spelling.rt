//! Types from their texts, and types in prefix form: each head, choice and error before its parts, and a
//! variable as its path after a quote.
ghost use Rattle.std.specs.Prelude.{◌≡◌, [], ◌∷◌, codes, IfOk};
ghost use Rattle.vt_type.specs.Variational.{IsWellFormedV};

use std::alloc::{AllocError, Global};
use vt_show::read_type;
use vt_type::{Head, Names, Path, Plain, PlainKids, Tables, VKids, VType};

/// The tables of a program with the dimensions A and B.
pub fn tables(alloc: Global) -> Result<Tables, AllocError>
    ensures { IfOk result (λ t. t.dims ≡ codes "A" ∷ codes "B" ∷ []) }
{
    let mut dims = Names::new(alloc);
    dims.add("A")?;
    dims.add("B")?;
    let datas = Names::new(alloc);
    Ok(Tables { dims, datas })
}

/// The type that the text spells; an error where it spells none.
pub fn read(alloc: Global, text: &str) -> Result<VType, AllocError>
    ensures { IfOk result IsWellFormedV }
{
    let tables = tables(alloc)?;
    match read_type(alloc, text, &tables)? {
        Some(vtype) => Ok(vtype),
        None => Err(AllocError),
    }
}

pub fn prefix(alloc: Global, plain: &Plain) -> Result<String, AllocError> {
    let mut text = String::new(alloc);
    write_plain(plain, &mut text)?;
    Ok(text)
}

pub fn prefix_of_choices(alloc: Global, vtype: &VType) -> Result<String, AllocError> {
    let mut text = String::new(alloc);
    write_type(vtype, &mut text)?;
    Ok(text)
}

fn write_blank(out: &mut String) -> Result<(), AllocError> {
    if out.is_empty() {
        Ok(())
    } else {
        out.push(' ')
    }
}

fn write_path(path: &Path, out: &mut String) -> Result<(), AllocError> {
    out.push('\'')?;
    for step in path.as_slice() {
        out.push(char::from(b'0' + step % 10))?;
    }
    Ok(())
}

#[cycle(plain)]
fn write_plain(plain: &Plain, out: &mut String) -> Result<(), AllocError> {
    write_blank(out)?;
    match plain {
        Plain::Var(path) => write_path(path, out),
        Plain::Con(head, kids) => {
            out.push_str(head_text(*head))?;
            write_plain_kids(kids, out)
        }
    }
}

#[cycle(plain)]
fn write_plain_kids(kids: &PlainKids, out: &mut String) -> Result<(), AllocError> {
    match kids {
        PlainKids::Nil => Ok(()),
        PlainKids::More(first, others) => {
            write_plain(first.get(), out)?;
            write_plain_kids(others.get(), out)
        }
    }
}

#[cycle(variational)]
fn write_type(vtype: &VType, out: &mut String) -> Result<(), AllocError> {
    write_blank(out)?;
    match vtype {
        VType::Var(path) => write_path(path, out),
        VType::Con(head, kids) => {
            out.push_str(head_text(*head))?;
            write_kids(kids, out)
        }
        VType::Choice(_, left, right) => {
            out.push('@')?;
            write_type(left.get(), out)?;
            write_type(right.get(), out)
        }
        VType::Err => out.push('!'),
    }
}

#[cycle(variational)]
fn write_kids(kids: &VKids, out: &mut String) -> Result<(), AllocError> {
    match kids {
        VKids::Nil => Ok(()),
        VKids::More(first, others) => {
            write_type(first.get(), out)?;
            write_kids(others.get(), out)
        }
    }
}

fn head_text(head: Head) -> &'static str {
    match head {
        Head::Int => "Int",
        Head::Bool => "Bool",
        Head::Text => "String",
        Head::List => "List",
        Head::Pair => "Pair",
        Head::Fun => "Fun",
        Head::Data { .. } => "Data",
    }
}

/// Whether two types are the same tree, with the same dimensions.
#[cycle(same)]
pub fn same(one: &VType, other: &VType) -> bool {
    match (one, other) {
        (VType::Var(one), VType::Var(other)) => one.as_slice() == other.as_slice(),
        (VType::Con(one, kids), VType::Con(other, others)) => {
            one == other && same_kids(kids, others)
        }
        (VType::Choice(one, left, right), VType::Choice(other, first, second)) => {
            one == other && same(left.get(), first.get()) && same(right.get(), second.get())
        }
        (VType::Err, VType::Err) => true,
        _ => false,
    }
}

#[cycle(same)]
fn same_kids(kids: &VKids, others: &VKids) -> bool {
    match (kids, others) {
        (VKids::Nil, VKids::Nil) => true,
        (VKids::More(one, kids), VKids::More(other, others)) => {
            same(one.get(), other.get()) && same_kids(kids.get(), others.get())
        }
        _ => false,
    }
}
