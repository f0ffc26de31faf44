ghost use Rattle.std.specs.Prelude.{◌≡◌, [], ◌∷◌, codes, length, IfOk};
ghost use Rattle.vt_type.specs.Plain.{IsWellFormed};
ghost use Rattle.vt_type.specs.Variational.{IsWellFormedV};
ghost use Rattle.vt_show.specs.Conditions.{DimsBelow};

use crate::spelling::prefix_of_choices;
use std::alloc::{AllocError, Global};
use std::test::Fail;
use vt_show::{laws, read_type, show_pair, show_type};
use vt_type::{ChangeLine, Names, Path, Plain, Tables, VType};

// The tables of a program with one dimension, A.
fn tables(alloc: Global) -> Result<Tables, AllocError>
    ensures { IfOk result (λ t. t.dims ≡ codes "A" ∷ []) }
{
    let mut dims = Names::new(alloc);
    dims.add("A")?;
    let datas = Names::new(alloc);
    Ok(Tables { dims, datas })
}

// The type of a text, in prefix form, and its text.
fn round_trip(alloc: Global, text: &str) -> Result<Option<(String, String)>, AllocError> {
    let tables = tables(alloc)?;
    match read_type(alloc, text, &tables)? {
        Some(vtype) => {
            let texts = both_texts(alloc, &vtype, &tables);
            drop(vtype);
            Ok(Some(texts?))
        }
        None => Ok(None),
    }
}

fn both_texts(alloc: Global, vtype: &VType, tables: &Tables) -> Result<(String, String), AllocError>
    requires well_formed { IsWellFormedV vtype.now }
    requires named { DimsBelow (length tables.now.dims) vtype.now }
{
    let prefix = prefix_of_choices(alloc, vtype)?;
    Ok((prefix, show_type(alloc, vtype, tables)?))
}

// The text is read as the type with this prefix form, which is shown as this text.
fn comes_back(alloc: Global, text: &str, prefix: &str, shown: &str) -> Result<bool, AllocError> {
    match round_trip(alloc, text)? {
        Some((read, again)) => Ok(read.as_str() == prefix && again.as_str() == shown),
        None => Ok(false),
    }
}

fn is_shown_as_read(alloc: Global, text: &str) -> Result<bool, AllocError> {
    match round_trip(alloc, text)? {
        Some((_, again)) => Ok(again.as_str() == text),
        None => Ok(false),
    }
}

#[test]
fn texts_are_read_and_shown(rt: HostRuntime) -> Result<(), Fail> {
    let rows = [
        ("Int", "Int", "Int"),
        ("Bool", "Bool", "Bool"),
        ("String", "String", "String"),
        ("!", "!", "!"),
        ("((Int))", "Int", "Int"),
        ("'b", "'", "'a"),
        ("'c -> 'b12", "Fun '0 '1", "'a -> 'b"),
        ("('a -> 'b) -> 'c", "Fun Fun '00 '01 '1", "('a -> 'b) -> 'c"),
        ("'a -> 'b -> 'c", "Fun '0 Fun '10 '11", "'a -> 'b -> 'c"),
        ("'a -> ('b -> 'a)", "Fun '0 Fun '10 '0", "'a -> 'b -> 'a"),
        (
            "(Int * Int) * Int",
            "Pair Pair Int Int Int",
            "(Int * Int) * Int",
        ),
        (
            "Int * (Int * Int)",
            "Pair Int Pair Int Int",
            "Int * (Int * Int)",
        ),
        (
            "(Int -> Int) * Int",
            "Pair Fun Int Int Int",
            "(Int -> Int) * Int",
        ),
        (
            "Int * Bool -> Int",
            "Fun Pair Int Bool Int",
            "Int * Bool -> Int",
        ),
        (
            "Int -> Int * Int",
            "Fun Int Pair Int Int",
            "Int -> Int * Int",
        ),
        ("[Int -> Int]", "List Fun Int Int", "[Int -> Int]"),
        ("[[Int]] * !", "Pair List List Int !", "[[Int]] * !"),
        (
            "@A{Int -> Int, Int * Int} -> Int",
            "Fun @ Fun Int Int Pair Int Int Int",
            "@A{Int -> Int, Int * Int} -> Int",
        ),
        ("'a -> @A{'a, Int}", "Fun '0 @ '0 Int", "'a -> @A{'a, Int}"),
        (
            "@A{'a -> 'b, Int} * 'b",
            "Pair @ Fun '00 '01 Int '01",
            "@A{'a -> 'b, Int} * 'b",
        ),
    ];
    for (text, prefix, shown) in rows {
        assert!(rt; comes_back(rt.alloc(), text, prefix, shown)?, "{text}");
    }
    Ok(())
}

#[test]
fn other_texts_are_not_read(rt: HostRuntime) -> Result<(), Fail> {
    let rows = [
        "",
        "Int ->",
        "Int -> ",
        "@B{Int, Int}",
        "@A{Int,Int}",
        "@A{Int}",
        "Int ",
        " Int",
        "Int  * Int",
        "Int*Int",
        "'a01",
        "'a0",
        "'A",
        "'",
        "(Int",
        "Int)",
        "[Int",
        "()",
        "Int * Int * Int",
        "int",
        "Int Int",
    ];
    for text in rows {
        assert!(rt; round_trip(rt.alloc(), text)?.is_none(), "{text}");
    }
    Ok(())
}

#[test]
fn letters_go_on_after_z(rt: HostRuntime) -> Result<(), Fail> {
    let text =
        "'a -> 'b -> 'c -> 'd -> 'e -> 'f -> 'g -> 'h -> 'i -> 'j -> 'k -> 'l -> 'm -> 'n -> 'o -> 'p -> 'q -> 'r -> 's -> 't -> 'u -> 'v -> 'w -> 'x -> 'y -> 'z -> 'a1 -> 'b1 -> 'a";
    assert!(rt; is_shown_as_read(rt.alloc(), text)?);
    Ok(())
}

fn variable(alloc: Global, step: u8) -> Result<Plain, AllocError>
    ensures { IfOk result IsWellFormed }
{
    Ok(Plain::Var(Path::new(Vec::from_slice(alloc, &[step])?)))
}

fn wanted(alloc: Global) -> Result<Plain, AllocError>
    ensures { IfOk result IsWellFormed }
{
    let from = variable(alloc, 5);
    let to = variable(alloc, 3);
    Plain::fun(alloc, from?, to?)
}

fn found(alloc: Global) -> Result<Plain, AllocError>
    ensures { IfOk result IsWellFormed }
{
    let left = variable(alloc, 3);
    let right = variable(alloc, 4);
    Plain::pair(alloc, left?, right?)
}

fn shown_change(alloc: Global, wanted: Plain, found: Plain) -> Result<String, AllocError>
    requires wanted { IsWellFormed wanted }
    requires found { IsWellFormed found }
{
    let pair = ChangeLine {
        leaf: 0,
        class: 0,
        wanted,
        result: found,
    };
    match tables(alloc) {
        Ok(tables) => {
            let shown = show_pair(alloc, &pair, &tables);
            drop(pair);
            shown
        }
        Err(error) => {
            drop(pair);
            Err(error)
        }
    }
}

#[test]
fn a_pair_has_one_run_of_letters(rt: HostRuntime) -> Result<(), Fail> {
    let wanted = wanted(rt.alloc());
    let found = found(rt.alloc());
    let shown = shown_change(rt.alloc(), wanted?, found?)?;
    assert_eq!(rt; shown.as_str(), "wants 'a -> 'b, result 'b * 'c");
    laws::one_spelling();
    laws::read_back();
    Ok(())
}
