ghost use Rattle.std.specs.Prelude.{IfOk};
ghost use Rattle.vt_type.specs.Plain.{IsWellFormed};

use crate::spelling::{prefix, read};
use std::alloc::{AllocError, Global};
use std::test::Fail;
use vt_dec::{Decision, Dim, Side};
use vt_type::{
    ChangeLine, ConstId, Constants, Head, Names, Path, Plain, Selected, Tables, VKids, VType,
    canon, instance_of, laws,
};

fn variable(alloc: Global, step: u8) -> Result<Plain, AllocError>
    ensures { IfOk result IsWellFormed }
{
    Ok(Plain::Var(Path::new(Vec::from_slice(alloc, &[step])?)))
}

#[test]
fn a_canonical_form_is_named_by_first_places(rt: HostRuntime) -> Result<(), Fail> {
    let alloc = rt.alloc();
    let from = variable(alloc, 5)?;
    let to = variable(alloc, 5)?;
    let form = canon(alloc, &Plain::fun(alloc, from, to)?)?;
    assert_eq!(rt; prefix(alloc, &form)?.as_str(), "Fun '0 '0");
    Ok(())
}

#[test]
fn names_have_numbers_in_their_first_order(rt: HostRuntime) -> Result<(), Fail> {
    let mut names = Names::new(rt.alloc());
    assert!(rt; names.is_empty());
    for (name, number) in [("A", 0), ("B", 1), ("A", 0)] {
        assert!(rt; names.len() < 9);
        assert_eq!(rt; names.add(name)?, number, "at {name}");
    }
    assert_eq!(rt; names.len(), 2);
    assert_eq!(rt; names.number_of("B"), Some(1));
    assert_eq!(rt; names.number_of("C"), None);
    assert!(rt; names.name(0) == Some("A"));
    assert!(rt; names.name(2).is_none());
    Ok(())
}

#[test]
fn each_constant_has_its_closed_type(rt: HostRuntime) -> Result<(), Fail> {
    let table = Constants::core(rt.alloc())?;
    let rows = [
        "Fun Int Fun Int Int",
        "Fun Int Fun Int Int",
        "Fun Int Fun Int Int",
        "Fun String Fun String String",
        "Fun '0 Fun '0 Bool",
        "Fun Int Fun Int Bool",
        "Fun '0 Fun List '0 List '0",
        "Fun Bool Fun Bool Bool",
        "Fun Bool Fun Bool Bool",
        "Fun Bool Bool",
        "Fun Int Int",
        "Fun Pair '00 '01 '00",
        "Fun Pair '00 '01 '01",
        "Fun '0 Fun '10 Pair '0 '10",
        "List '0",
        "Fun '0 Fun List '0 List '0",
        "Fun Bool Fun '10 Fun '10 '10",
        "Fun List '00 Fun '10 Fun Fun '00 Fun List '00 '10 '10",
    ];
    let mut id = 0;
    for row in rows {
        assert!(rt; id < 18);
        let closed = table.closed(ConstId(id));
        assert_eq!(rt; prefix(rt.alloc(), closed)?.as_str(), row, "at {id}");
        id += 1;
    }
    assert_eq!(rt; id, 18);
    Ok(())
}

#[test]
fn four_constants_have_a_name(rt: HostRuntime) -> Result<(), Fail> {
    let table = Constants::core(rt.alloc())?;
    assert_eq!(rt; table.find("not"), Some(ConstId(9)));
    assert_eq!(rt; table.find("succ"), Some(ConstId(10)));
    assert_eq!(rt; table.find("fst"), Some(ConstId(11)));
    assert_eq!(rt; table.find("snd"), Some(ConstId(12)));
    for name in ["pair", "and", "+", "nil", "cond", ""] {
        assert_eq!(rt; table.find(name), None, "at {name}");
    }
    Ok(())
}

#[test]
fn an_instance_has_one_image_for_each_variable(rt: HostRuntime) -> Result<(), Fail> {
    let table = Constants::core(rt.alloc())?;
    // special, general, whether it is an instance
    let rows = [
        (ConstId::LESS, ConstId::EQUAL, true),
        (ConstId::EQUAL, ConstId::LESS, false),
        (ConstId::ADD, ConstId::EQUAL, false),
        (ConstId::AND, ConstId::EQUAL, true),
        (ConstId::PREPEND, ConstId::CONS, true),
        (ConstId::CONS, ConstId::EQUAL, false),
        (ConstId::NIL, ConstId::NIL, true),
    ];
    for (special, general, want) in rows {
        assert!(rt; special.0 < 18 && general.0 < 18);
        let got = instance_of(table.closed(special), table.closed(general));
        assert_eq!(rt; got, want);
    }
    Ok(())
}

#[test]
fn a_choice_is_measured_and_searched(rt: HostRuntime) -> Result<(), Fail> {
    let alloc = rt.alloc();
    let int = VType::Con(Head::Int, VKids::Nil);
    assert!(rt; !int.has_error());
    let choice = VType::choice(alloc, Dim(0), int, VType::Err)?;
    assert!(rt; choice.has_error());
    assert_eq!(rt; choice.nodes_within(3), Some(3));
    assert_eq!(rt; choice.nodes_within(2), None);
    let kids = VKids::more(alloc, choice, VKids::Nil)?;
    let list = VType::Con(Head::List, kids);
    assert!(rt; list.has_error());
    assert_eq!(rt; list.nodes_within(9), Some(4));
    Ok(())
}

#[test]
fn records_are_made(rt: HostRuntime) -> Result<(), Fail> {
    let tables = Tables {
        dims: Names::new(rt.alloc()),
        datas: Names::new(rt.alloc()),
    };
    assert!(rt; tables.dims.is_empty() && tables.datas.is_empty());
    let line = ChangeLine {
        leaf: 1,
        class: 0,
        wanted: Plain::bool(),
        result: Plain::int(),
    };
    assert!(rt; !line.wanted.is_same(&line.result));
    laws::same_up_to_renaming();
    laws::canonical_again();
    Ok(())
}

// The decision that takes the right of the first dimension alone.
fn first_right() -> Decision<1> {
    let mut decision = Decision::all_left();
    decision.set(Dim(0), Side::Right);
    decision
}

// What the type of the text selects where A is right, in prefix form.
fn selected(alloc: Global, text: &str) -> Result<Option<String>, AllocError> {
    let vtype = read(alloc, text)?;
    let found = vtype.select(alloc, &first_right());
    drop(vtype);
    match found? {
        Selected::Found(plain) => {
            let text = prefix(alloc, &plain);
            drop(plain);
            Ok(Some(text?))
        }
        Selected::Untyped => Ok(None),
    }
}

#[test]
fn a_type_is_selected(rt: HostRuntime) -> Result<(), Fail> {
    let found = selected(rt.alloc(), "'a -> @A{'a, Int}")?;
    assert!(rt; found.is_some_and(|text| text.as_str() == "Fun '0 Int"));
    assert!(rt; selected(rt.alloc(), "@A{Int, !}")?.is_none());
    Ok(())
}

#[test]
fn a_type_has_a_root_at_a_decision(rt: HostRuntime) -> Result<(), Fail> {
    let function = read(rt.alloc(), "'a -> @A{'a, Int}")?;
    assert!(rt; matches!(function.at(&first_right()), VType::Con(Head::Fun, _)));
    drop(function);
    let choice = read(rt.alloc(), "@A{Int, !}")?;
    assert!(rt; matches!(choice.at(&first_right()), VType::Err));
    drop(choice);
    Ok(())
}
