//! Reads the text of a type. What is left of the text is handed on from step to step.
ghost use Rattle.std.specs.Prelude.{◌≡◌, ℕ, ◌+◌, ◌<◌, ◌≤◌, ◌==◌, [], ◌∷◌, length, codes, Some, None, position, IfSome, MatchResult, IfOk};
ghost use Rattle.std.specs.List.{prefix_len};
ghost use Rattle.std.specs.Option.{option_map, option_copied};
ghost use Rattle.std.specs.Str.{bytes_eq};
ghost use Rattle.vt_type.specs.declared.vtype.VType.{Var};
ghost use Rattle.vt_type.specs.Variational.{choice, most_dimensions};
ghost use Rattle.vt_show.specs.declared.reader.Miss.TheVariants.{Memory};
ghost use Rattle.vt_show.specs.Steps.{after, is_digit, is_small_letter, has_zero, letter_length, letter_at, word_at, dim_at, one, two, list_with, inside_with, choice_with, atom_with, pair_with, arrow_with, type_at, type_of};
ghost use Rattle.vt_show.specs.Misses.{IfNotSpelled};

use sqlite_items::Boxed;
use std::alloc::{AllocError, Global};
use vt_dec::Dim;
use vt_type::{Head, Names, Path, VKids, VType};

/// Why no type was read.
#[derive(Drop)]
pub(crate) enum Miss {
    /// No type is spelled here.
    NotSpelled,
    Memory(AllocError),
}

impl From<AllocError> for Miss {
    ghost from_gives = { λ error miss. miss ≡ Memory error };

    fn from(error: AllocError) -> Miss {
        Miss::Memory(error)
    }
}

/// The type of a whole text. A variable has the text of its letter for its name.
pub(crate) fn read_whole(alloc: Global, text: &[u8], dims: &Names) -> Result<Boxed<VType>, Miss>
    requires { length dims.now ≤ most_dimensions }
    ensures { MatchResult result (λ vtype. type_of dims.now text.now ≡ Some vtype) (IfNotSpelled (type_of dims.now text.now ≡ None)) }
{
    let (vtype, rest) = read_arrow(alloc, text, dims)?;
    if rest.is_empty() {
        Ok(vtype)
    } else {
        Err(Miss::NotSpelled)
    }
}

#[cycle(reader)]
fn read_arrow<'a>(
    alloc: Global,
    text: &'a [u8],
    dims: &Names,
) -> Result<(Boxed<VType>, &'a [u8]), Miss>
    requires { length dims.now ≤ most_dimensions }
    ensures read { (fuel : ℕ) → length text.now < fuel → MatchResult result (λ found. type_at dims.now fuel text.now ≡ Some (found.0, found.1.now)) (IfNotSpelled (type_at dims.now fuel text.now ≡ None)) }
    ensures shorter { IfOk result (λ found. length found.1.now < length text.now) }
{
    let (from, rest) = read_pair(alloc, text, dims)?;
    let Some(right) = after(rest, b" -> ") else {
        return Ok((from, rest));
    };
    let (to, rest) = read_arrow(alloc, right, dims)?;
    Ok((two(alloc, Head::Fun, from, to)?, rest))
}

#[cycle(reader)]
fn read_pair<'a>(
    alloc: Global,
    text: &'a [u8],
    dims: &Names,
) -> Result<(Boxed<VType>, &'a [u8]), Miss>
    requires { length dims.now ≤ most_dimensions }
    ensures read { (fuel : ℕ) → length text.now ≤ fuel → MatchResult result (λ found. pair_with dims.now (type_at dims.now fuel) text.now ≡ Some (found.0, found.1.now)) (IfNotSpelled (pair_with dims.now (type_at dims.now fuel) text.now ≡ None)) }
    ensures shorter { IfOk result (λ found. length found.1.now < length text.now) }
{
    let (left, rest) = read_atom(alloc, text, dims)?;
    let Some(right) = after(rest, b" * ") else {
        return Ok((left, rest));
    };
    let (right, rest) = read_atom(alloc, right, dims)?;
    Ok((two(alloc, Head::Pair, left, right)?, rest))
}

#[cycle(reader)]
fn read_atom<'a>(
    alloc: Global,
    text: &'a [u8],
    dims: &Names,
) -> Result<(Boxed<VType>, &'a [u8]), Miss>
    requires { length dims.now ≤ most_dimensions }
    ensures read { (fuel : ℕ) → length text.now ≤ fuel → MatchResult result (λ found. atom_with dims.now (type_at dims.now fuel) text.now ≡ Some (found.0, found.1.now)) (IfNotSpelled (atom_with dims.now (type_at dims.now fuel) text.now ≡ None)) }
    ensures shorter { IfOk result (λ found. length found.1.now < length text.now) }
{
    if let Some((vtype, rest)) = word(text) {
        return Ok((Boxed::new(alloc, vtype)?, rest));
    }
    if let Some(rest) = after(text, b"[") {
        return read_list(alloc, rest, dims);
    }
    if let Some(rest) = after(text, b"(") {
        return read_inside(alloc, rest, dims);
    }
    if let Some(rest) = after(text, b"@") {
        return read_choice(alloc, rest, dims);
    }
    read_letter(alloc, text)
}

// The rest of a list, after its bracket.
#[cycle(reader)]
fn read_list<'a>(
    alloc: Global,
    text: &'a [u8],
    dims: &Names,
) -> Result<(Boxed<VType>, &'a [u8]), Miss>
    requires { length dims.now ≤ most_dimensions }
    ensures read { (fuel : ℕ) → length text.now < fuel → MatchResult result (λ found. list_with dims.now (type_at dims.now fuel) text.now ≡ Some (found.0, found.1.now)) (IfNotSpelled (list_with dims.now (type_at dims.now fuel) text.now ≡ None)) }
    ensures shorter { IfOk result (λ found. length found.1.now < length text.now) }
{
    let (item, rest) = read_arrow(alloc, text, dims)?;
    let rest = expect(rest, b"]")?;
    Ok((one(alloc, Head::List, item)?, rest))
}

// The rest of a type in parentheses.
#[cycle(reader)]
fn read_inside<'a>(
    alloc: Global,
    text: &'a [u8],
    dims: &Names,
) -> Result<(Boxed<VType>, &'a [u8]), Miss>
    requires { length dims.now ≤ most_dimensions }
    ensures read { (fuel : ℕ) → length text.now < fuel → MatchResult result (λ found. inside_with dims.now (type_at dims.now fuel) text.now ≡ Some (found.0, found.1.now)) (IfNotSpelled (inside_with dims.now (type_at dims.now fuel) text.now ≡ None)) }
    ensures shorter { IfOk result (λ found. length found.1.now < length text.now) }
{
    let (vtype, rest) = read_arrow(alloc, text, dims)?;
    let rest = expect(rest, b")")?;
    Ok((vtype, rest))
}

// The rest of a choice, from the name of its dimension on.
#[cycle(reader)]
fn read_choice<'a>(
    alloc: Global,
    text: &'a [u8],
    dims: &Names,
) -> Result<(Boxed<VType>, &'a [u8]), Miss>
    requires { length dims.now ≤ most_dimensions }
    ensures read { (fuel : ℕ) → length text.now < fuel → MatchResult result (λ found. choice_with dims.now (type_at dims.now fuel) text.now ≡ Some (found.0, found.1.now)) (IfNotSpelled (choice_with dims.now (type_at dims.now fuel) text.now ≡ None)) }
    ensures shorter { IfOk result (λ found. length found.1.now < length text.now) }
{
    let (dim, rest) = read_dimension(text, dims)?;
    let (left, rest) = read_arrow(alloc, rest, dims)?;
    let rest = expect(rest, b", ")?;
    let (right, rest) = read_arrow(alloc, rest, dims)?;
    let rest = expect(rest, b"}")?;
    Ok((choice(alloc, Dim(dim), left, right)?, rest))
}

// The dimension with the name up to the brace, and what stands after the brace.
fn read_dimension<'a>(text: &'a [u8], dims: &Names) -> Result<(u32, &'a [u8]), Miss>
    requires { length dims.now ≤ most_dimensions }
    ensures read { MatchResult result (λ found. dim_at dims.now text.now ≡ Some (found.0, found.1.now)) (IfNotSpelled (dim_at dims.now text.now ≡ None)) }
    ensures shorter { IfOk result (λ found. length found.1.now < length text.now) }
{
    let Some(brace) = index_of_brace(text) else {
        return Err(Miss::NotSpelled);
    };
    let (name, rest) = text.split_at(brace);
    let Some(number) = number_of(dims, name) else {
        return Err(Miss::NotSpelled);
    };
    Ok((number, &rest[1..]))
}

fn index_of_brace(text: &[u8]) -> Option<usize>
    ensures index { result ≡ position (λ byte. byte == 123) text.now }
    ensures within { IfSome result (λ index. index < length text.now) }
{
    text.iter().position(|byte| *byte == b'{')
}

// The number of a name. There are few names.
fn number_of(dims: &Names, name: &[u8]) -> Option<u32>
    requires { length dims.now ≤ most_dimensions }
    ensures { result ≡ position (bytes_eq name.now) dims.now }
{
    for number in 0..dims.len() as u32 {
        let known = dims.name(number).unwrap();
        if known.as_bytes() == name {
            return Some(number);
        }
    }
    None
}

// A type that is one word or sign.
fn word(text: &[u8]) -> Option<(VType, &[u8])>
    ensures word { option_map (λ found. (found.0, found.1.now)) result ≡ word_at text.now }
    ensures shorter { IfSome result (λ found. length found.1.now < length text.now) }
{
    if let Some(rest) = after(text, b"Int") {
        return Some((VType::Con(Head::Int, VKids::Nil), rest));
    }
    if let Some(rest) = after(text, b"Bool") {
        return Some((VType::Con(Head::Bool, VKids::Nil), rest));
    }
    if let Some(rest) = after(text, b"String") {
        return Some((VType::Con(Head::Text, VKids::Nil), rest));
    }
    let rest = after(text, b"!")?;
    Some((VType::Err, rest))
}

fn read_letter<'a>(alloc: Global, text: &'a [u8]) -> Result<(Boxed<VType>, &'a [u8]), Miss>
    ensures read { MatchResult result (λ found. letter_at text.now ≡ Some (found.0, found.1.now)) (IfNotSpelled (letter_at text.now ≡ None)) }
    ensures shorter { IfOk result (λ found. length found.1.now < length text.now) }
{
    let Some(length) = letter_length(text) else {
        return Err(Miss::NotSpelled);
    };
    let (letter, rest) = text.split_at(length);
    let name = Path::new(Vec::from_slice(alloc, letter)?);
    Ok((Boxed::new(alloc, VType::Var(name))?, rest))
}

// How long the letter at the front is: a quote, a small letter, and a number or nothing.
fn letter_length(text: &[u8]) -> Option<usize>
    ensures length { result ≡ letter_length text.now }
    ensures within { IfSome result (λ n. (0 < n) × (n ≤ length text.now)) }
{
    match text {
        [quote, small, rest @ ..]
            if *quote == b'\'' && is_small_letter(*small) && !has_zero(rest) => {
            Some(2 + digits_length(rest))
        }
        _ => None,
    }
}

fn is_small_letter(byte: u8) -> bool
    ensures { result ≡ is_small_letter byte }
{
    b'a' <= byte && byte <= b'z'
}

fn has_zero(text: &[u8]) -> bool
    ensures { result ≡ has_zero text.now }
{
    match text {
        [] => false,
        [first, ..] => *first == b'0',
    }
}

fn digits_length(text: &[u8]) -> usize
    ensures length { result ≡ prefix_len is_digit text.now }
    ensures within { result ≤ length text.now }
{
    for (i, byte) in text.iter().enumerate() {
        if !is_digit(*byte) {
            return i;
        }
    }
    text.len()
}

fn is_digit(byte: u8) -> bool
    ensures { result ≡ is_digit byte }
{
    b'0' <= byte && byte <= b'9'
}

fn expect<'a>(text: &'a [u8], sign: &[u8]) -> Result<&'a [u8], Miss>
    ensures read { MatchResult result (λ rest. after sign.now text.now ≡ Some rest.now) (IfNotSpelled (after sign.now text.now ≡ None)) }
    ensures shorter { IfOk result (λ rest. length rest.now + length sign.now ≡ length text.now) }
{
    after(text, sign).ok_or(Miss::NotSpelled)
}

// What stands after a sign at the front.
fn after<'a>(text: &'a [u8], sign: &[u8]) -> Option<&'a [u8]>
    ensures rest { option_copied result ≡ after sign.now text.now }
    ensures shorter { IfSome result (λ rest. length rest.now + length sign.now ≡ length text.now) }
{
    text.strip_prefix(sign)
}

fn choice(
    alloc: Global,
    dim: Dim,
    left: Boxed<VType>,
    right: Boxed<VType>,
) -> Result<Boxed<VType>, AllocError>
    ensures { IfOk result (λ vtype. vtype ≡ choice dim left right) }
{
    Boxed::new(alloc, VType::Choice(dim, left, right))
}

fn one(alloc: Global, head: Head, kid: Boxed<VType>) -> Result<Boxed<VType>, AllocError>
    ensures { IfOk result (λ vtype. vtype ≡ one head kid) }
{
    let none = Boxed::new(alloc, VKids::Nil)?;
    Boxed::new(alloc, VType::Con(head, VKids::More(kid, none)))
}

fn two(
    alloc: Global,
    head: Head,
    left: Boxed<VType>,
    right: Boxed<VType>,
) -> Result<Boxed<VType>, AllocError>
    ensures { IfOk result (λ vtype. vtype ≡ two head left right) }
{
    let none = Boxed::new(alloc, VKids::Nil)?;
    let others = Boxed::new(alloc, VKids::More(right, none))?;
    Boxed::new(alloc, VType::Con(head, VKids::More(left, others)))
}
