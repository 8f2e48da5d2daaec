//! The names of signals.

ghost use Rattle.std.specs.Prelude.{◌≡◌, ◌≤◌, [], ◌++◌, IfOk, OnOk, unwrap_or};
ghost use Rattle.std.specs.List.{list_any};
ghost use Rattle.std.specs.Str.{bytes_eq};
ghost use Rattle.kiss_file.specs.LawfulFile.{IsLawful};
ghost use Rattle.realise.specs.Names as named;
ghost use Rattle.realise.specs.Names.{AreNames, IsPrefixCount, own_name, prefix, unless_given};
ghost use Rattle.realise.specs.Inner.FreeNames as free;
ghost use Rattle.realise.specs.Inner.FreeNames.{first_count};

use hs_io::{Name, Names, copied_names};
use kiss_file::KissFile;
use net_core::SignalNames;
use std::alloc::{AllocError, Global};

/// With this many prefixes an own name is longer than a given one may be.
const MANY: usize = 22;

/// The names of the signals of a file's network, with one latch for each of the bits.
///
/// Inputs and outputs have the names that the file gives. An own name is `x` for an input, `z` for an output,
/// `d` for a latch input or `q` for a latch output, with its number. Before it comes the prefix `hs_`, the
/// least number of times that keeps the own names in use apart from the given ones. It fails only for want of
/// memory.
pub fn names(alloc: Global, file: &KissFile, bits: usize) -> Result<SignalNames, AllocError>
    requires lawful { IsLawful file.now }
    requires short { bits ≤ 64 }
    ensures { IfOk result (AreNames file.now bits) }
{
    let count = prefix_count(alloc, file, bits)?;
    Ok(SignalNames {
        inputs: given_or_own(
            alloc,
            &file.input_names,
            count,
            b'x',
            usize::from(file.inputs),
        )?,
        outputs: given_or_own(
            alloc,
            &file.output_names,
            count,
            b'z',
            usize::from(file.outputs),
        )?,
        latch_inputs: own_names(alloc, count, b'd', bits)?,
        latch_outputs: own_names(alloc, count, b'q', bits)?,
    })
}

/// How often the prefix comes before each own name: the least number of times at which no own name in use is a
/// given one.
fn prefix_count(alloc: Global, file: &KissFile, latches: usize) -> Result<usize, AllocError>
    ensures { IfOk result (λ count. count ≡ first_count file.now latches) }
{
    for count in 0..MANY {
        if are_free(alloc, file, latches, count)? {
            return Ok(count);
        }
    }
    Ok(MANY)
}

/// Whether no own name in use is a given one.
fn are_free(
    alloc: Global,
    file: &KissFile,
    latches: usize,
    count: usize,
) -> Result<bool, AllocError>
    ensures { IfOk result (λ answer. answer ≡ free.are_free file.now latches count) }
{
    let used = used_names(alloc, file, latches, count)?;
    Ok(!has_given(file, used.as_slice()))
}

/// The own names in use in a network with this number of latches.
fn used_names(
    alloc: Global,
    file: &KissFile,
    latches: usize,
    count: usize,
) -> Result<Names, AllocError>
    ensures { IfOk result (λ names. names ≡ named.used_names file.now latches count) }
{
    let mut names = Names::new(alloc);
    push_unless(
        alloc,
        &mut names,
        &file.input_names,
        count,
        b'x',
        usize::from(file.inputs),
    )?;
    push_unless(
        alloc,
        &mut names,
        &file.output_names,
        count,
        b'z',
        usize::from(file.outputs),
    )?;
    push_own(alloc, &mut names, count, b'd', latches)?;
    push_own(alloc, &mut names, count, b'q', latches)?;
    Ok(names)
}

/// Adds own names, unless names are given.
fn push_unless(
    alloc: Global,
    names: &mut Names,
    given: &Option<Names>,
    count: usize,
    letter: u8,
    many: usize,
) -> Result<(), AllocError>
    ensures { OnOk result (names.new ≡ names.old ++ unless_given given.now (named.own_names count letter many)) }
{
    match given {
        Some(_) => Ok(()),
        None => push_own(alloc, names, count, letter, many),
    }
}

/// Whether one of the names is a given one.
fn has_given(file: &KissFile, names: &[Name]) -> bool
    ensures { result ≡ list_any (free.is_given file.now) names.now }
{
    names.iter().any(|name| is_given(file, name))
}

/// Whether the file gives the name.
fn is_given(file: &KissFile, name: &Name) -> bool
    ensures { result ≡ free.is_given file.now name.now }
{
    is_among(&file.input_names, name.bytes()) || is_among(&file.output_names, name.bytes())
}

/// Whether a name is among the given ones.
fn is_among(given: &Option<Names>, name: &[u8]) -> bool
    ensures { result ≡ list_any (bytes_eq name.now) (unwrap_or given.now []) }
{
    match given {
        Some(names) => names.as_slice().iter().any(|other| name == other.bytes()),
        None => false,
    }
}

/// The own name of a letter and a number, after this number of prefixes.
fn name_of(alloc: Global, count: usize, letter: u8, number: usize) -> Result<Name, AllocError>
    ensures { IfOk result (λ name. name ≡ own_name count letter number) }
{
    let digits = number.to_string(alloc)?;
    let mut text = Vec::new(alloc);
    push_prefixes(&mut text, count)?;
    text.push(letter)?;
    text.extend_from_slice(digits.as_bytes())?;
    Name::new(alloc, text.as_slice())
}

/// Adds this number of prefixes.
fn push_prefixes(text: &mut Vec<u8>, count: usize) -> Result<(), AllocError>
    ensures { OnOk result (text.new.items ≡ text.old.items ++ prefix count) }
{
    for _i in 0..count {
        text.extend_from_slice(b"hs_")?;
    }
    Ok(())
}

/// Adds own names of a letter, numbered from 0.
fn push_own(
    alloc: Global,
    names: &mut Names,
    count: usize,
    letter: u8,
    many: usize,
) -> Result<(), AllocError>
    ensures { OnOk result (names.new ≡ names.old ++ named.own_names count letter many) }
{
    for number in 0..many {
        names.push(name_of(alloc, count, letter, number)?)?;
    }
    Ok(())
}

/// Own names of a letter, numbered from 0.
fn own_names(alloc: Global, count: usize, letter: u8, many: usize) -> Result<Names, AllocError>
    ensures { IfOk result (λ names. names ≡ named.own_names count letter many) }
{
    let mut names = Names::new(alloc);
    push_own(alloc, &mut names, count, letter, many)?;
    Ok(names)
}

/// The given names, or own names of a letter if none are given.
fn given_or_own(
    alloc: Global,
    given: &Option<Names>,
    count: usize,
    letter: u8,
    many: usize,
) -> Result<Names, AllocError>
    ensures { IfOk result (λ names. names ≡ unwrap_or given.now (named.own_names count letter many)) }
{
    match given {
        Some(names) => copied_names(alloc, names.as_slice()),
        None => own_names(alloc, count, letter, many),
    }
}
