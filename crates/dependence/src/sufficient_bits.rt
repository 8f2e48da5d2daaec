//! Whether a set of state bits is enough for a gate.

ghost use Rattle.std.specs.Prelude.{◌≡◌, ◌↔◌, ◌<◌, ◌≤◌, ◌+◌, ◌%◌, IfOk, IsTrue, OnOk, length};
ghost use Rattle.dependence.specs.SufficientBits as permitted;
ghost use Rattle.dependence.specs.SufficientBits.{InWord, PermitsValue};
ghost use Rattle.dependence.specs.Inner.LikeStates.{AreFirsts, IsFirstLike};
ghost use Rattle.dependence.specs.Bit.{IsBit, value_of};
ghost use Rattle.dependence.specs.Inner.Differences.{AreFound};

use crate::bit::Bit;
use crate::differences::Differences;
use machine_table::Machine;
use state_codes::Codes;
use std::alloc::{AllocError, Global};

/// The number of places in a table of states: a prime by which the powers of 2 below 2^64 have different
/// remainders.
const PLACES: usize = 509;

/// Whether the bits of the set permit latch i: any two states whose codes agree on the set have, for each
/// symbol, next states whose codes agree at bit i. State bit c is in the set where the word has bit c.
pub fn permits(m: &Machine, codes: &Codes, set: u64, i: usize) -> bool
    requires words { length codes.now.words ≡ length m.now.states }
    requires bit { i < 64 }
    ensures { IsTrue result ↔ permitted.Permits m.now codes.now.words (InWord set) i }
{
    permits_gate(m, codes.words.as_slice(), set, Bit::Latch(i))
}

/// Whether the bits of the set permit output b: any two states whose codes agree on the set have that
/// output equal, for each symbol.
pub fn permits_output(m: &Machine, codes: &Codes, set: u64, b: u8) -> bool
    requires words { length codes.now.words ≡ length m.now.states }
    requires output { b < m.now.outputs }
    ensures { IsTrue result ↔ permitted.PermitsOutput m.now codes.now.words (InWord set) b }
{
    permits_gate(m, codes.words.as_slice(), set, Bit::Output(b))
}

/// Whether the bits of the set permit what the gate gives. Each state is compared with the first state whose
/// word has the same bits of the set.
pub(crate) fn permits_gate(m: &Machine, words: &[u64], set: u64, gate: Bit) -> bool
    requires words { length words.now ≡ length m.now.states }
    requires gate { IsBit m.now gate }
    ensures { IsTrue result ↔ PermitsValue m.now words.now (InWord set) (value_of m.now words.now gate) }
{
    let mut firsts = [None; PLACES];
    for s in 0..m.states() {
        let first = first_like(&mut firsts, words, set, s);
        if first < s && !gate.gives_the_same(m, words, first, s) {
            return false;
        }
    }
    true
}

/// The same answer as `permits_gate` gives, from what is known of two states.
pub(crate) fn permits_beside(
    alloc: Global,
    m: &Machine,
    words: &[u64],
    differences: &mut Differences,
    set: u64,
    gate: Bit,
) -> Result<bool, AllocError>
    requires words { length words.now ≡ length m.now.states }
    requires gate { IsBit m.now gate }
    requires found { AreFound m.now words.now differences.old.found.items }
    ensures permits { IfOk result
        (λ permits. IsTrue permits ↔ PermitsValue m.now words.now (InWord set) (value_of m.now words.now gate)) }
    ensures found { OnOk result (AreFound m.now words.now differences.new.found.items) }
{
    let mut firsts = [None; PLACES];
    for s in 0..m.states() {
        let first = first_like(&mut firsts, words, set, s);
        if first < s && !differences.gives_the_same(alloc, m, words, gate, first, s)? {
            return Ok(false);
        }
    }
    Ok(true)
}

/// The first state whose word has the same bits of the set as the word of s.
///
/// The table has such first states of the states before s, each at the place of its bits. If the one at the
/// place of s has other bits, all states before s are searched.
fn first_like(firsts: &mut [Option<u16>; PLACES], words: &[u64], set: u64, s: usize) -> usize
    requires state { s < length words.now }
    requires few { length words.now ≤ 256 }
    requires firsts { AreFirsts words.now set firsts.old s }
    ensures first { IsFirstLike words.now set s result }
    ensures firsts { AreFirsts words.now set firsts.new (s + 1) }
{
    let bits = words[s] & set;
    let place = place_of(bits);
    match firsts[place] {
        None => {
            firsts[place] = Some(s as u16);
            s
        }
        Some(first) => {
            let first = usize::from(first);
            if words[first] & set == bits {
                first
            } else {
                searched_like(words, set, s)
            }
        }
    }
}

/// The place of these bits in a table.
fn place_of(bits: u64) -> usize
    ensures { result ≡ bits % 509 }
{
    (bits % PLACES as u64) as usize
}

/// The same state as `first_like` gives, found by a search of all states before s.
fn searched_like(words: &[u64], set: u64, s: usize) -> usize
    requires { s < length words.now }
    ensures { IsFirstLike words.now set s result }
{
    let code = words[s] & set;
    for (t, word) in words[..s].iter().enumerate() {
        if *word & set == code {
            return t;
        }
    }
    s
}
