//! What a register of the last symbols can hold.

ghost use Rattle.std.specs.Prelude.{
  ◌≡◌,
  ◌≢◌,
  ℕ,
  ◌+◌,
  ◌*◌,
  ◌^◌,
  ◌<◌,
  ◌≤◌,
  ◌++◌,
  All,
  IfNone,
  IfOk,
  IfSome,
  OnOk,
  length,
  slice_get,
  Some,
};
ghost use Rattle.std.specs.List.{flat_map};
ghost use Rattle.shift_real.specs.declared.contents.Content.{Content};
ghost use Rattle.shift_real.specs.Inner.Contents.{AreContents, contents_after, turned_bits};

use machine_table::Machine;
use std::alloc::{AllocError, Global};

/// A content of the register: the values of the latches, latch i at 2^i, and the state after its symbols.
#[derive(Clone, Copy)]
pub(crate) struct Content {
    pub(crate) latches: u64,
    pub(crate) state: u16,
}

/// The contents after all words of k symbols, in ascending order of the words as binary numbers.
pub(crate) fn contents(alloc: Global, m: &Machine, k: usize) -> Result<Vec<Content>, AllocError>
    requires { k * m.now.inputs ≤ 12 }
    ensures { IfOk result (λ contents. AreContents m.now k contents.items) }
{
    m.keeps_its_states();
    let mut contents = Vec::new(alloc);
    contents.push(Content {
        latches: 0,
        state: m.reset() as u16,
    })?;
    'symbols: for _ in 0..k {
        contents = lengthened(alloc, m, &contents)?;
    }
    Ok(contents)
}

/// The contents one symbol after each of these, in order.
fn lengthened(alloc: Global, m: &Machine, shorter: &[Content]) -> Result<Vec<Content>, AllocError>
    requires inputs { m.now.inputs ≤ 12 }
    requires small { All (λ content. content.latches < 4096) shorter.now }
    requires states { All (λ content. content.state < length m.now.states) shorter.now }
    ensures { IfOk result (λ longer. longer.items ≡ flat_map (contents_after m.now) shorter.now) }
{
    let mut longer = Vec::new(alloc);
    for content in shorter {
        add_next(m, content, &mut longer)?;
    }
    Ok(longer)
}

/// Appends the contents one symbol after this one, symbol by symbol.
fn add_next(m: &Machine, content: &Content, longer: &mut Vec<Content>) -> Result<(), AllocError>
    requires inputs { m.now.inputs ≤ 12 }
    requires small { content.now.latches < 4096 }
    requires state { content.now.state < length m.now.states }
    ensures { OnOk result (longer.new.items ≡ longer.old.items ++ contents_after m.now content.now) }
{
    m.keeps_its_states();
    let symbols = 1u32 << m.inputs();
    for x in 0..symbols {
        let latches = content.latches * u64::from(symbols) + turned(x, m.inputs());
        let state = m.next(usize::from(content.state), x) as u16;
        longer.push(Content { latches, state })?;
    }
    Ok(())
}

/// The bits of a symbol, the first of them at 2^0.
fn turned(x: u32, inputs: u8) -> u64
    requires { inputs ≤ 32 }
    ensures value { result ≡ turned_bits inputs x }
    ensures small { result < 2 ^ inputs }
{
    let mut latches = 0u64;
    for place in 0..inputs {
        latches = 2 * latches + u64::from(x >> place & 1);
    }
    latches
}

/// The place of the first content after which the machine is in this state.
pub(crate) fn first_reaching(contents: &[Content], state: usize) -> Option<usize>
    ensures within { IfSome result (λ i. i < length contents.now) }
    ensures some { IfSome result
        (λ i. (content : Content) → slice_get contents.now i ≡ Some content → content.state ≡ state) }
    ensures first { IfSome result
        (λ i. (j : ℕ) (content : Content) → j < i → slice_get contents.now j ≡ Some content → content.state ≢ state) }
    ensures none { IfNone result
        ((j : ℕ) (content : Content) → slice_get contents.now j ≡ Some content → content.state ≢ state) }
{
    for (i, content) in contents.iter().enumerate() {
        if usize::from(content.state) == state {
            return Some(i);
        }
    }
    None
}
