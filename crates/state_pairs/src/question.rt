//! What can be asked about two states: one part of what rows give, and which of its values count as equal.
ghost use Rattle.std.specs.Prelude.{ℕ, ◌≡◌, ◌<◌, ◌≤◌, IfSome, IsTrue, Option, length, slice_index};
ghost use Rattle.std.specs.Int.{bit_at};
ghost use Rattle.kiss_file.specs.Machine.{given_bit};
ghost use Rattle.kiss_file.specs.declared.file.KissRow.{KissRow};

use kiss_file::KissRow;
use partition::Partition;

/// The bit that a row gives at an output, if it gives one.
pub fn given(row: &KissRow, b: u8) -> Option<bool>
    requires { b < 64 }
    ensures { result ≡ given_bit b row.now }
{
    if (row.care >> b) & 1 == 1 {
        Some((row.value >> b) & 1 == 1)
    } else {
        None
    }
}

/// A question about one part of what rows give. Each value of the part has a label, and values count as
/// equal if their labels are equal.
pub trait Question {
    /// The number of states that the question covers.
    ghost states: { Self → ℕ };

    /// The label of what a row gives, if it gives the part.
    ghost said: { Self → KissRow → Option ℕ };

    /// The label at a state where no row gives the part.
    ghost unsaid: { Self → ℕ → ℕ };

    /// The label of what a row gives, if it gives the part.
    fn said(&self, row: &KissRow) -> Option<u64>
        requires { IfSome row.now.to (λ t. t < states self.now) }
        ensures { result ≡ said self.now row.now };

    /// The label at a state where no row gives the part.
    fn unsaid(&self, s: usize) -> u64
        requires { s < states self.now }
        ensures { result ≡ unsaid self.now s };

    /// If true, the label depends on the next state alone.
    fn is_of_next(&self) -> bool
        ensures { IsTrue result → (row other : KissRow) → row.to ≡ other.to → said self.now row ≡ said self.now other };
}

/// Next states in one block count as equal.
impl Question for Partition {
    ghost use Rattle.std.specs.Prelude.{length, slice_index, option_map};

    ghost states = { λ q. length q };

    ghost said = { λ q row. option_map (slice_index q) row.to };

    ghost unsaid = { λ q s. slice_index q s };

    fn said(&self, row: &KissRow) -> Option<u64> {
        match row.to {
            Some(t) => Some(u64::from(self.label(usize::from(t)))),
            None => None,
        }
    }

    fn unsaid(&self, s: usize) -> u64 {
        u64::from(self.label(s))
    }

    fn is_of_next(&self) -> bool {
        true
    }
}

/// One bit of a word for each state.
#[derive(Clone, Copy)]
pub struct WordBits<'a> {
    /// One word for each state.
    pub words: &'a [u64],
    /// The place of the bit.
    pub at: usize,
    pub ghost place: { at < 64 },
}

impl<'a> WordBits<'a> {
    /// The bits at 2^at of these words.
    pub fn new(words: &'a [u64], at: usize) -> WordBits<'a>
        requires { at < 64 }
        ensures words { result.words.now ≡ words.now }
        ensures at { result.at ≡ at }
    {
        WordBits { words, at }
    }

    /// The bit of the word of a state.
    fn bit(&self, s: usize) -> u64
        requires { s < length self.now.words.now }
        ensures { result ≡ bit_at (slice_index self.now.words.now s) self.now.at }
    {
        (self.words[s] >> self.at) & 1
    }
}

/// Next states whose words have the same bit count as equal.
impl<'a> Question for WordBits<'a> {
    ghost use Rattle.std.specs.Prelude.{length, slice_index, option_map};
    ghost use Rattle.std.specs.Int.{bit_at};

    ghost states = { λ q. length q.words.now };

    ghost said = { λ q row. option_map (λ t. bit_at (slice_index q.words.now t) q.at) row.to };

    ghost unsaid = { λ q s. bit_at (slice_index q.words.now s) q.at };

    fn said(&self, row: &KissRow) -> Option<u64> {
        match row.to {
            Some(t) => Some(self.bit(usize::from(t))),
            None => None,
        }
    }

    fn unsaid(&self, s: usize) -> u64 {
        self.bit(s)
    }

    fn is_of_next(&self) -> bool {
        true
    }
}

/// The output with that number.
#[derive(Clone, Copy)]
pub struct OutputBit {
    /// The number of the output.
    pub b: u8,
    pub ghost place: { b < 64 },
}

impl OutputBit {
    /// The output with that number.
    pub fn new(b: u8) -> OutputBit
        requires { b < 64 }
        ensures { result.b ≡ b }
    {
        OutputBit { b }
    }
}

/// Bits count as equal if they are equal.
impl Question for OutputBit {
    ghost use Rattle.std.specs.Prelude.{option_map};
    ghost use Rattle.kiss_file.specs.Machine.{given_bit};
    ghost use Rattle.state_pairs.specs.RowLabels.{bit_label};

    ghost states = { λ _. 65536 };

    ghost said = { λ q row. option_map bit_label (given_bit q.b row) };

    ghost unsaid = { λ _ _. 0 };

    fn said(&self, row: &KissRow) -> Option<u64> {
        match given(row, self.b) {
            Some(bit) => Some(u64::from(bit)),
            None => None,
        }
    }

    fn unsaid(&self, _s: usize) -> u64 {
        0
    }

    fn is_of_next(&self) -> bool {
        false
    }
}

/// All outputs together, as given by rows whose care is exactly `all`.
#[derive(Clone, Copy)]
pub struct OutputWord {
    /// A bit for each output.
    pub all: u64,
}

impl OutputWord {
    /// The outputs whose bits are set.
    pub fn new(all: u64) -> OutputWord
        ensures { result.all ≡ all }
    {
        OutputWord { all }
    }
}

/// Words count as equal if they are equal.
impl Question for OutputWord {
    ghost use Rattle.std.specs.Prelude.{◌==◌, None, Some, if◌then◌else◌};

    ghost states = { λ _. 65536 };

    ghost said = { λ q row. if row.care == q.all then Some row.value else None };

    ghost unsaid = { λ _ _. 0 };

    fn said(&self, row: &KissRow) -> Option<u64> {
        if row.care == self.all {
            Some(row.value)
        } else {
            None
        }
    }

    fn unsaid(&self, _s: usize) -> u64 {
        0
    }

    fn is_of_next(&self) -> bool {
        false
    }
}

/// The next state of a machine with that many states.
#[derive(Clone, Copy)]
pub struct NextState {
    /// The number of states.
    pub states: usize,
    pub ghost few: { states ≤ 256 },
}

impl NextState {
    /// The next state, for a machine with that many states.
    pub fn new(states: usize) -> NextState
        requires { states ≤ 256 }
        ensures { result.states ≡ states }
    {
        NextState { states }
    }
}

/// Next states count as equal if they are equal.
impl Question for NextState {
    ghost states = { λ q. q.states };

    ghost said = { λ _ row. row.to };

    ghost unsaid = { λ _ s. s };

    fn said(&self, row: &KissRow) -> Option<u64> {
        match row.to {
            Some(t) => Some(u64::from(t)),
            None => None,
        }
    }

    fn unsaid(&self, s: usize) -> u64 {
        let _ = self.states;
        s as u64
    }

    fn is_of_next(&self) -> bool {
        true
    }
}
