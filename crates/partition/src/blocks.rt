//! Merging of blocks, in the partition itself.
ghost use Rattle.std.specs.Prelude.{◌≡◌, ℕ, ◌<◌, length, slice_index};
ghost use Rattle.partition.specs.MergedBlocks.{IsMerged};
ghost use Rattle.partition.specs.Inner.RemovedLabel.{relabelled};

use crate::Partition;

impl Partition {
    /// Puts the blocks of two states together. Takes no memory.
    pub fn merge(&mut self, s: usize, t: usize)
        requires s { s < length self.old }
        requires t { t < length self.old }
        ensures { IsMerged self.old s t self.new }
    {
        let (a, b) = (self.labels[s], self.labels[t]);
        if a != b {
            relabel(self.labels.as_mut_slice(), a.min(b), a.max(b));
            self.blocks -= 1;
        }
    }
}

/// Gives `kept` to the states that have `gone`, and closes the gap that this leaves among the labels.
fn relabel(labels: &mut [u16], kept: u16, gone: u16)
    requires { kept < gone }
    ensures { (s : ℕ) → s < length labels.old
        → slice_index labels.new s ≡ relabelled kept gone (slice_index labels.old s) }
{
    for label in labels.iter_mut() {
        *label = moved(*label, kept, gone);
    }
}

/// The new label of a state that has this one.
fn moved(label: u16, kept: u16, gone: u16) -> u16
    requires { kept < gone }
    ensures { result ≡ relabelled kept gone label }
{
    let closed = if label > gone { label - 1 } else { label };
    if label == gone { kept } else { closed }
}
