//! Reading the operands PART and PARTS.

ghost use Rattle.partition.specs.Partition.{IsStateCount};
ghost use Rattle.answers.specs.Outcome.{IsJudged};
ghost use Rattle.operands.specs.PartFaults.{BadPart, BadPartAt, BadParts};
ghost use Rattle.operands.specs.PartTexts.{ArePartTexts, IsTextOfPartition};

use answers::Refusal;
use partition::{PartFail, Partition};
use std::alloc::Global;

/// Reads the text of a partition of n states.
pub fn read_part(alloc: Global, text: &[u8], states: usize) -> Result<Partition, Refusal>
    requires { IsStateCount states }
    ensures { IsJudged (BadPart states text.now) (IsTextOfPartition states text.now) result }
{
    read_piece(alloc, 0, text, states)
}

/// Reads texts of partitions of n states that are joined by slashes. The first that does not give a partition
/// is refused.
pub fn read_parts(alloc: Global, text: &[u8], states: usize) -> Result<Vec<Partition>, Refusal>
    requires { IsStateCount states }
    ensures { IsJudged (BadParts states text.now) (λ parts. ArePartTexts states text.now parts.items) result }
{
    let mut parts = Vec::new(alloc);
    for piece in text.split(|byte| *byte == b'/') {
        let part = read_piece(alloc, parts.len(), piece, states)?;
        let Ok(()) = parts.push(part) else {
            return Err(Refusal::NoMemory);
        };
    }
    Ok(parts)
}

/// Reads the text of the part of this number, counted from 0.
fn read_piece(alloc: Global, part: usize, text: &[u8], states: usize) -> Result<Partition, Refusal>
    requires { IsStateCount states }
    ensures { IsJudged (BadPartAt part states text.now) (IsTextOfPartition states text.now) result }
{
    match Partition::parse(alloc, text, states) {
        Ok(partition) => Ok(partition),
        Err(PartFail::BadText { place }) => Err(Refusal::PartLabel { part, place }),
        Err(PartFail::WrongLength { found }) => Err(Refusal::PartLength {
            part,
            found,
            states,
        }),
        Err(PartFail::Empty | PartFail::NotCanonical { .. } | PartFail::NoMemory) => {
            Err(Refusal::NoMemory)
        }
    }
}
