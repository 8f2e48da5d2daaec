//! The comments of blocks.

ghost use Rattle.std.specs.Prelude.{◌≡◌, ◌++◌, ◌<◌, All, OnOk, length};
ghost use Rattle.std.specs.List.{enumerate_from, flat_map};
ghost use Rattle.cover_texts.specs.Inner.Pieces.{block_line};

use blif_out::{append_number_field, append_numbers_field};
use cover_split::Block;
use std::alloc::AllocError;

/// Appends each block, numbered from 0.
pub(crate) fn append_blocks(text: &mut Vec<u8>, blocks: &[Block]) -> Result<(), AllocError>
    requires { All (λ block. 0 < length block) blocks.now }
    ensures { OnOk result (text.new.items ≡ text.old.items ++ flat_map block_line (enumerate_from 0 blocks.now)) }
{
    for (number, block) in blocks.iter().enumerate() {
        append_block(text, number, block.as_slice())?;
    }
    Ok(())
}

/// Appends a block.
fn append_block(text: &mut Vec<u8>, number: usize, states: &[u16]) -> Result<(), AllocError>
    requires { 0 < length states.now }
    ensures { OnOk result (text.new.items ≡ text.old.items ++ block_line (number, states.now)) }
{
    text.extend_from_slice(b"# block")?;
    append_number_field(text, number)?;
    append_numbers_field(text, states)?;
    text.push(b'\n')?;
    Ok(())
}
