ghost use Rattle.std.specs.Prelude.{◌≡◌, ◌≢◌, ◌+◌, ◌^◌, ◌<◌, ◌≤◌, [], Err, IfOk, IsErrOf, OnOk, vec_len};

use crate::LoadFail;
use std::io::Read;

/// The greatest number of bytes that one read asks for.
const PIECE: usize = 4096;

/// Puts the bytes that are left in a reader into `into`. `TooLong` comes as soon as there is one byte more than
/// the limit, and `Failed` at an error of the reader, after which `into` may hold anything.
pub fn load_from(reader: &mut impl Read, limit: usize, into: &mut Vec<u8>) -> Result<(), LoadFail>
    requires empty { into.old.items ≡ [] }
    requires limited { limit < 2 ^ 32 }
    ensures within { OnOk result (vec_len into.new ≤ limit) }
    ensures one_more { IsErrOf result LoadFail.TooLong → vec_len into.new ≡ limit + 1 }
{
    for _ in 0..limit + 1 {
        if read_piece(reader, limit + 1, into)? == 0 {
            return Ok(());
        }
        if into.len() > limit {
            return Err(LoadFail::TooLong);
        }
    }
    unreachable!("each turn takes a byte")
}

/// Appends some of the bytes that are left, and gives their number, which is 0 only at the end.
fn read_piece(reader: &mut impl Read, most: usize, into: &mut Vec<u8>) -> Result<usize, LoadFail>
    requires { vec_len into.old < most }
    ensures ok { IfOk result (λ n. vec_len into.new ≡ vec_len into.old + n) }
    ensures most { OnOk result (vec_len into.new ≤ most) }
    ensures err { result ≢ Err LoadFail.TooLong }
{
    let mut piece = [0u8; PIECE];
    let room = PIECE.min(most - into.len());
    let Ok(count) = reader.read(&mut piece[..room]) else {
        return Err(LoadFail::Failed);
    };
    into.extend_from_slice(&piece[..count])?;
    Ok(count)
}
