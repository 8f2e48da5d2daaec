//! The machine of the numbers, as a file.

ghost use Rattle.std.specs.Prelude.{◌≡◌, IfOk};
ghost use Rattle.kiss2.specs.KissText.{kiss_text};
ghost use Rattle.machine_gen.specs.WordMachine.{AreSizes};
ghost use Rattle.generated_texts.specs.SeedMachine.{OfGenerated};

use kiss2::write;
use machine_gen::make;
use std::alloc::{AllocError, Global};

/// The file of the machine of a seed, with a times b states and k inputs.
pub fn generate(alloc: Global, seed: u64, a: u16, b: u16, k: u8) -> Result<Vec<u8>, AllocError>
    requires { AreSizes a b k }
    ensures { IfOk result (λ text. OfGenerated seed a b k (λ F. text.items ≡ kiss_text F)) }
{
    let file = make(alloc, seed, a, b, k)?;
    write(alloc, &file)
}
