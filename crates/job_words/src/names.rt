//! Names in a command line.

ghost use Rattle.std.specs.Prelude.{◌≡◌};
ghost use Rattle.std.specs.List.{list_all};
ghost use Rattle.job_words.specs.Name.{is_clock_name, is_given_byte, is_model_name};

/// Whether a word can be the name of a model.
pub fn is_model_name(word: &[u8]) -> bool
    ensures { result ≡ is_model_name word.now }
{
    !word.is_empty() && word.len() <= 64 && are_given_bytes(word)
}

/// Whether a word can be the name of a clock.
pub fn is_clock_name(word: &[u8]) -> bool
    ensures { result ≡ is_clock_name word.now }
{
    is_model_name(word) && word != b"NIL".as_slice()
}

/// Whether a name can have all these bytes.
fn are_given_bytes(bytes: &[u8]) -> bool
    ensures { result ≡ list_all is_given_byte bytes.now }
{
    bytes.iter().all(|byte| is_given_byte(*byte))
}

/// Whether a name can have this byte.
fn is_given_byte(byte: u8) -> bool
    ensures { result ≡ is_given_byte byte }
{
    byte.is_ascii_graphic() && byte != b'#' && byte != b'\\'
}
