//! What is read is lawful, and what is written is read back.
ghost use Rattle.kiss2.specs.Kiss.{ReadIsLawful};
ghost use Rattle.kiss2.specs.KissText.{WrittenIsRead};

/// What is read is lawful.
pub fn read_is_lawful()
    ensures { ReadIsLawful }
{}

/// What is written of a lawful record is read back as that record.
pub fn written_is_read()
    ensures { WrittenIsRead }
{}
