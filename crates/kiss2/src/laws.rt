//! Laws of texts, each the contract of a function that does nothing.

ghost use Rattle.kiss2.specs.Kiss.{AlwaysOne, NeverBoth, OneFault, OneFile};

/// Bytes say one machine or have one first fault, and never both.
pub fn read_once()
    ensures one_file { OneFile }
    ensures one_fault { OneFault }
    ensures never_both { NeverBoth }
    ensures always_one { AlwaysOne }
{}
