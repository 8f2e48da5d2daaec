//! Laws of generated machines, each the contract of a function that does nothing.

ghost use Rattle.std.specs.Prelude.{◌≡◌};
ghost use Rattle.machine_gen.specs.PartSteps.{GoByParts};
ghost use Rattle.machine_gen.specs.WordMachine.{HaveOneMachine, next_first, next_second};
ghost use Rattle.machine_gen.specs.ParallelParts.{PartsAreParallel};
ghost use Rattle.machine_gen.specs.Words.{word};

/// The words and the sizes determine the machine.
pub fn one_machine()
    ensures { HaveOneMachine }
{}

/// Where each part of a state goes depends on that part and the symbol alone. Output 0 says whether the first
/// part is 0, and output 1 whether the second part is 0.
pub fn parts_go()
    ensures { GoByParts }
{}

/// The partitions by the first and by the second part are closed, are neither zero nor one, and meet in zero.
/// So a generated machine has a parallel decomposition.
pub fn parallel_exists()
    ensures { PartsAreParallel }
{}

/// The first words of seed 42.
pub fn words_of_42()
    ensures first { word 42 0 ≡ 0xa15c02b7 }
    ensures second { word 42 1 ≡ 0x7b47f409 }
    ensures third { word 42 2 ≡ 0xba1d3330 }
    ensures fourth { word 42 3 ≡ 0x83d2f293 }
{}

/// The next parts of two first and of two second parts at each of two symbols, by the words of seed 42.
pub fn parts_of_42()
    ensures first_0 { (next_first (word 42) 2 1 0 0 ≡ 1) × (next_first (word 42) 2 1 0 1 ≡ 1) }
    ensures first_1 { (next_first (word 42) 2 1 1 0 ≡ 0) × (next_first (word 42) 2 1 1 1 ≡ 1) }
    ensures second_0 { (next_second (word 42) 2 1 0 0 ≡ 0) × (next_second (word 42) 2 1 0 1 ≡ 1) }
    ensures second_1 { (next_second (word 42) 2 1 1 0 ≡ 1) × (next_second (word 42) 2 1 1 1 ≡ 0) }
{}
