//! Laws of the machines of a split and of their texts, each the contract of a function that does nothing.
//!
//! Each part of a split has a machine of its own, and so have the outputs. The job `part` writes the text of one of them.
//! [`parts_answer`] says that such texts, one for each part with bits and one for the outputs, say machines that answer
//! as the machine that was split, where they are stepped together: each reads, by the names of signals, the symbol and
//! what the others give. `specs/Together` says what this means, with no order of evaluation in it, so that machines may
//! read each other. [`machines_answer`] says the same of the machines themselves.
//!
//! A text is read back as the machine that it is written of ([`part_is_read`]). Where nothing is open in the file, a part
//! of it has one machine ([`machine_is_one`]) and so one text ([`part_is_one`]). Machines that are stepped together have
//! one answer ([`together_once`]).
//!
//! `specs/Worked` has two small machines that read each other, and `specs/WorkedPart` the machine of a part of a small
//! machine.
#![tactic(auto)]

ghost use Rattle.std.specs.Prelude.{Bool, List, [], ◌∷◌, codes};
ghost use Rattle.part_laws.specs.OneMachine.{MachineIsOne, TogetherOnce};
ghost use Rattle.part_laws.specs.Parts.{MachinesAnswer};
ghost use Rattle.part_laws.specs.Texts.{PartIsOne, PartIsRead, PartsAnswer};
ghost use Rattle.part_laws.specs.Together.{AnswerTogether, MachineAt, StepTogether};
ghost use Rattle.part_laws.specs.Worked.{Cubes, high, input_x, loop, low, machine_z, places};
ghost use Rattle.part_laws.specs.WorkedPart.{
  IsSecondPart,
  PairCubes,
  second_part,
  starting_at,
  with_inputs,
  with_states,
};

/// The answers of machines that are stepped together are determined.
pub fn together_once()
    ensures { TogetherOnce }
{}

/// From their reset states, the machines of a split answer each word together as the machine that was split. After the
/// word each is at the block of its state.
pub fn machines_answer()
    ensures { MachinesAnswer }
{}

/// The texts of a job, one for each part that has bits and one for the outputs, say machines that answer together as the
/// machine that was split.
pub fn parts_answer()
    ensures { PartsAnswer }
{}

/// The text of a part is read back as its machine, which has no conflict and leaves nothing open.
pub fn part_is_read()
    ensures { PartIsRead }
{}

/// Where nothing is open in the file, there is one machine of each part, and one of the outputs.
pub fn machine_is_one()
    ensures { MachineIsOne }
{}

/// Where nothing is open in the file, there is one text of each part, and one of the outputs.
pub fn part_is_one()
    ensures { PartIsOne }
{}

/// Two machines that read each other, over three symbols. At the first symbol machine a still gives 0, so machine b
/// leaves its state only at the second one. At the third both go back to their first states.
pub fn worked_together()
    ensures some { Cubes }
    ensures answered { (cubes : Cubes)
        → AnswerTogether input_x (machine_z cubes) (places cubes 0 0) (high ∷ high ∷ low ∷ []) (low ∷ low ∷ high ∷ [])
        (places cubes 0 0) }
{}

/// Two machines that copy each other can both give 0 or both 1, and so take no step.
pub fn worked_loop()
    ensures { (cubes : Cubes) (answer : List Bool) (nexts : List MachineAt)
        → ¬ StepTogether input_x (machine_z cubes) (loop cubes) high answer nexts }
{}

/// The machine of a part of a counter: a row of equal rows is kept once, a state that shows one value has a dash, and an
/// input that only the output reads is left out. It does not start at its first state, blocks have no names of later
/// states, and the inputs of the file come first.
pub fn worked_part()
    ensures machine { (cubes : PairCubes) × IsSecondPart cubes (second_part cubes) }
    ensures not_from_the_first { (cubes : PairCubes) → ¬ IsSecondPart cubes (starting_at cubes 0) }
    ensures not_by_later_states { (cubes : PairCubes)
        → ¬ IsSecondPart cubes (with_states cubes (codes "b" ∷ codes "c" ∷ codes "d" ∷ [])) }
    ensures not_bits_first { (cubes : PairCubes)
        → ¬ IsSecondPart cubes (with_inputs cubes (codes "q0" ∷ codes "v" ∷ [])) }
{}
