//! The calls of `shift_real`.

ghost use Rattle.std.specs.Prelude.{◌≡◌, ℕ, IfSome};
ghost use Rattle.kiss_file.specs.LawfulFile.{IsLawful};
ghost use Rattle.shift_real.specs.Register.{HasShortOrder};
ghost use Rattle.shift_real.specs.ShiftNetwork.{AreNamesFor};

use crate::networks::put_network;
use crate::words::put_partitions;
use case_lines::Answer;
use kiss_file::KissFile;
use machine_table::Machine;
use net_core::SignalNames;
use realise::{names, names_apart};
use shift_real::{OrderFail, RegisterFail, chain, order, register, start};
use std::alloc::Global;

/// Puts the members of the chain.
pub(crate) fn put_chain(alloc: Global, m: &Machine, answer: &mut Answer) {
    match chain(alloc, m) {
        Ok(members) => put_partitions(alloc, members.as_slice(), answer),
        Err(_) => answer.fail(),
    }
}

/// Puts the order, or the states that stay apart.
pub(crate) fn put_order(alloc: Global, m: &Machine, answer: &mut Answer) {
    match order(alloc, m) {
        Ok(order) => answer.add_number(order as u64),
        Err(OrderFail::NotDefinite { s, t }) => answer.add_displayed(format_args!("apart {s} {t}")),
        Err(OrderFail::NoMemory) => answer.fail(),
    }
}

/// The order of a machine, if its register has at most 12 latches.
fn short_order(alloc: Global, m: &Machine) -> Option<usize>
    ensures { IfSome result (HasShortOrder m.now) }
{
    let k = order(alloc, m).ok()?;
    if k <= 12 && k * usize::from(m.inputs()) <= 12 {
        Some(k)
    } else {
        None
    }
}

/// Puts what the latches of the register start at, as a number, or that the reset state is not reached.
pub(crate) fn put_start(alloc: Global, m: &Machine, answer: &mut Answer) {
    let Some(k) = short_order(alloc, m) else {
        return answer.fail();
    };
    match start(alloc, m, k) {
        Ok(number) => answer.add_number(number),
        Err(fail) => put_fail(&fail, answer),
    }
}

/// Puts why there is no register.
fn put_fail(fail: &RegisterFail, answer: &mut Answer) {
    match fail {
        RegisterFail::NotReached => answer.add(b"not reached"),
        RegisterFail::NoMemory => answer.fail(),
    }
}

/// Puts the statements of the register of a file's machine, or that the reset state is not reached.
pub(crate) fn put_register(alloc: Global, file: &KissFile, m: &Machine, answer: &mut Answer)
    requires lawful { IsLawful file.now }
    requires machine { m.now ≡ file.now }
{
    let Some(k) = short_order(alloc, m) else {
        return answer.fail();
    };
    names_apart();
    match names(alloc, file, k * usize::from(m.inputs())) {
        Ok(names) => put_register_with(alloc, m, k, &names, answer),
        Err(_) => answer.fail(),
    }
}

/// Puts the statements of the register that has these names, or that the reset state is not reached.
fn put_register_with(alloc: Global, m: &Machine, k: usize, names: &SignalNames, answer: &mut Answer)
    requires order { HasShortOrder m.now k }
    requires names { AreNamesFor m.now k names.now }
{
    match register(alloc, m, k, names) {
        Ok(net) => put_network(&net, answer),
        Err(fail) => put_fail(&fail, answer),
    }
}
