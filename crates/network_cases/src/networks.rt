//! The calls of `net_core`.

use crate::letters::network;
use crate::words::put_unsound;
use case_lines::Answer;
use net_core::{Network, Order, Start, check};
use std::alloc::Global;

/// Puts what a call answers.
pub(crate) fn put_answer(alloc: Global, call: &str, words: &str, answer: &mut Answer) {
    if call == "digit" {
        return put_digit(words, answer);
    }
    match network(alloc, words) {
        Some(net) => put_checked(alloc, call, &net, answer),
        None => answer.fail(),
    }
}

/// Puts the digit of a start.
fn put_digit(word: &str, answer: &mut Answer) {
    match word {
        "Zero" => answer.add(&[Start::Zero.digit()]),
        "One" => answer.add(&[Start::One.digit()]),
        "Free" => answer.add(&[Start::Free.digit()]),
        "Unknown" => answer.add(&[Start::Unknown.digit()]),
        _ => answer.fail(),
    }
}

/// Puts what is asked of the order of a network, or why it is not sound.
fn put_checked(alloc: Global, call: &str, net: &Network, answer: &mut Answer) {
    match check(alloc, net) {
        Ok(order) => put_ordered(call, &order, answer),
        Err(fail) => put_unsound(&fail, b"", answer),
    }
}

/// Puts what is asked of an order.
fn put_ordered(call: &str, order: &Order, answer: &mut Answer) {
    if call == "check" {
        put_order(order, answer);
    } else {
        put_counts(order, answer);
    }
}

/// Puts the places of an order.
fn put_order(order: &Order, answer: &mut Answer) {
    answer.add(b"order");
    for place in &order.sequence {
        answer.add(b" ");
        answer.add_number(*place as u64);
    }
}

/// Puts the numbers of inputs, outputs, latches and signals.
fn put_counts(order: &Order, answer: &mut Answer) {
    let (inputs, outputs) = (order.inputs(), order.outputs());
    let (latches, signals) = (order.latches(), order.signals());
    answer.add_displayed(format_args!("{inputs} {outputs} {latches} {signals}"));
}
