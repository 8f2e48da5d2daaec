//! Shelves and sinks.

use crate::words::{cut, is_word, number, pieces};
use case_lines::Answer;
use hs_io::{FileShelf, LoadFail, MemShelf, MemSink, Name, Shelf, Sink, SinkFail, StdSink};
use std::alloc::Global;
use std::io;
use std::rt::Files;

/// Puts the answer of a load, and the bytes that it gave.
fn put_loaded(loaded: Result<(), LoadFail>, bytes: &[u8], answer: &mut Answer) {
    match loaded {
        Ok(()) => answer.add(b"ok "),
        Err(LoadFail::Failed) => answer.add(b"failed "),
        Err(LoadFail::TooLong) => answer.add(b"too long "),
        Err(LoadFail::NoMemory) => answer.add(b"no memory "),
    }
    answer.add(bytes);
}

/// Puts the answer of each load from a shelf in memory, and the bytes that it gives.
pub(crate) fn load_all(alloc: Global, words: &[u8], answer: &mut Answer) {
    match pieces(alloc, words, b';') {
        Ok(steps) => take_steps(alloc, steps.as_slice(), answer),
        Err(_) => answer.fail(),
    }
}

/// Takes the steps of a shelf.
fn take_steps(alloc: Global, steps: &[Name], answer: &mut Answer) {
    let mut shelf = MemShelf::new(alloc);
    for step in steps {
        take_step(alloc, &mut shelf, step.bytes(), answer);
    }
}

/// Takes a step of a shelf.
fn take_step(alloc: Global, shelf: &mut MemShelf, step: &[u8], answer: &mut Answer) {
    let (verb, rest) = cut(step, b' ');
    let (first, second) = cut(rest, b' ');
    if is_word(verb, b"add") {
        add(shelf, first, second, answer);
    } else if is_word(verb, b"fail") {
        fail_at(shelf, first, answer);
    } else {
        load(alloc, shelf, first, number(second), answer);
    }
}

/// Adds bytes under a name.
fn add(shelf: &mut MemShelf, name: &[u8], bytes: &[u8], answer: &mut Answer) {
    if shelf.add(name, bytes).is_err() {
        answer.fail();
    }
}

/// Makes the load with a number fail.
fn fail_at(shelf: &mut MemShelf, load: &[u8], answer: &mut Answer) {
    if shelf.fail_at(number(load).clamp(1, 1000)).is_err() {
        answer.fail();
    }
}

/// Puts the answer of a load of a name with a limit, and the bytes that it gives.
fn load(alloc: Global, shelf: &mut MemShelf, name: &[u8], limit: u64, answer: &mut Answer) {
    let mut bytes = Vec::new(alloc);
    let loaded = shelf.load(name, limit.min(1000) as usize, &mut bytes);
    put_loaded(loaded, bytes.as_slice(), answer);
    answer.add(b";");
}

/// Puts the answer of a load of a file with a limit of ten bytes, and the bytes that it gives.
pub(crate) fn load_file<R: Files + AllocGlobal>(rt: &R, name: &[u8], answer: &mut Answer) {
    let mut shelf = FileShelf::new(rt);
    let mut bytes = Vec::new(rt.alloc());
    let loaded = shelf.load(name, 10, &mut bytes);
    put_loaded(loaded, bytes.as_slice(), answer);
}

/// Puts the answer of each put to a sink in memory, and the bytes that the sink was given so far.
pub(crate) fn put_pieces(alloc: Global, words: &[u8], answer: &mut Answer) {
    let (room, steps) = cut(words, b';');
    match pieces(alloc, steps, b';') {
        Ok(steps) => put_steps(alloc, number(room), steps.as_slice(), answer),
        Err(_) => answer.fail(),
    }
}

/// Takes the steps of a sink with this room.
fn put_steps(alloc: Global, room: u64, steps: &[Name], answer: &mut Answer) {
    match MemSink::new(alloc, room.min(1000) as usize) {
        Ok(mut sink) => put_each(&mut sink, steps, answer),
        Err(_) => answer.fail(),
    }
}

/// Takes the steps of a sink.
fn put_each(sink: &mut MemSink, steps: &[Name], answer: &mut Answer) {
    for step in steps {
        put_step(sink, step.bytes(), answer);
    }
}

/// Takes a step of a sink.
fn put_step(sink: &mut MemSink, step: &[u8], answer: &mut Answer) {
    let (verb, rest) = cut(step, b' ');
    if is_word(verb, b"fail") {
        let (call, take) = cut(rest, b' ');
        sink.fail_at(number(call).clamp(1, 1000), number(take).min(1000) as usize);
    } else {
        match sink.put(rest) {
            Ok(()) => answer.add(b"ok "),
            Err(SinkFail::Failed) => answer.add(b"failed "),
        }
        answer.add(sink.bytes());
        answer.add(b";");
    }
}

/// A stream that takes nothing.
struct Closed;

impl Print for Closed {
    fn print<D: std::fmt::Display + Drop>(&self, _value: D) -> io::Result<()> {
        Err(io::Error::from(io::ErrorKind::BrokenPipe))
    }

    fn println<D: std::fmt::Display + Drop>(&self, _value: D) -> io::Result<()> {
        Err(io::Error::from(io::ErrorKind::BrokenPipe))
    }

    fn write_all(&self, _bytes: &[u8]) -> io::Result<()> {
        Err(io::Error::from(io::ErrorKind::BrokenPipe))
    }
}

/// Puts the answer of a put to a stream that takes nothing.
pub(crate) fn put_to_closed(answer: &mut Answer) {
    let put = StdSink::new(&Closed).put(b"a line\n");
    answer.add_displayed(format_args!("{put:?}"));
}

/// Puts a line to standard output and nothing to standard error, and returns whether they took it.
pub(crate) fn put_to_streams(rt: &HostRuntime) -> bool {
    let line = StdSink::new(rt.stdout()).put(b"a line\n");
    let nothing = StdSink::new(rt.stderr()).put(b"");
    line.is_ok() && nothing.is_ok()
}
