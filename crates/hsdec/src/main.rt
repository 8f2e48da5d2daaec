//! The program `hsdec`. [`status`] of the crate `hsdec_program` says what it does with its arguments. `main` calls
//! it with what the system gives: its arguments, its files and standard input, and its standard output and standard
//! error. Contracts know neither the arguments nor the bytes of files. Nothing is proved about the system beyond
//! this edge.
#![tactic(auto)]

use hs_io::StdSink;
use hsdec_program::{InputShelf, SystemArguments, status};
use std::process::ExitCode;

fn main(rt: HostRuntime) -> ExitCode {
    let arguments = SystemArguments { environment: &rt };
    let mut shelf = InputShelf::new(&rt, rt.stdin());
    let mut out = StdSink::new(rt.stdout());
    let mut err = StdSink::new(rt.stderr());
    ExitCode::from(status(rt.alloc(), &arguments, &mut shelf, &mut out, &mut err))
}
