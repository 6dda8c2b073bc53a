//! The program `pipectl`: a template compiler and run service for Azure Pipelines' YAML.
#![tactic(auto)]

use pl_commands::run;
use pl_outfit::Status;
use pl_process::Process;
use std::process::ExitCode;
use std::{env, io};

fn main(rt: HostRuntime) -> ExitCode {
    let mut words = Vec::new(rt.alloc());
    match env::args(&rt) {
        Ok(args) => {
            for word in args.skip(1) {
                if words.push(word).is_err() {
                    return Status::Memory.exit_code();
                }
            }
        }
        // A word that is no text is no word of a command.
        Err(fault) if fault.kind() != io::ErrorKind::OutOfMemory => words.clear(),
        Err(_) => return Status::Memory.exit_code(),
    }
    let mut process = Process::new(rt, rt.stdin(), rt.stdout(), rt.stderr());
    run(&rt, rt.alloc(), &words, &mut process).exit_code()
}
