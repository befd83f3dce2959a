//! The second program: does what its words ask for with standard input, writes to standard output, and ends with the number of the status. Nothing goes to standard
//! error.
#![tactic(auto)]

use s390x_binary_tool::{BinaryStatus, run};
use s390x_tool::{Status, StdSink, StdSource};
use std::alloc::Global;
use std::process::ExitCode;
use std::{env, io};

fn main(rt: HostRuntime) -> ExitCode {
    let status = match words(&rt, rt.alloc()) {
        Ok(words) => {
            let mut source = StdSource::new(rt.stdin());
            let mut sink = StdSink::new(rt.stdout());
            run(rt.alloc(), words.as_slice(), &mut source, &mut sink)
        }
        Err(status) => BinaryStatus::Shared(status),
    };
    ExitCode::from(status.number())
}

// The words after the program's name. Words that aren't UTF-8 are no command, and so are none at all.
fn words(rt: &(impl env::Env + AllocGlobal), alloc: Global) -> Result<Vec<String>, Status> {
    match env::args(rt) {
        Ok(mut args) => {
            args.next();
            args.collect(alloc).map_err(|_| Status::NoMemory)
        }
        Err(error) if error.kind() == io::ErrorKind::OutOfMemory => Err(Status::NoMemory),
        Err(_) => Ok(Vec::new(alloc)),
    }
}
