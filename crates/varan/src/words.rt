// The words of the command line.
use crate::notes::Wishes;
use nv_driver::{Command, Commented, LineFault, Name, Service};
use std::{env, io};

// Arguments are refused where one of them isn't text.
fn fault_of(error: &io::Error) -> LineFault {
    match error.kind() {
        io::ErrorKind::OutOfMemory => LineFault::Memory,
        _ => LineFault::Usage,
    }
}

/// The words of the process, or why there are none.
pub fn words(rt: &HostRuntime) -> Result<Vec<String>, LineFault> {
    match env::args(rt) {
        Ok(arguments) => Ok(arguments.collect(rt.alloc())?),
        Err(error) => Err(fault_of(&error)),
    }
}

/// Whether the words name a live run, whose standard output is its guests'.
pub fn is_service(words: &Result<Vec<String>, LineFault>) -> bool {
    let Ok(words) = words else {
        return false;
    };
    match words.get(1) {
        Some(name) => matches!(Name::of(name.as_str()), Some(Name::Serve)),
        None => false,
    }
}

// What no other command than `serve` asks for.
const NO_WISHES: Wishes = Wishes {
    commented: Commented::Nothing,
    patience: None,
};

fn wished_of(service: &Service<'_>) -> Wishes {
    let most = service.limits.calls;
    let commented = if service.log {
        Commented::Events { most }
    } else {
        Commented::Ends { most }
    };
    Wishes {
        commented,
        patience: service.patience,
    }
}

/// What a live run tells on standard error while it goes on, and when it lets a follower go.
pub fn wishes(rt: &HostRuntime, words: &Result<Vec<String>, LineFault>) -> Wishes {
    let Ok(words) = words else {
        return NO_WISHES;
    };
    match nv_driver::read(rt.alloc(), words.as_slice()) {
        Ok(Command::Serve(service)) => wished_of(&service),
        _ => NO_WISHES,
    }
}
