// Why a program can't go on.
ghost use Rattle.std.specs.Prelude.{◌≡◌, IsErr, IsOk};
ghost use Rattle.std.specs.Process.{exit_status};

use sim::error::WorldError;
use std::alloc::AllocError;
use std::io;
use std::process::ExitCode;
use thiserror::Error;

#[derive(Debug, Drop, Error)]
pub enum Failure {
    // What the user gave is wrong, in words.
    #[error("{0}")]
    Input(String),
    #[error("the core refuses its own words")]
    NoCore,
    #[error("what the core shows has no meaning")]
    NoOutputs,
    #[error(transparent)]
    World(#[from] WorldError),
    #[error("out of memory")]
    NoMemory(#[from(alloc)] AllocError),
    #[error(transparent)]
    Io(#[from] io::Error),
    // What went wrong has been shown already.
    #[error("")]
    Shown,
}

// Prints why a program ends with an error, if it does, and hands it on.
pub fn report(rt: &HostRuntime, name: &str, res: Result<(), Failure>) -> Result<(), Failure>
    ensures { result ≡ res }
{
    match &res {
        Ok(()) | Err(Failure::Shown) => {}
        Err(failure) => {
            let _ = eprintln!(rt; "{name}: {failure}");
        }
    }
    res
}

// The same, and how the program ends: 0, or 1 after an error.
pub fn exit_code(rt: &HostRuntime, name: &str, res: Result<(), Failure>) -> ExitCode
    ensures ok { IsOk res → exit_status result ≡ 0 }
    ensures err { IsErr res → exit_status result ≡ 1 }
{
    match report(rt, name, res) {
        Ok(()) => ExitCode::SUCCESS,
        Err(_) => ExitCode::FAILURE,
    }
}
