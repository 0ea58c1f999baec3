//! The words of the process.

ghost use Rattle.std.specs.Prelude.{◌≡◌, ◌≢◌, ◌⊎◌, IfErr};
ghost use Rattle.std.specs.IoError.{error_kind};
ghost use Rattle.edge_base.specs.declared.status.Status.{Status};

use edge_base::Status;
use std::alloc::Global;
use std::env;
use std::io::{Error, ErrorKind};
use std::rt::Env;

/// The words that the process was started with, those after the program's name.
///
/// # Errors
/// Where they cannot be taken, the status that says so: `Memory`, or `Usage` where one of them is not UTF-8 and so no
/// word of any command.
pub fn words_of<R: Env + Alloc<A = Global>>(rt: &R) -> Result<Vec<String>, Status>
    ensures { IfErr result (λ status. (status ≡ Status.Memory) ⊎ (status ≡ Status.Usage)) }
{
    let arguments = match env::args(rt) {
        Ok(arguments) => arguments,
        Err(error) => return Err(status_of(&error)),
    };
    match arguments.skip(1).collect(rt.alloc()) {
        Ok(words) => Ok(words),
        Err(_) => Err(Status::Memory),
    }
}

// words that cannot be taken are no command, but for want of memory
fn status_of(error: &Error) -> Status
    ensures memory { error_kind error.now ≡ ErrorKind.OutOfMemory → result ≡ Status.Memory }
    ensures usage { error_kind error.now ≢ ErrorKind.OutOfMemory → result ≡ Status.Usage }
    ensures either { (result ≡ Status.Memory) ⊎ (result ≡ Status.Usage) }
{
    if error.kind() == ErrorKind::OutOfMemory {
        Status::Memory
    } else {
        Status::Usage
    }
}
