use commands::Stop;
use std::alloc::{Alloc, AllocGlobal, Global};
use std::env::{Env, FillError};
use std::io::ErrorKind;
use std::{env, io};

/// The arguments after the program's name. One that is not UTF-8 is no part of any form.
pub(crate) fn arguments<R: Env + AllocGlobal>(rt: &R) -> Result<Vec<String>, Stop> {
    let mut arguments = Vec::new(rt.alloc());
    for argument in env::args(&Nameless { rt }).map_err(stop_of)? {
        arguments.push(argument)?;
    }
    Ok(arguments)
}

// Why the arguments were not read.
fn stop_of(error: io::Error) -> Stop {
    match error.kind() {
        ErrorKind::InvalidData => Stop::Usage,
        _ => Stop::NoMemory,
    }
}

// The environment with the arguments alone: the program's name need not be UTF-8.
#[derive(Drop)]
struct Nameless<'a, R: Env + AllocGlobal> {
    rt: &'a R,
}

impl<R: Env + AllocGlobal> Alloc for Nameless<'_, R> {
    type A = Global;

    fn alloc(&self) -> Global {
        self.rt.alloc()
    }
}

impl<R: Env + AllocGlobal> Env for Nameless<'_, R> {
    fn arg(&self, i: usize, buf: &mut [u8]) -> Result<usize, FillError> {
        match i.checked_add(1) {
            Some(next) => self.rt.arg(next, buf),
            None => Err(FillError::NotPresent),
        }
    }

    fn var(&self, name: &str, buf: &mut [u8]) -> Result<usize, FillError> {
        self.rt.var(name, buf)
    }

    fn var_at(&self, i: usize, buf: &mut [u8]) -> Result<usize, FillError> {
        self.rt.var_at(i, buf)
    }
}
