// The cases of the files that a program's arguments name, a line each.
use crate::{read_file, without_newline};
use std::alloc::Alloc;
use std::env::Env;
use std::rt::Files;
use std::{env, io};

// As much of a file as is read.
// An array: memory is taken for the arguments alone, and a file that is longer is cut off.
const ROOM: usize = 65536;

// Every line of a text, without the newline that ends it.
pub fn each_line<F: Fn(&[u8]) -> io::Result<()>>(s: &[u8], one_line: &F) -> io::Result<()>
    requires { F.IsAlwaysCallable one_line.now }
{
    for line in s.split_inclusive(|letter| *letter == b'\n') {
        one_line(without_newline(line))?;
    }
    Ok(())
}

// Every line of the files that the arguments name, as far as there is room for a file.
pub fn each_case<R, F>(rt: &R, one_case: F) -> io::Result<()>
where
    R: Files + Print + Env + Alloc,
    F: Fn(&[u8]) -> io::Result<()> + Drop,
    requires { F.IsAlwaysCallable one_case }
{
    // The first is the program's own name.
    for name in env::args(rt)?.skip(1) {
        let mut input = [0u8; ROOM];
        let read = read_file(rt, name.as_bytes(), &mut input)?;
        each_line(&input[..read], &one_case)?;
    }
    Ok(())
}
