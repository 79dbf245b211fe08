//! The program `transcripts`: it follows lists of commands of the tool, and prints each line of them with what the command
//! writes, its status, and the files that it puts.
//!
//! The lists stand beside it, each in a file `NAME.list`; the names of all of them stand in the file `lists`. The words of
//! the command line name the lists that are followed; where there are none, all are. What is printed is the list itself,
//! with the answers behind each command, so that what is wanted of the tool can be read from top to bottom. The forms of
//! the lines are those of [`lines::follow`].
#![tactic(auto)]

mod calls;
mod fault;
mod files;
mod images;
mod lines;
mod texts;

use crate::fault::Fault;
use crate::lines::{Followed, follow};
use std::process::ExitCode;
use std::rt::{Env, Files};
use std::{env, fs};

fn main(rt: HostRuntime) -> ExitCode {
    match print_lists(&rt) {
        Ok(()) => ExitCode::from(0),
        Err(fault) => {
            let _ = println!(rt; "{fault}");
            ExitCode::from(1)
        }
    }
}

// Follows the lists that the command line names, or all.
fn print_lists<R: Env + Files + Print + AllocGlobal>(rt: &R) -> Result<(), Fault> {
    let mut named = false;
    for name in env::args(rt)?.skip(1) {
        named = true;
        print_list(rt, name.as_str())?;
    }
    if named {
        return Ok(());
    }
    let names = fs::read_to_string(rt, "lists")?;
    for name in names.lines() {
        print_list(rt, name)?;
    }
    Ok(())
}

// Follows the list of a name, from no files on.
fn print_list<R: Files + Print + AllocGlobal>(rt: &R, name: &str) -> Result<(), Fault> {
    let path = format!(in rt.alloc(); "{name}.list")?;
    let list = fs::read_to_string(rt, path.as_str())?;
    println!(rt; "==== {name}")?;
    let mut followed = Followed::new(rt.alloc());
    for line in list.lines() {
        println!(rt; "{line}")?;
        follow(rt, &mut followed, line)?;
    }
    Ok(())
}
