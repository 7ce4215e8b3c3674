//! `web2c`: from a web to Pascal, and the run of Pascal programs.
#![tactic(auto)]

mod arguments;
mod calls;
mod command_line;
mod command_table;
mod ending;
mod file_names;
mod file_words;
mod halt;
mod parts;
mod pascal;
mod pool_listing;
mod run;
mod running;
mod status;
mod tangling;
mod texts;

use arguments::read_words;
use file_words::file_words;
use run::run;
use status::Status;
use std::alloc::Global;
use std::io;
use std::process::ExitCode;
use wb_base::{OutOfMemory, Words};
use wb_ports::{DirShelf, FilePort, Port, PortErr, SharedWriter, StdPort, StdSink};

/// Hands the words of the command line, the files of the folder, the standard output and a port for each FILE word to
/// `run`, and ends with the status that it answers. Where the runtime refuses the words the status is 3, and where
/// there is no memory for them or for a port it is 4.
fn main(rt: HostRuntime) -> ExitCode {
    let alloc = rt.alloc();
    let status = match read_words(&rt, alloc) {
        Ok(words) => match run_words(rt, alloc, &words) {
            Ok(status) => status,
            Err(OutOfMemory) => Status::OutOfMemory.number(),
        },
        Err(PortErr::Failed) => Status::Failed.number(),
        Err(PortErr::OutOfMemory) => Status::OutOfMemory.number(),
    };
    ExitCode::from(status)
}

// The word for standard input and output.
const STANDARD: &[u8] = b":std";

// Does what the words ask for. A port for a FILE word opens no file, and is refused for want of memory alone. Those
// over the standard streams share what they write, so that a question is seen before its answer is read.
fn run_words(rt: HostRuntime, alloc: Global, words: &Words) -> Result<u8, OutOfMemory> {
    let files = file_words(alloc, words)?;
    let output = SharedWriter::new(alloc, rt.stdout())?;
    let mut ports: Vec<Box<dyn Port>> = Vec::with_capacity(alloc, files.count())?;
    for index in 0..files.count() {
        let word = files.word(index);
        if word == STANDARD {
            ports.push(Box::new(alloc, StdPort::new(alloc, rt.stdin(), output.share()?)?)?)?;
        } else {
            ports.push(Box::new(alloc, FilePort::new(alloc, rt, word)?)?)?;
        }
    }
    let mut shelf = DirShelf::new(alloc, &rt);
    let mut con = StdSink::new(io::writer(&rt));
    Ok(run(alloc, words, &mut shelf, &mut con, &mut ports))
}

#[cfg(test)]
mod tests;
