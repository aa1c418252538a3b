// Performs a log of calls on standard input, and prints an answer a line.
#![tactic(auto)]

mod log;

use book::calls::{Answer, Call};
use checker::replay::replay;
use constraints::fault::{Fault, Place};
use isa::built_in::BuiltIn;
use isa::repertoire::Repertoire;
use log::{Line, LogError, Opening, read_log};
use rowfile::file::RowFile;
use runs::valuations::Valuations;
use std::alloc::Global;
use std::io::{self, BufWriter, Read, Write};

// Opens a checker, makes the calls, and prints what each answers.
fn perform<R: Repertoire + Drop, W: Write + Drop>(
    alloc: Global,
    out: &mut W,
    repertoire: R,
    lawful: Valuations,
    calls: &[Call],
) -> io::Result<()> {
    let mut answers: Vec<Result<Answer, Fault>> = Vec::new(alloc);
    match replay(repertoire, lawful, calls, &mut answers)? {
        None => writeln!(out, "opened")?,
        Some(fault) => writeln!(out, "{fault}")?,
    }
    for answer in &answers {
        match answer {
            Ok(answer) => writeln!(out, "{answer}")?,
            Err(fault) => writeln!(out, "{fault}")?,
        }
    }
    Ok(())
}

// Prints that there is no checker, for each call.
fn without_checker<W: Write>(out: &mut W, calls: &[Call]) -> io::Result<()> {
    for _call in calls {
        writeln!(out, "no checker")?;
    }
    Ok(())
}

// The calls behind one open, on the rows that it names.
fn perform_from<W: Write + Drop>(
    alloc: Global,
    out: &mut W,
    opening: &Opening,
    calls: &[Call],
) -> io::Result<()> {
    let Some(bytes) = &opening.rows else {
        return perform(alloc, out, BuiltIn, opening.lawful, calls);
    };
    match RowFile::read(bytes) {
        Ok(rows) => perform(alloc, out, rows, opening.lawful, calls),
        Err(refusal) => {
            let fault = Fault::at(refusal, Place { packet: 0, slot: 0 });
            writeln!(out, "{fault}")?;
            without_checker(out, calls)
        }
    }
}

// The calls from one open to the next, or those before the first.
fn perform_part<W: Write + Drop>(
    alloc: Global,
    out: &mut W,
    opening: Option<&Opening>,
    calls: &[Call],
) -> io::Result<()> {
    match opening {
        Some(opening) => perform_from(alloc, out, opening, calls),
        None => without_checker(out, calls),
    }
}

fn perform_log<W: Write + Drop>(alloc: Global, out: &mut W, log: &[Line]) -> io::Result<()> {
    let mut opening: Option<&Opening> = None;
    let mut calls = Vec::new(alloc);
    for line in log {
        match line {
            Line::Call(call) => calls.push(*call)?,
            Line::Open(next) => {
                perform_part(alloc, out, opening, &calls)?;
                calls.clear();
                opening = Some(next);
            }
        }
    }
    perform_part(alloc, out, opening, &calls)
}

fn main(rt: HostRuntime) -> io::Result<()> {
    let alloc = rt.alloc();
    let mut text = Vec::new(alloc);
    rt.stdin().read_to_end(&mut text)?;
    let mut out = BufWriter::new(alloc, rt.stdout())?;
    match read_log(alloc, &text) {
        Ok(log) => perform_log(alloc, &mut out, &log)?,
        Err(LogError::NotACall(line)) => writeln!(out, "line {line}: not a call")?,
        Err(LogError::OutOfMemory) => return Err(io::ErrorKind::OutOfMemory.into()),
    }
    out.flush()
}
