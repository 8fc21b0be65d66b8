// Loads a table and answers questions about it: one from the command line, or those of standard input, a line each.
#![tactic(auto)]

mod answer;
mod command;
mod no_answer;

use answer::Answer;
use clauses::ClauseTable;
use command::Command;
use no_answer::NoAnswer;
use orders::OrderTable;
use records::{Kind, Table};
use spaces::Space;
use std::io::{BufRead, BufReader};
use std::process::ExitCode;
use std::{env, fs, io};

fn main(rt: HostRuntime) -> anyhow::Result<ExitCode> {
    let mut args = env::args(&rt)?;
    let _program = args.next();
    let Some(path) = args.next() else {
        eprintln!(rt; "usage: jandifety TABLE [COMMAND...]")?;
        return Ok(ExitCode::FAILURE);
    };
    let mut command = String::new(rt.alloc());
    for word in args {
        command.push_str(word.as_str())?;
        command.push(' ')?;
    }
    let bytes = match fs::read(&rt, path.as_str()) {
        Ok(bytes) => bytes,
        Err(error) => {
            eprintln!(rt; "jandifety: cannot read {path}: {error}")?;
            return Ok(ExitCode::FAILURE);
        }
    };
    // A record that says no kind goes to the clause loader, which refuses it.
    match Kind::of(bytes.as_slice()) {
        Some(Kind::Orders) => run::<OrderTable>(&rt, bytes.as_slice(), command.as_str()),
        _ => run::<ClauseTable>(&rt, bytes.as_slice(), command.as_str()),
    }
}

// Loads the record, and answers the command, or where there is none the lines of standard input.
fn run<T: Table + Space>(
    rt: &HostRuntime,
    bytes: &[u8],
    command: &str,
) -> anyhow::Result<ExitCode> {
    let table = match T::read(bytes) {
        Ok(table) => table,
        Err(refusal) => {
            rt.println(refusal)?;
            return Ok(ExitCode::FAILURE);
        }
    };
    let kind = T::KIND;
    let items = table.items().size();
    let rows = table.row_count();
    println!(rt; "table: {kind}, {items} items, {rows} rows")?;
    if command.is_empty() {
        serve(rt, &table)?;
        return Ok(ExitCode::SUCCESS);
    }
    if respond(rt, &table, command.as_bytes())? {
        Ok(ExitCode::SUCCESS)
    } else {
        Ok(ExitCode::FAILURE)
    }
}

// Answers each line of standard input.
fn serve<S: Space>(rt: &HostRuntime, space: &S) -> io::Result<()> {
    for line in BufReader::new(rt.alloc(), rt.stdin())?.split(rt.alloc(), b'\n') {
        respond(rt, space, line?.as_slice())?;
    }
    Ok(())
}

// Prints what is answered to one line, and tells whether it was a command that was not refused. A blank line asks nothing.
fn respond<S: Space>(rt: &HostRuntime, space: &S, line: &[u8]) -> io::Result<bool> {
    match answer_to(space, line) {
        Ok(None) => Ok(true),
        Ok(Some(answer)) => {
            rt.println(answer)?;
            Ok(true)
        }
        Err(reason) => {
            rt.println(reason)?;
            Ok(false)
        }
    }
}

fn answer_to<S: Space>(space: &S, line: &[u8]) -> Result<Option<Answer>, NoAnswer> {
    let text = std::str::from_utf8(line)?;
    if text.trim().is_empty() {
        return Ok(None);
    }
    let command = text.parse::<Command>()?;
    Ok(Some(command.ask(space)?))
}
