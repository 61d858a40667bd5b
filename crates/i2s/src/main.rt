//! The tool of gins and support: one subcommand for each task.
#![tactic(auto)]

mod agree;
mod bad;
mod driven;
mod parts;
mod replay;
mod script;
mod show;
mod told;

use answers::{answer_line, summary};
use anyhow::anyhow;
use plans::{Lines, Tally};
use replies::{Outcome, Reaches, reply_to};
use std::io::{BufWriter, Read, Write};
use std::{env, fs, io};

const HELP: &str =
    "i2s clocks [FILE]   plan the clocks of each line RATE SLOTS BITS of FILE, or of standard input where there is none or a -:
                    the rate in hertz, the slots of a frame and the data bits of a slot;
                    blank lines and lines that begin with # pass
i2s setup [FILE]    check one unit's set-up, a line KEY VALUE for each key of FILE, or of standard input where there is none or a -,
                    draw one frame of it, and list each field that it puts; docs/RULES.md says which keys and values there are
i2s replay FILE     open a chip as the script FILE says, make its calls on both units, say what each answers, and at the end which
                    dividers both units have; docs/RULES.md says what a script is
i2s agree FILE OTHER
                    open the chip of FILE twice, make the calls of FILE on one and those of OTHER on the other, and say whether every
                    answer and both halves agree, or where they part
i2s help            say this
";

// Answers each line, and says at the end what was done.
fn plan_clocks(rt: &HostRuntime, input: &[u8]) -> io::Result<()> {
    let mut out = BufWriter::new(rt.alloc(), rt.stdout())?;
    let mut tally = Tally::new();
    for (number, line) in (1..u64::MAX).zip(Lines::new(input)) {
        let answer = answer_line(rt.alloc(), number, line)?;
        tally.count(answer.outcome);
        out.write_all(answer.text.as_bytes())?;
    }
    out.write_all(summary(rt.alloc(), &tally)?.as_bytes())?;
    out.flush()
}

// The bytes of a file, or of standard input where the path is a dash.
fn read_input(rt: &HostRuntime, path: &str) -> io::Result<Vec<u8>> {
    if path != "-" {
        return fs::read(rt, path);
    }
    let mut bytes = Vec::new(rt.alloc());
    rt.stdin().read_to_end(&mut bytes)?;
    Ok(bytes)
}

// `clocks`: where the input cannot be read, that is said, and that nothing was planned.
fn clocks(rt: &HostRuntime, path: &str) -> anyhow::Result<()> {
    match read_input(rt, path) {
        Ok(bytes) => Ok(plan_clocks(rt, bytes.as_slice())?),
        Err(e) => {
            eprintln!(rt; "i2s clocks: '{path}' cannot be read: {e}")?;
            plan_clocks(rt, b"")?;
            Err(anyhow!("the input cannot be read"))
        }
    }
}

// `setup`: what a sheet asks, or on standard error what is wrong with it.
fn setup(rt: &HostRuntime, path: &str) -> anyhow::Result<()> {
    let sheet = match read_input(rt, path) {
        Ok(bytes) => bytes,
        Err(e) => {
            eprintln!(rt; "i2s setup: '{path}' cannot be read: {e}")?;
            return Err(anyhow!("the input cannot be read"));
        }
    };
    let reply = reply_to(rt.alloc(), sheet.as_slice(), Reaches::of_chips())?;
    if reply.outcome == Outcome::Unread {
        eprint!(rt; "{}", reply.text)?;
        return Err(anyhow!("the sheet is no whole set-up"));
    }
    Ok(print!(rt; "{}", reply.text)?)
}

// `replay`: what a script's calls answer.
fn replay_file(rt: &HostRuntime, path: &str) -> anyhow::Result<()> {
    match read_input(rt, path) {
        Ok(bytes) => replay::replay(rt, bytes.as_slice()),
        Err(e) => {
            eprintln!(rt; "i2s replay: '{path}' cannot be read: {e}")?;
            Err(anyhow!("the script cannot be read"))
        }
    }
}

// `agree`: whether two orders from one opening agree.
fn agree_files(rt: &HostRuntime, path: &str, other: &str) -> anyhow::Result<()> {
    match (read_input(rt, path), read_input(rt, other)) {
        (Ok(text), Ok(other_text)) => agree::agree(rt, text.as_slice(), other_text.as_slice()),
        _ => Err(anyhow!("'{path}' or '{other}' cannot be read")),
    }
}

// Makes a task with the first two words behind it, if there are any.
fn run(
    rt: &HostRuntime,
    task: &str,
    file: Option<&str>,
    other: Option<&str>,
) -> anyhow::Result<()> {
    match (task, file, other) {
        ("help", _, _) => Ok(print!(rt; "{HELP}")?),
        ("agree", Some(file), Some(other)) => agree_files(rt, file, other),
        ("agree", _, _) => misused(rt, "i2s agree: two files are needed"),
        ("clocks", _, Some(_)) => misused(rt, "i2s clocks: one file at most"),
        ("setup", _, Some(_)) => misused(rt, "i2s setup: one file at most"),
        ("replay", _, Some(_)) => misused(rt, "i2s replay: one file at most"),
        ("clocks", file, None) => clocks(rt, file.unwrap_or("-")),
        ("setup", file, None) => setup(rt, file.unwrap_or("-")),
        ("replay", file, None) => replay_file(rt, file.unwrap_or("-")),
        _ => unknown(rt, task),
    }
}

// How the tool is used, behind what was wrong.
fn misused(rt: &HostRuntime, what: &str) -> anyhow::Result<()> {
    eprint!(rt; "{what}\n{HELP}")?;
    Err(anyhow!("usage"))
}

fn unknown(rt: &HostRuntime, task: &str) -> anyhow::Result<()> {
    eprint!(rt; "i2s: no task is called '{task}'\n{HELP}")?;
    Err(anyhow!("usage"))
}

fn word(arg: &Option<String>) -> Option<&str> {
    arg.as_ref().map(|word| word.as_str())
}

fn main(rt: HostRuntime) -> anyhow::Result<()> {
    let mut args = env::args(&rt)?;
    let _ = args.next();
    let words = [args.next(), args.next(), args.next(), args.next()];
    match &words {
        [None, ..] => misused(&rt, "i2s: a task is needed"),
        [Some(task), file, other, more] => match (task.as_str(), more) {
            ("setup" | "replay" | "agree", Some(_)) => {
                misused(&rt, "i2s: a task has two files at most")
            }
            (task, _) => run(&rt, task, word(file), word(other)),
        },
    }
}
