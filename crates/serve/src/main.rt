// Serves a burst of requests on a controller and prints what it did.
#![tactic(auto)]

use bank::Registers;
use controller::{Controller, ControllerFault, Raised};
use levels::Level;
use optimistic::Optimistic;
use pair8259::Pair8259;
use pending_log::PendingLog;
use service::{Report, serve};
use std::str::FromStr;
use std::{env, fmt};
use vectored::Vectored;

const HELP: &str = "usage: serve [optimistic] [pair | vectored | log] [LINE...]

Raises a request of each LINE (3 8 1 if there is none) on a controller that was just made,
then takes and ends line after line until none is left, and prints each call with its
answer and the four sets of lines at the end, in hexadecimal.

  pair        a pair of 8259s, with the lines 0 to 15 without 2 (this one if none is named)
  vectored    64 lines in four classes
  log         64 lines, the smallest first
  optimistic  puts an optimistic layer on it

An argument that is no number from 0 to 255 is named on standard error and left out.
docs/RULES.md has the rules.";

// The controllers that can be named.
#[derive(Clone, Copy, Debug, Default, PartialEq, Eq)]
enum Kind {
    #[default]
    Pair,
    Vectored,
    Log,
}

// A word that names no controller.
#[derive(Clone, Copy, Debug, PartialEq, Eq)]
struct UnknownKind;

impl FromStr for Kind {
    type Err = UnknownKind;

    fn from_str(name: &str) -> Result<Self, UnknownKind> {
        match name {
            "pair" => Ok(Kind::Pair),
            "vectored" => Ok(Kind::Vectored),
            "log" => Ok(Kind::Log),
            _ => Err(UnknownKind),
        }
    }
}

// What the command line asks for.
#[derive(Drop)]
struct Command {
    optimistic: bool,
    kind: Kind,
    lines: Vec<u8>,
}

// The number that the text writes in base ten, from 0 to 255.
fn number(text: &str) -> Option<u8> {
    if text.starts_with('+') {
        return None;
    }
    text.parse().ok()
}

// What the command line asks for: on the pair and with the lines 3 8 1 if it does not say.
fn read_command(rt: &HostRuntime) -> anyhow::Result<Command> {
    let mut words = env::args(rt)?.skip(1).peekable();
    let optimistic = words
        .next_if(|word| word.as_str() == "optimistic")
        .is_some();
    let kind = words
        .next_if_map(|word| word.as_str().parse::<Kind>().map_err(|_| word))
        .unwrap_or_default();
    let mut lines = Vec::new(rt.alloc());
    if words.peek().is_none() {
        lines.extend_from_slice(&[3, 8, 1])?;
    }
    for word in words {
        match number(word.as_str()) {
            Some(line) => lines.push(line)?,
            None => eprintln!(rt; "serve: '{word}' is no line number (0 to 255): left out")?,
        }
    }
    Ok(Command {
        optimistic,
        kind,
        lines,
    })
}

// The answer to a raise, made to be printed once.
#[derive(Clone, Copy)]
struct Answer(Result<Raised, ControllerFault>);

impl fmt::Display for Answer {
    fn fmt<W: fmt::Write>(&self, f: &mut fmt::Formatter<W>) -> fmt::Result {
        match self.0 {
            Ok(Raised::New) => f.write_str("new"),
            Ok(Raised::Merged) => f.write_str("merged"),
            Err(fault) => {
                let number = fault.number();
                write!(f, "refused, {number}")
            }
        }
    }
}

fn print_report(rt: &HostRuntime, lines: &[u8], report: &Report) -> anyhow::Result<()> {
    for (line, answer) in lines.iter().zip(report.answers.iter()) {
        println!(rt; "raise {line}: {}", Answer(*answer))?;
    }
    for line in report.served.iter() {
        println!(rt; "take: {line}")?;
        println!(rt; "end: {line}")?;
    }
    println!(rt; "take: none")?;
    Ok(())
}

fn print_sets<C: Controller>(rt: &HostRuntime, controller: &C) -> anyhow::Result<()> {
    println!(rt; "pending {:x}", controller.pending())?;
    println!(rt; "masked {:x}", controller.masked())?;
    println!(rt; "blocked {:x}", controller.blocked())?;
    println!(rt; "in service {:x}", controller.in_service())?;
    Ok(())
}

// Serves the lines on the controller and prints what it did.
fn run<C: Controller + Drop>(
    rt: &HostRuntime,
    mut controller: C,
    lines: &[u8],
) -> anyhow::Result<()> {
    let report = serve(rt.alloc(), &mut controller, lines)?;
    print_report(rt, lines, &report)?;
    print_sets(rt, &controller)
}

// Runs on the controller, or on an optimistic layer on it.
fn run_on<C: Controller + Drop>(
    rt: &HostRuntime,
    optimistic: bool,
    controller: C,
    lines: &[u8],
) -> anyhow::Result<()> {
    if optimistic {
        run(rt, Optimistic::new(controller), lines)
    } else {
        run(rt, controller, lines)
    }
}

fn start(rt: &HostRuntime) -> anyhow::Result<()> {
    if env::args(rt)?.skip(1).any(|word| word.as_str() == "--help") {
        println!(rt; "{HELP}")?;
        return Ok(());
    }
    let command = read_command(rt)?;
    match command.kind {
        Kind::Pair => run_on(rt, command.optimistic, Pair8259::new(), &command.lines),
        Kind::Vectored => run_on(rt, command.optimistic, Vectored::new(), &command.lines),
        Kind::Log => run_on(rt, command.optimistic, PendingLog::new(), &command.lines),
    }
}

fn main(rt: HostRuntime) -> anyhow::Result<()> {
    start(&rt)
}
