// One episode, from a network's and a show's sheet to the feed: reads two files, judges both texts, joins them, opens a
// round and prints what it did.
#![tactic(auto)]

use anyhow::Context;
use horn::joined::Joined;
use horn::source::Source;
use round::{Opened, Refusal, Round};
use std::io::Write;
use std::{env, fs, io};
use text::{Fault, TextSheet};

mod feed;
mod files;

fn main(rt: HostRuntime) -> anyhow::Result<()> {
    run(&rt)
}

fn run(rt: &HostRuntime) -> anyhow::Result<()> {
    let mut args = env::args(rt)?.skip(1);
    let network_path = args.next().context(
        "two files are wanted: the network's sheet, then the show's",
    )?;
    let show_path = args
        .next()
        .context("a second file is wanted: the show's sheet")?;
    let network_file = fs::read(rt, network_path.as_str())?;
    let show_file = fs::read(rt, show_path.as_str())?;
    episode(
        rt,
        files::without_line_end(&network_file),
        files::without_line_end(&show_file),
    )?;
    Ok(())
}

// The whole task on two texts.
fn episode(rt: &HostRuntime, network_text: &[u8], show_text: &[u8]) -> io::Result<()> {
    let network = TextSheet::new(rt.alloc(), network_text)?;
    let show = TextSheet::new(rt.alloc(), show_text)?;
    judged(rt, "The network's sheet", network_text, &network)?;
    judged(rt, "The show's sheet", show_text, &show)?;
    let mut round = Round::new(rt.alloc())?;
    let both = Joined {
        first: &network,
        second: &show,
    };
    match round.open(&both) {
        Ok(answer) => {
            opened(rt, answer)?;
            published(rt, &round)
        }
        Err(refusal) => turned_back(rt, refusal),
    }
}

// Prints a sheet and what judging it answered.
fn judged(rt: &HostRuntime, name: &str, text: &[u8], sheet: &TextSheet<'_>) -> io::Result<()> {
    print!(rt; "{name}: ")?;
    rt.stdout().write_all(text)?;
    println!(rt; "")?;
    match sheet.verdict() {
        Ok(counts) => println!(rt;
            "  good: clauses {}, conditions up to P{}, literals {}",
            counts.clauses, counts.conditions, counts.literals
        ),
        Err(fault) => refused(rt, fault),
    }
}

// Prints why a text is refused; it then counts as a sheet without clauses.
fn refused(rt: &HostRuntime, fault: Fault) -> io::Result<()> {
    let number = fault.number();
    match fault.place() {
        Some(place) => println!(rt;
            "  refused with {number} at byte {place}: {fault}; it counts as a sheet without clauses"
        ),
        None => println!(rt;
            "  refused with {number}: {fault}; it counts as a sheet without clauses"
        ),
    }
}

// Prints what an accepted opening answered.
fn opened(rt: &HostRuntime, answer: Opened) -> io::Result<()> {
    println!(rt;
        "Opened on both, the network's clauses first: clauses {}, conditions {}, body places in force {}",
        answer.clauses, answer.conditions, answer.discharged
    )
}

// Prints why the sheets could not be opened together.
fn turned_back(rt: &HostRuntime, refusal: Refusal) -> io::Result<()> {
    let number = refusal.number();
    match refusal {
        Refusal::Contradiction(ban) => println!(rt;
            "Refused with {number}: the clauses contradict each other; clause {ban}, the network's counted first, is the lowest ban that is broken. Nothing is published."
        ),
        _ => println!(rt;
            "Refused with {number}: together the sheets have more than 2,000 clauses or 8,000 literals. Nothing is published."
        ),
    }
}

// Prints the feed: the conditions in force, from the roll.
fn published(rt: &HostRuntime, round: &Round) -> io::Result<()> {
    let mut roll = vec![in rt.alloc(); 0u32; 32]?;
    let Ok(count) = round.roll(&mut roll) else {
        return Ok(());
    };
    let conditions = round.conditions();
    print!(rt; "The feed, {count} of {conditions} conditions in force:")?;
    for p in 1..=conditions {
        if feed::is_set(&roll, p) {
            print!(rt; " P{p}")?;
        }
    }
    println!(rt; "")
}
