//! A load test of a board: sixteen threads draw, park and take as fast as they can, and each rest is met once. Then
//! sixteen whole seats take over, purge and drain besides, and their marks stand in one history.
#![tactic(auto)]

mod callers;
mod card;
mod history;
mod load;
mod steps;
#[cfg(test)]
mod tests;
mod whole;
mod worker;

use load::{Load, run};
use std::env;
use std::process::ExitCode;
use whole::{Whole, run_whole};

/// How many turns each thread makes where no count is given.
const TURNS: u32 = 20;

/// The word after the program's name, where it is a number.
fn count_given(rt: &HostRuntime) -> Option<u32> {
    let mut args = env::args(rt).ok()?;
    args.nth(1)?.parse().ok()
}

fn show_figures(rt: &HostRuntime, load: &Load) -> std::io::Result<()> {
    println!(rt;
        "opened {}, closed {}, left {}",
        load.opened, load.closed, load.left
    )?;
    println!(rt;
        "rests {}, parks refused {}, takes lost {}",
        load.parked.len(),
        load.refused,
        load.lost
    )
}

fn show_whole(rt: &HostRuntime, whole: &Whole) -> std::io::Result<()> {
    println!(rt; "whole seats: opened {}", whole.opened)
}

fn show_verdicts(rt: &HostRuntime, load: &Load, whole: &Whole) -> std::io::Result<()> {
    let met = if load.is_whole() {
        "each rest was met once"
    } else {
        "a rest was lost, or met twice"
    };
    let one = if whole.is_settled() {
        "whole seats made one history, and nothing is left"
    } else {
        "the marks of whole seats stand in no history, or something is left"
    };
    println!(rt; "{met}")?;
    println!(rt; "{one}")
}

/// With a count it prints what came of so many turns of each thread. Without one it makes a few, and prints just the verdicts.
fn main(rt: HostRuntime) -> ExitCode {
    let given = count_given(&rt);
    let turns = match given {
        Some(turns) => turns,
        None => TURNS,
    };
    let Ok(load) = run(&rt, rt.alloc(), turns) else {
        return ExitCode::from(9);
    };
    let Ok(whole) = run_whole(&rt, rt.alloc(), turns) else {
        return ExitCode::from(9);
    };
    if given.is_some() && (show_figures(&rt, &load).is_err() || show_whole(&rt, &whole).is_err()) {
        return ExitCode::from(3);
    }
    match show_verdicts(&rt, &load, &whole) {
        Ok(()) if load.is_whole() && whole.is_settled() => ExitCode::from(0),
        Ok(()) => ExitCode::from(1),
        Err(_) => ExitCode::from(3),
    }
}
