// Runs the cases of candidates, rings and renumberings, P1 to P11 among them, each refusal from both sides of its border: a printed
// line for each answer.
#![tactic(auto)]

mod candidates;
mod examples;
mod models;
mod renumberings;
mod searches;

use std::io;

// Each file's cases are given the table of Fig. 1.
fn main(rt: HostRuntime) -> io::Result<()> {
    let figure = models::figure();
    candidates::run(&rt, &figure)?;
    searches::run(&rt, &figure)?;
    examples::run(&rt, &figure)?;
    renumberings::run(&rt, &figure)
}
