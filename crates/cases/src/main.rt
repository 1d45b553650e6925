// The cases of document 01 that are not marked (P), by name: each is run and compared.
#![tactic(auto)]

mod refusals;
mod replies;

use rules::{Settings, Step};
use std::io;

// Tries a set-up, and gives its number, by which document 01 names replies. The settings: threads, slots, cells, records, threshold, start.
fn set_up(words: &mut [u32], settings: [u32; 6]) -> u32 {
    image::set_up_number(image::set_up(words, Settings::from(settings)))
}

// Takes a step, and gives number and value of its reply. The five words: thread, operation, a, b, c.
fn step(image: &mut [u32], five: [u32; 5]) -> (u32, u32) {
    let reply = machine::step(image, Step::from(five));
    (rules::number(reply), rules::value(reply))
}

fn say(rt: &impl Print, name: &str, passed: bool) -> io::Result<()> {
    let outcome = if passed { "passed" } else { "FAILED" };
    println!(rt; "{name}: {outcome}")
}

fn main(rt: HostRuntime) -> io::Result<()> {
    say(
        &rt,
        "F=2: the first retire stays idle, the second starts a reclaim",
        replies::second_retire(),
    )?;
    say(&rt, "T=17: 12", refusals::seventeen_threads())?;
    say(&rt, "one word too few: 13", refusals::one_too_few())?;
    say(&rt, "empty image: 1", refusals::empty_image())?;
    say(&rt, "the printed example", replies::printed())
}
