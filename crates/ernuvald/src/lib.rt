// The machine for C, C++ and Rust: include/ernuvald.h declares these functions. Any image is answered: any length, no words at all, any content.
#![tactic(auto)]

ghost use Rattle.std.specs.Prelude.{◌≡◌};
ghost use Rattle.rules.specs.Tests.{bit};
ghost use Rattle.rules.specs.Settings.{settings_of};
ghost use Rattle.rules.specs.Image.{outcome};
ghost use Rattle.rules.specs.Damaged as rule;
ghost use Rattle.rules.specs.SetUp.{set_up, words_needed};
ghost use Rattle.rules.specs.Replies.{step_of};
ghost use Rattle.rules.specs.Step.{step};
ghost use Rattle.rules.specs.ListQuestion.{list_number, list_from, list_many};

use rules::{Settings, Step};

// What a step answers: for C number and value stand side by side.
#[repr(C)]
#[derive(Clone, Copy)]
pub struct Reply {
    pub number: u32,
    pub value: u32,
}

// What the list question answers, for C side by side: its number, and where the part begins and how long it is, in words.
#[repr(C)]
#[derive(Clone, Copy)]
pub struct Part {
    pub number: u32,
    pub from: u32,
    pub length: u32,
}

// How many words an image of these settings has, 0 where they are refused. The settings come one by one, as C has them.
#[unsafe(no_mangle)]
pub extern "C" fn ernuvald_words(
    threads: u32,
    slots: u32,
    cells: u32,
    records: u32,
    threshold: u32,
    start: u32,
) -> u32
    ensures { result ≡ words_needed (settings_of threads slots cells records threshold start) }
{
    let settings = Settings::from([threads, slots, cells, records, threshold, start]);
    image::words_needed(settings) as u32
}

// Sets an image up. The number: 0, or 12 or 13, and then no word is changed. The settings come one by one, as C has them.
#[unsafe(no_mangle)]
pub extern "C" fn ernuvald_set_up(
    image: &mut [u32],
    threads: u32,
    slots: u32,
    cells: u32,
    records: u32,
    threshold: u32,
    start: u32,
) -> u32
    ensures { outcome result 0 image.new ≡ set_up (settings_of threads slots cells records threshold start) image.old }
{
    let settings = Settings::from([threads, slots, cells, records, threshold, start]);
    image::set_up_number(image::set_up(image, settings))
}

// One step, its five words one by one, as C has them.
#[unsafe(no_mangle)]
pub extern "C" fn ernuvald_step(
    image: &mut [u32],
    thread: u32,
    op: u32,
    a: u32,
    b: u32,
    c: u32,
) -> Reply
    ensures { outcome result.number result.value image.new ≡ step image.old (step_of thread op a b c) }
{
    let reply = machine::step(image, Step::from([thread, op, a, b, c]));
    Reply {
        number: rules::number(reply),
        value: rules::value(reply),
    }
}

// The list question: which part of the image holds the thread's entries, as many as its length.
#[unsafe(no_mangle)]
pub extern "C" fn ernuvald_retired(image: &[u32], thread: u32) -> Part
    ensures { (result.number ≡ list_number image.now thread) × (result.from ≡ list_from image.now thread) × (result.length ≡ list_many image.now thread) }
{
    match machine::retired_at(image, thread) {
        Ok(part) => Part {
            number: 0,
            from: part.from,
            length: part.length,
        },
        Err(why) => Part {
            number: u32::from(why),
            from: 0,
            length: 0,
        },
    }
}

// 1 if the image is damaged, else 0: a number, as C has it.
#[unsafe(no_mangle)]
pub extern "C" fn ernuvald_damaged(image: &[u32]) -> u32
    ensures { result ≡ bit (rule.damaged image.now) }
{
    u32::from(image::damaged(image))
}
