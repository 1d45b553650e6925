// The machine: the step, and the question for one thread's retire list.
#![tactic(auto)]

pub mod advance;
pub mod named;
pub mod operations;
pub mod refusals;
pub mod searches;
pub mod steps;

ghost use Rattle.std.specs.Prelude.{◌≡◌, ◌+◌, ◌*◌, IfOk};
ghost use Rattle.rules.specs.Settings as of;
ghost use Rattle.rules.specs.Image.{outcome};
ghost use Rattle.rules.specs.Replies.{number_of, value_of, from_of, length_of};
ghost use Rattle.rules.specs.Step as rule;
ghost use Rattle.rules.specs.ListQuestion as question;

use image::layout::Layout;
use image::view::{Image, View};
use rules::{Kind, Part, Reply, Step, Why};

// One step on any image: any length, any content, any five words.
pub fn step(image: &mut [u32], step: Step) -> Reply
    ensures { outcome (number_of result) (value_of result) image.new ≡ rule.step image.old step }
{
    if image::damaged(image) {
        return Err(Why::Damaged);
    }
    let layout = Layout::of(image);
    let mut undamaged = Image {
        words: image,
        layout,
    };
    steps::step_on(&mut undamaged, step)
}

// The image to read, where it is undamaged and has the thread.
fn asked(image: &[u32], thread: u32) -> Result<View<'_>, Why>
    ensures number { number_of result ≡ question.list_number image.now thread }
    ensures view { IfOk result (λ v. (v.words.now ≡ image.now) × (v.layout.settings ≡ of.settings image.now)) }
{
    if image::damaged(image) {
        return Err(Why::Damaged);
    }
    let layout = Layout::of(image);
    if layout.settings.threads <= thread as usize {
        return Err(Why::NoSuchThread);
    }
    Ok(View {
        words: image,
        layout,
    })
}

// The list question's number: 0, 1 or 3. A number, as document 01 asks for it; the clause and `retired_number_equal` hold it. Why each result has its own is said at `image::set_up_number`.
pub fn retired_number(image: &[u32], thread: u32) -> u32
    ensures { result ≡ question.list_number image.now thread }
{
    match asked(image, thread) {
        Ok(_) => 0,
        Err(why) => u32::from(why),
    }
}

// The list question: where the part that it hands back begins, and how many words that has.
pub fn retired_at(image: &[u32], thread: u32) -> Result<Part, Why>
    ensures { (number_of result ≡ question.list_number image.now thread) × (from_of result ≡ question.list_from image.now thread) × (length_of result ≡ question.list_many image.now thread) }
{
    let view = asked(image, thread)?;
    let t = thread as usize;
    Ok(Part {
        from: view.layout.place(Kind::Entry, t, 0) as u32,
        length: view.word(Kind::Length, t, 0),
    })
}

// The list question: the part of the image that holds the thread's entries, as many as its length; an empty part where it is refused, as document 01 has it and the clause holds.
pub fn retired(image: &[u32], thread: u32) -> &[u32]
    ensures { (result.now ≡ question.list_part image.now thread) × (result.ref_ptr.0 ≡ image.entry.ref_ptr.0) × (result.ref_ptr.1 ≡ image.entry.ref_ptr.1 + question.list_from image.now thread * 4) }
{
    match retired_at(image, thread) {
        Ok(part) => {
            let from = part.from as usize;
            &image[from..from + part.length as usize]
        }
        Err(_) => &image[..0],
    }
}
