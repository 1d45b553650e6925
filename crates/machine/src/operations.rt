// The operations but advance. Each meets the rows of the table of replies that are its own, then does what its rule says.
// A thread's number t stands beside the image with its bound, as an index does: a type of both would be taken apart in each operation to reach the image, and where another thread's words are touched too the bound would stand there still.
ghost use Rattle.std.specs.Prelude.{◌≡◌, ℕ, ◌+◌, ◌<◌, ◌≤◌, false, not, ◌&&◌, ◌||◌, [], ◌∷◌, ◌==◌};
ghost use Rattle.rules.specs.Settings as of;
ghost use Rattle.rules.specs.State.{u, v, list_length, held, handler, pending, status, when, phase≔, u≔};
ghost use Rattle.rules.specs.Phases.{collecting};
ghost use Rattle.rules.specs.Operations as rule;
ghost use Rattle.rules.specs.Image.{outcome, after};
ghost use Rattle.rules.specs.Replies.{◌if◌, number_of, value_of};
ghost use Rattle.rules.proofs.Checked.{checked};
ghost use Rattle.image.specs.Views.{seen, state, Wrote};
ghost use Rattle.machine.specs.Answers.{Answered};

use super::searches;
use image::view::{Image, View};
use rules::{Kind, Phase, Reply, Status, Why};

// 0, allocate
#[tactic(auto, unfolding(rules::specs::Operations::allocate))]
pub fn allocate(image: &mut Image<'_>) -> Reply
    ensures { Answered image.old image.new result (checked ((7 if rule.lowest_free (state image.old) image.old.layout.settings.records == 0) ∷ []) (rule.allocate image.old.layout.settings (state image.old))) }
{
    let Some(p) = searches::lowest_free(&image.view()) else {
        return Err(Why::NoneFree);
    };
    image.set(Kind::Status, p, 0, Status::Live as u32);
    Ok(p as u32)
}

// Neither 0 nor live. Of a status only whether it is that one is asked, so that its word is compared.
fn dead(view: &View<'_>, c: u32) -> bool
    requires { c ≤ view.now.layout.settings.records }
    ensures { result ≡ (not (c == 0) && not (status (seen view.now) c == 1)) }
{
    c != 0 && view.word(Kind::Status, c as usize, 0) != Status::Live as u32
}

// 1, swap: cell a, expected b, new c
#[tactic(auto, unfolding(rules::specs::Operations::swap))]
pub fn swap(image: &mut Image<'_>, a: u32, b: u32, c: u32) -> Reply
    requires { (a < image.old.layout.settings.cells) × (c ≤ image.old.layout.settings.records) }
    ensures { Answered image.old image.new result (checked ((8 if not (c == 0) && not (status (state image.old) c == 1) || false) ∷ []) (rule.swap (state image.old) a b c)) }
{
    let view = image.view();
    if dead(&view, c) {
        return Err(Why::NotLive);
    }
    let equal = view.word(Kind::Cell, a as usize, 0) == b;
    image.set_if(equal, Kind::Cell, a as usize, 0, c);
    Ok(u32::from(equal))
}

// 2, load: slot a, cell b
#[tactic(auto, unfolding(rules::specs::Operations::load))]
pub fn load(image: &mut Image<'_>, t: usize, a: u32, b: u32) -> Reply
    requires { (t < image.old.layout.settings.threads) × (b < image.old.layout.settings.cells) }
    ensures { Answered image.old image.new result (rule.load (state image.old) t a b) }
{
    let record = image.view().word(Kind::Cell, b as usize, 0);
    image.set(Kind::Phase, t, 0, Phase::Loaded as u32);
    image.set(Kind::U, t, 0, a);
    image.set(Kind::V, t, 0, b);
    image.set(Kind::W, t, 0, record);
    Ok(record)
}

// 3, reserve
#[tactic(auto, unfolding(rules::specs::Operations::reserve))]
pub fn reserve(image: &mut Image<'_>, t: usize) -> Reply
    requires { (t < image.old.layout.settings.threads) × (u (state image.old) t < image.old.layout.settings.slots) }
    ensures { Answered image.old image.new result (rule.reserve image.old.layout.settings (state image.old) t) }
{
    let view = image.view();
    let slot = view.layout.slot(t, view.word(Kind::U, t, 0) as usize);
    let record = view.word(Kind::W, t, 0);
    image.set(Kind::Private, slot, 0, record);
    image.set(Kind::Held, slot, 0, 0);
    image.set(Kind::Phase, t, 0, Phase::Reserved as u32);
    Ok(record)
}

// Back to phase 0, operands 0.
#[tactic(auto, unfolding(rules::specs::Operations::to_idle))]
fn to_idle(image: &mut Image<'_>, t: usize)
    requires { t < image.old.layout.settings.threads }
    ensures { Wrote image.old image.new (rule.to_idle t) }
{
    image.set(Kind::Phase, t, 0, Phase::Idle as u32);
    image.set(Kind::U, t, 0, 0);
    image.set(Kind::V, t, 0, 0);
    image.set(Kind::W, t, 0, 0);
}

// 4, check
#[tactic(auto, unfolding(rules::specs::Operations::check))]
pub fn check(image: &mut Image<'_>, t: usize) -> Reply
    requires { (t < image.old.layout.settings.threads) × (u (state image.old) t < image.old.layout.settings.slots) × (v (state image.old) t < image.old.layout.settings.cells) }
    ensures { Answered image.old image.new result (rule.check image.old.layout.settings (state image.old) t) }
{
    let view = image.view();
    let slot = view.layout.slot(t, view.word(Kind::U, t, 0) as usize);
    let cell = view.word(Kind::V, t, 0) as usize;
    let record = view.word(Kind::W, t, 0);
    let equal = view.word(Kind::Cell, cell, 0) == record;
    image.set_if(equal & (record != 0), Kind::Held, slot, 0, 1);
    to_idle(image, t);
    Ok(u32::from(equal))
}

// 5, use: slot a
#[tactic(auto, unfolding(rules::specs::Operations::use_slot))]
pub fn use_slot(view: &View<'_>, t: usize, a: u32) -> Reply
    requires { (t < view.now.layout.settings.threads) × (a < view.now.layout.settings.slots) }
    ensures { outcome (number_of result) (value_of result) view.now.words.now ≡ after view.now.layout.settings view.now.words.now (checked ((11 if held (seen view.now) (of.slot view.now.layout.settings t a) == 0) ∷ []) (rule.use_slot view.now.layout.settings (seen view.now) t a)) }
{
    let slot = view.layout.slot(t, a as usize);
    if view.word(Kind::Held, slot, 0) == 0 {
        return Err(Why::NotHeld);
    }
    Ok(view.word(Kind::Private, slot, 0))
}

// 6, clear: slot a
#[tactic(auto, unfolding(rules::specs::Operations::clear))]
pub fn clear(image: &mut Image<'_>, t: usize, a: u32) -> Reply
    requires { (t < image.old.layout.settings.threads) × (a < image.old.layout.settings.slots) }
    ensures { Answered image.old image.new result (rule.clear image.old.layout.settings t a) }
{
    let slot = image.layout.slot(t, a as usize);
    image.set(Kind::Private, slot, 0, 0);
    image.set(Kind::Held, slot, 0, 0);
    Ok(0)
}

// To phase 3, where `on` holds: a test beside the words, as the rule's `when` is.
fn begin_if(image: &mut Image<'_>, on: bool, t: usize)
    requires { t < image.old.layout.settings.threads }
    ensures { Wrote image.old image.new (when on (phase≔ t collecting) ∷ when on (u≔ t 0) ∷ []) }
{
    image.set_if(on, Kind::Phase, t, 0, Phase::Collecting as u32);
    image.set_if(on, Kind::U, t, 0, 0);
}

// Record a, retired, at place n of thread t's list.
#[tactic(auto, unfolding(rules::specs::Operations::retire))]
fn append(image: &mut Image<'_>, t: usize, a: u32, n: u32)
    requires { (t < image.old.layout.settings.threads) × (1 ≤ a) × (a ≤ image.old.layout.settings.records) × (n < image.old.layout.room) × (n ≡ list_length (state image.old) t) }
    ensures { Wrote image.old image.new (rule.retire image.old.layout.settings (state image.old) t a).writes }
{
    let threshold = image.layout.settings.threshold;
    image.set(Kind::Status, a as usize, 0, Status::Retired as u32);
    image.set(Kind::Entry, t, n as usize, a);
    image.set(Kind::Length, t, 0, n + 1);
    begin_if(image, threshold <= n as usize + 1, t);
}

// 7, retire: record a, of whose status only whether it is live is asked, as in `dead`
#[tactic(auto, unfolding(rules::specs::Operations::retire))]
pub fn retire(image: &mut Image<'_>, t: usize, a: u32) -> Reply
    requires { (t < image.old.layout.settings.threads) × (1 ≤ a) × (a ≤ image.old.layout.settings.records) × (list_length (state image.old) t ≤ image.old.layout.room) }
    ensures { Answered image.old image.new result (checked ((8 if not (status (state image.old) a == 1)) ∷ (9 if rule.named image.old.layout.settings (state image.old) a) ∷ (10 if list_length (state image.old) t == of.room image.old.layout.settings) ∷ []) (rule.retire image.old.layout.settings (state image.old) t a)) }
{
    let view = image.view();
    if view.word(Kind::Status, a as usize, 0) != Status::Live as u32 {
        return Err(Why::NotLive);
    }
    if searches::named(&view, a) {
        return Err(Why::CellNames);
    }
    let n = view.word(Kind::Length, t, 0);
    if n as usize == view.layout.room {
        return Err(Why::ListFull);
    }
    append(image, t, a, n);
    Ok(n + 1)
}

// 9, deliver
#[tactic(auto, unfolding(rules::specs::Operations::deliver))]
pub fn deliver(image: &mut Image<'_>, t: usize) -> Reply
    requires { t < image.old.layout.settings.threads }
    ensures { Answered image.old image.new result (checked ((6 if pending (state image.old) t == 0 || false) ∷ []) (rule.deliver t)) }
{
    if image.view().word(Kind::Pending, t, 0) == 0 {
        return Err(Why::PhaseForbids);
    }
    image.set(Kind::Pending, t, 0, 0);
    image.set(Kind::Handler, t, 0, 1);
    Ok(1)
}

// 10 at handler k, from 1 to H: a copy of slot k − 1.
#[tactic(auto, unfolding(rules::specs::Operations::handle))]
fn copy(image: &mut Image<'_>, t: usize, k: u32)
    requires { (t < image.old.layout.settings.threads) × (1 ≤ k) × (k ≤ image.old.layout.settings.slots) × (k ≡ handler (state image.old) t) }
    ensures { Wrote image.old image.new (rule.handle image.old.layout.settings (state image.old) t).writes }
{
    let slot = image.layout.slot(t, k as usize - 1);
    let record = image.view().word(Kind::Private, slot, 0);
    image.set(Kind::Published, slot, 0, record);
    image.set(Kind::Handler, t, 0, k + 1);
}

// 10 past the last slot: the count, which after the largest becomes 0: raised by a wrapping add, as document 01 names the form.
#[tactic(auto, unfolding(rules::specs::Operations::handle))]
fn count(image: &mut Image<'_>, t: usize)
    requires { (t < image.old.layout.settings.threads) × (image.old.layout.settings.slots < handler (state image.old) t) }
    ensures { Wrote image.old image.new (rule.handle image.old.layout.settings (state image.old) t).writes }
{
    let n = image.view().word(Kind::Count, t, 0);
    image.set(Kind::Count, t, 0, n.wrapping_add(1));
    image.set(Kind::Handler, t, 0, 0);
}

// 10, handle
#[tactic(auto, unfolding(rules::specs::Operations::handle))]
pub fn handle(image: &mut Image<'_>, t: usize) -> Reply
    requires { t < image.old.layout.settings.threads }
    ensures { Answered image.old image.new result (checked ((6 if handler (state image.old) t == 0) ∷ []) (rule.handle image.old.layout.settings (state image.old) t)) }
{
    let k = image.view().word(Kind::Handler, t, 0);
    if k == 0 {
        return Err(Why::PhaseForbids);
    }
    if k as usize <= image.layout.settings.slots {
        copy(image, t, k);
        Ok(1)
    } else {
        count(image, t);
        Ok(2)
    }
}
