// Advance, phase by phase. A thread's number stands beside the image, as in the other operations.
ghost use Rattle.std.specs.Prelude.{◌≡◌, ℕ, ◌+◌, ◌*◌, ◌<◌, ◌≤◌, length};
ghost use Rattle.rules.specs.Settings as of;
ghost use Rattle.rules.specs.State.{phase, u, v, entry};
ghost use Rattle.rules.specs.Advance as rule;
ghost use Rattle.rules.specs.Replies.{phase_number};
ghost use Rattle.rules.proofs.Sound.{Thread};
ghost use Rattle.image.specs.Views.{seen, state, Wrote};
ghost use Rattle.machine.specs.Answers.{Answered};
ghost use Rattle.machine.specs.Rows.{row_of};

use super::searches;
use image::view::{Image, View};
use rules::{Kind, Phase, Reply, Status};

// After item i of n: to the next item, or to the next phase.
#[tactic(auto, unfolding(rules::specs::Advance::onward))]
fn onward(image: &mut Image<'_>, t: usize, i: usize, n: usize, next: Phase)
    requires { (t < image.old.layout.settings.threads) × (i < 4294967295) }
    ensures { Wrote image.old image.new (rule.onward t i n (phase_number next)) }
{
    if i + 1 == n {
        image.set(Kind::U, t, 0, 0);
        image.set(Kind::Phase, t, 0, next as u32);
    } else {
        image.set(Kind::U, t, 0, (i + 1) as u32);
    }
}

// Phase 3, collecting.
#[tactic(auto, unfolding(rules::specs::Advance::collect))]
fn collect(image: &mut Image<'_>, t: usize) -> Reply
    requires { (t < image.old.layout.settings.threads) × (u (state image.old) t < image.old.layout.settings.threads) }
    ensures { Answered image.old image.new result (rule.collect image.old.layout.settings (state image.old) t) }
{
    let view = image.view();
    let threads = view.layout.settings.threads;
    let i = view.word(Kind::U, t, 0) as usize;
    let count = view.word(Kind::Count, i, 0);
    image.set(Kind::Collected, t, i, count);
    onward(image, t, i, threads, Phase::Pinging);
    Ok(1)
}

// Phase 4, pinging.
#[tactic(auto, unfolding(rules::specs::Advance::ping))]
fn ping(image: &mut Image<'_>, t: usize) -> Reply
    requires { (t < image.old.layout.settings.threads) × (u (state image.old) t < image.old.layout.settings.threads) }
    ensures { Answered image.old image.new result (rule.ping image.old.layout.settings (state image.old) t) }
{
    let view = image.view();
    let threads = view.layout.settings.threads;
    let i = view.word(Kind::U, t, 0) as usize;
    image.set_if(i != t, Kind::Pending, i, 0, 1);
    onward(image, t, i, threads, Phase::Waiting);
    Ok(1)
}

// Phase 5, waiting.
#[tactic(auto, unfolding(rules::specs::Advance::wait))]
fn wait(image: &mut Image<'_>, t: usize) -> Reply
    requires { (t < image.old.layout.settings.threads) × (u (state image.old) t < image.old.layout.settings.threads) }
    ensures { Answered image.old image.new result (rule.wait image.old.layout.settings (state image.old) t) }
{
    let view = image.view();
    let threads = view.layout.settings.threads;
    let i = view.word(Kind::U, t, 0) as usize;
    let passes = (i == t) | (view.word(Kind::Count, i, 0) != view.word(Kind::Collected, t, i));
    if passes {
        onward(image, t, i, threads, Phase::Scanning);
        Ok(1)
    } else {
        Ok(0)
    }
}

// Thread t's row of the one that the thread number selects: the reclaimer's own is private, another's published. Document 01 names the form: two lent slices, and a row of one.
pub fn row<'a>(
    private: &'a [u32],
    published: &'a [u32],
    reclaimer: usize,
    t: usize,
    slots: usize,
) -> &'a [u32]
    requires { (t * slots + slots ≤ length private.now) × (t * slots + slots ≤ length published.now) × (t * slots + slots ≤ 128) }
    ensures result_value { result.now ≡ row_of private.now published.now reclaimer t slots }
    ensures result_len { length result.now ≡ slots }
{
    let start = t * slots;
    let end = start + slots;
    if t == reclaimer {
        &private[start..end]
    } else {
        &published[start..end]
    }
}

// Slot x of all threads as reclaimer t reads it.
fn slot_seen(view: &View<'_>, t: usize, x: usize) -> u32
    requires { x < of.all_slots view.now.layout.settings }
    ensures { result ≡ rule.seen view.now.layout.settings (seen view.now) t x }
{
    let slots = view.layout.settings.slots;
    let private = view.section(Kind::Private);
    let published = view.section(Kind::Published);
    let row = row(private, published, t, x / slots, slots);
    row[x % slots]
}

// Phase 6, scanning.
#[tactic(auto, unfolding(rules::specs::Advance::scan))]
fn scan(image: &mut Image<'_>, t: usize) -> Reply
    requires { (t < image.old.layout.settings.threads) × (u (state image.old) t < of.all_slots image.old.layout.settings) }
    ensures { Answered image.old image.new result (rule.scan image.old.layout.settings (state image.old) t) }
{
    let view = image.view();
    let n = view.layout.all_slots();
    let x = view.word(Kind::U, t, 0) as usize;
    let record = slot_seen(&view, t, x);
    image.set(Kind::Scanned, t, x, record);
    onward(image, t, x, n, Phase::Freeing);
    Ok(1)
}

// After entry i of n, k of them kept: to the next entry, or the reclaim ends.
#[tactic(auto, unfolding(rules::specs::Advance::freed_on))]
fn freed_on(image: &mut Image<'_>, t: usize, i: usize, n: usize, k: u32)
    requires { (t < image.old.layout.settings.threads) × (i < 4294967295) }
    ensures { Wrote image.old image.new (rule.freed_on t i n k) }
{
    if i + 1 == n {
        image.set(Kind::U, t, 0, 0);
        image.set(Kind::V, t, 0, 0);
        image.set(Kind::Phase, t, 0, Phase::Idle as u32);
        image.set(Kind::Length, t, 0, k);
    } else {
        image.set(Kind::U, t, 0, (i + 1) as u32);
        image.set(Kind::V, t, 0, k);
    }
}

// Phase 7, freeing.
fn free(image: &mut Image<'_>, t: usize) -> Reply
    requires { (t < image.old.layout.settings.threads) × (u (state image.old) t < image.old.layout.room) × (v (state image.old) t ≤ u (state image.old) t) × (1 ≤ entry (state image.old) t (u (state image.old) t)) × (entry (state image.old) t (u (state image.old) t) ≤ image.old.layout.settings.records) }
    ensures { Answered image.old image.new result (rule.free image.old.layout.settings (state image.old) t) }
{
    let view = image.view();
    let i = view.word(Kind::U, t, 0) as usize;
    let k = view.word(Kind::V, t, 0);
    let n = view.word(Kind::Length, t, 0) as usize;
    let p = view.word(Kind::Entry, t, i);
    let kept = searches::noted(&view, t, p);
    image.set(Kind::Entry, t, i, 0);
    if kept {
        image.set(Kind::Entry, t, k as usize, p);
        freed_on(image, t, i, n, k + 1);
        Ok(2)
    } else {
        image.set(Kind::Status, p as usize, 0, Status::Free as u32);
        freed_on(image, t, i, n, k);
        Ok(3)
    }
}

// 8, advance, where the thread's phase is one from 3 on
#[tactic(auto, unfolding(rules::specs::Advance::advance))]
pub fn advance(image: &mut Image<'_>, t: usize) -> Reply
    requires { (t < image.old.layout.settings.threads) × (3 ≤ phase (state image.old) t) × (Thread image.old.layout.settings (state image.old) t) × ((i : ℕ) → i < image.old.layout.room → entry (state image.old) t i ≤ image.old.layout.settings.records) }
    ensures { Answered image.old image.new result (rule.advance image.old.layout.settings (state image.old) t) }
{
    // an undamaged image has a phase there, so that this `?` never answers
    let at = Phase::try_from(image.view().word(Kind::Phase, t, 0))?;
    match at {
        Phase::Collecting => collect(image, t),
        Phase::Pinging => ping(image, t),
        Phase::Waiting => wait(image, t),
        Phase::Scanning => scan(image, t),
        Phase::Freeing => free(image, t),
        Phase::Idle | Phase::Loaded | Phase::Reserved => unreachable!(),
    }
}
