// The searches: a word among others, a record among the cells or the scanned words, and the lowest free record. A thread's number goes beside the view with its bound, as an index does.
ghost use Rattle.std.specs.Prelude.{EachIndex, MatchOption, ◌≡◌, ◌≢◌, ℕ, ◌<◌, ◌≤◌, length, nat_eq, slice_index};
ghost use Rattle.rules.specs.Tests.{some};
ghost use Rattle.rules.specs.Operations as rule;
ghost use Rattle.rules.specs.Advance as phases;
ghost use Rattle.image.specs.Views.{seen};

use image::view::View;
use rules::Kind;

// One of the words is x. No word ends the loop, so that they are read as vectors: `contains` and `iter().any` take two to three times as long. The test is not handed in: with a closure the clause would speak of what it answers.
fn any(words: &[u32], x: u32) -> bool
    ensures { result ≡ some (length words.now) (λ i. nat_eq (slice_index words.now i) x) }
{
    let mut hit = false;
    for word in words {
        hit |= *word == x;
    }
    hit
}

// A cell names record p.
pub fn named(view: &View<'_>, p: u32) -> bool
    ensures { result ≡ rule.named view.now.layout.settings (seen view.now) p }
{
    any(view.section(Kind::Cell), p)
}

// A scanned word of reclaimer a equals p.
pub fn noted(view: &View<'_>, a: usize, p: u32) -> bool
    requires { a < view.now.layout.settings.threads }
    ensures { result ≡ phases.noted view.now.layout.settings (seen view.now) a p }
{
    any(view.row(Kind::Scanned, a), p)
}

// How many words can be passed over, as none of them is 0: block after block, each read as vectors (`position` reads word by word, and takes longer). Longer blocks leave more words to be read one by one: all of them, where there are fewer records than a block has words.
fn without_zero(words: &[u32]) -> usize
    ensures { (result ≤ length words.now) × ((k : ℕ) → k < result → slice_index words.now k ≢ 0) }
{
    let mut passed = 0;
    for block in words.chunks_exact(32) {
        if any(block, 0) {
            return passed;
        }
        passed += 32;
    }
    passed
}

// Where the first word that is 0 stands.
fn first_zero(words: &[u32]) -> Option<usize>
    ensures { MatchOption result (EachIndex words.now (λ k. slice_index words.now k ≢ 0)) (λ i. (i < length words.now) × (slice_index words.now i ≡ 0) × ((k : ℕ) → k < i → slice_index words.now k ≢ 0)) }
{
    words.iter().position(|word| *word == 0)
}

// The lowest free record, if there is one.
pub fn lowest_free(view: &View<'_>) -> Option<usize>
    ensures { MatchOption result (rule.lowest_free (seen view.now) view.now.layout.settings.records ≡ 0) (λ p. (p ≡ rule.lowest_free (seen view.now) view.now.layout.settings.records) × (1 ≤ p) × (p ≤ view.now.layout.settings.records)) }
{
    let statuses = view.section(Kind::Status);
    let passed = without_zero(statuses);
    let i = first_zero(&statuses[passed..])?;
    Some(passed + i + 1)
}
