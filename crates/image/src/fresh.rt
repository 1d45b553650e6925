// Set-up: what it writes.
ghost use Rattle.std.specs.Prelude.{◌≡◌, cond, [], ◌∷◌, ◌++◌, ℕ, ◌+◌, ◌<◌, ◌≤◌, length, get_or, take, replicate, eqb, slice_index};
ghost use Rattle.rules.specs.Settings.{settings_of};
ghost use Rattle.rules.specs.Image as whole;
ghost use Rattle.rules.specs.SetUp as rule;
ghost use Rattle.image.specs.Filled.{Filled, Begun};

use super::sizes::Sizes;
use rules::Settings;

// The section of the publish counts, a number as in the layout table.
const COUNTS: usize = 6;

// The words from p on: n, and n times x.
fn fill(words: &mut [u32], p: usize, n: usize, x: u32)
    requires { (p + (1 + n) ≤ length words.old) × (n ≤ 8209) }
    ensures { Filled words.old words.new p n x }
{
    words[p] = n as u32;
    words[p + 1..p + 1 + n].fill(x);
}

// The first section, after its count.
pub fn put_settings(words: &mut [u32], settings: [u32; 6])
    requires { 7 ≤ length words.old }
    ensures { (length words.new ≡ length words.old) × (take 7 words.new ≡ rule.fresh_up_to (settings_of (slice_index settings 0) (slice_index settings 1) (slice_index settings 2) (slice_index settings 3) (slice_index settings 4) (slice_index settings 5)) 1) }
{
    let [threads, slots, cells, records, threshold, start] = settings;
    words[..7].copy_from_slice(&[6, threads, slots, cells, records, threshold, start]);
}

// What stands in each word of section k.
fn word_of(k: usize, start: u32) -> u32
    ensures { result ≡ cond (eqb k rule.counts_section) start 0 }
{
    if k == COUNTS { start } else { 0 }
}

// All sections but the first, each after its count.
pub fn put_sections(words: &mut [u32], sizes: &Sizes)
    requires { (length words.old ≡ whole.words sizes.now.settings) × (take 7 words.old ≡ rule.fresh_up_to sizes.now.settings 1) }
    ensures { words.new ≡ rule.fresh sizes.now.settings }
{
    let start = sizes.settings.start as u32;
    let mut p = 7;
    for (i, n) in sizes.sections[1..].iter().enumerate() {
        fill(words, p, *n, word_of(i + 1, start));
        p += 1 + *n;
    }
}

// An image as long as the sizes give. The settings are turned into words here, and by no From: only settings within their limits have each a word.
pub fn put(words: &mut [u32], sizes: &Sizes)
    requires { length words.old ≡ whole.words sizes.now.settings }
    ensures { words.new ≡ rule.fresh sizes.now.settings }
{
    let s = sizes.settings;
    put_settings(
        words,
        [
            s.threads as u32,
            s.slots as u32,
            s.cells as u32,
            s.records as u32,
            s.threshold as u32,
            s.start as u32,
        ],
    );
    put_sections(words, sizes);
}
