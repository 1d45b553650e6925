// The image: its layout, whether it is damaged, and its set-up.
#![tactic(auto)]

pub mod check;
pub mod fresh;
pub mod layout;
pub mod sizes;
pub mod view;
pub mod words;

ghost use Rattle.std.specs.Prelude.{◌≡◌};
ghost use Rattle.rules.specs.Image.{outcome};
ghost use Rattle.rules.specs.Damaged as image;
ghost use Rattle.rules.specs.SetUp as rule;
ghost use Rattle.rules.specs.Replies.{set_up_number_of};

use layout::Layout;
use rules::{NoSetUp, Settings};
use sizes::Sizes;
use view::View;

// Whether an image is damaged: any length, any content.
pub fn damaged(words: &[u32]) -> bool
    ensures { result ≡ image.damaged words.now }
{
    if words.len() < 7 {
        return true;
    }
    let Some(sizes) = Sizes::of(layout::settings(words)) else {
        return true;
    };
    if !sizes.laid(words) {
        return true;
    }
    let layout = Layout::of(words);
    !View { words, layout }.right()
}

// How many words an image of these settings has, 0 where they are refused: a number and no Option, which the clause and `words_needed_equal` hold.
pub fn words_needed(settings: Settings) -> usize
    ensures { result ≡ rule.words_needed settings }
{
    match Sizes::of(settings) {
        Some(sizes) => sizes.total(),
        None => 0,
    }
}

// Sets an image up, or says why not, and then no word is changed.
pub fn set_up(words: &mut [u32], settings: Settings) -> Result<(), NoSetUp>
    ensures { outcome (set_up_number_of result) 0 words.new ≡ rule.set_up settings words.old }
{
    let Some(sizes) = Sizes::of(settings) else {
        return Err(NoSetUp::SettingBeyond);
    };
    if words.len() != sizes.total() {
        return Err(NoSetUp::WrongLength);
    }
    fresh::put(words, &sizes);
    Ok(())
}

// The number of a set-up's result: 0, or 12 or 13. As `rules::number` of a step's, over other reasons: one for both would promise what a `From` gives in place of the definitions.
pub fn set_up_number(reply: Result<(), NoSetUp>) -> u32
    ensures { result ≡ set_up_number_of reply }
{
    match reply {
        Ok(()) => 0,
        Err(why) => u32::from(why),
    }
}
