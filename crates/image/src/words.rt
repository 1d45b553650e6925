// Reading a word, a section's words, a row's words; and writing a word. Kind, row and place stand as in the definitions' state and `to`, which hold them.
ghost use Rattle.std.specs.Prelude.{◌≡◌, ◌<◌, ◌≤◌, ◌+◌, [], ◌∷◌};
ghost use Rattle.rules.specs.Image as whole;
ghost use Rattle.rules.specs.State.{to, when};
ghost use Rattle.rules.proofs.Places.{Valid};
ghost use Rattle.image.specs.Views.{seen, IsSection, IsRow, Wrote};

use super::view::{Image, View};
use rules::Kind;

impl View<'_> {
    // The word of a kind at place j of row i.
    #[inline]
    pub fn word(&self, kind: Kind, i: usize, j: usize) -> u32
        requires { Valid self.now.layout.settings kind i j }
        ensures { result ≡ seen self.now kind i j }
    {
        self.words[self.layout.place(kind, i, j)]
    }

    // The words of the section that has this kind.
    #[inline]
    pub fn section(&self, kind: Kind) -> &[u32]
        ensures { IsSection self.now kind result.now }
    {
        let k = self.layout.lay(kind).section;
        let start = self.layout.starts[k] + 1;
        let end = self.layout.starts[k + 1];
        &self.words[start..end]
    }

    // The words of this kind in row i.
    #[inline]
    pub fn row(&self, kind: Kind, i: usize) -> &[u32]
        requires { Valid self.now.layout.settings kind i 0 }
        ensures { IsRow self.now kind i result.now }
    {
        let start = self.layout.place(kind, i, 0);
        let end = start + self.layout.lay(kind).span;
        &self.words[start..end]
    }
}

impl Image<'_> {
    // The image to read.
    #[inline]
    pub fn view(&self) -> View<'_>
        ensures words { result.words.now ≡ self.now.words.now }
        ensures layout { result.layout ≡ self.now.layout }
    {
        View {
            words: &*self.words,
            layout: self.layout,
        }
    }

    // Writes the word of a kind at place j of row i.
    #[inline]
    pub fn set(&mut self, kind: Kind, i: usize, j: usize, word: u32)
        requires { Valid self.old.layout.settings kind i j }
        ensures { Wrote self.old self.new (to kind i j word ∷ []) }
    {
        let p = self.layout.place(kind, i, j);
        self.words[p] = word;
    }

    // Writes it where `on` holds: a test beside the word, as the definitions' `when` is.
    #[inline]
    pub fn set_if(&mut self, on: bool, kind: Kind, i: usize, j: usize, word: u32)
        requires { Valid self.old.layout.settings kind i j }
        ensures { Wrote self.old self.new (when on (to kind i j word) ∷ []) }
    {
        if on {
            self.set(kind, i, j, word);
        }
    }
}
