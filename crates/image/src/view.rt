// An image with its layout: to read, and to write.
ghost use Rattle.std.specs.Prelude.{◌≡◌, length};
ghost use Rattle.rules.specs.Image as whole;

use super::layout::Layout;

// An image to read: it has as many words as its layout gives.
#[derive(Clone, Copy)]
pub struct View<'a> {
    pub words: &'a [u32],
    pub layout: Layout,
    pub ghost long: { whole.words layout.settings ≡ length words.now },
}

// An image to write. Beside `View`: whether a reference writes can't be a parameter of a type.
#[derive(Drop)]
pub struct Image<'a> {
    pub words: &'a mut [u32],
    pub layout: Layout,
    pub ghost long: { whole.words layout.settings ≡ length words.now },
}
