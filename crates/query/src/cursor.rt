ghost use Rattle.std.specs.Prelude.{◌≤◌, length};

// A text, and how far it was read.
#[derive(Drop)]
pub struct Reader<'a> {
    pub(crate) text: &'a [u8],
    // A number, and not what is left of the text, since refusals answer it.
    pub(crate) at: usize,
    ghost within: { at ≤ length text.now },
}
