ghost use Rattle.std.specs.Prelude.{◌≡◌, ◌≤◌, length, drop};

// Octets that are read from the front on, and the offset of the next one.
#[derive(Clone, Copy)]
pub struct Reader<'a> {
    pub octets: &'a [u8],
    pub at: usize,
    ghost within: { at ≤ length octets.now },
}

impl<'a> Reader<'a> {
    // What is left to read.
    pub fn rest(&self) -> &'a [u8]
        ensures { result.now ≡ drop self.now.at self.now.octets.now }
    {
        &self.octets[self.at..]
    }
}
