// Replies in the making: octets put into reply memory one after another, taken back where the reply is not finished.
#![tactic(auto)]

ghost use Rattle.std.specs.Prelude.{◌≡◌, ◌≤◌};

mod puts;

// How many octets of reply memory a call needs, and how many it sets.
pub const REPLY_OCTETS: usize = 1024;

// How far a reply has come. It is lent beside the memory, since a reply that is taken back leaves it as it was.
#[derive(Drop)]
pub struct Position {
    pub length: usize,
}

// A reply that was begun, in the memory that is lent for it: where it ends unfinished, its octets are taken back.
pub struct Reply<'a> {
    pub octets: &'a mut [u8],
    pub position: &'a mut Position,
    mark: usize,
    ghost begun: { mark ≤ position.now.length },
}

impl Drop for Reply<'_> {
    fn drop(self)
        ensures octets { self.exit.0.now ≡ self.entry.octets.now }
        ensures length { self.exit.1.0.now.length ≡ self.entry.mark }
    {
        let Reply {
            octets: _,
            position,
            mark,
        } = self;
        position.length = mark;
    }
}

impl<'a> Reply<'a> {
    pub fn begin(octets: &'a mut [u8], position: &'a mut Position) -> Reply<'a>
        ensures octets { (result.octets.ghost_name ≡ octets.entry.ghost_name) × (result.octets.now ≡ octets.old) }
        ensures position { (result.position.ghost_name ≡ position.entry.ghost_name) × (result.position.now ≡ position.old) }
        ensures mark { result.mark ≡ position.old.length }
    {
        let mark = position.length;
        Reply {
            octets,
            position,
            mark,
        }
    }

    // The reply stands as written.
    pub fn finish(self)
        ensures octets { self.exit.0.now ≡ self.entry.octets.now }
        ensures position { self.exit.1.0.now ≡ self.entry.position.now }
    {
        let Reply {
            octets: _,
            position: _,
            mark: _,
        } = self;
    }
}
