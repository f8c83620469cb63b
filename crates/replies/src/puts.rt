// What is put into a reply.
ghost use Rattle.std.specs.Prelude.{◌≡◌, ◌+◌, ◌-◌, ◌/◌, ◌%◌, ◌<◌, ◌≤◌, [], ◌∷◌, ◌++◌, length, take, drop, replicate};
ghost use Rattle.replies.specs.Replies.{Grew, Same, reply_room};

use super::{REPLY_OCTETS, Reply};

impl Reply<'_> {
    // One octet more.
    pub fn put(&mut self, octet: u8)
        requires { self.old.position.now.length < length self.old.octets.now }
        ensures { Grew self.old self.new (octet ∷ []) }
    {
        self.octets[self.position.length] = octet;
        self.position.length += 1;
    }

    // A number of two octets, the high one first.
    pub fn put_number(&mut self, number: u16)
        requires { self.old.position.now.length + 2 ≤ length self.old.octets.now }
        ensures { Grew self.old self.new (number / 256 ∷ number % 256 ∷ []) }
    {
        let [high, low] = number.to_be_bytes();
        self.put(high);
        self.put(low);
    }

    // Zeroes what the reply leaves of the first 1,024 octets.
    pub fn pad(&mut self)
        requires room { reply_room ≤ length self.old.octets.now }
        requires size { self.old.position.now.length ≤ reply_room }
        ensures octets { self.new.octets.now ≡ take self.old.position.now.length self.old.octets.now ++ (replicate (reply_room - self.old.position.now.length) 0 ++ drop reply_room self.old.octets.now) }
        ensures same { Same self.old self.new }
        ensures position { self.new.position.now ≡ self.old.position.now }
    {
        self.octets[self.position.length..REPLY_OCTETS].fill(0);
    }
}
