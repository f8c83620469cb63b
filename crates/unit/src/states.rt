ghost use Rattle.std.specs.Prelude.{◌≡◌, MatchOption, ◌≢◌};

use transfers::refusal::Refusal;

mod calls;

// A unit's state is a value that is moved from call to call: it cannot be copied, forgotten or made elsewhere, so a call
// that exists on one state only cannot be made in another. The memories are handed to each call.
pub struct State<const MODE: u8> {
    // a plain number, as the calls of C know it
    mode: u8,
    ghost is: { mode ≡ MODE },
}

// No edit is open.
pub type Quiet = State<0>;

// An edit is open.
pub type Editing = State<1>;

// An edit is open, and its check found nothing.
pub type Checked = State<2>;

// An opening that was turned away, and the state that it leaves.
pub struct Unopened {
    pub state: Quiet,
    pub refusal: Refusal,
}

impl Unopened {
    // The refusal alone: the state is let go. Within the unit alone, since elsewhere a state can't be forgotten.
    pub(crate) fn into_refusal(self) -> Refusal
        ensures { result ≡ self.refusal }
    {
        let Unopened { state, refusal } = self;
        let _ = state.into_mode();
        refusal
    }
}

impl<const MODE: u8> State<MODE> {
    // No `TryFrom`: a state can't be made outside the unit.
    pub(crate) fn from_mode(mode: u8) -> Option<State<MODE>>
        ensures { MatchOption result (mode ≢ MODE) (λ q. mode ≡ MODE) }
    {
        if mode == MODE {
            Some(State { mode })
        } else {
            None
        }
    }

    // The mode's number.
    pub fn into_mode(self) -> u8
        ensures mode { result ≡ MODE }
        ensures own { result ≡ self.entry.mode }
    {
        let State { mode } = self;
        mode
    }

    // The state that a call leads to.
    fn next<const NEXT: u8>(self) -> State<NEXT> {
        let State { mode: _ } = self;
        State { mode: NEXT }
    }
}
