ghost use Rattle.std.specs.Prelude.{◌≡◌, ◌≤◌};
ghost use Rattle.values.specs.Reading.{place_in};
ghost use Rattle.block_requests.specs.Faults.{refusal_of};

use transfers::refusal::Refusal;
use values::Fault;

// The refusal of a fault in a block of so many octets, which stand behind the operation's octet.
pub fn refusal_of(fault: Fault, length: usize) -> Refusal
    requires { place_in length fault ≤ 1023 }
    ensures { result ≡ refusal_of length fault }
{
    let place = (fault.place(length) + 1) as u16;
    match fault {
        Fault::NotInTable(_) => Refusal::NotInTable(place),
        Fault::CountDiffers(_) => Refusal::CountDiffers(place),
        Fault::NotAllowed(_) => Refusal::NotAllowed(place),
        Fault::Over(_) => Refusal::Over(place),
        Fault::Missing => Refusal::Missing(place),
    }
}
