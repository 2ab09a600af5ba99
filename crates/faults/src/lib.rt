// Faults: why bytes or tables are refused.
#![tactic(auto)]

ghost use Rattle.std.specs.Prelude.{◌≡◌};
ghost use Rattle.faults.specs.Fault.{fault};

// A fault's number, which docs/FORMAT.md explains, and its place.
// No enum: the interface for C tells the number, and the definitions name faults by it too.
#[derive(Clone, Copy)]
pub struct Fault {
    pub number: u32,
    pub place: usize,
}

impl Fault {
    // A number and a place.
    pub fn new(number: u32, place: usize) -> Fault
        ensures { result ≡ fault number place }
    {
        Fault { number, place }
    }
}
