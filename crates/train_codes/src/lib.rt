// The codes of a telegram from the train: the state that each code means, and which telegrams are refused (refusals). Unknown, invalid
// and silent are three things.
#![tactic(auto)]

mod refusals;

ghost use Rattle.std.specs.Prelude.{◌≡◌};
ghost use Rattle.train_codes.specs.Codes.{cab_of, brake_of, isolation_of};

pub use refusals::refusal_of;

// The active cab.
#[derive(Clone, Copy)]
pub enum Cab {
    Silent,
    None,
    A,
    B,
    Invalid,
}

// Brake position.
#[derive(Clone, Copy)]
pub enum Brake {
    Silent,
    PassengerInP,
    FreightInP,
    FreightInG,
    Unknown,
    Invalid,
}

// Whether a national system is isolated.
#[derive(Clone, Copy)]
pub enum Isolation {
    Silent,
    Isolated,
    NotIsolated,
    Invalid,
}

// The supported traction systems: a list of bits, bit 1 for system 1 to bit 31 for system 31. No Option: silent is a state that is shown,
// as it is of each signal above, and not the lack of one.
#[derive(Clone, Copy)]
pub enum Traction {
    Silent,
    Supported(u32),
}

// Functions, and no `From` of a pair or a number: what the two flags and the number are is said by their names.
pub fn cab_of(a: bool, b: bool) -> Cab
    ensures { result ≡ cab_of a b }
{
    match (a, b) {
        (false, false) => Cab::None,
        (true, false) => Cab::A,
        (false, true) => Cab::B,
        (true, true) => Cab::Invalid,
    }
}

// The range is what document 01 calls invalid; the arm behind it is of the numbers that three bits do not have.
#[tactic(auto, unfolding(crate::specs::Codes::brake_of, kit::specs::Ladder::ladder))]
pub fn brake_of(number: u8) -> Brake
    ensures { result ≡ brake_of number }
{
    match number {
        0 => Brake::PassengerInP,
        1 => Brake::FreightInP,
        2 => Brake::FreightInG,
        3 => Brake::Unknown,
        4..=7 => Brake::Invalid,
        _ => Brake::Invalid,
    }
}

// By tests and no match on the pair: of that the compiler makes branches that cannot be foretold, and a call took 2.5 times as long.
pub fn isolation_of(isolated: bool, inverse: bool) -> Isolation
    ensures { result ≡ isolation_of isolated inverse }
{
    if isolated == inverse {
        Isolation::Invalid
    } else if isolated {
        Isolation::Isolated
    } else {
        Isolation::NotIsolated
    }
}
