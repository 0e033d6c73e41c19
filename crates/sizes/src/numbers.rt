// Refusals, with the numbers that document 01 gives them.

ghost use Rattle.std.specs.Prelude.{◌≡◌};
ghost use Rattle.sizes.specs.Refusals.{number, number_in};

// Why a call is refused.
#[derive(Clone, Copy, Debug, PartialEq, Eq)]
pub enum Refusal {
    // n is outside 4 to 31
    Columns = 1,
    // m is outside 1 to 32
    Bytes = 2,
    // a column's number is outside 1 to n
    Number = 3,
    // a slice has not the length that it has to have
    Length = 4,
    // a mark of a sheet is neither 0 nor 1
    Mark = 5,
    // more than t columns of a sheet are unsound
    Unsound = 6,
    // asked to speak, where the column is to listen
    Listens = 7,
    // asked to listen, where it is to speak
    Speaks = 8,
    // asked for the outcome before the end
    Runs = 9,
    // asked to speak or to listen after the end
    Ended = 10,
    // a state out of its ranges
    State = 11,
}

impl Refusal {
    // The number of the refusal.
    pub fn number(self) -> u8
        ensures { result ≡ number self }
    {
        self as u8
    }
}

// The number that a call for C answers: that of the refusal, or 0.
pub fn number_in(answer: Result<(), Refusal>) -> u8
    ensures { result ≡ number_in answer }
{
    match answer {
        Ok(()) => 0,
        Err(why) => why.number(),
    }
}
