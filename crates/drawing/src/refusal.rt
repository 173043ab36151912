// Why a call is refused, one case for each number of SCOPE 7.
ghost use Rattle.std.specs.Prelude.{◌≡◌};
ghost use Rattle.drawing.specs.Refusals as Refusals;

#[derive(Clone, Copy, PartialEq, Eq, Debug)]
pub enum Refusal {
    MalformedFile = 1,
    ColumnsDiffer = 2,
    TooManyEntries = 3,
    ShortScratch = 4,
    InvalidInput = 5,
    OffGrid = 6,
    WorkLimitExceeded = 7,
    ShortOutput = 8,
}

// The refusal's number.
impl From<Refusal> for u8 {
    ghost from_gives = { λ refusal number. number ≡ Refusals.number_of refusal };

    fn from(refusal: Refusal) -> u8 {
        refusal as u8
    }
}
