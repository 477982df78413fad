// The bytes that come in and the text that goes out: what the definitions under specs/ speak of, and the refusals.
#![tactic(auto)]

ghost use Rattle.std.specs.Prelude.{◌≡◌};
ghost use Rattle.format.specs.Refusal.{number};

// The most bytes of a sheet: `longest` of specs/Sheet.antt.
pub const LONGEST: usize = 2048;

// The refusals of document 01, "Who can cause which refusal", and of document 02; `number` of specs/Refusal.antt gives the number of
// each.
#[derive(Clone, Copy, PartialEq, Eq, Debug)]
pub enum Refusal {
    Missing,
    Command,
    Range,
    Tree,
    Ends,
    TooMany,
    NoReading,
    SmallBuffer,
    NoSuchReading,
    TooLong,
    Overgrown,
    Label,
    Overlap,
    Hole,
}

// The forms of a sheet: what differs is which commands are in place.
#[derive(Clone, Copy, PartialEq, Eq, Debug)]
pub enum Form {
    Plain,
    Labelled,
}

// The number that the documents give to each refusal.
impl From<Refusal> for u8 {
    ghost from_gives = { λ why byte. byte ≡ number why };

    fn from(why: Refusal) -> u8 {
        match why {
            Refusal::Missing => 1,
            Refusal::Command => 2,
            Refusal::Range => 3,
            Refusal::Tree => 4,
            Refusal::Ends => 6,
            Refusal::TooMany => 8,
            Refusal::NoReading => 9,
            Refusal::SmallBuffer => 10,
            Refusal::NoSuchReading => 11,
            Refusal::TooLong => 12,
            Refusal::Overgrown => 13,
            Refusal::Label => 14,
            Refusal::Overlap => 15,
            Refusal::Hole => 16,
        }
    }
}
