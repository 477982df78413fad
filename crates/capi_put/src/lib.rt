// The number of an answer, and the value that it carries.
#![tactic(auto)]

ghost use Rattle.std.specs.Prelude.{◌≡◌, cond, ◌≤◌};
ghost use Rattle.solve_answer.specs.Calls.{refusal_number, placed_number};
ghost use Rattle.capi_put.specs.Values.{count_value, bits, carried, pairs_of};

use check_placing::Answers;
use counter::Next;
use format::Refusal;
use graph::Count;
use solve_answer::Unplaced;

// What stands for more than 65,535 readings.
const MORE: u64 = 65536;

// The bits of the answers to the check of a placing.
const SOLVED_FORM: u8 = 1;

const CONFIGURATION: u8 = 2;

const READING: u8 = 4;

// What an answer carries, and how the caller in C gets it.
pub trait Carried {
    type Number: Copy;

    ghost as_number: { Self → Self.Number };

    fn number(self) -> Self::Number
        ensures { result ≡ as_number self };
}

// A length, or how many nodes or records there are.
impl Carried for usize {
    type Number = u64;

    ghost as_number = { λ k. k };

    fn number(self) -> u64 {
        self as u64
    }
}

impl Carried for Count {
    type Number = u64;

    ghost as_number = { count_value };

    fn number(self) -> u64 {
        match self {
            Count::Exactly(k) => k as u64,
            Count::More => MORE,
        }
    }
}

fn bit(yes: bool, value: u8) -> u8
    ensures value { result ≡ cond yes value 0 }
    ensures upper_bound { result ≤ value }
{
    if yes { value } else { 0 }
}

impl Carried for bool {
    type Number = u8;

    ghost as_number = { λ yes. cond yes 1 0 };

    fn number(self) -> u8 {
        bit(self, 1)
    }
}

impl Carried for Answers {
    type Number = u8;

    ghost as_number = { bits };

    fn number(self) -> u8 {
        bit(self.solved, SOLVED_FORM)
            + bit(self.configuration, CONFIGURATION)
            + bit(self.reading, READING)
    }
}

// 0 or the refusal's number. A refusal leaves the place for the value as it was.
pub fn put<A: Carried>(answer: Result<A, Refusal>, value: &mut A::Number) -> u8
    ensures number { result ≡ refusal_number answer }
    ensures value_after { value.new ≡ carried A.as_number answer value.old }
{
    match answer {
        Ok(carried) => {
            *value = carried.number();
            0
        }
        Err(why) => u8::from(why),
    }
}

// The same of a reading or a configuration, which carries nothing, where its refusal has the pairs of a cycle.
pub fn put_placed(answer: Result<(), Unplaced>, pairs: &mut u64) -> u8
    ensures value { result ≡ placed_number answer }
    ensures pairs_after { pairs.new ≡ pairs_of answer pairs.old }
{
    match answer {
        Ok(()) => 0,
        Err(Unplaced::NoReading(c)) => {
            *pairs = c as u64;
            u8::from(Refusal::NoReading)
        }
        Err(Unplaced::Refused(why)) => u8::from(why),
    }
}

// The same of a reading, with the place moved on: after a refusal it is the one that was taken.
pub fn put_next(next: Next, place: &mut u64, pairs: &mut u64) -> u8
    ensures value { result ≡ placed_number next.answer }
    ensures place_after { place.new ≡ next.place.number }
    ensures pairs_after { pairs.new ≡ pairs_of next.answer pairs.old }
{
    *place = next.place.number as u64;
    put_placed(next.answer, pairs)
}
