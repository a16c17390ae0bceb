// What an operation hands out: the sheet that a plan is written as, or a refusal, and then no byte of the output has changed.
#![tactic(auto)]

ghost use Rattle.std.specs.Prelude.{◌≡◌};
ghost use Rattle.hand_out.specs.HandOut.{Counted, WrittenAt, Writes, numbered_refusal, numbered, AnsweredAt, HandsOut};

use checker::Answer;
use passes::Refused;

// The plan in the first n words of x, which has so many columns, as a sheet like s; or refusal 15, with the number of bytes needed.
fn write(s: &[u8], x: &[u32], n: usize, columns: usize, out: &mut [u8]) -> Answer
    requires { WrittenAt s.now x.now n }
    ensures { Writes s.now x.now n columns out.old result out.new }
{
    let needed = encode::encoded_length(s, n);
    if out.len() < needed {
        return checker::refusal(15, needed);
    }
    let length = encode::encode(s, x, n, out);
    Answer {
        number: 0,
        place: 0,
        length,
        cells: n / cells::CELL_WORDS,
        columns,
    }
}

// A refusal by its number and its place, whichever they are.
#[derive(Clone, Copy)]
pub struct NumberedRefusal {
    pub number: u32,
    pub place: usize,
}

impl From<Refused> for NumberedRefusal {
    ghost from_gives = { λ why r. r ≡ numbered_refusal why };

    fn from(why: Refused) -> NumberedRefusal {
        match why {
            Refused::NoRoom => NumberedRefusal {
                number: 14,
                place: 0,
            },
            Refused::Failed(failure) => NumberedRefusal {
                number: failure.error.number(),
                place: failure.place,
            },
        }
    }
}

// What a run has left, with its refusal by number and place.
pub fn numbered(r: Result<usize, Refused>) -> Result<usize, NumberedRefusal>
    ensures { result ≡ numbered r }
{
    Ok(r?)
}

// What a run on the plan of s, which has so many columns, has left in x.
pub fn hand_out(
    s: &[u8],
    x: &[u32],
    r: Result<usize, NumberedRefusal>,
    columns: usize,
    out: &mut [u8],
) -> Answer
    requires answered_at { AnsweredAt s.now x.now r }
    requires counted { Counted s.now columns }
    ensures { HandsOut s.now x.now r columns out.old result out.new }
{
    match r {
        Ok(n) => write(s, x, n, columns, out),
        Err(why) => checker::refusal(why.number as usize, why.place),
    }
}
