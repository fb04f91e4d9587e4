// The number check: whether a received block or frame is new, a repeat, or shows that blocks were lost (003 section 3).
// `receive` takes every record and number; a bad one is refused with document 01's 41, 51, 42 or 43 and the record stays.
#![tactic(auto)]

ghost use Rattle.std.specs.Prelude.{◌≡◌, ◌^◌, ◌<◌, ◌≤◌};
ghost use Rattle.number.specs.Number.{difference, judged, outcome, receiving, refused};
ghost use Rattle.number.specs.Answers.{number_of, outcome_of, verdict_number};

// What a receiving station keeps: sequence numbers run modulo 2^n, w is the link's window, the most blocks that the far station has
// on the way, and c is the number that is awaited.
#[derive(Clone, Copy)]
pub struct NumberRecord {
    pub n: u8,
    pub w: u8,
    pub c: u8,
}

#[derive(Clone, Copy)]
pub enum NumberRefusal {
    // 41: n is not from 1 to 7
    Modulus,
    // 51: the window is not from 1 to the modulus less 1
    Window,
    // 42: the awaited number is not below the modulus
    Awaited,
    // 43: the received number is not below the modulus
    Received,
}

// Document 01's number of a refusal.
impl From<NumberRefusal> for u32 {
    ghost from_gives = { λ refusal number. number ≡ number_of refusal };

    fn from(refusal: NumberRefusal) -> u32 {
        match refusal {
            NumberRefusal::Modulus => 41,
            NumberRefusal::Window => 51,
            NumberRefusal::Awaited => 42,
            NumberRefusal::Received => 43,
        }
    }
}

#[derive(Clone, Copy)]
pub enum Verdict {
    New,
    Repeat,
    Lost,
}

// The number of a verdict in an answer.
impl From<Verdict> for u8 {
    ghost from_gives = { λ verdict number. number ≡ verdict_number verdict };

    fn from(verdict: Verdict) -> u8 {
        match verdict {
            Verdict::New => 1,
            Verdict::Repeat => 2,
            Verdict::Lost => 3,
        }
    }
}

// The answer and the record after it.
#[derive(Clone, Copy)]
pub struct NumberResult {
    pub answer: Result<Verdict, NumberRefusal>,
    pub after: NumberRecord,
}

fn modulus(n: u8) -> u8
    requires { n ≤ 7 }
    ensures { result ≡ 2 ^ n }
{
    1u8 << n
}

// c - b modulo 2^n. The difference of the bytes wraps at 256, which the modulus divides.
fn wrapped_difference(n: u8, c: u8, b: u8) -> u8
    requires { n ≤ 7 }
    ensures { result ≡ difference (2 ^ n) c b }
{
    std::num::wrapping_sub_u8(c, b) % modulus(n)
}

fn refused(held: NumberRecord, refusal: NumberRefusal) -> NumberResult
    ensures { outcome_of result ≡ outcome held.n held.w held.c (refused (number_of refusal)) }
{
    NumberResult {
        answer: Err(refusal),
        after: held,
    }
}

// d = 0: new, and c moves on; d from 1 to w: a repeat; a larger d: lost.
fn judge(held: NumberRecord, m: u8, d: u8) -> NumberResult
    requires m_value { m ≡ 2 ^ held.n }
    requires c_lt_m { held.c < m }
    ensures { outcome_of result ≡ outcome held.n held.w held.c (judged held.w d) }
{
    let n = held.n;
    let w = held.w;
    let c = held.c;
    if d == 0 {
        return NumberResult {
            answer: Ok(Verdict::New),
            after: NumberRecord {
                n,
                w,
                c: (c + 1) % m,
            },
        };
    }
    if d <= w {
        return NumberResult {
            answer: Ok(Verdict::Repeat),
            after: held,
        };
    }
    NumberResult {
        answer: Ok(Verdict::Lost),
        after: held,
    }
}

// Document 01, part 5, and document 02, card 2: the received number judged against the awaited one, and the record after it.
pub fn receive(held: NumberRecord, number: u8) -> NumberResult
    ensures { outcome_of result ≡ receiving held.n held.w held.c number }
{
    let n = held.n;
    let w = held.w;
    let c = held.c;
    if n < 1 || 7 < n {
        return refused(held, NumberRefusal::Modulus);
    }
    let m = modulus(n);
    if w < 1 || m <= w {
        return refused(held, NumberRefusal::Window);
    }
    if m <= c {
        return refused(held, NumberRefusal::Awaited);
    }
    if m <= number {
        return refused(held, NumberRefusal::Received);
    }
    judge(held, m, wrapped_difference(n, c, number))
}
