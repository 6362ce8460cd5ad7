// Answers: a value with its kind, or a refusal with its number and amount.
#![tactic(auto, using(crate::proofs::Picks::cases, crate::proofs::Signs::signs), unfolding(crate::specs::Answer::float32, crate::specs::Answer::float64, crate::specs::Answer::bits_of, crate::specs::Answer::number_of, crate::specs::Answer::shown_of))]

ghost use Rattle.std.specs.Prelude.{◌≡◌};
ghost use Rattle.std.specs.Float.{binary32, binary64};
ghost use Rattle.std.specs.Float.Ieee.{nan_bits, to_bits};
ghost use Rattle.types.specs.Answer.{float32, float64, bits_of, number_for, refusal, number_of, shown_of};

// A NaN's bits stand beside the floats, since no float of the language keeps a payload.
#[derive(Clone, Copy)]
pub enum Value {
    I32(i32),
    I64(i64),
    F32(f32),
    F64(f64),
    Nan32(u32),
    Nan64(u64),
    Number(u64),
}

// Why an operation is refused, by document 01's number.
#[derive(Clone, Copy, PartialEq, Eq)]
pub enum Reason {
    TypeInvalid = 1,
    MinimumTooLarge = 2,
    CreationDenied = 3,
    LimiterFailed = 4,
    RoomTooSmall = 5,
    GrowthDenied = 6,
    FuelShort = 7,
    BeyondRoom = 8,
    AccessOutside = 9,
    SetOutside = 10,
    FillOutside = 11,
    CopyOutside = 12,
    InitOutside = 13,
    KindsDiffer = 14,
    MeteringOff = 15,
    NumberUnknown = 16,
    NoPlace = 17,
    Malformed = 18,
    Unsound = 19,
}

// A number is what C, the answer lines and a limiter's no are given; any number may stand here, so it is not the enum itself.
#[derive(Clone, Copy, PartialEq, Eq)]
pub struct Refusal {
    pub number: u8,
    pub amount: u64,
}

// All amounts but that of a price are 0.
impl From<Reason> for Refusal {
    ghost from_gives = { λ reason r. r ≡ refusal (number_for reason) 0 };

    fn from(reason: Reason) -> Refusal {
        Refusal {
            number: reason as u8,
            amount: 0,
        }
    }
}

// A value with its kind, or a refusal with its number and amount.
pub type Answer = Result<Value, Refusal>;

// Whether a pattern is a NaN's. Of 32 bits and of 64: each names its own float, casts and case of Value, so a trait would say all of it twice too.
fn is_nan32(bits: u32) -> bool
    ensures { result ≡ nan_bits binary32 bits }
{
    2139095040 < bits % 2147483648
}

fn is_nan64(bits: u64) -> bool
    ensures { result ≡ nan_bits binary64 bits }
{
    9218868437227405312 < bits % 9223372036854775808
}

// The bits of a float; the language's one NaN has one fixed pattern.
fn bits32(x: f32) -> u32
    ensures { result ≡ to_bits binary32 x }
{
    if x != x { 2143289344 } else { f32::to_bits(x) }
}

fn bits64(x: f64) -> u64
    ensures { result ≡ to_bits binary64 x }
{
    if x != x {
        9221120237041090560
    } else {
        f64::to_bits(x)
    }
}

impl Value {
    // The float of its bits; a NaN's bits stay as they are.
    pub fn from_f32_bits(bits: u32) -> Value
        ensures { result ≡ float32 bits }
    {
        if is_nan32(bits) {
            Value::Nan32(bits)
        } else {
            Value::F32(f32::from_bits(bits))
        }
    }

    pub fn from_f64_bits(bits: u64) -> Value
        ensures { result ≡ float64 bits }
    {
        if is_nan64(bits) {
            Value::Nan64(bits)
        } else {
            Value::F64(f64::from_bits(bits))
        }
    }

    // The bits of a value, 32 of them below zeros where it has 32.
    pub fn bits(self) -> u64
        ensures { result ≡ bits_of self }
    {
        match self {
            Value::I32(z) => u64::from(z.cast_unsigned()),
            Value::I64(z) => z.cast_unsigned(),
            Value::F32(x) => u64::from(bits32(x)),
            Value::F64(x) => bits64(x),
            Value::Nan32(n) => u64::from(n),
            Value::Nan64(n) => n,
            Value::Number(n) => n,
        }
    }
}

// The number given back: 0 where the operation is accepted.
pub fn number(answer: Answer) -> u8
    ensures { result ≡ number_of answer }
{
    match answer {
        Ok(_) => 0,
        Err(r) => r.number,
    }
}

// The bits of the value, or the amount.
pub fn shown(answer: Answer) -> u64
    ensures { result ≡ shown_of answer }
{
    match answer {
        Ok(v) => v.bits(),
        Err(r) => r.amount,
    }
}
