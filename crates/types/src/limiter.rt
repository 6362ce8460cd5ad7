// The limiter, as scripted answers: 0 yes, 1 no, 2 its own error.
#![tactic(auto, using(crate::proofs::Picks::cases, crate::proofs::Scripts::scripts), unfolding(crate::specs::Limiter::no_limiter, crate::specs::Limiter::moved, crate::specs::Limiter::permit_of, crate::specs::Limiter::ask, crate::specs::Limiter::heard_of, crate::specs::Limiter::notify, crate::specs::Limiter::hand_over))]

ghost use Rattle.std.specs.Prelude.{◌≡◌, ◌≤◌, length};
ghost use Rattle.types.specs.Limiter.{longest_script, no_limiter, says_of, moved, ask, notify, permit_of, heard_of, well_formed, taken_of, hand_over};

use super::answer::{Answer, Reason, Refusal, Value};

// The most answers that a script has.
pub const LONGEST_SCRIPT: usize = 16;

// The row is as long as a script can be: no heap.
#[derive(Clone, Copy)]
pub struct Limiter {
    pub script: [u8; LONGEST_SCRIPT],
    pub count: usize,
    pub at: usize,
}

#[derive(Clone, Copy)]
pub struct Asked {
    pub permit: Result<(), Refusal>,
    pub limiter: Limiter,
}

#[derive(Clone, Copy)]
pub struct Noticed {
    pub refusal: Refusal,
    pub limiter: Limiter,
}

#[derive(Clone, Copy)]
pub struct HandedOver {
    pub answer: Answer,
    pub limiter: Limiter,
}

impl Limiter {
    // No limiter: an empty script.
    pub fn none() -> Limiter
        ensures { result ≡ no_limiter }
    {
        Limiter {
            script: [0u8; LONGEST_SCRIPT],
            count: 0,
            at: 0,
        }
    }

    // What the script says next: past its end, 0. A number, since a record that is out of form may hold any byte (`says_of`).
    pub fn says(self) -> u8
        ensures { result ≡ says_of self }
    {
        if self.at < self.count && self.at < LONGEST_SCRIPT {
            self.script[self.at]
        } else {
            0
        }
    }

    // The script moved on by one answer; it stops at its end.
    pub fn moved(self) -> Limiter
        ensures { result ≡ moved self }
    {
        if self.count <= self.at {
            return self;
        }
        Limiter {
            at: self.at + 1,
            ..self
        }
    }

    // One question, with the number that a no stands for: any number, as `ask` promises.
    pub fn ask(self, deny: u8) -> Asked
        ensures { result ≡ ask self deny }
    {
        Asked {
            permit: permit_of(self.says(), deny),
            limiter: self.moved(),
        }
    }

    // One notice of a refusal: the limiter's own error takes its place.
    pub fn notify(self, refusal: Refusal) -> Noticed
        ensures { result ≡ notify self refusal }
    {
        let limiter = self.moved();
        Noticed {
            refusal: heard(self.says(), refusal),
            limiter,
        }
    }

    // Another script takes the place of this one; 18 where it is no script, and then this one stays.
    pub fn hand_over(self, script: &[u8]) -> HandedOver
        ensures { result ≡ hand_over self script.now }
    {
        if !well_formed(script) {
            return HandedOver {
                answer: Err(Refusal::from(Reason::Malformed)),
                limiter: self,
            };
        }
        taken(script)
    }
}

// What an answer to a question permits.
fn permit_of(said: u8, deny: u8) -> Result<(), Refusal>
    ensures { result ≡ permit_of said deny }
{
    match said {
        1 => Err(Refusal {
            number: deny,
            amount: 0,
        }),
        2 => Err(Refusal::from(Reason::LimiterFailed)),
        _ => Ok(()),
    }
}

// What is left of a refusal after the answer to its notice.
fn heard(said: u8, refusal: Refusal) -> Refusal
    ensures { result ≡ heard_of said refusal }
{
    if said == 2 {
        Refusal::from(Reason::LimiterFailed)
    } else {
        refusal
    }
}

// Whether bytes are a script: at most 16, each 0, 1 or 2.
fn well_formed(script: &[u8]) -> bool
    ensures { result ≡ well_formed script.now }
{
    script.len() <= LONGEST_SCRIPT && script.iter().all(|answer| *answer <= 2)
}

// The limiter of a script, at its start, with zeros behind it in its row.
fn taken(script: &[u8]) -> HandedOver
    requires { length script.now ≤ longest_script }
    ensures { result ≡ taken_of script.now }
{
    let mut row = [0u8; LONGEST_SCRIPT];
    row[..script.len()].copy_from_slice(script);
    HandedOver {
        answer: Ok(Value::Number(0)),
        limiter: Limiter {
            script: row,
            count: script.len(),
            at: 0,
        },
    }
}
