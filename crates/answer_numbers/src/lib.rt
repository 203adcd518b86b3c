// Answers as numbers in a lent slice, for functions that other languages call: an answer's numbers at its front, or a refusal's place, and what such a
// function returns.
#![tactic(auto)]

ghost use Rattle.std.specs.Prelude.{◌≡◌, [], ◌∷◌, ◌+◌, ◌^◌, ◌≤◌, ◌<◌, length};
ghost use Rattle.model.specs.Answer.{gives, refuses};
ghost use Rattle.answer_numbers.specs.Outcomes.{written, answering, EndsAs};

// Returned where the call answers.
pub const ANSWERED: u32 = 0;

// Returned where the numbers lent for the answer are fewer than it needs.
pub const TOO_SHORT: u32 = 100;

// Writes numbers from `at` on.
pub fn put<const N: usize>(out: &mut [i64], at: usize, numbers: [i64; N])
    requires { at + N ≤ length out.old }
    ensures { out.new ≡ written at numbers.entry out.old }
{
    out[at..at + N].copy_from_slice(&numbers);
}

// Gives an answer's numbers.
pub fn give<const N: usize>(answer: &mut [i64], numbers: [i64; N]) -> u32
    requires { N ≤ length answer.old }
    ensures { EndsAs result answer.new (answering (gives numbers.entry) answer.old) }
{
    put(answer, 0, numbers);
    ANSWERED
}

// Gives a refusal's place, and returns its number.
#[tactic(auto, unfolding(crate::specs::Outcomes::written))]
pub fn refuse(answer: &mut [i64], number: u32, place: usize) -> u32
    requires { (1 ≤ length answer.old) × (place < 2 ^ 63) }
    ensures { EndsAs result answer.new (answering (refuses number place) answer.old) }
{
    answer[0] = place as i64;
    number
}
