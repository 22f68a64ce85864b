// The grade of a sum that came from elsewhere.
#![tactic(auto)]

use crate::claim::{other_side, same_number};
use crate::grades::Grade;
use crate::near::{is_negative, nearest_pattern};
use kinds::{INFINITY, Refusal, SIGN};
use sums::exact::{is_zero, total};
use words::WORDS;

mod claim;
pub mod grades;
mod near;

ghost use Rattle.std.specs.Prelude.{◌≡◌, ◌<◌, T, nat_abs, length};
ghost use Rattle.std.specs.Float.Ieee.{of_bits};
ghost use Rattle.std.specs.Float.Ieee.Scale.{finite};
ghost use Rattle.ieee.specs.Units.{limit};
ghost use Rattle.kinds.specs.Limits.{doubles};
ghost use Rattle.words.specs.Words.{word_count, whole_of};
ghost use Rattle.grade.specs.Answers.{as_grade, as_graded};
ghost use Rattle.grade.specs.Grade.{grade_at, grade_of};

// Rules Q2 to Q5, of a finite claim, where the words hold S; they are left with what the nearest double misses of it. The claim itself never enters them, so
// that it may be as large as a double can be (rule Q1).
fn grade_words(words: &mut [u64], claim: u64) -> Grade
    requires { (length words.old ≡ word_count) × (nat_abs (whole_of words.old) < limit doubles.format) × T (finite (of_bits doubles.format claim)) }
    ensures { as_grade result ≡ grade_at doubles.format (whole_of words.old) (of_bits doubles.format claim) }
{
    let near = nearest_pattern(words);
    addend::withdraw(words, near);
    if is_zero(words) {
        if same_number(claim, near) {
            return Grade::Exact;
        }
        return Grade::Wrong;
    }
    if claim == near {
        return Grade::Nearest;
    }
    if claim == other_side(near, is_negative(words)) {
        return Grade::Faithful;
    }
    Grade::Wrong
}

// Rule O10: the list is judged before the claim.
pub fn grade(list: &[u64], claim: u64) -> Result<Grade, Refusal>
    ensures { as_graded result ≡ grade_of doubles list.now claim }
{
    judge::judge::<f64>(list, true, true)?;
    let finite = claim % SIGN < INFINITY;
    if !finite {
        return Err(Refusal::ClaimNotFinite);
    }
    let mut words = [0u64; WORDS];
    total(list, &mut words);
    Ok(grade_words(&mut words, claim))
}
