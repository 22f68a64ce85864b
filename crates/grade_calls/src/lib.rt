// The grade of a claimed sum, for C.
#![tactic(auto)]

ghost use Rattle.std.specs.Prelude.{◌≡◌, [], ◌∷◌, ◌≤◌, IfErr};
ghost use Rattle.kinds.specs.Limits.{doubles};
ghost use Rattle.kinds.specs.Outcome.{outcome};
ghost use Rattle.kinds.specs.Refusals.{place};
ghost use Rattle.calls.specs.Inner.{code};
ghost use Rattle.grade.specs.Answers.{as_grade};
ghost use Rattle.grade.specs.Grade.{graded_heard};
ghost use Rattle.arrays.specs.Arrays.{values_of};
ghost use Rattle.grade_calls.specs.GradeArrays.{grade_arrays};

use arrays::lengths::too_many_or_4;
use grade::grades::Grade;
use kinds::Refusal;

// What a grade is told as.
fn value(grade: Grade) -> u64
    ensures { result ∷ [] ≡ values_of (graded_heard (as_grade grade)) [] }
{
    match grade {
        Grade::Exact => 0,
        Grade::Nearest => 1,
        Grade::Faithful => 2,
        Grade::Wrong => 3,
    }
}

// The grade of a claim, to an array of one place.
fn graded(list: &[u64], claim: u64, out: &mut [u64]) -> Result<(), Refusal>
    ensures told { IfErr result (λ refusal. place refusal ≤ doubles.length) }
    ensures graded { outcome (code result) out.new ≡ grade_arrays list.now claim out.old }
{
    if out.len() != 1 {
        return Err(too_many_or_4::<f64>(list));
    }
    let grade = grade::grade(list, claim)?;
    out.copy_from_slice(&[value(grade)]);
    Ok(())
}

// The grade of a claim, as `grade::grade` has it: 0 exact, 1 nearest, 2 faithful, 3 wrong.
#[unsafe(no_mangle)]
pub extern "C" fn kewohiata_list_grade(list: &[u64], claim: u64, out: &mut [u64]) -> u32
    ensures { outcome result out.new ≡ grade_arrays list.now claim out.old }
{
    calls::code(graded(list, claim, out))
}
