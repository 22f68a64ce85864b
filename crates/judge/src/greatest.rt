// The greatest pattern of a list, the sign taken off.
ghost use Rattle.std.specs.Prelude.{◌≡◌, max, length};
ghost use Rattle.judge.specs.GreatestLaws.{greatest, greatest_of_four};

use kinds::Floating;

// Of four lists of one length: they are passed together, so that one maximum in four waits for the one before it. One counter serves the four: a zip of them
// tests four ends at each turn, and takes twice as long.
fn of_four<F: Floating>(
    a: &[F::Pattern],
    b: &[F::Pattern],
    c: &[F::Pattern],
    d: &[F::Pattern],
) -> F::Pattern
    requires { (length b.now ≡ length a.now) × (length c.now ≡ length a.now) × (length d.now ≡ length a.now) }
    ensures { F.pattern result
        ≡ greatest_of_four F.width (F.patterns a.now) (F.patterns b.now) (F.patterns c.now) (F.patterns d.now) }
{
    let mut most = F::from_word(0);
    for (i, first) in a.iter().enumerate() {
        let p = F::larger(F::unsigned(*first), F::unsigned(b[i]));
        let q = F::larger(F::unsigned(c[i]), F::unsigned(d[i]));
        most = F::larger(most, F::larger(p, q));
    }
    most
}

// Of a list and a pattern that is handed in.
fn with<F: Floating>(pattern: F::Pattern, list: &[F::Pattern]) -> F::Pattern
    ensures { F.pattern result ≡ max (F.pattern pattern) (greatest F.width (F.patterns list.now)) }
{
    let mut most = pattern;
    for p in list {
        most = F::larger(most, F::unsigned(*p));
    }
    most
}

// By quarters of the list, and what is left behind the last.
pub fn greatest<F: Floating>(list: &[F::Pattern]) -> F::Pattern
    ensures { F.pattern result ≡ greatest F.width (F.patterns list.now) }
{
    let quarter = list.len() / 4;
    let half = 2 * quarter;
    let third = 3 * quarter;
    let whole = 4 * quarter;
    let four = of_four::<F>(
        &list[0..quarter],
        &list[quarter..half],
        &list[half..third],
        &list[third..whole],
    );
    with::<F>(four, &list[whole..])
}
