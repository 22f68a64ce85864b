// What a walk gives that has ended, rule WR1: the sum, and how many rounds have closed.
#[derive(Clone, Copy)]
pub struct Sum<F> {
    pub sum: F,
    pub rounds: u32,
}
