// What a walk stands in between two steps, and what an opening, a step and the undivided sum give.
// Rules WS1 and F1: the state of a walk, a value with fields of one width of float. Rule WS12: the ensemble's number is the one given at the opening. Rule WS13:
// the largest magnitude among the remainders of the round so far.
#[derive(Clone, Copy)]
pub struct State<F> {
    pub sigma: F,
    pub t: F,
    pub tau: F,
    pub n: usize,
    pub pending: u64,
    pub rounds: u32,
    pub ensemble: u32,
    pub largest: F,
}

// Rules WS9 and F6: the walk goes on from a state, or is done with a sum after so many rounds. More also tells the largest remainder of the step's own round
// (rule WS14), which isn't the one that the state keeps where that round has closed.
#[derive(Clone, Copy)]
pub enum Step<F> {
    More(State<F>, F),
    Done(F, u32),
}
