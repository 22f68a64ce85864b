// The grades that a claim can earn, the best first: rules Q2 to Q5.
#[derive(Clone, Copy, Debug, PartialEq, Eq)]
pub enum Grade {
    Exact,
    Nearest,
    Faithful,
    Wrong,
}
