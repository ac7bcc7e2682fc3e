// What the call answers.

// How many results there are, and how many bytes their records take.
#[derive(Clone, Copy)]
pub struct Results {
    pub count: usize,
    pub bytes: usize,
}
