use map_model::{Answer, Edit};

/// An edit of a list, and what it answered once it was made.
#[derive(Clone, Copy)]
pub struct Step<N, E> {
    pub edit: Edit<N, E>,
    pub answer: Option<Answer<N, E>>,
}
