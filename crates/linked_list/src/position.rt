// Where an entry of a list stands: after `prev` and before `next`.
#[derive(Clone, Copy, PartialEq, Eq, Debug)]
pub struct LinkedListPosition {
    pub prev: Option<u32>,
    pub next: Option<u32>,
}
