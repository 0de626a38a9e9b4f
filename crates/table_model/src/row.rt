// The rows of a table, which the caller lends.

// How far the value of a row is.
#[derive(Clone, Copy, Debug, PartialEq, Eq)]
pub enum Mark {
    // Not asked for.
    Untouched,
    // In the session's evaluation.
    Pending,
    // The least solution's value.
    Final,
}

#[derive(Clone, Copy, Debug, PartialEq, Eq)]
pub struct Row<V> {
    pub mark: Mark,
    pub value: V,
}
