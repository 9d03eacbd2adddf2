// What names a row, a column and a node.

/// Names a row of one pool.
///
/// After the row was removed, the name may be given to another row.
#[derive(Clone, Copy, Debug, PartialEq, Eq, Hash)]
pub struct Row {
    pub(crate) number: usize,
}

/// Names a column of one pool.
///
/// After the column was removed, the name may be given to another column.
#[derive(Clone, Copy, Debug, PartialEq, Eq, Hash)]
pub struct Col {
    pub(crate) number: usize,
}

/// Names a node of one pool.
///
/// After the node left the pool, the name may be given to another node.
#[derive(Clone, Copy, Debug, PartialEq, Eq, Hash)]
pub struct Node {
    pub(crate) number: usize,
}

/// Where a node stands, and its item.
#[derive(Drop)]
pub struct Seat<T> {
    pub row: Row,
    pub col: Col,
    pub item: T,
}
