// The numbers of a table: what they were, and what they are.

// Copies the numbers of a table to the start of others, as many as there is room for.
pub(crate) fn copy(to: &mut [u64], table: &[u64]) {
    let n = table.len().min(to.len());
    to[..n].copy_from_slice(&table[..n]);
}

// Are the numbers of a table those at the start of others?
pub(crate) fn are_same(table: &[u64], others: &[u64]) -> bool {
    let n = table.len().min(others.len());
    table[..n] == others[..n]
}
