// The six tables, as a query is lent them. What makes them a heavy-chain numbering of a tree stands in specs/.
#![tactic(auto)]

// The six tables that a query is lent: of any lengths, with any entries.
#[derive(Clone, Copy)]
pub struct Tables<'a> {
    pub parent: &'a [u32],
    pub depth: &'a [u32],
    pub head: &'a [u32],
    pub id: &'a [u32],
    pub order: &'a [u32],
    pub size: &'a [u32],
}

// The six tables that a build is lent to write.
#[derive(Drop)]
pub struct TablesMut<'a> {
    pub parent: &'a mut [u32],
    pub depth: &'a mut [u32],
    pub head: &'a mut [u32],
    pub id: &'a mut [u32],
    pub order: &'a mut [u32],
    pub size: &'a mut [u32],
}
