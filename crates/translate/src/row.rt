// What is looked up for a forecast.
#[derive(Clone, Copy)]
pub(crate) struct Row {
    // the recast by each letter, in fixed places, since the library allocates nothing
    pub(crate) recasts: [u8; 64],
    // the letters at which the rule holds
    pub(crate) root: u64,
}
