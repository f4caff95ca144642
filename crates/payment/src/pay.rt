// Pay as two numbers: what lay there, and what goes back to the purse.
#[derive(Clone, Copy)]
pub struct Pay {
    pub laid: u64,
    pub back: u64,
}
