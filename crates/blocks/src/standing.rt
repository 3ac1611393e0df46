use crate::block::Block;

// What stands on a sheet for a rule: its block, which holds the profiles that break the rule.
#[derive(Clone, Copy)]
pub struct Standing {
    pub block: Block,
}
