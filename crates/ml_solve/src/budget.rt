//! Budgets.

/// The inferences that a session has left. All its goals share them.
#[derive(Drop)]
pub struct Budget {
    pub left: u32,
}
