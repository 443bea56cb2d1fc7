//! What a step answers.

/// The machine's reply, and the length of its list just after the step.
#[derive(Drop)]
pub struct Applied<Y> {
    pub reply: Y,
    pub front: u32,
}
