// What a step answers.

// The position asked for, and the way there from the present one.
#[derive(Clone, Copy)]
pub struct Motion {
    pub target: u32,
    pub way: i32,
}
