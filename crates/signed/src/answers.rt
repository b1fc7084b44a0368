// What the functions on signed words answer.

// A signed number as its sign and its distance from 0.
#[derive(Clone, Copy)]
pub struct Magnitude {
    pub negative: bool,
    pub magnitude: u32,
}
