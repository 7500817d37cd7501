// How many digits each figure of a frame has, from the left.
pub const COUNT: [usize; 1] = [2];

pub const INTEGRATOR: [usize; 6] = [2, 2, 8, 8, 2, 2];

pub const SERVO: [usize; 5] = [2, 8, 8, 2, 2];

pub const TAP: [usize; 3] = [2, 2, 2];

pub const LAST: [usize; 2] = [6, 6];
