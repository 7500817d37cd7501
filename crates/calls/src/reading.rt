use unit::pulse::Pulse;

// What a job tells of one unit.
#[derive(Clone, Copy, PartialEq, Eq, Debug)]
pub struct Reading {
    pub ticks: u32,
    pub position: i64,
    pub residue: i64,
    pub weight: i64,
    pub net: i64,
    pub work: i64,
    pub line: Pulse,
}
