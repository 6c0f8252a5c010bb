// How many runs end in each of the three ways.
#[derive(Clone, Copy)]
pub struct Tally {
    pub quiet: u32,
    // Unquiet, with some hold-back left.
    pub held: u32,
    // Unquiet, with none.
    pub free: u32,
}
