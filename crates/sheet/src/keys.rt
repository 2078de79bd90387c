// What edge records are compared by: where one begins, how many bytes it has, and its first and its last bytes as two numbers. These hold every byte of
// a record of up to sixteen.
#[derive(Clone, Copy, Default)]
pub struct Key {
    pub at: usize,
    pub length: usize,
    pub front: u64,
    pub back: u64,
}
