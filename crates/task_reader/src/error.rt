/// Why a program was not read.
#[derive(Debug, Drop)]
pub enum ReadError {
    /// The first fault: its cause from 1 to 11, its line, and its word in that line, both counted
    /// from 1.
    Fault { cause: u8, line: u32, word: u32 },
    /// Want of memory.
    Memory,
}
