//! The addresses at which a program's text and memory begin, and the greatest sizes.

/// The address of the first word of text.
pub const TEXT_START: u32 = 0x0040_0000;

/// The address of the first word of memory.
pub const MEMORY_START: u32 = 0x1001_0000;

/// The greatest number of words of text.
pub const MOST_TEXT: u32 = 66_060_288;

/// The greatest number of words of memory.
pub const MOST_MEMORY: u32 = 4_194_304;

/// The greatest number of bytes of a file that holds an image.
pub const LONGEST_FILE: u64 = 3_221_225_472;
