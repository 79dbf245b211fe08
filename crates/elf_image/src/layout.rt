//! The header's fixed fields, and where the parts of a file begin.
ghost use Rattle.std.specs.Prelude.{◌≡◌, ◌<◌, ◌^◌, ◌≤◌};
ghost use Rattle.elf_image.specs.Layout.{data_at, windows_at, aliases_at, names_at, sections_at};

/// How many words of text, initial words, words of memory, windows and aliases an image has.
#[derive(Clone, Copy, Debug)]
pub(crate) struct Sizes {
    pub(crate) text: u32,
    pub(crate) initial: u32,
    pub(crate) memory_words: u32,
    pub(crate) windows: u32,
    pub(crate) aliases: u32,
}

/// Where the initial words begin.
pub(crate) fn data_at(sizes: Sizes) -> u32
    requires { sizes.text ≤ 66060288 }
    ensures { result ≡ data_at sizes }
{
    (4096 + 4 * sizes.text + 4095) / 4096 * 4096
}

/// Where the windows begin.
pub(crate) fn windows_at(sizes: Sizes) -> u32
    requires text { sizes.text ≤ 66060288 }
    requires initial { sizes.initial ≤ 4194304 }
    ensures { result ≡ windows_at sizes }
{
    data_at(sizes) + 4 * sizes.initial
}

/// Where the aliases begin.
pub(crate) fn aliases_at(sizes: Sizes) -> u32
    requires text { sizes.text ≤ 66060288 }
    requires initial { sizes.initial ≤ 4194304 }
    requires reach { aliases_at sizes < 2 ^ 32 }
    ensures { result ≡ aliases_at sizes }
{
    windows_at(sizes) + 8 * sizes.windows
}

/// Where the names of the sections begin.
pub(crate) fn names_at(sizes: Sizes) -> u32
    requires text { sizes.text ≤ 66060288 }
    requires initial { sizes.initial ≤ 4194304 }
    requires reach { names_at sizes < 2 ^ 32 }
    ensures { result ≡ names_at sizes }
{
    aliases_at(sizes) + 8 * sizes.aliases
}

/// Where the table of sections begins.
pub(crate) fn sections_at(sizes: Sizes) -> u32
    requires text { sizes.text ≤ 66060288 }
    requires initial { sizes.initial ≤ 4194304 }
    requires reach { sections_at sizes < 2 ^ 32 }
    ensures { result ≡ sections_at sizes }
{
    names_at(sizes) + 52
}

/// A field of the header: its offset, its size in bytes (1, 2 or 4), and its value.
#[derive(Clone, Copy, Debug)]
pub(crate) struct Field {
    pub(crate) at: u8,
    pub(crate) size: u8,
    pub(crate) value: u32,
}

/// The fields of the ELF header that have one value in every image, but for the magic number and the machine: class,
/// data, version and padding of `e_ident`, then type, version, place of the segments, flags, and sizes and counts.
pub(crate) const HEADER: [Field; 22] = [
    Field {
        at: 4,
        size: 1,
        value: 1,
    },
    Field {
        at: 5,
        size: 1,
        value: 2,
    },
    Field {
        at: 6,
        size: 1,
        value: 1,
    },
    Field {
        at: 7,
        size: 1,
        value: 0,
    },
    Field {
        at: 8,
        size: 1,
        value: 0,
    },
    Field {
        at: 9,
        size: 1,
        value: 0,
    },
    Field {
        at: 10,
        size: 1,
        value: 0,
    },
    Field {
        at: 11,
        size: 1,
        value: 0,
    },
    Field {
        at: 12,
        size: 1,
        value: 0,
    },
    Field {
        at: 13,
        size: 1,
        value: 0,
    },
    Field {
        at: 14,
        size: 1,
        value: 0,
    },
    Field {
        at: 15,
        size: 1,
        value: 0,
    },
    Field {
        at: 16,
        size: 2,
        value: 2,
    },
    Field {
        at: 20,
        size: 4,
        value: 1,
    },
    Field {
        at: 28,
        size: 4,
        value: 52,
    },
    Field {
        at: 36,
        size: 4,
        value: 1,
    },
    Field {
        at: 40,
        size: 2,
        value: 52,
    },
    Field {
        at: 42,
        size: 2,
        value: 32,
    },
    Field {
        at: 44,
        size: 2,
        value: 2,
    },
    Field {
        at: 46,
        size: 2,
        value: 40,
    },
    Field {
        at: 48,
        size: 2,
        value: 6,
    },
    Field {
        at: 50,
        size: 2,
        value: 5,
    },
];
