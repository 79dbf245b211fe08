//! What holds of all files and images; the functions do nothing, and their contracts are the laws.
ghost use Rattle.elf_image.specs.Laws.{ImageOrRefused, OneImage, WrittenIsImage};

/// No bytes are an image of two fields.
pub fn one_image()
    ensures { OneImage }
{}

/// What is written of fields that fit is an image of these fields.
pub fn written_is_image()
    ensures { WrittenIsImage }
{}

/// Any bytes are an image or are refused, and none are both.
pub fn image_or_refused()
    ensures { ImageOrRefused }
{}
