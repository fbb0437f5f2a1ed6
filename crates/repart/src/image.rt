//! The image among the words.

use rp_words::has_image;
use std::fs;
use std::os::unix::fs::MetadataExt;

// The bits of a file's mode that tell its type, and those of a block device (inode(7)).
const TYPE_BITS: u32 = 0o170_000;

const BLOCK_DEVICE: u32 = 0o060_000;

/// What the path of the image leads to, through symbolic links.
#[derive(Clone, Copy)]
pub(crate) enum Image {
    /// Nothing that can be one. A folder can be opened for reading too, and opening a pipe may wait without end.
    None,
    File,
    /// A block device of this number.
    Device(u64),
}

/// What the last word of a command that has an image leads to.
pub(crate) fn image_of(rt: &HostRuntime, words: &[String]) -> Image {
    let path = match words {
        [.., word] if has_image(words) => word.as_str(),
        _ => return Image::None,
    };
    match fs::metadata(rt, path) {
        Ok(found) if found.is_file() => Image::File,
        Ok(found) if found.mode() & TYPE_BITS == BLOCK_DEVICE => Image::Device(found.rdev()),
        _ => Image::None,
    }
}

/// Its path, empty where there is none.
pub(crate) fn path_of(words: &[String], image: Image) -> &str {
    match (words, image) {
        ([.., word], Image::File | Image::Device(_)) => word.as_str(),
        _ => "",
    }
}
