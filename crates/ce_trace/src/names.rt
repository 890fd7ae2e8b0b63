//! The names that stand for numbers.
ghost use Rattle.std.specs.Prelude.{◌≡◌};
ghost use Rattle.ce_script.specs.TextParts.{image_name, user_name};

use ce_script::{Record, Script};

/// The name of an image, by number; the empty text where there is no such image.
pub(crate) fn image_name(script: &Script, image: u32) -> &[u8]
    ensures { result.now ≡ image_name script.now image }
{
    match script.images.get(image as usize) {
        Some(named_image) => named_image.name.as_str().as_bytes(),
        None => b"",
    }
}

/// The name of a user, by number; the empty text where there is no such user.
pub(crate) fn user_name(run_record: &Record, user: u32) -> &[u8]
    ensures { result.now ≡ user_name run_record.now user }
{
    match run_record.users.get(user as usize) {
        Some(user_record) => user_record.name.as_str().as_bytes(),
        None => b"",
    }
}
