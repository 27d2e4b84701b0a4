//! The text of an image, as it is held.
ghost use Rattle.std.specs.Prelude.{◌≡◌, IfOk, length};
ghost use Rattle.row_images.specs.Held.{HasText, image_bytes, image_values};

use crate::short_text::ShortText;
use std::alloc::{AllocError, Global};
use std::sync::{Arc, ArcSlice};

/// The text of an image, with the number of its values. A short one is in one block with the count of its owners.
#[derive(Drop)]
pub(crate) enum ImageText {
    Small(u32, Arc<ShortText<47>>),
    Short(u32, Arc<ShortText<95>>),
    Long(u32, ArcSlice<u8>),
}

impl ImageText {
    /// A copy of this text, which has `values` values.
    pub(crate) fn of(alloc: Global, text: &[u8], values: usize) -> Result<ImageText, AllocError>
        ensures { IfOk result (λ it. HasText it text.now values) }
    {
        // (a text of more values takes 8 GB: the answer is out of memory)
        if values > 4_294_967_295 {
            return Err(AllocError);
        }
        let count = values as u32;
        if let Some(small) = ShortText::<47>::from_slice(text) {
            return Ok(ImageText::Small(count, Arc::new(alloc, small)?));
        }
        if let Some(short) = ShortText::<95>::from_slice(text) {
            return Ok(ImageText::Short(count, Arc::new(alloc, short)?));
        }
        Ok(ImageText::Long(count, ArcSlice::from_slice(alloc, text)?))
    }

    /// The text.
    pub(crate) fn as_slice(&self) -> &[u8]
        ensures value { result.now ≡ image_bytes self.now }
        ensures len { length result.now ≡ length (image_bytes self.now) }
    {
        match self {
            ImageText::Small(_, text) => text.as_slice(),
            ImageText::Short(_, text) => text.as_slice(),
            ImageText::Long(_, text) => text.as_slice(),
        }
    }

    /// How many values it has.
    pub(crate) fn values(&self) -> usize
        ensures { result ≡ image_values self.now }
    {
        match self {
            ImageText::Small(count, _) => *count as usize,
            ImageText::Short(count, _) => *count as usize,
            ImageText::Long(count, _) => *count as usize,
        }
    }

    /// The same text, which is shared.
    pub(crate) fn share(&self) -> Result<ImageText, AllocError>
        ensures { IfOk result (λ it. HasText it (image_bytes self.now) (image_values self.now)) }
    {
        match self {
            ImageText::Small(count, text) => Ok(ImageText::Small(*count, text.clone()?)),
            ImageText::Short(count, text) => Ok(ImageText::Short(*count, text.clone()?)),
            ImageText::Long(count, text) => Ok(ImageText::Long(*count, text.clone()?)),
        }
    }
}
