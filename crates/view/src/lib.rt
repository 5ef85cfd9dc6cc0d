// A small view of an image (02, Req 01): "Other programs walk the image through a small view that holds the image and a row number". Each function takes the view apart
// and calls the function of room contents on the slice and the number.
#![tactic(auto)]

ghost use Rattle.std.specs.Prelude.{◌≡◌};
ghost use Rattle.image.specs.Part.{row_key, row_body, row_offset, row_next, PartOf};

use message::Key;

#[derive(Clone, Copy)]
pub struct View<'a> {
    pub image: &'a [u8],
    pub row: usize,
}

impl<'a> View<'a> {
    // A view of the first row.
    pub fn first(image: &'a [u8]) -> View<'a>
        ensures { (result.image ≡ image.entry) × (result.row ≡ 0) }
    {
        View { image, row: 0 }
    }

    // The key of the row; all 0 where the image is damaged or has no such row.
    pub fn key(self) -> Key
        ensures { result ≡ row_key self.entry.image.now self.entry.row }
    {
        contents::row_key(self.image, self.row)
    }

    // The body of the row, as a part of the image; an empty part where the image is damaged or has no such row.
    pub fn body(self) -> &'a [u8]
        ensures { PartOf self.entry.image result (row_offset self.entry.image.now self.entry.row) (row_body self.entry.image.now self.entry.row) }
    {
        contents::row_body(self.image, self.row)
    }

    // A view of the row after it; behind the last row the view stays.
    pub fn next(self) -> View<'a>
        ensures { (result.image ≡ self.entry.image) × (result.row ≡ row_next self.entry.image.now self.entry.row) }
    {
        View {
            image: self.image,
            row: contents::row_next(self.image, self.row),
        }
    }
}
