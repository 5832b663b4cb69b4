// The pieces that bytes fall into.
#[derive(Clone, Copy, Debug, PartialEq, Eq)]
pub struct Field<'a> {
    // the place of its tag
    pub place: usize,
    pub tag: u8,
    pub body: &'a [u8],
}

// A field runs past the end of the bytes; the place is that of its tag.
#[derive(Clone, Copy, Debug, PartialEq, Eq)]
pub struct Cut {
    pub place: usize,
}

// Bytes, read up to a place.
#[derive(Clone, Copy, Debug)]
pub struct Fields<'a> {
    pub bytes: &'a [u8],
    pub at: usize,
}
