// A sheet that has been read, and its rounds.
use fields::Fields;
use rule::Rule;

// Its rule, and the place of its first round's field, or its end. It keeps a place and not the bytes, so that it can outlive them.
#[derive(Clone, Copy)]
pub struct Sheet {
    pub rule: Rule,
    pub rounds: usize,
}

// The rounds that are still to come.
#[derive(Clone, Copy, Debug)]
pub struct Rounds<'a> {
    pub fields: Fields<'a>,
}
