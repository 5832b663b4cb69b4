// Going through bytes field by field.
ghost use Rattle.std.specs.Prelude.{◌≡◌, IfOk, IfNone, OnErr};
ghost use Rattle.fields.specs.Walked.{bytes_of, remaining, next, met};

use crate::piece::{Cut, Field, Fields};

impl<'a> Fields<'a> {
    pub fn new(bytes: &'a [u8]) -> Fields<'a>
        ensures bytes { bytes_of result ≡ bytes.now }
        ensures at { result.at ≡ 0 }
    {
        Fields { bytes, at: 0 }
    }

    // The next field, where there is one. Behind a field that is cut the walk does not go on, so it would be no iterator that ends.
    pub fn next(&mut self) -> Result<Option<Field<'a>>, Cut>
        ensures outcome { met self.new result ≡ next (remaining self.old) }
        ensures same { bytes_of self.new ≡ bytes_of self.old }
        ensures cut { OnErr result (self.new ≡ self.old) }
        ensures ended { IfOk result (λ field. IfNone field (self.new ≡ self.old)) }
    {
        let place = self.at;
        match self.bytes.get(place..) {
            None | Some([]) => Ok(None),
            Some([tag, high, low, behind @ ..]) => {
                let length = usize::from(u16::from_be_bytes([*high, *low]));
                let body = behind.get(..length).ok_or(Cut { place })?;
                self.at = place + 3 + length;
                Ok(Some(Field {
                    place,
                    tag: *tag,
                    body,
                }))
            }
            Some(_) => Err(Cut { place }),
        }
    }
}
