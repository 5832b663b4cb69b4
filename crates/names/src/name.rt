// One name, by its bytes.

use few::Few;

#[derive(Clone, Copy)]
pub struct Name {
    pub bytes: Few<u8, 8>,
}
