// The declared names. Each is well-formed, and none comes twice.
ghost use Rattle.std.specs.Prelude.{◌≡◌, true};
ghost use Rattle.names.specs.Names.{proper};
ghost use Rattle.names.specs.Spelled.{spelled_in};

use crate::name::Name;
use few::Few;

#[derive(Clone, Copy)]
pub struct Names {
    pub(crate) list: Few<Name, 6>,
    ghost sound: { proper (spelled_in list) ≡ true },
}
