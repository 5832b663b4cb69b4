// The names one by one.
ghost use Rattle.std.specs.Prelude.{◌≡◌, ◌≤◌, [], length, slice_index_or};
ghost use Rattle.names.specs.Listed.{spelled_names};

use crate::list::Names;
use crate::name::Name;
use few::Few;

impl Names {
    // No names.
    pub fn none() -> Names
        ensures { spelled_names result ≡ [] }
    {
        let blank = Name { bytes: Few::new(0) };
        Names {
            list: Few::new(blank),
        }
    }

    // How many names there are.
    pub fn len(&self) -> usize
        ensures value { result ≡ length (spelled_names self.now) }
        ensures few { result ≤ 6 }
    {
        self.list.len()
    }

    // The bytes of name k, none where there is no such name: no Option, since this call never failed and no name is empty.
    pub fn get(&self, k: usize) -> &[u8]
        ensures { result.now ≡ slice_index_or (spelled_names self.now) k [] }
    {
        match self.list.as_slice().get(k) {
            Some(name) => name.bytes.as_slice(),
            None => &[],
        }
    }
}
