// Declaring names, and finding them again.
ghost use Rattle.std.specs.Prelude.{◌≡◌, ◌≤◌, false, ◌↔◌, length, is_ok, IsOk, IfOk};
ghost use Rattle.std.specs.List.{position_from};
ghost use Rattle.std.specs.Str.{bytes_eq};
ghost use Rattle.refusal.specs.Answers.{answer};
ghost use Rattle.names.specs.Names.{declared};
ghost use Rattle.names.specs.Spelled.{spelled};
ghost use Rattle.names.specs.Listed.{spelled_names};

use crate::list::Names;
use crate::name::Name;
use crate::spelling::{is_same, is_well_formed};
use few::{Few, Full};
use refusal::{Cause, Layer, Refusal};

impl Name {
    // A word of at most 8 bytes as a name: no `TryFrom`, since not every such word may be declared.
    fn of(word: &[u8]) -> Result<Name, Full>
        ensures room { IsOk result ↔ (length word.now ≤ 8) }
        ensures bytes { IfOk result (λ name. spelled name ≡ word.now) }
    {
        let mut bytes = Few::new(0);
        bytes.extend(word)?;
        Ok(Name { bytes })
    }

    fn spells(&self, word: &[u8]) -> bool
        ensures { result ≡ bytes_eq word.now (spelled self.now) }
    {
        is_same(word, self.bytes.as_slice())
    }
}

impl Names {
    // The number of a name, where it is declared.
    pub fn find(&self, word: &[u8]) -> Option<usize>
        ensures { result ≡ position_from (bytes_eq word.now) 0 (spelled_names self.now) }
    {
        self.list
            .as_slice()
            .iter()
            .position(|name| name.spells(word))
    }

    // One name more, behind the others; refused, nothing changes.
    pub fn declare(&mut self, word: &[u8]) -> Result<(), Refusal>
        ensures outcome { answer (λ _. spelled_names self.new) result ≡ declared (spelled_names self.old) word.now }
        ensures kept { is_ok result ≡ false → self.new ≡ self.old }
    {
        let at = self.len();
        if at >= 6 {
            return Err(Refusal::new(Cause::ExcessName, Layer::Names, 6));
        }
        if !is_well_formed(word) {
            return Err(Refusal::new(Cause::MalformedName, Layer::Names, at));
        }
        if self.find(word).is_some() {
            return Err(Refusal::new(Cause::RepeatedName, Layer::Names, at));
        }
        self.list.push(Name::of(word).unwrap()).unwrap();
        Ok(())
    }
}
