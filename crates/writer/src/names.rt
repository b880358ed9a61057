// The names defined so far.
ghost use Rattle.std.specs.Prelude.{◌≡◌, ◌≤◌, false, length};
ghost use Rattle.std.specs.List.{list_any};
ghost use Rattle.std.specs.Str.{bytes_eq};
ghost use Rattle.writer.specs.Names.{letters, known, is_known, with_name, is_one_too_many};

use crate::types::{Name, Names};

// Whether one of these names has these characters.
fn is_among(names: &[Name], name: &[u8]) -> bool
    ensures { result ≡ list_any (λ m. bytes_eq (letters m) name.now) names.now }
{
    names.iter().any(|own| own.as_slice() == name)
}

impl Names {
    // Whether a name is known.
    fn has(&self, name: &[u8]) -> bool
        ensures { result ≡ is_known name.now (known self.now) }
    {
        is_among(self.each.as_slice(), name)
    }

    // Whether a name is new where 32 are known.
    pub(crate) fn is_one_too_many(&self, name: &[u8]) -> bool
        ensures { result ≡ is_one_too_many (known self.now) name.now }
    {
        self.each.is_full() && !self.has(name)
    }

    // Knows one name more, or still the same.
    pub(crate) fn add(&mut self, name: &[u8])
        requires short { length name.now ≤ 8 }
        requires room { is_one_too_many (known self.old) name.now ≡ false }
        ensures { known self.new ≡ with_name (known self.old) name.now }
    {
        if !self.has(name) {
            self.each.push(Name::try_from(name).unwrap());
        }
    }
}
