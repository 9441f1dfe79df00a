//! Comparing keys.

ghost use Rattle.std.specs.Prelude.{◌≡◌, Decides};
ghost use Rattle.std.specs.Cmp.{decided, partial_equiv_from_equiv};
ghost use Rattle.keys.specs.Keys.{same_key};
ghost use Rattle.keys.specs.SameKeys.{same_key_decides};

use super::Key;

// by hand, since a derived `==` would not say at each call that it tells equal from unequal
impl PartialEq for Key {
    ghost eq = { same_key };

    ghost laws = { partial_equiv_from_equiv (decided same_key same_key_decides) };

    fn eq(&self, other: &Key) -> bool
        ensures value { result ≡ same_key self.now other.now }
        ensures equal { Decides result (self.now ≡ other.now) }
    {
        // word by word: `==` of arrays takes nearly twice as long
        self.words[0] == other.words[0]
            && self.words[1] == other.words[1]
            && self.words[2] == other.words[2]
            && self.words[3] == other.words[3]
            && self.count == other.count
    }
}

impl Eq for Key {
    ghost laws = { decided same_key same_key_decides };
}
